//! Whom a snapshot's file belongs to and who may read it: a new file gets both from the one whose place it takes.

use crate::fault::SaveFault;
use std::fs::{self, Metadata, OpenFile, OpenOptions, Permissions};
use std::io;
use std::os::unix::fs::{MetadataExt, OpenOptionsExt, PermissionsExt, lchown};
use std::rt::Files;

/// What all may do, and what the owner may.
const ALL: u32 = 0o777;

const OWNER: u32 = 0o700;

/// The owner, the group, and what the owner, the group and all others may do.
#[derive(Clone, Copy)]
pub struct Access {
    owner: u32,
    group: u32,
    mode: u32,
}

impl Access {
    fn of(file: &Metadata) -> Access {
        Access {
            owner: file.uid(),
            group: file.gid(),
            mode: file.mode() & ALL,
        }
    }

    // The mode for a file of another group, which gets no more than all others have.
    fn mode_without_group(&self) -> u32 {
        self.mode & (self.mode << 3 | !0o070)
    }

    // Gives a new file the group, the mode and the owner. The owner comes last: whoever gave a file away may not set
    // its mode any more.
    fn give<R: Files>(&self, rt: &R, name: &str, file: &R::File) -> io::Result<()> {
        let made = Access::of(&file.metadata()?);
        let has_group = made.group == self.group
            || lchown(rt, name, None, Some(self.group)).is_ok();
        let mode = if has_group {
            self.mode
        } else {
            self.mode_without_group()
        };
        if made.mode != mode {
            file.set_permissions(Permissions::from_mode(mode))?;
        }
        if made.owner != self.owner {
            let _given = lchown(rt, name, Some(self.owner), None);
        }
        Ok(())
    }
}

/// What a file that takes the place of the one under `path` gets from it; None where there is none. A link is followed,
/// as for reading.
pub fn access_under<R: Files>(rt: &R, path: &str) -> Result<Option<Access>, SaveFault> {
    match fs::metadata(rt, path) {
        Ok(file) if file.is_file() => Ok(Some(Access::of(&file))),
        // The rename refuses it.
        Ok(other) if other.is_dir() => Ok(None),
        Err(error) if error.kind() == io::ErrorKind::NotFound => Ok(None),
        _ => Err(SaveFault::Create),
    }
}

/// Removes what stands under a name, a folder excepted, and of a link the link alone.
pub fn clear<R: Files>(rt: &R, name: &str) -> io::Result<()> {
    match fs::remove_file(rt, name) {
        Err(error) if error.kind() != io::ErrorKind::NotFound => Err(error),
        _ => Ok(()),
    }
}

/// Makes a new file, which nobody else has open, in the place of what stands under `name`, a folder excepted, and opens
/// it to read and to write.
///
/// Where `access` is given, only its owner may use the file until it has the right group.
pub fn make_file<R: Files>(rt: &R, name: &str, access: Option<Access>) -> io::Result<R::File> {
    clear(rt, name)?;
    let file = make_new(rt, name, access)?;
    if let Some(access) = access {
        if let Err(error) = access.give(rt, name, &file) {
            let _ = clear(rt, name);
            return Err(error);
        }
    }
    Ok(file)
}

// Makes a file where nothing stands, which has no more than the owner's part of what it is to get.
fn make_new<R: Files>(rt: &R, name: &str, access: Option<Access>) -> io::Result<R::File> {
    let mut options = OpenOptions::new();
    options.read(true).write(true).create_new(true);
    if let Some(access) = access {
        options.mode(access.mode & OWNER);
    }
    options.open(rt, name)
}

/// Makes a file where nothing stands, that is to stay; where the system doesn't let it have all of `access`, it has
/// less.
pub fn make_beside<R: Files>(rt: &R, name: &str, access: Option<Access>) -> io::Result<R::File> {
    let file = make_new(rt, name, access)?;
    if let Some(access) = access {
        let _given = access.give(rt, name, &file);
    }
    Ok(file)
}
