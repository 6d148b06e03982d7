//! Real files that a snapshot is made in.
ghost use Rattle.std.specs.Prelude.{⊤};

use crate::making::NewSnapshot;
use batch_store::{BookList, Setup};
use snap_file::{Origin, PathLock, SaveFault, UNFINISHED, clear, folder_of, save};
use std::alloc::Global;
use std::fs::{self, File, OpenFile};
use std::io;
use std::rt::Files;

/// The file that is to be made under a path.
#[derive(Drop)]
pub struct NewFile<'a, R: Files> {
    rt: &'a R,
    path: &'a str,
}

impl<'a, R: Files> NewFile<'a, R> {
    /// The file under this path, where nothing may be yet.
    pub fn new(rt: &'a R, path: &'a str) -> NewFile<'a, R> {
        NewFile { rt, path }
    }

    /// Whether something has its name already.
    pub fn is_taken(&self) -> bool {
        fs::symlink_metadata(self.rt, self.path).is_ok()
    }
}

// Gives a file a second name, which nothing may have, takes the first one away, and syncs the folder.
fn link_synced<R: Files>(rt: &R, from: &str, to: &str) -> io::Result<()> {
    let folder = fs::open(rt, folder_of(to))?;
    fs::hard_link(rt, from, to)?;
    clear(rt, from)?;
    folder.sync_all()
}

impl<'a, R: Files> NewSnapshot for NewFile<'a, R> {
    ghost make_gives = { λ s origin setup a answer t. ⊤ };

    /// Saves the snapshot under the path with `UNFINISHED` after it, and links it to the path: a link replaces nothing.
    fn make(
        &mut self,
        alloc: Global,
        origin: Origin,
        setup: &Setup,
        list: &BookList,
    ) -> Result<(), SaveFault> {
        let path = self.path;
        let Ok(name) = format!(in alloc; "{path}{UNFINISHED}") else {
            return Err(SaveFault::Memory);
        };
        save(self.rt, alloc, name.as_str(), origin, setup, list)?;
        match link_synced(self.rt, name.as_str(), path) {
            Ok(()) => Ok(()),
            Err(_) => {
                let _ = clear(self.rt, name.as_str());
                Err(SaveFault::Rename)
            }
        }
    }
}

/// The file under a path, or one that is to be there, which the snapshot that is made replaces. The locks of the path
/// and of the log beside it are held to the end of the making, at most for as long as this lives.
#[derive(Drop)]
pub struct ReplacedFile<'a, R: Files<File = File>> {
    rt: &'a R,
    path: &'a str,
    locks: Option<(PathLock, PathLock)>,
}

impl<'a, R: Files<File = File>> ReplacedFile<'a, R> {
    /// The file under this path, and the locks of both where they could be had.
    pub fn new(
        rt: &'a R,
        path: &'a str,
        locks: Option<(PathLock, PathLock)>,
    ) -> ReplacedFile<'a, R> {
        ReplacedFile { rt, path, locks }
    }
}

impl<'a, R: Files<File = File>> NewSnapshot for ReplacedFile<'a, R> {
    ghost make_gives = { λ s origin setup a answer t. ⊤ };

    /// Saves the snapshot under the path, `Create` where the locks aren't held, and gives them back.
    fn make(
        &mut self,
        alloc: Global,
        origin: Origin,
        setup: &Setup,
        list: &BookList,
    ) -> Result<(), SaveFault> {
        // Not held while output is written: where that is closed, a lock's file may have its number.
        let Some(_locks) = self.locks.take() else {
            return Err(SaveFault::Create);
        };
        save(self.rt, alloc, self.path, origin, setup, list)
    }
}
