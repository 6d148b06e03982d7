//! The real folder in which a matrix and its labels are saved.
ghost use Rattle.std.specs.Prelude.{◌≡◌, ◌+◌, ◌<◌, ◌^◌, None, string_bytes, IfOk, OnOk, ⊤};
ghost use Rattle.std.proofs.Common.{◌∙◌};
ghost use Rattle.snap_export.specs.Files.{created_name};

use crate::saving::UNFINISHED;
use byte_io::DeviceFault;
use file_folder::Folder;
use snap_file::{clear, make_file};
use std::alloc::{AllocError, Global};
use std::fs::{self, OpenFile};
use std::io::{self, Write};
use std::rt::Files;

/// The bytes of the longest name of a file.
const LONGEST_NAME: usize = 14;

/// The folder under a path. Where nothing stands there it is made with the first file. It doesn't tell its files.
///
/// A rename is done once the folder is synced. Where that fails, the file has its new name already.
#[derive(Drop)]
pub struct NamedFolder<'a, R: Files> {
    rt: &'a R,
    path: &'a str,
    // Whether the folder itself was made here.
    is_made: bool,
    // The file last created, if there is one, and its name.
    file: Option<R::File>,
    is_created: bool,
    name: String,
    // Paths of files, with room for the longest.
    from: String,
    to: String,
    failures: u64,
}

// Makes a text of this one.
fn set_text(text: &mut String, part: &str) -> io::Result<()>
    ensures { OnOk result (string_bytes text.new ≡ part.now) }
{
    text.clear();
    match text.push_str(part) {
        Ok(()) => Ok(()),
        Err(_) => Err(io::Error::from(io::ErrorKind::OutOfMemory)),
    }
}

// Makes a text the path of the file of this name in a folder.
fn set_path(text: &mut String, folder: &str, name: &str) -> io::Result<()> {
    set_text(text, folder)?;
    match text.push_str("/").and_then(|()| text.push_str(name)) {
        Ok(()) => Ok(()),
        Err(_) => Err(io::Error::from(io::ErrorKind::OutOfMemory)),
    }
}

impl<'a, R: Files> NamedFolder<'a, R> {
    /// The folder under this path, which may be there or not. The memory for all paths is taken here.
    pub fn new(rt: &'a R, alloc: Global, path: &'a str) -> Result<NamedFolder<'a, R>, AllocError>
        ensures { IfOk result (λ folder. folder.failures ≡ 0) }
    {
        let room = path.len().saturating_add(1 + LONGEST_NAME);
        Ok(NamedFolder {
            rt,
            path,
            is_made: false,
            file: None,
            is_created: false,
            name: String::with_capacity(alloc, LONGEST_NAME)?,
            from: String::with_capacity(alloc, room)?,
            to: String::with_capacity(alloc, room)?,
            failures: 0,
        })
    }

    /// Removes what a save that failed has left: the files that have no name yet, and the folder, if it was made here
    /// and nothing else is in it. What can't be removed stays.
    pub fn remove_unfinished(&mut self) {
        self.file = None;
        for name in UNFINISHED {
            if set_path(&mut self.from, self.path, name).is_ok() {
                let _ = clear(self.rt, self.from.as_str());
            }
        }
        if self.is_made {
            let _ = fs::remove_dir(self.rt, self.path);
        }
    }

    // Makes the folder, where nothing stands under its path.
    fn make_folder(&mut self) -> io::Result<()>
        ensures { self.new.failures ≡ self.old.failures }
    {
        match fs::create_dir(self.rt, self.path) {
            Ok(()) => {
                self.is_made = true;
                Ok(())
            }
            Err(error) if error.kind() == io::ErrorKind::AlreadyExists => Ok(()),
            Err(error) => Err(error),
        }
    }

    // Makes the file of this name anew, and keeps the name.
    fn make(&mut self, name: &str) -> io::Result<R::File>
        ensures failures { self.new.failures ≡ self.old.failures }
        ensures name { OnOk result (string_bytes self.new.name ≡ name.now) }
    {
        self.make_folder()?;
        set_path(&mut self.from, self.path, name)?;
        set_text(&mut self.name, name)?;
        make_file(self.rt, self.from.as_str(), None)
    }

    // Gives a file another name, and brings that to where it outlasts a crash. Nothing is renamed where the folder
    // can't be opened.
    fn rename_synced(&mut self, from: &str, to: &str) -> io::Result<()>
        ensures failures { self.new.failures ≡ self.old.failures }
        ensures name { self.new.name ≡ self.old.name }
        ensures created { self.new.is_created ≡ self.old.is_created }
    {
        set_path(&mut self.from, self.path, from)?;
        set_path(&mut self.to, self.path, to)?;
        let folder = fs::open(self.rt, self.path)?;
        fs::rename(self.rt, self.from.as_str(), self.to.as_str())?;
        folder.sync_all()
    }

    // Counts a call that fails.
    fn fail(&mut self) -> DeviceFault
        requires { self.old.failures + 1 < 2 ^ 64 }
        ensures { self.new ≡ record self.old { failures = self.old.failures + 1 } }
    {
        self.failures += 1;
        DeviceFault
    }
}

impl<'a, R: Files> Folder for NamedFolder<'a, R> {
    ghost files = { λ _. None };

    ghost last_created = { λ s. created_name s.is_created (string_bytes s.name) };

    ghost write_takes = { λ s offered answer t.
        created_name t.is_created (string_bytes t.name) ≡ created_name s.is_created (string_bytes s.name) };

    ghost call_gives = { λ s call answer t. ⊤ };

    ghost failure_count = { λ s. s.failures };

    ghost write_appends = { λ s t offered answer name same created. (same ∙ created, tt) };

    /// Removes what stands under the name, a folder excepted, and makes the file anew.
    fn create(&mut self, name: &str) -> Result<(), DeviceFault> {
        self.file = None;
        match self.make(name) {
            Ok(file) => {
                self.file = Some(file);
                self.is_created = true;
                Ok(())
            }
            Err(_) => {
                self.is_created = false;
                Err(self.fail())
            }
        }
    }

    fn write(&mut self, buf: &[u8]) -> Result<usize, DeviceFault> {
        let Some(file) = &mut self.file else {
            return Err(self.fail());
        };
        match file.write(buf) {
            Ok(count) => Ok(count),
            Err(_) => Err(self.fail()),
        }
    }

    fn sync(&mut self) -> Result<(), DeviceFault> {
        let Some(file) = &self.file else {
            return Err(self.fail());
        };
        match file.sync_all() {
            Ok(()) => Ok(()),
            Err(_) => Err(self.fail()),
        }
    }

    /// Closes the file, renames it, and syncs the folder. Of the file and the folder one is open at a time.
    fn rename(&mut self, from: &str, to: &str) -> Result<(), DeviceFault> {
        self.file = None;
        if self.rename_synced(from, to).is_err() {
            return Err(self.fail());
        }
        self.is_created = false;
        Ok(())
    }

    fn failures(&self) -> u64 {
        self.failures
    }
}
