//! The real folder of a file, as a save of that file sees it.
ghost use Rattle.std.specs.Prelude.{◌≡◌, ◌⊎◌, ◌+◌, ◌<◌, ◌^◌, None, IsTrue, IfOk, IfErr, OnOk};
ghost use Rattle.std.proofs.Common.{◌∙◌};
ghost use Rattle.snap_file.specs.Saving.{unfinished, beside};
ghost use Rattle.snap_file.specs.System.{CallOf, IsRenamed, WriteOf, make};
ghost use Rattle.snap_file.specs.declared.fault.SaveFault.{SaveFault};

use crate::fault::SaveFault;
use crate::saving::UNFINISHED;
use crate::system::{FileSystem, RealFiles};
use byte_io::DeviceFault;
use file_folder::Folder;
use std::alloc::Global;
use std::io;
use std::path::Path;
use std::rt::Files;

/// The folder of the file under a path. It makes the one file that is to take that one's place, whose name has
/// `UNFINISHED` behind it, and gives it the other's mode and owner. It doesn't tell its files.
///
/// A rename is done once the folder is synced. Where that fails, the file has its new name already.
#[derive(Drop)]
pub struct Beside<'a, S: FileSystem> {
    system: S,
    path: &'a str,
    // Whether the file is made, and has its first name.
    is_made: bool,
    file: Option<S::File>,
    // The system's number of the error by which a call failed last.
    error: Option<i32>,
    failures: u64,
}

/// Whether a name is the path with `UNFINISHED` behind it.
fn is_unfinished(name: &str, path: &str) -> bool
    ensures { IsTrue result → name.now ≡ unfinished path.now }
{
    match name.as_bytes().strip_prefix(path.as_bytes()) {
        Some(end) => end == UNFINISHED.as_bytes(),
        None => false,
    }
}

/// Makes the file of this name, if it is to take the place of the one under the path.
fn made_beside<S: FileSystem>(system: &mut S, path: &str, name: &str) -> io::Result<S::File>
    ensures name { IfOk result (λ _. name.now ≡ unfinished path.now) }
    ensures made { OnOk result (S.did system.old (make name.now) system.new) }
{
    if !is_unfinished(name, path) {
        return Err(io::Error::from(io::ErrorKind::Other));
    }
    system.make(path, name)
}

/// The folder that a path's file is in.
pub fn folder_of(path: &str) -> &str {
    match Path::new(path).parent() {
        Some(folder) if !folder.as_str().is_empty() => folder.as_str(),
        _ => ".",
    }
}

/// Gives a file another name in its folder, and brings that to where it outlasts a crash. Nothing is renamed where the
/// folder can't be opened.
fn rename_synced<S: FileSystem>(system: &mut S, from: &str, to: &str) -> io::Result<()>
    ensures { OnOk result (IsRenamed S.did system.old from.now to.now system.new) }
{
    let folder = system.open_folder(folder_of(to))?;
    system.rename(from, to)?;
    system.sync_folder(&folder)
}

/// Makes the new file of a save, syncs its folder, and removes it.
fn make_and_remove<S: FileSystem>(system: &mut S, path: &str, name: &str) -> io::Result<()> {
    drop(system.make(path, name)?);
    let synced = sync_folder_of(system, path);
    system.remove(name)?;
    synced
}

/// Syncs the folder of a path's file.
fn sync_folder_of<S: FileSystem>(system: &mut S, path: &str) -> io::Result<()> {
    let opened = system.open_folder(folder_of(path))?;
    system.sync_folder(&opened)
}

/// Tries whether a save under `path` could make its file: makes one there as a save does, syncs the folder, and removes
/// the file.
///
/// # Errors
///
/// `Memory` for the name, and `Create` where one of these steps failed.
pub fn try_save<R: Files>(rt: &R, alloc: Global, path: &str) -> Result<(), SaveFault>
    ensures { IfErr result (λ f. (f ≡ SaveFault.Memory) ⊎ (f ≡ SaveFault.Create)) }
{
    let Ok(name) = format!(in alloc; "{path}{UNFINISHED}") else {
        return Err(SaveFault::Memory);
    };
    match make_and_remove(&mut RealFiles::new(rt), path, name.as_str()) {
        Ok(()) => Ok(()),
        Err(_) => Err(SaveFault::Create),
    }
}

impl<'a, S: FileSystem> Beside<'a, S> {
    /// The folder of the file under this path.
    pub fn new(system: S, path: &'a str) -> Beside<'a, S>
        ensures failures { result.failures ≡ 0 }
        ensures system { result.system ≡ system }
    {
        Beside {
            system,
            path,
            is_made: false,
            file: None,
            error: None,
            failures: 0,
        }
    }

    /// Removes the file that it made, which a save that failed has left, so that it takes no room. Where that fails, or
    /// there is no memory for its name, it stays until the next save.
    pub fn remove_made(&mut self, alloc: Global) {
        if !self.is_made {
            return;
        }
        let path = self.path;
        if let Ok(name) = format!(in alloc; "{path}{UNFINISHED}") {
            let _ = self.system.remove(name.as_str());
        }
    }

    /// The system's number of the error by which a call failed last, if it had one.
    pub fn error(&self) -> Option<i32> {
        self.error
    }

    /// Counts a call that fails.
    fn fail(&mut self) -> DeviceFault
        requires { self.old.failures + 1 < 2 ^ 64 }
        ensures { self.new ≡ record self.old { failures = self.old.failures + 1 } }
    {
        self.failures += 1;
        DeviceFault
    }
}

impl<'a, S: FileSystem> Folder for Beside<'a, S> {
    ghost files = { λ _. None };

    ghost last_created = { λ s. beside s.is_made s.path.now };

    ghost write_takes = { λ s offered answer t. (beside t.is_made t.path.now ≡ beside s.is_made s.path.now)
        × WriteOf S.did s.system answer t.system };

    ghost call_gives = { λ s call answer t. CallOf S.did s.system call answer t.system };

    ghost failure_count = { λ s. s.failures };

    ghost write_appends = { λ s t offered answer name took created. (took.0 ∙ created, tt) };

    /// Removes what stands under the name, a folder excepted, and makes the file anew.
    fn create(&mut self, name: &str) -> Result<(), DeviceFault> {
        match made_beside(&mut self.system, self.path, name) {
            Ok(file) => {
                self.file = Some(file);
                self.is_made = true;
                Ok(())
            }
            Err(error) => {
                self.file = None;
                self.is_made = false;
                self.error = error.raw_os_error();
                Err(self.fail())
            }
        }
    }

    fn write(&mut self, buf: &[u8]) -> Result<usize, DeviceFault> {
        let Some(file) = &mut self.file else {
            return Err(self.fail());
        };
        match self.system.write(file, buf) {
            Ok(count) => Ok(count),
            Err(error) => {
                self.error = error.raw_os_error();
                Err(self.fail())
            }
        }
    }

    fn sync(&mut self) -> Result<(), DeviceFault> {
        let Some(file) = &self.file else {
            return Err(self.fail());
        };
        match self.system.sync(file) {
            Ok(()) => Ok(()),
            Err(error) => {
                self.error = error.raw_os_error();
                Err(self.fail())
            }
        }
    }

    /// Closes the file, renames it, and syncs the folder. Of the file and the folder one is open at a time.
    fn rename(&mut self, from: &str, to: &str) -> Result<(), DeviceFault> {
        self.file = None;
        if let Err(error) = rename_synced(&mut self.system, from, to) {
            self.error = error.raw_os_error();
            return Err(self.fail());
        }
        self.is_made = false;
        Ok(())
    }

    fn failures(&self) -> u64 {
        self.failures
    }
}
