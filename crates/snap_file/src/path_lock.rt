//! The lock of a snapshot's path: whoever saves there beside others holds it.
ghost use Rattle.std.specs.Prelude.{◌≡◌, ◌≢◌, ◌⊎◌, IfErr};
ghost use Rattle.snap_file.specs.declared.fault.SnapFault.{SnapFault};
ghost use Rattle.snap_file.specs.declared.fault.FileFault.{FileFault};

use crate::access::{access_under, make_beside};
use crate::fault::FileFault;
use crate::file::find_file;
use std::alloc::Global;
use std::fs::{self, File, OpenOptions, TryLockError};
use std::io;
use std::rt::Files;

/// What is locked is the file whose name is the path with this behind it.
const LOCK: &str = ".lock";

/// The lock of a path, which is held for as long as this lives, and no longer than the process.
///
/// The file that is locked stays when the lock is given back: others may have it open, and a new file under its name
/// would be another lock.
#[derive(Drop)]
pub struct PathLock {
    _file: File,
}

// Opens the file that is locked. For a lock it needs no right to write, but some file systems ask for it.
fn open_lock<R: Files<File = File>>(rt: &R, name: &str) -> io::Result<File> {
    match OpenOptions::new().read(true).write(true).open(rt, name) {
        Ok(file) => Ok(file),
        Err(_) => fs::open(rt, name),
    }
}

// Whether something stands under a name that is no file.
fn is_other<R: Files>(rt: &R, name: &str) -> bool {
    match fs::metadata(rt, name) {
        Ok(found) => !found.is_file(),
        Err(_) => false,
    }
}

// The file that is locked, which is made where nothing stands. It gets the owner, the group and the mode of the file
// under the path, so that whoever may save there may lock it.
fn lock_file<R: Files<File = File>>(rt: &R, path: &str, name: &str) -> Option<File> {
    if is_other(rt, path) || is_other(rt, name) {
        return None;
    }
    let access = access_under(rt, path).ok()?;
    match make_beside(rt, name, access) {
        Ok(file) => Some(file),
        // It is there, or it can't be made.
        Err(_) => open_lock(rt, name).ok(),
    }
}

/// Takes the lock of a path, that of the file whose name has `.lock` behind it, which is made if it isn't there.
/// Answers None where the lock can't be had: that file can't be made, opened or locked, or what stands under the path
/// is no file.
///
/// # Errors
///
/// `Busy` where another holds it, in this process or another, and `Memory` for the name.
pub fn lock<R: Files<File = File>>(
    rt: &R,
    alloc: Global,
    path: &str,
) -> Result<Option<PathLock>, FileFault>
    ensures { IfErr result (λ f. (f ≡ FileFault.Busy) ⊎ (f ≡ FileFault.Memory)) }
{
    let Ok(name) = format!(in alloc; "{path}{LOCK}") else {
        return Err(FileFault::Memory);
    };
    let Some(file) = lock_file(rt, path, name.as_str()) else {
        return Ok(None);
    };
    match file.try_lock() {
        Ok(()) => Ok(Some(PathLock { _file: file })),
        Err(TryLockError::WouldBlock) => Err(FileFault::Busy),
        Err(TryLockError::Error(_)) => Ok(None),
    }
}

/// Takes the lock so, but where nothing stands under the path no file is made.
///
/// # Errors
///
/// `NotFound` and `OpenFailed` as `load` has them, and then as `lock`.
pub fn lock_existing<R: Files<File = File>>(
    rt: &R,
    alloc: Global,
    path: &str,
) -> Result<Option<PathLock>, FileFault>
    // Nothing is read.
    ensures { IfErr result (λ f. (fault : SnapFault) → f ≢ FileFault.Snap fault) }
{
    find_file(rt, path)?;
    lock(rt, alloc, path)
}
