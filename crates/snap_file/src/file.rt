//! Snapshots as files.
//!
//! Nothing is known beforehand of a real file's bytes, so what these calls do to one is shown by tests: the contracts
//! that they rest on are those of `save_in` and `read_snapshot`.
ghost use Rattle.std.specs.Prelude.{◌≢◌, IfErr, OnOk};
ghost use Rattle.batch_store.specs.Books.{AreAccepted, accepted_in};
ghost use Rattle.snap_file.specs.Snapshots.{HasBase};
ghost use Rattle.snap_file.specs.Spelling.{file};
ghost use Rattle.snap_file.specs.System.{HasReplaced};
ghost use Rattle.snap_file.specs.declared.fault.SnapFault.{SnapFault};
ghost use Rattle.snap_file.specs.declared.fault.FileFault.{FileFault};

use crate::beside::Beside;
use crate::fault::{FileFault, SaveFault};
use crate::origin::Origin;
use crate::read::read_snapshot;
use crate::saving::save_in;
use crate::snapshot::Snapshot;
use crate::system::{FileSystem, RealFiles};
use batch_store::{BookList, Setup};
use byte_io::Counted;
use progress::{Unwatched, Watch, Watched};
use std::alloc::Global;
use std::rt::Files;
use std::{fs, io};

/// Saves a snapshot under `path`: writes it to a file whose name has `.new` behind it, syncs that, renames it to
/// `path`, and syncs the folder, so that a saved file outlasts a loss of power. Before the rename `path` is only looked
/// at. After a fault what was written under the other name is removed, where that can be done; if not, the next save
/// removes it.
///
/// The new file is made anew: what stands under its name is removed first, a folder excepted, and of a link the link
/// alone. It gets the mode of the file under `path` (what owner, group and others may read, write and run), and its
/// owner and group as far as the process may give them: without the group, the group's members may no more than all
/// others. Two that save under one path at the same time write over each other: whoever may meet another takes the
/// path's `lock` first.
///
/// The list is one that a book of the setup hands out: no client and number twice, the setup's dimensions, and within
/// both limits.
///
/// # Errors
///
/// `Memory` for the name, `Create`, `Write`, `Sync` or `Rename` where that step failed, and the file under `path` is as
/// it was. What is neither a file nor a folder isn't replaced: `Create`. A folder is `Rename`. So is a folder of the
/// path that can't be opened, and one that can't be synced behind the rename: of these faults the last alone leaves the
/// new file under `path`.
pub fn save<R: Files>(
    rt: &R,
    alloc: Global,
    path: &str,
    origin: Origin,
    setup: &Setup,
    list: &BookList,
) -> Result<(), SaveFault>
    requires accepted { AreAccepted setup.now (accepted_in list.now) }
    requires based { HasBase setup.now list.now }
{
    save_telling(rt, alloc, path, origin, setup, list).0
}

/// Saves a snapshot so. After a fault it also returns the system's number of the error, if it had one.
pub fn save_telling<R: Files>(
    rt: &R,
    alloc: Global,
    path: &str,
    origin: Origin,
    setup: &Setup,
    list: &BookList,
) -> (Result<(), SaveFault>, Option<i32>)
    requires accepted { AreAccepted setup.now (accepted_in list.now) }
    requires based { HasBase setup.now list.now }
{
    save_by(RealFiles::new(rt), alloc, path, origin, setup, list)
}

/// Saves a snapshot so, by the calls of a file system.
pub fn save_by<S: FileSystem>(
    system: S,
    alloc: Global,
    path: &str,
    origin: Origin,
    setup: &Setup,
    list: &BookList,
) -> (Result<(), SaveFault>, Option<i32>)
    requires accepted { AreAccepted setup.now (accepted_in list.now) }
    requires based { HasBase setup.now list.now }
    // The file was made, written whole, and synced; then a folder was opened, the file renamed, and the folder synced.
    ensures { OnOk result.0 (HasReplaced S.did system path.now (file origin setup.now (accepted_in list.now))) }
{
    let mut folder = Beside::new(system, path);
    let saved = save_in(alloc, &mut folder, path, origin, setup, list);
    if saved.is_err() {
        folder.remove_made(alloc);
    }
    (saved, folder.error())
}

/// Loads the snapshot under `path`, of at most `max_bytes` bytes, as `read_snapshot` reads it.
///
/// # Errors
///
/// `NotFound` where the file system says that there is no such file, `OpenFailed` for any other fault of opening and
/// for what is neither a file nor a folder, `Snap` with the file's first fault or a failed read (so a folder), and
/// `Memory` where memory was refused.
pub fn load<R: Files>(
    rt: &R,
    alloc: Global,
    path: &str,
    max_bytes: u64,
) -> Result<Snapshot, FileFault>
    // Want of memory is told as such.
    ensures memory { IfErr result (λ f. f ≢ FileFault.Snap SnapFault.Memory) }
{
    load_watched(rt, alloc, path, max_bytes, &mut Unwatched)
}

/// Loads a snapshot so, and tells the watch of the bytes that are read.
pub fn load_watched<R: Files, W: Watch>(
    rt: &R,
    alloc: Global,
    path: &str,
    max_bytes: u64,
    watch: &mut W,
) -> Result<Snapshot, FileFault>
    // Want of memory is told as such.
    ensures memory { IfErr result (λ f. f ≢ FileFault.Snap SnapFault.Memory) }
{
    find_file(rt, path)?;
    let file = match fs::open(rt, path) {
        Ok(file) => file,
        Err(error) => return Err(opening_fault(error.kind())),
    };
    let mut source = Watched::new(Counted::new(file), watch);
    let snapshot = read_snapshot(alloc, &mut source, max_bytes)?;
    Ok(snapshot)
}

/// Looks whether a file or a folder stands under the path. Nothing else is opened: the opening of a FIFO would wait for
/// a writer.
pub fn find_file<R: Files>(rt: &R, path: &str) -> Result<(), FileFault>
    // Nothing is read.
    ensures unread { IfErr result (λ f. (fault : SnapFault) → f ≢ FileFault.Snap fault) }
    ensures memory { IfErr result (λ f. f ≢ FileFault.Snap SnapFault.Memory) }
{
    match fs::metadata(rt, path) {
        Ok(found) if found.is_file() || found.is_dir() => Ok(()),
        Ok(_) => Err(FileFault::OpenFailed),
        Err(error) => Err(opening_fault(error.kind())),
    }
}

// Why a file wasn't opened.
fn opening_fault(kind: io::ErrorKind) -> FileFault
    ensures unread { (fault : SnapFault) → result ≢ FileFault.Snap fault }
    ensures memory { result ≢ FileFault.Snap SnapFault.Memory }
{
    match kind {
        io::ErrorKind::NotFound => FileFault::NotFound,
        io::ErrorKind::OutOfMemory => FileFault::Memory,
        _ => FileFault::OpenFailed,
    }
}
