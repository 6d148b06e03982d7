//! Saves a snapshot in a folder.
ghost use Rattle.std.specs.Prelude.{◌≡◌, ℕ, ◌+◌, ◌<◌, ◌^◌, List, [], Option, Some, None, IsSome, IfOk, IfErr, OnOk, OnErr};
ghost use Rattle.std.specs.Prelude.{string_bytes};
ghost use Rattle.byte_io.specs.Writing.{HasTaken, HasStopped};
ghost use Rattle.file_folder.specs.Files.{Files, WhereTold, KeepsOthers, HasFile, IsReplaced};
ghost use Rattle.batch_store.specs.Books.{AreAccepted, accepted_in};
ghost use Rattle.snap_file.specs.Snapshots.{HasBase};
ghost use Rattle.snap_file.specs.Spelling.{file};
ghost use Rattle.snap_file.specs.Saving.{unfinished, IsFileSynced, HasSaved, SaysWhyNotMade, SaysWhy};

use crate::fault::SaveFault;
use crate::new_file::NewFile;
use crate::origin::Origin;
use crate::write::write_snapshot;
use batch_store::{BookList, Setup};
use byte_io::WriteFault;
use file_folder::Folder;
use std::alloc::{AllocError, Global};

/// What is written stands under the path with this behind it, until it is whole.
pub const UNFINISHED: &str = ".new";

// The path with `UNFINISHED` behind it.
fn unfinished(alloc: Global, path: &str) -> Result<String, AllocError>
    ensures { IfOk result (λ name. string_bytes name ≡ unfinished path.now) }
{
    let mut name = String::new(alloc);
    name.push_str(path)?;
    name.push_str(UNFINISHED)?;
    Ok(name)
}

// Writes a snapshot to the file that a folder last created, which stays the one that was lent.
fn write_to<F: Folder>(
    new_file: &mut NewFile<'_, F>,
    origin: Origin,
    setup: &Setup,
    list: &BookList,
) -> Result<(), WriteFault>
    requires failures { F.failure_count new_file.old.folder.now + 1 < 2 ^ 64 }
    requires accepted { AreAccepted setup.now (accepted_in list.now) }
    requires based { HasBase setup.now list.now }
    ensures same_reference { new_file.new.folder.ghost_name ≡ new_file.old.folder.ghost_name }
    ensures ok { OnOk result (HasTaken F.write_takes F.failure_count new_file.old.folder.now new_file.new.folder.now
        (file origin setup.now (accepted_in list.now))) }
    ensures err { IfErr result (λ f. HasStopped F.write_takes F.failure_count new_file.old.folder.now
        new_file.new.folder.now (file origin setup.now (accepted_in list.now)) f.written) }
{
    write_snapshot(new_file, origin, setup, list)
}

// Writes a snapshot to the file that a folder last created, which is empty.
fn write_new<F: Folder>(
    f: &mut F,
    origin: Origin,
    setup: &Setup,
    list: &BookList,
) -> Result<(), WriteFault>
    requires failures { F.failure_count f.old + 1 < 2 ^ 64 }
    requires created { IsSome (F.last_created f.old) }
    requires accepted { AreAccepted setup.now (accepted_in list.now) }
    requires based { HasBase setup.now list.now }
    ensures ok { OnOk result (HasTaken F.write_takes F.failure_count f.old f.new
        (file origin setup.now (accepted_in list.now))) }
    ensures err { IfErr result (λ fault. HasStopped F.write_takes F.failure_count f.old f.new
        (file origin setup.now (accepted_in list.now)) fault.written) }
{
    let mut new_file = NewFile::new(f);
    write_to(&mut new_file, origin, setup, list)
}

// Makes a file of a snapshot, and syncs it.
fn make_file<F: Folder>(
    f: &mut F,
    name: &str,
    origin: Origin,
    setup: &Setup,
    list: &BookList,
) -> Result<(), SaveFault>
    requires failures { F.failure_count f.old + 1 < 2 ^ 64 }
    requires accepted { AreAccepted setup.now (accepted_in list.now) }
    requires based { HasBase setup.now list.now }
    ensures made { OnOk result (WhereTold (HasFile name.now (file origin setup.now (accepted_in list.now)))
        (F.files f.old) (F.files f.new)) }
    ensures kept { OnErr result (WhereTold (KeepsOthers name.now) (F.files f.old) (F.files f.new)) }
    ensures calls { OnOk result (IsFileSynced F.call_gives F.write_takes F.failure_count f.old f.new name.now
        (file origin setup.now (accepted_in list.now))) }
    ensures why { IfErr result (λ fault. SaysWhyNotMade F.call_gives F.write_takes F.failure_count f.old f.new name.now
        (file origin setup.now (accepted_in list.now)) fault) }
    ensures no_failure { OnOk result (F.failure_count f.new ≡ F.failure_count f.old) }
{
    if f.create(name).is_err() {
        return Err(SaveFault::Create);
    }
    if let Err(fault) = write_new(f, origin, setup, list) {
        return Err(SaveFault::Write(fault));
    }
    match f.sync() {
        Ok(()) => Ok(()),
        Err(_) => Err(SaveFault::Sync),
    }
}

/// Saves a snapshot under `path` in a folder: writes it to a file whose name has `.new` behind it, syncs that, and
/// renames it to `path`. What stood under the other name is written over.
///
/// The list is one that a book of the setup hands out: no client and number twice, the setup's dimensions, and within
/// both limits. The folder must have failed less than 2^64 - 1 times before. Takes memory for the name alone, and time
/// in proportion to the bytes.
///
/// # Errors
///
/// `Memory` where there was none for the name: no call was made. `Create`, `Sync` or `Rename` where that call failed;
/// `Write`, with the number of bytes of the file that were taken before, where a write failed or took none of the bytes
/// that it was offered. No call follows. Whatever the fault, every file but the one with `.new` is as it was; of that
/// one nothing is known.
pub fn save_in<F: Folder>(
    alloc: Global,
    f: &mut F,
    path: &str,
    origin: Origin,
    setup: &Setup,
    list: &BookList,
) -> Result<(), SaveFault>
    requires failures { F.failure_count f.old + 1 < 2 ^ 64 }
    requires accepted { AreAccepted setup.now (accepted_in list.now) }
    requires based { HasBase setup.now list.now }
    // Where the folder tells its files, `path` holds the file of exactly this origin, setup and list, there is none under
    // the other name, and every other file is as before.
    ensures saved { OnOk result (WhereTold
        (IsReplaced path.now (unfinished path.now) (file origin setup.now (accepted_in list.now)))
        (F.files f.old) (F.files f.new)) }
    // Where it tells its files, every file but the one under the other name is as before.
    ensures kept { OnErr result (WhereTold (KeepsOthers (unfinished path.now)) (F.files f.old) (F.files f.new)) }
    // Over every folder, these are the calls, each once and in this order: the file is made, written whole, synced and
    // renamed.
    ensures calls { OnOk result (HasSaved F.call_gives F.write_takes F.failure_count f.old f.new path.now
        (file origin setup.now (accepted_in list.now))) }
    // And a fault names the call that failed, or the write that took nothing: those before it are these, and none
    // follows.
    ensures why { IfErr result (λ fault. SaysWhy F.call_gives F.write_takes F.failure_count f.old f.new path.now
        (file origin setup.now (accepted_in list.now)) fault) }
    ensures no_failure { OnOk result (F.failure_count f.new ≡ F.failure_count f.old) }
{
    let Ok(name) = unfinished(alloc, path) else {
        return Err(SaveFault::Memory);
    };
    make_file(f, name.as_str(), origin, setup, list)?;
    match f.rename(name.as_str(), path) {
        Ok(()) => Ok(()),
        Err(_) => Err(SaveFault::Rename),
    }
}
