//! A file in which a snapshot is kept, as one who loads and saves it sees it.
ghost use Rattle.std.specs.Prelude.{◌≢◌, ℕ, Result, IfErr, ⊤};
ghost use Rattle.batch_store.specs.Setups.{Setting};
ghost use Rattle.batch_store.specs.Accepted.{Accepted};
ghost use Rattle.batch_store.specs.Books.{AreAccepted, accepted_in};
ghost use Rattle.snap_file.specs.Snapshots.{Saved, HasBase};
ghost use Rattle.snap_file.specs.declared.fault.SnapFault.{SnapFault};
ghost use Rattle.snap_file.specs.declared.fault.FileFault.{FileFault};
ghost use Rattle.snap_file.specs.declared.fault.SaveFault.{SaveFault};
ghost use Rattle.snap_file.specs.declared.origin.Origin.{Origin};

use crate::fault::{FileFault, SaveFault};
use crate::file::{load_watched, save};
use crate::origin::Origin;
use crate::path_lock::{PathLock, lock_existing};
use crate::snapshot::Snapshot;
use batch_store::{BookList, Setup};
use progress::Watch;
use std::alloc::Global;
use std::fs::File;
use std::rt::Files;

/// A file in which a snapshot is kept.
///
/// As of a device, one call is a relation between what stands before it, its answer and what stands after it. Of a real
/// file no clause can speak, so there it is any; but since callers are proved for every such file, what they tell of
/// one is what it has answered, and they make no call of it beside those that their contracts name.
pub trait SnapshotFile {
    // What a load of at most so many bytes may answer, and what it leaves.
    ghost load_gives: { Self → ℕ → Result Saved FileFault → Self → Type 0 };

    // What a save of this origin, of this setup and of what was accepted may answer, and what it leaves.
    ghost save_gives: { Self → Origin → Setting → Accepted → Result (Unit {0}) SaveFault → Self → Type 0 };

    /// Loads the snapshot, of at most `max_bytes` bytes, as the function `load` does.
    fn load(&mut self, alloc: Global, max_bytes: u64) -> Result<Snapshot, FileFault>
        ensures answer { load_gives self.old max_bytes result self.new }
        // Want of memory is told as such.
        ensures memory { IfErr result (λ f. f ≢ FileFault.Snap SnapFault.Memory) };

    /// Saves a snapshot, as the function `save` does.
    fn save(
        &mut self,
        alloc: Global,
        origin: Origin,
        setup: &Setup,
        list: &BookList,
    ) -> Result<(), SaveFault>
        requires accepted { AreAccepted setup.now (accepted_in list.now) }
        requires based { HasBase setup.now list.now }
        ensures { save_gives self.old origin setup.now (accepted_in list.now) result self.new };
}

/// The file under a path, and who is told of what is read of it.
#[derive(Drop)]
pub struct NamedFile<'a, R: Files, W: Watch> {
    rt: &'a R,
    path: &'a str,
    watch: &'a mut W,
}

impl<'a, R: Files, W: Watch> NamedFile<'a, R, W> {
    /// The file under this path, which may be there or not.
    pub fn new(rt: &'a R, path: &'a str, watch: &'a mut W) -> NamedFile<'a, R, W> {
        NamedFile { rt, path, watch }
    }
}

impl<'a, R: Files, W: Watch> SnapshotFile for NamedFile<'a, R, W> {
    ghost load_gives = { λ s max_bytes answer t. ⊤ };

    ghost save_gives = { λ s origin setup a answer t. ⊤ };

    fn load(&mut self, alloc: Global, max_bytes: u64) -> Result<Snapshot, FileFault> {
        load_watched(self.rt, alloc, self.path, max_bytes, self.watch)
    }

    fn save(
        &mut self,
        alloc: Global,
        origin: Origin,
        setup: &Setup,
        list: &BookList,
    ) -> Result<(), SaveFault> {
        save(self.rt, alloc, self.path, origin, setup, list)
    }
}

/// The file under a path, whose lock is taken by a load and held to the end of the next save, at most for as long as
/// this lives: nobody else who takes it saves there between the two. Somebody is told of what is read of it.
#[derive(Drop)]
pub struct LockedFile<'a, R: Files<File = File>, W: Watch> {
    rt: &'a R,
    path: &'a str,
    watch: &'a mut W,
    lock: Option<PathLock>,
}

impl<'a, R: Files<File = File>, W: Watch> LockedFile<'a, R, W> {
    /// The file under this path, which may be there or not. Its lock isn't taken yet.
    pub fn new(rt: &'a R, path: &'a str, watch: &'a mut W) -> LockedFile<'a, R, W> {
        LockedFile {
            rt,
            path,
            watch,
            lock: None,
        }
    }
}

impl<'a, R: Files<File = File>, W: Watch> SnapshotFile for LockedFile<'a, R, W> {
    ghost load_gives = { λ s max_bytes answer t. ⊤ };

    ghost save_gives = { λ s origin setup a answer t. ⊤ };

    /// Takes the lock where it isn't held, `Busy` where another holds it, and loads. Where the lock can't be had, the
    /// save alone is refused.
    fn load(&mut self, alloc: Global, max_bytes: u64) -> Result<Snapshot, FileFault> {
        if self.lock.is_none() {
            self.lock = lock_existing(self.rt, alloc, self.path)?;
        }
        load_watched(self.rt, alloc, self.path, max_bytes, self.watch)
    }

    /// Saves, `Create` where the lock isn't held, and gives it back.
    fn save(
        &mut self,
        alloc: Global,
        origin: Origin,
        setup: &Setup,
        list: &BookList,
    ) -> Result<(), SaveFault> {
        // Not held while output is written: where that is closed, the lock's file may have its number.
        let Some(_lock) = self.lock.take() else {
            return Err(SaveFault::Create);
        };
        save(self.rt, alloc, self.path, origin, setup, list)
    }
}
