//! No snapshot, where none is given.
ghost use Rattle.std.specs.Prelude.{◌≡◌, Err};
ghost use Rattle.snap_file.specs.declared.fault.FileFault.TheVariants.{NotFound};
ghost use Rattle.snap_file.specs.declared.fault.SaveFault.TheVariants.{Create};

use batch_store::{BookList, Setup};
use snap_file::{FileFault, Origin, SaveFault, Snapshot, SnapshotFile};
use std::alloc::Global;

/// The file of a snapshot that isn't given: a load finds none, and a save makes none.
#[derive(Clone, Copy)]
pub struct NoSnapshot;

impl SnapshotFile for NoSnapshot {
    ghost load_gives = { λ s max_bytes answer t. answer ≡ Err NotFound };

    ghost save_gives = { λ s origin setup a answer t. answer ≡ Err Create };

    fn load(&mut self, _alloc: Global, _max_bytes: u64) -> Result<Snapshot, FileFault> {
        Err(FileFault::NotFound)
    }

    fn save(
        &mut self,
        _alloc: Global,
        _origin: Origin,
        _setup: &Setup,
        _list: &BookList,
    ) -> Result<(), SaveFault> {
        Err(SaveFault::Create)
    }
}
