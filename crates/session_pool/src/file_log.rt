//! A log in a file.
ghost use Rattle.std.specs.Prelude.{◌≡◌};

use batch_store::Batch;
use log_desk::{Log, LogFailed, RoomFault};
use log_folder::FileDisk;
use std::fs::File;
use std::sync::Arc;
use stored_log::StoredLog;

/// A log in a file of the system: a `StoredLog` as a type of its own, which has no parameters.
#[derive(Drop)]
pub struct FileLog {
    pub(crate) stored: StoredLog<FileDisk<File>>,
}

impl FileLog {
    /// This log.
    pub fn new(stored: StoredLog<FileDisk<File>>) -> FileLog
        ensures { result.stored ≡ stored }
    {
        FileLog { stored }
    }
}

impl Log for FileLog {
    ghost use Rattle.std.specs.Prelude.{◌≡◌, true, ⊤, []};
    ghost use Rattle.std.specs.declared.fs.File.{File};
    ghost use Rattle.log_folder.specs.declared.file_disk.FileDisk.{FileDisk};
    ghost use Rattle.stored_log.specs.Kept.{is_failed, room_of, WasSynced, HasFailed};
    ghost use Rattle.stored_log.specs.Sizes.{pages_taken};

    ghost durable = { λ l. l.stored.entries };

    ghost failed = { λ l. is_failed (λ (d : FileDisk File). d.in_doubt) l.stored.in_use };

    ghost ready = { λ l. room_of l.stored.in_use };

    ghost takes = { pages_taken };

    ghost has_name = { λ l path. l.stored.named ≡ true };

    ghost was_synced = { WasSynced ⊥ (λ (d : FileDisk File). ⊥) (λ d. []) (λ d left. ⊥) };

    ghost has_failed = { HasFailed (λ (d : FileDisk File). d.in_doubt) ⊤ };

    ghost was_full = { ⊤ };

    fn is_failed(&self) -> bool {
        self.stored.is_failed()
    }

    fn room(&self) -> u64 {
        self.stored.room()
    }

    fn pages_of(batches: &[Arc<Batch>]) -> u64 {
        <StoredLog<FileDisk<File>> as Log>::pages_of(batches)
    }

    fn append(&mut self, batches: &[Arc<Batch>]) -> Result<(), LogFailed> {
        self.stored.append(batches)
    }

    fn make_room(&mut self, pages: u64) -> Result<(), RoomFault> {
        self.stored.make_room(pages)
    }
}
