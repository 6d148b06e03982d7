//! What a desk asks of a log, by a log on a disk.
ghost use Rattle.std.specs.Prelude.{◌≡◌, ◌≢◌, ℕ, ◌+◌, ◌≤◌, ◌<◌, ◌++◌, List, length, Err, OnOk, OnErr, true, false, ⊤};
ghost use Rattle.batch_store.specs.Batches.{entries_of, values};
ghost use Rattle.log_desk.specs.declared.fault.RoomFault.{RoomFault};
ghost use Rattle.stored_log.specs.Kept.{is_failed, number_of, room_of, HasFailed, HasFilled, WasSynced};
ghost use Rattle.stored_log.specs.Sizes.{pages_taken};

use crate::block::pages_of;
use crate::stored::StoredLog;
use batch_store::Batch;
use log_desk::{Log, LogFailed, RoomFault};
use log_disk::LogDisk;
use log_file::RoomFault as DiskFault;
use std::sync::Arc;

impl<D: LogDisk + Drop> Log for StoredLog<D> {
    ghost durable = { λ s. s.entries };

    ghost failed = { λ s. is_failed D.in_doubt s.in_use };

    ghost ready = { λ s. room_of s.in_use };

    ghost takes = { pages_taken };

    ghost has_name = { λ s path. s.named ≡ true };

    ghost was_synced = { WasSynced D.telling D.tells D.written D.may_leave };

    ghost has_failed = { HasFailed D.in_doubt D.lost_name };

    ghost was_full = { ⊤ };

    fn is_failed(&self) -> bool {
        match &self.in_use {
            Some(log) => log.file.disk.is_in_doubt(),
            None => true,
        }
    }

    fn room(&self) -> u64 {
        match &self.in_use {
            Some(log) => log.writer.room(),
            None => 0,
        }
    }

    /// 2^64 - 1 where they are more than the largest block of a group takes.
    fn pages_of(batches: &[Arc<Batch>]) -> u64 {
        pages_of(batches)
    }

    fn append(&mut self, batches: &[Arc<Batch>]) -> Result<(), LogFailed>
        requires working { is_failed D.in_doubt self.old.in_use ≡ false }
        requires room { pages_taken (values batches.now) ≤ room_of self.old.in_use }
        ensures working { OnOk result (is_failed D.in_doubt self.new.in_use ≡ false) }
        ensures durable { OnOk result (self.new.entries ≡ self.old.entries ++ entries_of (values batches.now)) }
        ensures synced { OnOk result (WasSynced D.telling D.tells D.written D.may_leave self.new.entries) }
        ensures room { OnOk result (room_of self.old.in_use ≤
            room_of self.new.in_use + pages_taken (values batches.now)) }
        // It takes just the pages of the block, and of no batches none.
        ensures used { OnOk result (0 < length batches.now → room_of self.old.in_use ≡
            room_of self.new.in_use + pages_taken (values batches.now)) }
        ensures unused { length batches.now ≡ 0 → self.new ≡ self.old }
        ensures named { (path : List ℕ) → self.old.named ≡ true → self.new.named ≡ true }
        ensures broken { OnErr result (is_failed D.in_doubt self.new.in_use ≡ true) }
        ensures told { OnErr result (HasFailed D.in_doubt D.lost_name) }
        ensures file { number_of self.new.in_use ≡ number_of self.old.in_use }
    {
        if batches.is_empty() {
            self.is_synced();
            return Ok(());
        }
        match self.write(batches) {
            Ok(()) => Ok(()),
            Err(_) => Err(LogFailed),
        }
    }

    /// A file has at most 268,435,456 pages, and nothing more is to be had behind those.
    fn make_room(&mut self, pages: u64) -> Result<(), RoomFault>
        requires working { is_failed D.in_doubt self.old.in_use ≡ false }
        ensures working { result ≢ Err RoomFault.Failed → is_failed D.in_doubt self.new.in_use ≡ false }
        ensures room { OnOk result (pages ≤ room_of self.new.in_use) }
        ensures kept { is_failed D.in_doubt self.new.in_use ≡ false →
            room_of self.old.in_use ≤ room_of self.new.in_use }
        ensures durable { is_failed D.in_doubt self.new.in_use ≡ false → self.new.entries ≡ self.old.entries }
        ensures named { (path : List ℕ) → self.old.named ≡ true → self.new.named ≡ true }
        ensures broken { result ≡ Err RoomFault.Failed → is_failed D.in_doubt self.new.in_use ≡ true }
        ensures told { result ≡ Err RoomFault.Failed → HasFailed D.in_doubt D.lost_name }
        ensures cause { result ≡ Err RoomFault.Full →
            HasFilled D.tells D.written D.failure_count self.old.in_use self.new.in_use pages }
        ensures file { number_of self.new.in_use ≡ number_of self.old.in_use }
    {
        match self.stretch(pages) {
            Ok(()) => Ok(()),
            Err(DiskFault::Full) => Err(RoomFault::Full),
            Err(DiskFault::Failed) => Err(RoomFault::Failed),
        }
    }
}
