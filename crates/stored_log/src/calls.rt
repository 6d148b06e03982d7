//! The calls of a log on a disk.
ghost use Rattle.std.specs.Prelude.{◌≡◌, ◌≢◌, ◌+◌, ◌≤◌, ◌<◌, ◌++◌, length, Err, OnOk, OnErr, true, false};
ghost use Rattle.batch_store.specs.Batches.{entries_of, values};
ghost use Rattle.log_file.specs.declared.room.RoomFault.{RoomFault};
ghost use Rattle.stored_log.specs.Kept.{is_failed, number_of, room_of, HasFailed, HasFilled, WasSynced};
ghost use Rattle.stored_log.specs.Sizes.{pages_taken};

use crate::block::write_block;
use crate::room::make_ready;
use crate::stored::StoredLog;
use batch_store::Batch;
use byte_io::DeviceFault;
use log_disk::LogDisk;
use log_file::RoomFault;
use std::sync::Arc;

impl<D: LogDisk> StoredLog<D> {
    /// Writes the block of some batches, for which there is room, by one write and one sync.
    ///
    /// # Errors
    ///
    /// `DeviceFault` where one of the two failed. The disk is in doubt from then on.
    pub(crate) fn write(&mut self, batches: &[Arc<Batch>]) -> Result<(), DeviceFault>
        requires working { is_failed D.in_doubt self.old.in_use ≡ false }
        requires room { pages_taken (values batches.now) ≤ room_of self.old.in_use }
        requires some { 0 < length batches.now }
        ensures working { OnOk result (is_failed D.in_doubt self.new.in_use ≡ false) }
        ensures entries { OnOk result (self.new.entries ≡ self.old.entries ++ entries_of (values batches.now)) }
        ensures synced { OnOk result (WasSynced D.telling D.tells D.written D.may_leave self.new.entries) }
        ensures room { OnOk result (room_of self.old.in_use ≡
            room_of self.new.in_use + pages_taken (values batches.now)) }
        ensures broken { OnErr result (is_failed D.in_doubt self.new.in_use ≡ true) }
        ensures told { OnErr result (HasFailed D.in_doubt D.lost_name) }
        ensures named { self.new.named ≡ self.old.named }
        ensures file { number_of self.new.in_use ≡ number_of self.old.in_use }
    {
        let StoredLog {
            in_use,
            block,
            told,
            is_named: _,
        } = self;
        let Some(log) = in_use else {
            unreachable!();
        };
        write_block(log, block, batches)?;
        *told = told.then(batches);
        Ok(())
    }

    /// Makes so many pages ready.
    ///
    /// # Errors
    ///
    /// `Full`: they are not to be had, and the log is in use as before. `Failed`: a sync failed, and the disk is in
    /// doubt.
    pub(crate) fn stretch(&mut self, pages: u64) -> Result<(), RoomFault>
        requires working { is_failed D.in_doubt self.old.in_use ≡ false }
        ensures working { result ≢ Err RoomFault.Failed → is_failed D.in_doubt self.new.in_use ≡ false }
        ensures room { OnOk result (pages ≤ room_of self.new.in_use) }
        ensures kept { room_of self.old.in_use ≤ room_of self.new.in_use }
        ensures entries { self.new.entries ≡ self.old.entries }
        ensures broken { result ≡ Err RoomFault.Failed → is_failed D.in_doubt self.new.in_use ≡ true }
        ensures told { result ≡ Err RoomFault.Failed → HasFailed D.in_doubt D.lost_name }
        ensures cause { result ≡ Err RoomFault.Full →
            HasFilled D.tells D.written D.failure_count self.old.in_use self.new.in_use pages }
        ensures named { self.new.named ≡ self.old.named }
        ensures file { number_of self.new.in_use ≡ number_of self.old.in_use }
    {
        let StoredLog {
            in_use,
            block: _,
            told: _,
            is_named: _,
        } = self;
        let Some(log) = in_use else {
            unreachable!();
        };
        make_ready(log, pages)
    }

    /// Its entries were synced, as long as no call has failed.
    pub(crate) fn is_synced(&self)
        requires working { is_failed D.in_doubt self.now.in_use ≡ false }
        ensures synced { WasSynced D.telling D.tells D.written D.may_leave self.now.entries }
    {
        let _ = &self.block;
    }
}
