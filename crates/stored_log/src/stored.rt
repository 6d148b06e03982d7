//! The log on a disk.
ghost use Rattle.std.specs.Prelude.{◌≡◌, ◌+◌, ◌*◌, ◌^◌, ◌<◌, ◌≤◌, IfOk, IfSome, IfNone, OnOk, Some, None, true, false};
ghost use Rattle.batch_store.specs.Accepted.{entries_in};
ghost use Rattle.batch_store.specs.Books.{accepted_in};
ghost use Rattle.stored_log.specs.Kept.{IsLogged, WasSynced, disk_of};
ghost use Rattle.stored_log.specs.Sizes.{most_pages};

use crate::entries::Told;
use batch_store::BookList;
use log_disk::LogDisk;
use open_log::OpenLog;
use std::alloc::{AllocError, Global};
use std::marker::Model;

/// The bytes of the largest block of a group, in pages of 4,096: 8 for the number of its batches, 24 for each of 1,024
/// batches and 24 for each of 1,048,576 cells, 4,072 to a page.
const BUFFER_BYTES: usize = 25_341_952;

/// A log on a disk, whose entries are durable as long as no call has failed.
///
/// Once a write or a sync has failed its disk is in doubt, and no call on it is made again. Once the naming of a log
/// that was to take its place has failed it has no disk, since nobody knows which of the two a loss of power leaves.
///
/// Contracts see its entries, its file and writer, and whether it has its name.
#[derive(Drop)]
pub struct StoredLog<D: LogDisk> {
    pub(crate) in_use: Option<OpenLog<D>>,
    // Its bytes are reserved when it is made, so that an append takes no memory, and touched as far as blocks were
    // long.
    pub(crate) block: Vec<u8>,
    pub(crate) told: Told,
    // Whether it has the name by which a start finds it.
    pub(crate) is_named: bool,
}

impl<D: LogDisk> Model for StoredLog<D> {
    ghost use Rattle.std.specs.Prelude.{◌≤◌, IfSome, vec_capacity};
    ghost use Rattle.stored_log.specs.Kept.{Stored, stored, IsKept};

    ghost Value = { Stored D };

    ghost view = { λ s. stored s.told.entries s.in_use s.is_named };

    ghost invariant = { λ s. IfSome s.in_use (IsKept D.telling D.tells D.written D.may_leave D.in_doubt
        D.failure_count s.told.entries) × (25341952 ≤ vec_capacity s.block) };
}

impl<D: LogDisk + Drop> StoredLog<D> {
    // A log whose entries are those of a list, and that has its name or hasn't. It reserves 25,341,952 bytes, and touches
    // none of them.
    pub(crate) fn new(
        alloc: Global,
        log: OpenLog<D>,
        list: &BookList,
        is_named: bool,
    ) -> Result<StoredLog<D>, AllocError>
        requires logged { IsLogged D.telling D.tells D.written D.may_leave log.file.disk log.writer
            (entries_in (accepted_in list.now)) }
        requires working { D.in_doubt log.file.disk ≡ false }
        requires failures { D.failure_count log.file.disk + 1 < 2 ^ 64 }
        requires pages { log.writer.page + log.writer.room ≤ most_pages }
        requires places { log.writer.next ≤ 2 ^ 62 + 170 * log.writer.page }
        ensures entries { IfOk result (λ s. s.entries ≡ entries_in (accepted_in list.now)) }
        ensures in_use { IfOk result (λ s. s.in_use ≡ Some log) }
        ensures named { IfOk result (λ s. s.named ≡ is_named) }
        ensures synced { OnOk result (WasSynced D.telling D.tells D.written D.may_leave
            (entries_in (accepted_in list.now))) }
    {
        let block = Vec::with_capacity(alloc, BUFFER_BYTES)?;
        Ok(StoredLog {
            in_use: Some(log),
            block,
            told: Told::all_of(list),
            is_named,
        })
    }

    /// The log that a start has found or begun, and that has its name, of the entries of a list. It reserves 25,341,952
    /// bytes, and touches none of them.
    ///
    /// # Errors
    ///
    /// The growth was refused. The file is closed.
    pub fn of_start(
        alloc: Global,
        log: OpenLog<D>,
        list: &BookList,
    ) -> Result<StoredLog<D>, AllocError>
        requires logged { IsLogged D.telling D.tells D.written D.may_leave log.file.disk log.writer
            (entries_in (accepted_in list.now)) }
        requires working { D.in_doubt log.file.disk ≡ false }
        requires failures { D.failure_count log.file.disk + 1 < 2 ^ 64 }
        requires pages { log.writer.page + log.writer.room ≤ most_pages }
        requires places { log.writer.next ≤ 2 ^ 62 + 170 * log.writer.page }
        ensures entries { IfOk result (λ s. s.entries ≡ entries_in (accepted_in list.now)) }
        ensures in_use { IfOk result (λ s. s.in_use ≡ Some log) }
        ensures named { IfOk result (λ s. s.named ≡ true) }
        ensures synced { OnOk result (WasSynced D.telling D.tells D.written D.may_leave
            (entries_in (accepted_in list.now))) }
    {
        StoredLog::new(alloc, log, list, true)
    }

    /// The disk, where a log is in use.
    pub fn disk(&self) -> Option<&D>
        ensures some { IfSome result (λ disk. disk_of self.now.in_use ≡ Some disk.now) }
        ensures none { IfNone result (disk_of self.now.in_use ≡ None) }
    {
        match &self.in_use {
            Some(log) => Some(&log.file.disk),
            None => None,
        }
    }
}
