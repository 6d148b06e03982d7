//! Appends blocks to a log.
ghost use Rattle.std.specs.Prelude.{◌≡◌, ◌⊎◌, ℕ, ◌+◌, ◌-◌, ◌*◌, ◌<◌, ◌≤◌, List, OnOk, OnErr, true, false};
ghost use Rattle.log_blocks.specs.Blocks.{Block};
ghost use Rattle.log_disk.specs.Disk.{LeavesOnly};
ghost use Rattle.log_file.specs.Logs.{Log, IsReadAs, MayHoldNext, with_next};
ghost use Rattle.log_file.specs.Writer.{CanAppend, HasRoom, IsLong, IsSettled, IsUnsettled};

use byte_io::DeviceFault;
use log_blocks::BlockScan;
use log_disk::LogDisk;

/// Where the next block of a log is written, and how much room there is for it.
///
/// It belongs to one file. Whether a call of that has failed, after which no other may be made, the file says itself
/// (`LogDisk::is_in_doubt`).
#[derive(Clone, Copy, Debug)]
pub struct LogWriter {
    pub(crate) first: u64,
    pub(crate) next: u64,
    pub(crate) page: u64,
    pub(crate) room: u64,
}

/// Where a log ends: the place of its first batch, that of the next one, and the page where the next block begins.
#[derive(Clone, Copy, Debug, PartialEq, Eq)]
pub struct LogMark {
    pub first: u64,
    pub next: u64,
    pub page: u64,
}

/// Where the blocks end that were read of a log: the place behind their last batch, the page behind their last page,
/// and the page where the last of them begins, which is 0 where there is none.
#[derive(Clone, Copy, Debug, PartialEq, Eq)]
pub struct LogEnd {
    pub next: u64,
    pub page: u64,
    pub last: u64,
}

impl LogEnd {
    /// Where the blocks end that a scan found.
    pub fn of_scan(scan: &BlockScan) -> LogEnd
        ensures next { result.next ≡ scan.now.place }
        ensures page { result.page ≡ scan.now.page }
        ensures last { result.last ≡ scan.now.last }
    {
        LogEnd {
            next: scan.place(),
            page: scan.page(),
            last: scan.last(),
        }
    }
}

impl LogWriter {
    /// A writer that goes on behind these blocks, without room. The place is that of the log's first batch.
    pub fn new(first: u64, end: &LogEnd) -> LogWriter
        ensures first { result.first ≡ first }
        ensures next { result.next ≡ end.now.next }
        ensures page { result.page ≡ end.now.page }
        ensures room { result.room ≡ 0 }
    {
        LogWriter {
            first,
            next: end.next,
            page: end.page,
            room: 0,
        }
    }

    /// Where the log ends.
    pub fn mark(&self) -> LogMark
        ensures first { result.first ≡ self.now.first }
        ensures next { result.next ≡ self.now.next }
        ensures page { result.page ≡ self.now.page }
    {
        LogMark {
            first: self.first,
            next: self.next,
            page: self.page,
        }
    }

    /// How many pages behind the log were written as zeros and aren't used.
    pub fn room(&self) -> u64
        ensures { result ≡ self.now.room }
    {
        self.room
    }

    /// Appends a block of so many pages and batches, by one write and one sync. At `Ok` it is acknowledged: each loss
    /// of power from then on leaves it. After an Err no other call of the file may be made, and who opens it anew finds
    /// the block whole or not at all.
    ///
    /// Where the pages are more than the room, the file grows, which may fail for want of space on the disk.
    pub fn append<D: LogDisk>(
        &mut self,
        disk: &mut D,
        bytes: &[u8],
        pages: u64,
        batches: u64,
    ) -> Result<(), DeviceFault>
        ghost known: { Log × Block }
        requires told { D.telling → D.tells disk.old ×
            CanAppend D.written D.may_leave disk.old self.old known.0 known.1 bytes.now pages batches }
        requires fits { HasRoom D.in_doubt D.failure_count disk.old self.old pages batches }

        ensures acknowledged { D.telling → OnOk result (
            IsSettled D.written D.may_leave disk.new self.new (with_next known.0 known.1)) }
        ensures durable { D.telling → OnOk result ((left : List ℕ) → D.may_leave disk.new left →
            IsReadAs (with_next known.0 known.1) left) }

        // A loss of power at any moment leaves a file that `settle` settles: the blocks from before, and any part of
        // the new one. It is read with the new one or without (`torn_crashes_are_read`).
        ensures any_moment { D.telling →
            LeavesOnly D.moment D.left_since disk.old disk.new (MayHoldNext known.0 known.1) }

        // After a failure the file is one that `settle` settles.
        ensures failed { D.telling → OnErr result (
            IsUnsettled D.written D.may_leave disk.new known.0 known.1) }
        ensures cause { OnErr result (D.failure_count disk.new ≡ D.failure_count disk.old + 1) }
        ensures doubt { OnErr result (D.in_doubt disk.new ≡ true) }
        ensures working { OnOk result ((D.in_doubt disk.new ≡ false)
            × (D.failure_count disk.new ≡ D.failure_count disk.old)) }
        ensures mark { OnOk result ((self.new.first ≡ self.old.first) × (self.new.next ≡ self.old.next + batches)
            × (self.new.page ≡ self.old.page + pages)) }
        ensures room { OnOk result (self.new.room ≡ self.old.room - pages) }
        ensures room_stays { D.telling →
            IsLong D.written D.may_leave disk.old (4096 * (self.old.page + self.old.room)) →
            OnOk result (IsLong D.written D.may_leave disk.new (4096 * (self.new.page + self.new.room))) }
        ensures same { OnErr result (self.new ≡ self.old) }
        ensures tells { D.tells disk.old → D.tells disk.new }
    {
        disk.write_at(4096 * self.page, bytes)?;
        disk.sync()?;
        self.next += batches;
        self.page += pages;
        self.room = self.room.saturating_sub(pages);
        Ok(())
    }
}
