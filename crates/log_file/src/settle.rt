//! Settles the file of a log as a loss of power, a kill or a failure left it.
ghost use Rattle.std.specs.Prelude.{◌≡◌, ◌⊎◌, ℕ, ◌+◌, ◌*◌, ◌<◌, ◌≤◌, ◌^◌, List, length, drop, OnOk, OnErr, IfOk, Ok};
ghost use Rattle.std.specs.Prelude.{true, false};
ghost use Rattle.log_blocks.specs.Blocks.{Block};
ghost use Rattle.log_blocks.specs.Files.{IsSame, recovered};
ghost use Rattle.log_disk.specs.Disk.{Elapses, Follows, LeavesOnly};
ghost use Rattle.log_file.specs.Logs.{Log, IsReadAs, MayHoldNext, with_blocks};
ghost use Rattle.log_file.specs.Writer.{CanSettle, IsSettled, IsUnsettled, Mixes};

use crate::writer::{LogEnd, LogWriter};
use byte_io::DeviceFault;
use log_disk::LogDisk;
use log_page::PAGE;

/// Writes a page again as it is read, so that the next sync makes it durable.
fn write_page_again<D: LogDisk>(disk: &mut D, page: u64) -> Result<(), DeviceFault>
    requires working { D.in_doubt disk.old ≡ false }
    requires failures { D.failure_count disk.old + 1 < 2 ^ 64 }
    requires fits { 4096 * page < 2 ^ 63 }
    ensures same { D.tells disk.old → IsSame (D.written disk.new) (D.written disk.old) }
    ensures longer { D.tells disk.old → length (D.written disk.old) ≤ length (D.written disk.new) }
    ensures fresh { D.tells disk.old → OnOk result ((i : ℕ) → 4096 * page ≤ i → i < 4096 * (page + 1) →
        D.is_fresh disk.new i) }
    ensures still { D.tells disk.old → OnOk result ((i : ℕ) → D.is_fresh disk.old i → D.is_fresh disk.new i) }
    ensures crash { D.tells disk.old →
        Follows (Mixes (D.written disk.old)) (D.may_leave disk.old) (D.may_leave disk.new) }
    ensures time { D.tells disk.old → Elapses (D.moment disk.old) (D.moment disk.new)
        (D.left_since disk.old) (D.left_since disk.new)
        (λ left. D.may_leave disk.old left ⊎ D.may_leave disk.new left) }
    ensures tells { D.tells disk.old → D.tells disk.new }
    ensures sound { OnOk result (D.in_doubt disk.new ≡ false) }
    ensures ok { OnOk result (D.failure_count disk.new ≡ D.failure_count disk.old) }
    ensures err { OnErr result (D.failure_count disk.new ≡ D.failure_count disk.old + 1) }
{
    let mut bytes = [0; PAGE];
    disk.read_at(4096 * page, &mut bytes)?;
    disk.write_at(4096 * page, &bytes)
}

impl LogWriter {
    /// Makes a log that was read settled again, for its next block: what stands behind its blocks is cut off, and the
    /// last of them is written again, or the head where there is none, since it may be in memory alone where the sync
    /// of it failed in an earlier life. All is made durable by one sync.
    ///
    /// `first` is the place of the log's first batch. At `Ok` the log holds exactly the blocks that were read, all
    /// durable. After an Err the file has to be opened and read anew.
    pub fn settle<D: LogDisk>(
        disk: &mut D,
        first: u64,
        end: &LogEnd,
    ) -> Result<LogWriter, DeviceFault>
        ghost known: { Log × Block }
        requires told { D.tells disk.old → CanSettle D.written D.may_leave disk.old first end.now known.0 known.1 }
        requires working { D.in_doubt disk.old ≡ false }
        requires failures { D.failure_count disk.old + 1 < 2 ^ 64 }
        requires fits { 4096 * end.now.page < 2 ^ 63 }

        ensures settled { D.tells disk.old → IfOk result (λ writer. (found : List Block) →
            recovered known.0.first (drop 4096 (D.written disk.old)) ≡ Ok found →
            IsSettled D.written D.may_leave disk.new writer (with_blocks known.0 found)) }

        // A loss of power at any moment leaves a file that `settle` settles: the durable blocks, and any part of the
        // next one. It is read with that one or without (`torn_crashes_are_read`).
        ensures any_moment { D.tells disk.old →
            LeavesOnly D.moment D.left_since disk.old disk.new (MayHoldNext known.0 known.1) }

        // After a loss of power what is read is what is on the disk, and then each loss of power during the call leaves
        // what was read.
        ensures same_list { D.tells disk.old → (found : List Block) →
            recovered known.0.first (drop 4096 (D.written disk.old)) ≡ Ok found →
            ((left : List ℕ) → D.may_leave disk.old left → IsSame left (D.written disk.old)) →
            LeavesOnly D.moment D.left_since disk.old disk.new (IsReadAs (with_blocks known.0 found)) }

        // After a failure the file is one that `settle` settles.
        ensures failed { D.tells disk.old → OnErr result (
            IsUnsettled D.written D.may_leave disk.new known.0 known.1) }
        ensures mark { IfOk result (λ writer. (writer.first ≡ first) × (writer.next ≡ end.now.next)
            × (writer.page ≡ end.now.page) × (writer.room ≡ 0)) }
        ensures working { OnOk result ((D.in_doubt disk.new ≡ false)
            × (D.failure_count disk.new ≡ D.failure_count disk.old)) }
        ensures cause { OnErr result (D.failure_count disk.new ≡ D.failure_count disk.old + 1) }
        ensures tells { D.tells disk.old → D.tells disk.new }
    {
        disk.cut(4096 * end.page)?;
        for page in end.last..end.page {
            write_page_again(disk, page)?;
        }
        disk.sync()?;
        Ok(LogWriter::new(first, end))
    }
}
