//! Laws of what a file with a log is read as.
ghost use Rattle.std.specs.Prelude.{◌≡◌, ◌⊎◌, ℕ, List};
ghost use Rattle.log_blocks.specs.Blocks.{Block, IsBlock};
ghost use Rattle.log_disk.specs.Disk.{LeavesOnly};
ghost use Rattle.log_file.specs.Logs.{Log, IsLog, HoldsLog, MayHoldNext, IsReadAs, IsBeforeOrAfter};

use log_disk::LogDisk;

/// A file that is a log is read as that log.
pub fn settled_logs_are_read()
    ensures { (log : Log) (file : List ℕ) → IsLog log → HoldsLog log file → IsReadAs log file }
{}

/// A file that has some of the next block is read as the log without it or with it, and nothing else.
pub fn torn_logs_are_read()
    ensures { (log : Log) (block : Block) (file : List ℕ) → IsLog log → IsBlock block →
        MayHoldNext log block file → IsBeforeOrAfter log block file }
{}

/// Where each loss of power leaves some of the next block, what it leaves is read as the log without it or with it, and
/// nothing else.
pub fn torn_crashes_are_read<D: LogDisk>()
    ensures { (old : D) (new : D) (log : Log) (block : Block) → IsLog log → IsBlock block →
        LeavesOnly D.moment D.left_since old new (MayHoldNext log block) →
        LeavesOnly D.moment D.left_since old new (IsBeforeOrAfter log block) }
{}
