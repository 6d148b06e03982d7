//! Goes on with the log that was read, in its file.
ghost use Rattle.std.specs.Prelude.{◌≡◌, ℕ, ◌+◌, ◌<◌, ◌≤◌, ◌^◌, List, take, IfOk, IfErr, OnErr, false};
ghost use Rattle.batch_store.specs.Batches.{Submission};
ghost use Rattle.log_blocks.specs.Blocks.{Block};
ghost use Rattle.log_head.specs.declared.head.LogHead.{LogHead};
ghost use Rattle.log_disk.specs.Disk.{LeavesOnly};
ghost use Rattle.log_file.specs.Logs.{Log, MayHoldNext};
ghost use Rattle.log_file.specs.Writer.{IsSettled, IsUnsettled};
ghost use Rattle.log_start.specs.Found.{IsFound, ReadsAs};
ghost use Rattle.log_start.specs.Records.{log_in};
ghost use Rattle.log_start.specs.Starts.{GoesOn, WasLeft};
ghost use Rattle.log_start.specs.declared.fault.StartFault.{StartFault};

use crate::fault::StartFault;
use crate::read::FoundLog;
use log_disk::LogDisk;
use log_file::LogWriter;
use log_folder::NumberedFile;
use open_log::OpenLog;

/// Goes on with a log behind its last block: what stands behind that is cut off, and it is written again and synced.
///
/// # Errors
///
/// `Sync` where a call of the file failed. Then it is to be opened and read anew.
pub fn settle_found<D: LogDisk + Drop>(
    file: NumberedFile<D>,
    log: &FoundLog,
) -> Result<OpenLog<D>, StartFault>
    ghost kept: { Log × Block }
    requires told { D.tells file.disk →
        IsFound (D.written file.disk) log.now × WasLeft D.LogDisk file.disk kept.0 kept.1 }
    requires few { log.now.end.page ≤ 2 ^ 28 }
    requires sound { D.in_doubt file.disk ≡ false }
    requires failures { D.failure_count file.disk + 1 < 2 ^ 64 }
    ensures settled { D.tells file.disk → IfOk result (λ o. (head : LogHead) (lists : List (List Submission)) →
        ReadsAs (D.written file.disk) head lists → IsSettled D.written D.may_leave o.file.disk o.writer
        (log_in (take 4096 (D.written file.disk)) head.first lists)) }
    ensures goes_on { D.tells file.disk → IfOk result (λ o.
        GoesOn D.LogDisk file.disk o.file.disk kept.0 kept.1) }
    ensures told { D.tells file.disk → IfOk result (λ o. D.tells o.file.disk) }
    ensures number { IfOk result (λ o. o.file.number ≡ file.number) }
    ensures sound { IfOk result (λ o. (D.in_doubt o.file.disk ≡ false)
        × (D.failure_count o.file.disk ≡ D.failure_count file.disk)) }
    ensures mark { IfOk result (λ o. (o.writer.first ≡ log.now.head.first)
        × (o.writer.next ≡ log.now.end.next) × (o.writer.page ≡ log.now.end.page)
        × (o.writer.room ≡ 0)) }
    ensures why { IfErr result (λ fault. fault ≡ StartFault.Sync) }
    // After a failure the file is one that can be settled again, and so is what a loss of power left meanwhile.
    ensures failed { OnErr result ((after : D) × (D.failure_count after ≡ D.failure_count file.disk + 1)
        × (D.tells file.disk → IsUnsettled D.written D.may_leave after kept.0 kept.1
        × LeavesOnly D.moment D.left_since file.disk after (MayHoldNext kept.0 kept.1))) }
{
    let mut file = file;
    match LogWriter::settle(&mut file.disk, log.head.first, &log.end) {
        Ok(writer) => Ok(OpenLog { file, writer }),
        Err(_) => Err(StartFault::Sync),
    }
}
