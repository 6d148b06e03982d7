//! The steps by which a new log takes the place of the one in use.
ghost use Rattle.std.specs.Prelude.{◌≡◌, ◌≢◌, ◌↔◌, ◌+◌, ◌<◌, ◌^◌, Some, None, IfOk, OnOk, OnErr, IfErr, false};
ghost use Rattle.log_folder.specs.Names.{HasFailedFile, KeepsName, HasTakenName, HasFailedToName, failed_calls};
ghost use Rattle.log_folder.specs.declared.fault.RotateFault.{RotateFault};
ghost use Rattle.log_file.specs.Logs.{Log};
ghost use Rattle.log_file.specs.Writer.{IsSettled};
ghost use Rattle.open_log.specs.Rotations.{begun};

use crate::log::OpenLog;
use log_file::{LogEnd, LogWriter};
use log_folder::{LogFolder, RotateFault, give_name, make_with_head};
use log_page::PAGE;

/// The writer of a log without blocks, whose first batch has this place.
pub(crate) fn empty_writer(first: u64) -> LogWriter
    ensures first { result.first ≡ first }
    ensures next { result.next ≡ first }
    ensures page { result.page ≡ 1 }
    ensures room { result.room ≡ 0 }
{
    let end = LogEnd {
        next: first,
        page: 1,
        last: 0,
    };
    LogWriter::new(first, &end)
}

/// Makes a new log beside the name, of this head and no blocks, whose first batch has the place `first`. The log in use
/// isn't touched; of its batches those that the snapshot hasn't are to be appended to the new one.
///
/// # Errors
///
/// `Create`, `Write` or `Sync` where that step failed; the new file is removed then, where that can be done.
pub fn begin_rotation<F: LogFolder>(
    folder: &mut F,
    head: &[u8; PAGE],
    first: u64,
) -> Result<OpenLog<F::Disk>, RotateFault>
    requires { F.failure_count folder.old + 1 < 2 ^ 64 }
    ensures settled { F.tells folder.old → IfOk result (λ log.
        IsSettled F.Disk.written F.Disk.may_leave log.file.disk log.writer (begun head.now first)) }
    ensures told { F.tells folder.old → IfOk result (λ log. F.Disk.tells log.file.disk) }
    ensures made { F.tells folder.old → IfOk result (λ log. F.made folder.new ≡ Some log.file.number) }
    ensures why { IfErr result (λ fault. fault ≢ RotateFault.Rename) }
    ensures sound { IfOk result (λ log.
        (F.Disk.in_doubt log.file.disk ≡ false) × (F.Disk.failure_count log.file.disk ≡ 0)) }
    ensures mark { IfOk result (λ log. (log.writer.first ≡ first) × (log.writer.next ≡ first)
        × (log.writer.page ≡ 1) × (log.writer.room ≡ 0)) }
    ensures tells { F.tells folder.old ↔ F.tells folder.new }
    // The log in use stays the one that a loss of power leaves under the name.
    ensures same { F.tells folder.old → KeepsName F.named F.may_name folder.old folder.new }
    ensures failures { OnOk result (F.failure_count folder.new ≡ F.failure_count folder.old) }
    ensures cause { IfErr result (λ fault.
        F.failure_count folder.new ≡ F.failure_count folder.old + failed_calls fault) }
    ensures file { IfErr result (HasFailedFile F.Disk.in_doubt) }
{
    let file = make_with_head(folder, head)?;
    Ok(OpenLog {
        file,
        writer: empty_writer(first),
    })
}

/// Gives a rotation up before its last step, as where a block couldn't be appended to the new log: that is closed, and
/// removed where that can be done. The log in use isn't touched.
pub fn abandon_rotation<F: LogFolder>(folder: &mut F, new: OpenLog<F::Disk>)
    ensures tells { F.tells folder.old ↔ F.tells folder.new }
    ensures same { F.tells folder.old → KeepsName F.named F.may_name folder.old folder.new }
    ensures failures { F.failure_count folder.new ≡ F.failure_count folder.old }
{
    drop(new);
    folder.remove_new();
}

/// The last step: gives the new log the name, and makes that durable. From then on the new one is in use, and the old
/// one is closed. Nobody may write to the old one from before its last batches went into the new one.
///
/// At each moment a loss of power leaves under the name what it might have left before, or the new log, which is whole
/// and durable already; from an Ok on it leaves the new log.
///
/// # Errors
///
/// `Rename`, where the new log wasn't renamed or the folder not synced. Then none is in use: a loss of power may leave
/// either, so nothing that was written to one of them could be told as durable. The next rotation is the way out.
pub fn finish_rotation<F: LogFolder>(
    folder: &mut F,
    in_use: &mut Option<OpenLog<F::Disk>>,
    new: OpenLog<F::Disk>,
) -> Result<(), RotateFault>
    ghost log: { Log }
    requires failures { F.failure_count folder.old + 1 < 2 ^ 64 }
    requires made { F.tells folder.old → F.made folder.old ≡ Some new.file.number }
    requires settled { F.tells folder.old →
        IsSettled F.Disk.written F.Disk.may_leave new.file.disk new.writer log }
    ensures in_use { OnOk result (in_use.new ≡ Some new) }
    ensures none_in_use { OnErr result (in_use.new ≡ None) }
    ensures ok { OnOk result
        (HasTakenName F.call_gives F.tells F.named F.may_name folder.old folder.new new.file.number) }
    ensures err { OnErr result
        (HasFailedToName F.call_gives F.tells F.named F.may_name folder.old folder.new new.file.number) }
    ensures why { IfErr result (λ fault. fault ≡ RotateFault.Rename) }
    ensures lost { OnErr result F.Disk.lost_name }
    ensures tells { F.tells folder.old ↔ F.tells folder.new }
    ensures no_failure { OnOk result (F.failure_count folder.new ≡ F.failure_count folder.old) }
    ensures one_failure { OnErr result (F.failure_count folder.new ≡ F.failure_count folder.old + 1) }
{
    *in_use = None;
    match give_name(folder, &new.file) {
        Ok(()) => {
            *in_use = Some(new);
            Ok(())
        }
        Err(_) => Err(RotateFault::Rename),
    }
}
