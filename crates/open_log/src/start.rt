//! How a log is found at a start, and begun where there is none.
ghost use Rattle.std.specs.Prelude.{◌≡◌, ◌↔◌, ◌≢◌, ℕ, ◌+◌, ◌<◌, ◌^◌, length, Option, Some, None, IfOk, IfErr, IfSome};
ghost use Rattle.std.specs.Prelude.{IfNone, OnOk, OnErr, false};
ghost use Rattle.log_folder.specs.Names.{HasFailedFile, KeepsName, failed_calls};
ghost use Rattle.log_folder.specs.declared.fault.RotateFault.{RotateFault};
ghost use Rattle.log_file.specs.Writer.{IsSettled};
ghost use Rattle.open_log.specs.Rotations.{begun, HasFound, HasNotFound};

use crate::fault::FindFault;
use crate::log::OpenLog;
use crate::rotation::empty_writer;
use log_folder::{FoundFile, LogFolder, RotateFault, begin_named};
use log_page::PAGE;

/// Finds the file of the log at a start, None where nothing stands under the name. Before that the names are synced: a
/// kill may have left a rename that isn't durable, and what is read must be what a loss of power leaves.
///
/// # Errors
///
/// `Sync` where the names couldn't be synced, and `Open` where the file couldn't be opened.
pub fn find_log<F: LogFolder>(folder: &mut F) -> Result<Option<FoundFile<F::Disk>>, FindFault>
    requires { F.failure_count folder.old + 1 < 2 ^ 64 }
    // A loss of power from then on leaves the file under the name that was found, or none.
    ensures durable { F.tells folder.old → OnOk result ((x : Option ℕ) →
        F.may_name folder.new x → x ≡ F.named folder.new) }
    ensures found { F.tells folder.old → IfOk result (λ found. IfSome found (λ f.
        F.stored folder.old f.file.disk × (F.named folder.new ≡ Some f.file.number)
        × (f.length ≡ length (F.Disk.written f.file.disk)))) }
    // Files that tell what they hold are those of a folder that tells.
    ensures teller { OnOk result ((disk : F.Disk) → F.Disk.tells disk → F.tells folder.old) }
    ensures none { F.tells folder.old → IfOk result (λ found. IfNone found (F.named folder.new ≡ None)) }
    ensures order { OnOk result (HasFound F.call_gives folder.old folder.new) }
    ensures why { IfErr result (HasNotFound F.call_gives folder.old folder.new) }
    ensures same { F.tells folder.old → KeepsName F.named F.may_name folder.old folder.new }
    ensures sound { IfOk result (λ found. IfSome found (λ f.
        (F.Disk.in_doubt f.file.disk ≡ false) × (F.Disk.failure_count f.file.disk ≡ 0))) }
    ensures tells { F.tells folder.old ↔ F.tells folder.new }
    ensures no_failure { OnOk result (F.failure_count folder.new ≡ F.failure_count folder.old) }
    ensures one_failure { OnErr result (F.failure_count folder.new ≡ F.failure_count folder.old + 1) }
{
    let Ok(()) = folder.sync_names() else {
        return Err(FindFault::Sync);
    };
    match folder.find() {
        Ok(found) => Ok(found),
        Err(_) => Err(FindFault::Open),
    }
}

/// Begins a log under the name, of this head and no blocks, in the place of one that stands there: where there is no
/// log yet, or one that ends before the snapshot does. Its first batch has the place `first`.
///
/// # Errors
///
/// `Create`, `Write` and `Sync` leave what stood under the name. After `Rename` a loss of power may leave either.
pub fn begin_log<F: LogFolder>(
    folder: &mut F,
    head: &[u8; PAGE],
    first: u64,
) -> Result<OpenLog<F::Disk>, RotateFault>
    requires { F.failure_count folder.old + 1 < 2 ^ 64 }
    ensures settled { F.tells folder.old → IfOk result (λ log.
        IsSettled F.Disk.written F.Disk.may_leave log.file.disk log.writer (begun head.now first)) }
    ensures told { F.tells folder.old → IfOk result (λ log. F.Disk.tells log.file.disk) }
    // From then on a loss of power leaves this log under the name.
    ensures named { F.tells folder.old → IfOk result (λ log. (F.named folder.new ≡ Some log.file.number)
        × ((x : Option ℕ) → F.may_name folder.new x → x ≡ Some log.file.number)) }
    ensures sound { IfOk result (λ log.
        (F.Disk.in_doubt log.file.disk ≡ false) × (F.Disk.failure_count log.file.disk ≡ 0)) }
    ensures mark { IfOk result (λ log. (log.writer.first ≡ first) × (log.writer.next ≡ first)
        × (log.writer.page ≡ 1) × (log.writer.room ≡ 0)) }
    ensures kept { F.tells folder.old → IfErr result (λ fault. fault ≢ RotateFault.Rename →
        KeepsName F.named F.may_name folder.old folder.new) }
    ensures tells { F.tells folder.old ↔ F.tells folder.new }
    ensures failures { OnOk result (F.failure_count folder.new ≡ F.failure_count folder.old) }
    ensures cause { IfErr result (λ fault.
        F.failure_count folder.new ≡ F.failure_count folder.old + failed_calls fault) }
    ensures file { IfErr result (HasFailedFile F.Disk.in_doubt) }
{
    let file = begin_named(folder, head)?;
    Ok(OpenLog {
        file,
        writer: empty_writer(first),
    })
}
