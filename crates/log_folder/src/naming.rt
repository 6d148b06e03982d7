//! A new file of a log, from its making to its name.
ghost use Rattle.std.specs.Prelude.{◌≡◌, ◌≢◌, ◌↔◌, ◌⊎◌, ℕ, ◌+◌, ◌<◌, ◌^◌, Option, Some, IfOk, IfErr, OnErr, OnOk, false};
ghost use Rattle.log_folder.specs.declared.fault.RotateFault.{RotateFault};
ghost use Rattle.log_folder.specs.Names.{KeepsName, IsFreshFile, IsDurable, HasHead, HasTakenName, HasFailedToName};
ghost use Rattle.log_folder.specs.Names.{HasFailedFile, failed_calls};

use crate::calls::{LogFolder, NumberedFile};
use crate::fault::RotateFault;
use byte_io::DeviceFault;
use log_disk::LogDisk;

/// Writes the head of a log to its file, which is empty, and syncs it.
fn write_head<D: LogDisk>(disk: &mut D, head: &[u8]) -> Result<(), RotateFault>
    requires fresh { D.tells disk.old → IsFreshFile D.written D.may_leave disk.old }
    requires sound { D.in_doubt disk.old ≡ false }
    requires failures { D.failure_count disk.old + 1 < 2 ^ 64 }
    ensures head { D.tells disk.old → OnOk result (HasHead D.tells D.written D.may_leave disk.new head.now) }
    ensures why { IfErr result (λ fault. (fault ≡ RotateFault.Write) ⊎ (fault ≡ RotateFault.Sync)) }
    ensures sound { OnOk result (D.in_doubt disk.new ≡ false) }
    ensures failures { OnOk result (D.failure_count disk.new ≡ D.failure_count disk.old) }
    ensures cause { IfErr result (λ fault. failed_calls fault ≡ 0) }
    ensures file { IfErr result (HasFailedFile D.in_doubt) }
{
    let Ok(()) = disk.write_at(0, head) else {
        return Err(RotateFault::Write);
    };
    let Ok(()) = disk.sync() else {
        return Err(RotateFault::Sync);
    };
    Ok(())
}

/// Makes the new file of a log with this head, and syncs it. The file in use under the name isn't touched.
///
/// # Errors
///
/// `Create`, `Write` or `Sync` where that step failed. The new file is removed then, where that can be done; if not,
/// the next that is made takes its place.
pub fn make_with_head<F: LogFolder>(
    folder: &mut F,
    head: &[u8],
) -> Result<NumberedFile<F::Disk>, RotateFault>
    requires { F.failure_count folder.old + 1 < 2 ^ 64 }
    // The file has the head, and is durable.
    ensures head { F.tells folder.old →
        IfOk result (λ file. HasHead F.Disk.tells F.Disk.written F.Disk.may_leave file.disk head.now) }
    ensures made { F.tells folder.old → IfOk result (λ file. F.made folder.new ≡ Some file.number) }
    // The name was left alone.
    ensures why { IfErr result (λ fault. fault ≢ RotateFault.Rename) }
    ensures sound { IfOk result (λ file.
        (F.Disk.in_doubt file.disk ≡ false) × (F.Disk.failure_count file.disk ≡ 0)) }
    ensures tells { F.tells folder.old ↔ F.tells folder.new }
    // The file under the name stays the one that a loss of power leaves there.
    ensures same { F.tells folder.old → KeepsName F.named F.may_name folder.old folder.new }
    ensures failures { OnOk result (F.failure_count folder.new ≡ F.failure_count folder.old) }
    ensures cause { IfErr result (λ fault.
        F.failure_count folder.new ≡ F.failure_count folder.old + failed_calls fault) }
    ensures file { IfErr result (HasFailedFile F.Disk.in_doubt) }
{
    let Ok(mut file) = folder.make_new() else {
        return Err(RotateFault::Create);
    };
    match write_head(&mut file.disk, head) {
        Ok(()) => Ok(file),
        Err(fault) => {
            drop(file);
            folder.remove_new();
            Err(fault)
        }
    }
}

/// Gives the new file of a log the name, and then syncs the folder. From an Ok on a loss of power leaves it there; at
/// each moment before it leaves what stood there, or the new file, which is durable.
///
/// # Errors
///
/// `DeviceFault` where one of the two calls failed. Then nobody knows which of the files a loss of power leaves there.
pub fn give_name<F: LogFolder>(
    folder: &mut F,
    file: &NumberedFile<F::Disk>,
) -> Result<(), DeviceFault>
    requires failures { F.failure_count folder.old + 1 < 2 ^ 64 }
    requires made { F.tells folder.old → F.made folder.old ≡ Some file.now.number }
    requires durable { F.tells folder.old → IsDurable F.Disk.written F.Disk.may_leave file.now.disk }
    ensures ok { OnOk result
        (HasTakenName F.call_gives F.tells F.named F.may_name folder.old folder.new file.now.number) }
    ensures err { OnErr result
        (HasFailedToName F.call_gives F.tells F.named F.may_name folder.old folder.new file.now.number) }
    ensures lost { OnErr result F.Disk.lost_name }
    ensures tells { F.tells folder.old ↔ F.tells folder.new }
    ensures no_failure { OnOk result (F.failure_count folder.new ≡ F.failure_count folder.old) }
    ensures one_failure { OnErr result (F.failure_count folder.new ≡ F.failure_count folder.old + 1) }
{
    folder.take_name(file)?;
    folder.sync_names()
}

/// Makes the new file of a log with this head, and gives it the name, in the place of a file that stands there.
///
/// # Errors
///
/// `Create`, `Write` and `Sync` leave the name as it was. After `Rename` a loss of power may leave either file there.
pub fn begin_named<F: LogFolder>(
    folder: &mut F,
    head: &[u8],
) -> Result<NumberedFile<F::Disk>, RotateFault>
    requires { F.failure_count folder.old + 1 < 2 ^ 64 }
    ensures head { F.tells folder.old →
        IfOk result (λ file. HasHead F.Disk.tells F.Disk.written F.Disk.may_leave file.disk head.now) }
    // From then on a loss of power leaves this file under the name.
    ensures named { F.tells folder.old → IfOk result (λ file. (F.named folder.new ≡ Some file.number)
        × ((x : Option ℕ) → F.may_name folder.new x → x ≡ Some file.number)) }
    ensures sound { IfOk result (λ file.
        (F.Disk.in_doubt file.disk ≡ false) × (F.Disk.failure_count file.disk ≡ 0)) }
    ensures kept { F.tells folder.old → IfErr result (λ fault. fault ≢ RotateFault.Rename →
        KeepsName F.named F.may_name folder.old folder.new) }
    ensures tells { F.tells folder.old ↔ F.tells folder.new }
    ensures failures { OnOk result (F.failure_count folder.new ≡ F.failure_count folder.old) }
    ensures cause { IfErr result (λ fault.
        F.failure_count folder.new ≡ F.failure_count folder.old + failed_calls fault) }
    ensures file { IfErr result (HasFailedFile F.Disk.in_doubt) }
{
    let file = make_with_head(folder, head)?;
    match give_name(folder, &file) {
        Ok(()) => Ok(file),
        Err(_) => Err(RotateFault::Rename),
    }
}
