//! The steps by which a new log takes the place of the one in use, behind a snapshot.
ghost use Rattle.std.specs.Prelude.{◌≡◌, ◌↔◌, ◌+◌, ◌<◌, ◌^◌, Some, None, IfOk, IfErr, IfSome, OnOk, OnErr, true, false};
ghost use Rattle.batch_store.specs.Accepted.{entries_in};
ghost use Rattle.batch_store.specs.Books.{AreAccepted, accepted_in};
ghost use Rattle.log_file.specs.Logs.{Log};
ghost use Rattle.log_file.specs.Writer.{IsSettled};
ghost use Rattle.log_folder.specs.Names.{KeepsName, HasTakenName, HasFailedToName};
ghost use Rattle.log_folder.specs.declared.fault.RotateFault.{RotateFault};
ghost use Rattle.log_join.specs.Joins.{known_entries};
ghost use Rattle.log_start.specs.Records.{IsLogAs};
ghost use Rattle.stored_log.specs.Kept.{HasFailed, WasSynced, is_failed, number_of};
ghost use Rattle.stored_log.specs.Begun.{HasNotBegun};

use crate::fault::StoredFault;
use crate::stored::StoredLog;
use batch_store::{BookList, Setup};
use log_folder::{LogFolder, RotateFault};
use log_head::encode_head;
use log_page::PAGE;
use log_start::head_of;
use open_log::{abandon_rotation, begin_rotation, finish_rotation};
use snap_file::Identity;
use std::alloc::Global;

/// Makes a new log of this identity beside the one in use, of no blocks, after all that a list has. The one in use isn't touched; of
/// its batches those behind the list's are to be appended to the new one.
///
/// # Errors
///
/// `File` where its file couldn't be made, written or synced, and `Memory` for its buffer; the new file is removed
/// then, where that can be done.
pub fn begin_stored<F: LogFolder>(
    folder: &mut F,
    alloc: Global,
    setup: &Setup,
    identity: Identity,
    list: &BookList,
) -> Result<StoredLog<F::Disk>, StoredFault>
    requires failures { F.failure_count folder.old + 1 < 2 ^ 64 }
    requires accepted { AreAccepted setup.now (accepted_in list.now) }
    ensures entries { IfOk result (λ s. s.entries ≡ entries_in (accepted_in list.now)) }
    ensures works { IfOk result (λ s. is_failed F.Disk.in_doubt s.in_use ≡ false) }
    ensures synced { OnOk result (WasSynced F.Disk.telling F.Disk.tells F.Disk.written F.Disk.may_leave
        (entries_in (accepted_in list.now))) }
    // The file is a log of this setup and this identity.
    ensures log { IfOk result (λ s. IfSome s.in_use (λ o. (l : Log) × IsLogAs l setup.now identity (known_entries list.now)
        × (F.tells folder.old → IsSettled F.Disk.written F.Disk.may_leave o.file.disk o.writer l))) }
    ensures made { F.tells folder.old → IfOk result (λ s. F.made folder.new ≡ number_of s.in_use) }
    ensures tells { F.tells folder.old ↔ F.tells folder.new }
    // The log in use stays the one that a loss of power leaves under the name.
    ensures same { F.tells folder.old → KeepsName F.named F.may_name folder.old folder.new }
    ensures failures { OnOk result (F.failure_count folder.new ≡ F.failure_count folder.old) }
    ensures why { IfErr result (HasNotBegun F.Disk.in_doubt (F.failure_count folder.old)
        (F.failure_count folder.new)) }
{
    let head = head_of(setup, identity, list);
    let mut page = [0; PAGE];
    encode_head(&mut page, &head);
    let log = match begin_rotation(folder, &page, head.first) {
        Ok(log) => log,
        Err(fault) => return Err(StoredFault::File(fault)),
    };
    let Ok(new) = StoredLog::new(alloc, log, list, false) else {
        folder.remove_new();
        return Err(StoredFault::Memory);
    };
    Ok(new)
}

/// Gives a new log up that has no name yet: it is closed, and removed where that can be done.
pub fn abandon_stored<F: LogFolder>(folder: &mut F, new: StoredLog<F::Disk>)
    ensures tells { F.tells folder.old ↔ F.tells folder.new }
    ensures same { F.tells folder.old → KeepsName F.named F.may_name folder.old folder.new }
    ensures failures { F.failure_count folder.new ≡ F.failure_count folder.old }
{
    let StoredLog {
        in_use,
        block: _,
        told: _,
        is_named: _,
    } = new;
    match in_use {
        Some(log) => abandon_rotation(folder, log),
        None => folder.remove_new(),
    }
}

/// The last step: gives the new log the name, and makes that durable; then it is the one in use. Nobody may write to
/// the one in use from before its last batches went into the new one.
///
/// At each moment a loss of power leaves under the name what it might have left before, or the new log, which is whole
/// and durable already; from an Ok on it leaves the new log.
///
/// # Errors
///
/// `Rename`, where the new file wasn't renamed or the folder not synced. Then the log in use is failed: a loss of power
/// may leave either, so nothing that was written to one of them could be told as durable.
pub fn name_stored<F: LogFolder>(
    folder: &mut F,
    in_use: &mut StoredLog<F::Disk>,
    new: StoredLog<F::Disk>,
) -> Result<(), RotateFault>
    requires failures { F.failure_count folder.old + 1 < 2 ^ 64 }
    requires works { is_failed F.Disk.in_doubt new.in_use ≡ false }
    requires made { F.tells folder.old → F.made folder.old ≡ number_of new.in_use }
    ensures in_use { OnOk result (in_use.new ≡ record new { named = true }) }
    ensures failed { OnErr result (is_failed F.Disk.in_doubt in_use.new.in_use ≡ true) }
    ensures lost { OnErr result F.Disk.lost_name }
    ensures told { OnErr result (HasFailed F.Disk.in_doubt F.Disk.lost_name) }
    ensures ok { OnOk result (IfSome new.in_use (λ log.
        HasTakenName F.call_gives F.tells F.named F.may_name folder.old folder.new log.file.number)) }
    ensures err { OnErr result (IfSome new.in_use (λ log.
        HasFailedToName F.call_gives F.tells F.named F.may_name folder.old folder.new log.file.number)) }
    ensures why { IfErr result (λ fault. fault ≡ RotateFault.Rename) }
    ensures tells { F.tells folder.old ↔ F.tells folder.new }
    ensures no_failure { OnOk result (F.failure_count folder.new ≡ F.failure_count folder.old) }
    ensures one_failure { OnErr result (F.failure_count folder.new ≡ F.failure_count folder.old + 1) }
{
    let StoredLog {
        in_use: log,
        block,
        told,
        is_named: _,
    } = new;
    let Some(log) = log else {
        unreachable!();
    };
    let mut named = None;
    if let Err(fault) = finish_rotation(folder, &mut named, log) {
        in_use.in_use = None;
        return Err(fault);
    }
    *in_use = StoredLog {
        in_use: named,
        block,
        told,
        is_named: true,
    };
    Ok(())
}
