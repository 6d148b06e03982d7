//! Starts a log.
ghost use Rattle.std.specs.Prelude.{◌≡◌, ◌≢◌, ◌⊎◌, ◌↔◌, ℕ, ◌+◌, ◌<◌, ◌≤◌, ◌^◌, List, Option, Some, length, IfOk, IfErr, OnOk};
ghost use Rattle.std.specs.Prelude.{false};
ghost use mathlib.Core.List.{IsPrefix};
ghost use Rattle.batch_store.specs.Books.{AreAccepted, accepted_in};
ghost use Rattle.snap_file.specs.Snapshots.{HasBase};
ghost use Rattle.log_blocks.specs.Blocks.{Block};
ghost use Rattle.log_join.specs.Joins.{known_entries};
ghost use Rattle.log_file.specs.Logs.{Log};
ghost use Rattle.log_file.specs.Writer.{IsSettled};
ghost use Rattle.log_folder.specs.Names.{KeepsName};
ghost use Rattle.log_start.specs.Found.{AreBytesOf};
ghost use Rattle.log_start.specs.Records.{IsLogAs};
ghost use Rattle.log_start.specs.Starts.{FailsNew, FailsToFind, GoesOn, IsJoined, IsList, MayGoOn, RefusesFound};
ghost use Rattle.log_start.specs.Starts.{RefusesStart};
ghost use Rattle.log_start.specs.declared.fault.StartFault.{StartFault};
ghost use Rattle.open_log.specs.Rotations.{HasFound};

use crate::fault::StartFault;
use crate::head::head_of;
use crate::join::{count_of, join_found};
use crate::owner::LogOwner;
use crate::read::read_found;
use crate::settle::settle_found;
use crate::told::{fault_of_log, fault_of_rotate};
use batch_store::{BookList, Setup};
use log_folder::{FoundFile, LogFolder};
use log_head::encode_head;
use log_page::PAGE;
use open_log::{FindFault, OpenLog, begin_log, find_log};
use snap_file::Identity;
use std::alloc::Global;

/// A log in use, the list of all that it and the snapshot have, and whose the log is. Where that isn't known, the log's
/// version doesn't say it. `setup` is that of the log's head: where it is another than the server's, the log is begun
/// anew before a block is appended.
#[derive(Drop)]
pub struct Started<D> {
    pub log: OpenLog<D>,
    pub list: BookList,
    pub identity: Identity,
    pub setup: Setup,
}

// Begins a log behind a list, in the place of what stands under the name.
fn begin_behind<F: LogFolder>(
    folder: &mut F,
    setup: &Setup,
    identity: Identity,
    list: BookList,
) -> Result<Started<F::Disk>, StartFault>
    requires failures { F.failure_count folder.old + 1 < 2 ^ 64 }
    requires accepted { AreAccepted setup.now (accepted_in list) }
    ensures list { IfOk result (λ s. s.list ≡ list) }
    ensures identity { IfOk result (λ s. s.identity ≡ identity) }
    ensures setup { IfOk result (λ s. s.setup ≡ setup.now) }
    ensures log { IfOk result (λ s. (l : Log) × IsLogAs l s.setup s.identity (known_entries s.list) × (F.tells folder.old →
        IsSettled F.Disk.written F.Disk.may_leave s.log.file.disk s.log.writer l)) }
    ensures told { F.tells folder.old → IfOk result (λ s. F.Disk.tells s.log.file.disk) }
    ensures named { F.tells folder.old → IfOk result (λ s. (F.named folder.new ≡ Some s.log.file.number)
        × ((x : Option ℕ) → F.may_name folder.new x → x ≡ Some s.log.file.number)) }
    ensures sound { IfOk result (λ s. (F.Disk.in_doubt s.log.file.disk ≡ false)
        × (F.Disk.failure_count s.log.file.disk ≡ 0)) }
    ensures mark { IfOk result (λ s. (s.log.writer.first ≡ length (known_entries list))
        × (s.log.writer.next ≡ length (known_entries list)) × (s.log.writer.page ≡ 1)
        × (s.log.writer.room ≡ 0)) }
    ensures kept { F.tells folder.old → IfErr result (λ fault. fault ≢ StartFault.Rename →
        KeepsName F.named F.may_name folder.old folder.new) }
    ensures tells { F.tells folder.old ↔ F.tells folder.new }
    ensures failures { OnOk result (F.failure_count folder.new ≡ F.failure_count folder.old) }
    ensures why { IfErr result (FailsNew F.Disk.LogDisk (F.failure_count folder.old) (F.failure_count folder.new)) }
{
    let head = head_of(setup, identity, &list);
    let mut page = [0; PAGE];
    encode_head(&mut page, &head);
    match begin_log(folder, &page, head.first) {
        Ok(log) => Ok(Started {
            log,
            list,
            identity,
            setup: *setup,
        }),
        Err(fault) => Err(fault_of_rotate(fault)),
    }
}

// Starts from the log that was found.
fn start_from<F: LogFolder>(
    folder: &mut F,
    alloc: Global,
    setup: &Setup,
    owner: &LogOwner,
    known: BookList,
    found: FoundFile<F::Disk>,
) -> Result<Started<F::Disk>, StartFault>
    ghost kept: { Log × Block }
    requires teller { (disk : F.Disk) → F.Disk.tells disk → F.tells folder.old }
    requires told { F.tells folder.old → F.Disk.tells found.file.disk
        × (found.length ≡ length (F.Disk.written found.file.disk))
        × MayGoOn F.Disk.LogDisk found.file.disk kept.0 kept.1 }
    requires named { F.tells folder.old → (F.named folder.old ≡ Some found.file.number)
        × ((x : Option ℕ) → F.may_name folder.old x → x ≡ F.named folder.old) }
    requires sound { F.Disk.in_doubt found.file.disk ≡ false }
    requires none_failed { F.Disk.failure_count found.file.disk ≡ 0 }
    requires failures { F.failure_count folder.old + 1 < 2 ^ 64 }
    requires accepted { AreAccepted setup.now (accepted_in known) }
    ensures list { IfOk result (λ s. (bytes : List ℕ) × IsJoined setup.now owner.now known bytes s.list s.identity s.setup
        × AreBytesOf F.Disk.LogDisk found.file.disk found.length bytes) }
    ensures log { IfOk result (λ s. (l : Log) × IsLogAs l s.setup s.identity (known_entries s.list) × (F.tells folder.old →
        IsSettled F.Disk.written F.Disk.may_leave s.log.file.disk s.log.writer l)) }
    ensures file { F.tells folder.old → IfOk result (λ s. (s.log.writer.page ≡ 1)
        ⊎ GoesOn F.Disk.LogDisk found.file.disk s.log.file.disk kept.0 kept.1) }
    ensures told { F.tells folder.old → IfOk result (λ s. F.Disk.tells s.log.file.disk) }
    ensures named { F.tells folder.old → IfOk result (λ s. (F.named folder.new ≡ Some s.log.file.number)
        × ((x : Option ℕ) → F.may_name folder.new x → x ≡ Some s.log.file.number)) }
    ensures sound { IfOk result (λ s. (F.Disk.in_doubt s.log.file.disk ≡ false)
        × (F.Disk.failure_count s.log.file.disk ≡ 0)) }
    ensures mark { IfOk result (λ s. (s.log.writer.next ≡ length (known_entries s.list))
        × (s.log.writer.page ≤ 2 ^ 28) × (s.log.writer.room ≡ 0)) }
    ensures within { IfOk result (λ s. s.log.writer.first ≤ length (known_entries known)) }
    ensures kept { F.tells folder.old → IfErr result (λ fault. fault ≢ StartFault.Rename →
        KeepsName F.named F.may_name folder.old folder.new) }
    ensures tells { F.tells folder.old ↔ F.tells folder.new }
    ensures failures { OnOk result (F.failure_count folder.new ≡ F.failure_count folder.old) }
    ensures why { IfErr result (λ fault. RefusesFound F.Disk.LogDisk found.file.disk found.length kept.0 kept.1
        setup.now owner.now known (F.failure_count folder.old) (F.failure_count folder.new) fault) }
{
    let mut file = found.file;
    let log = match read_found(alloc, &mut file.disk, found.length) {
        Ok(log) => log,
        Err(fault) => return Err(fault_of_log(fault)),
    };
    let list = match join_found(alloc, setup, &owner.known, known, &log) {
        Ok(list) => list,
        Err(fault) => return Err(fault),
    };
    // A log that ends before the snapshot does has no place for the next batch.
    if log.end.next < count_of(&list) {
        let identity = owner.known.or_else(log.head.identity, owner.drawn);
        return begin_behind(folder, setup, identity, list);
    }
    match settle_found(file, &log) {
        Ok(in_use) => Ok(Started {
            log: in_use,
            list,
            identity: log.head.identity,
            setup: log.head.setup,
        }),
        Err(fault) => Err(fault),
    }
}

/// Starts the log of a folder behind a snapshot's list, `known`: what the log has behind the list's end belongs to it
/// too. The file of the log goes on behind its last block; where there is none, or one that ends before the list does,
/// a new log is begun at the list's end. `owner` says whose that is, and whether a log must be there. A log of a
/// version that doesn't say whose it is stays so, and so does one whose setup is another but fits into this one: the
/// caller begins it anew.
///
/// The names are synced first of all, since a kill may have left a rename that isn't durable. Who may meet another that
/// starts the same log takes the lock of its path before. It takes time in proportion to the log's bytes, and the
/// memory of its batches and of a place in a set for each batch.
///
/// # Errors
///
/// None of them is final: the next start finds what this one found. Only after `Rename` nobody knows whether it finds
/// that or a new log of the same list.
///
/// - `Log` with its first fault where the file isn't a log, of more than 2^40 bytes, or can't be read.
/// - `NotFound` where no file is under the name and one must be there.
/// - `OtherBook`, `SetupDiffers`, `Gap`, `LinkDiffers`, `EntryDiffers` and `NotFresh`, the first that holds in this
///   order, where the log doesn't belong to the snapshot, the setup and the list.
/// - `Create` where the file can't be opened, and `Create`, `Write`, `Sync` and `Rename` where that step of a new log
///   failed. `Sync` too where the names couldn't be synced, or a call failed that settles the file.
/// - `Memory` where memory was refused.
pub fn start_log<F: LogFolder>(
    folder: &mut F,
    alloc: Global,
    setup: &Setup,
    owner: &LogOwner,
    known: BookList,
) -> Result<Started<F::Disk>, StartFault>
    // The log that a file under the name has, and the next block, of which it may have any part.
    ghost kept: { Log × Block }
    requires left { F.tells folder.old → (disk : F.Disk) → F.stored folder.old disk → F.Disk.tells disk
        × MayGoOn F.Disk.LogDisk disk kept.0 kept.1 }
    requires failures { F.failure_count folder.old + 1 < 2 ^ 64 }
    requires accepted { AreAccepted setup.now (accepted_in known) }

    // The list is the known one, or that which it and the log make; and the log is the snapshot's, or of one that neither
    // says.
    ensures list { IfOk result (λ s. IsList F.Disk.LogDisk (F.tells folder.old) (F.stored folder.old)
        (F.named folder.old) setup.now owner.now known s.list s.identity s.setup) }
    ensures accepted { IfOk result (λ s. AreAccepted setup.now (accepted_in s.list)) }
    ensures begins { IfOk result (λ s. IsPrefix (known_entries known) (known_entries s.list)) }
    ensures base { IfOk result (λ s. (s.list.base ≡ known.base) × (s.list.folded ≡ known.folded)) }
    ensures based { HasBase setup.now known → IfOk result (λ s. HasBase setup.now s.list) }

    // The log tells all entries of the list, under the setup that is told, and is durable.
    ensures log { IfOk result (λ s. (l : Log) × IsLogAs l s.setup s.identity (known_entries s.list) × (F.tells folder.old →
        IsSettled F.Disk.written F.Disk.may_leave s.log.file.disk s.log.writer l)) }
    ensures told { F.tells folder.old → IfOk result (λ s. F.Disk.tells s.log.file.disk) }
    // A loss of power from then on leaves it under the name.
    ensures named { F.tells folder.old → IfOk result (λ s. (F.named folder.new ≡ Some s.log.file.number)
        × ((x : Option ℕ) → F.may_name folder.new x → x ≡ Some s.log.file.number)) }
    // It is a new log, or in the file that was found, of which a loss of power at any moment left what that had.
    ensures file { F.tells folder.old → IfOk result (λ s. (s.log.writer.page ≡ 1) ⊎ ((old : F.Disk)
        × F.stored folder.old old × GoesOn F.Disk.LogDisk old s.log.file.disk kept.0 kept.1)) }

    ensures sound { IfOk result (λ s. (F.Disk.in_doubt s.log.file.disk ≡ false)
        × (F.Disk.failure_count s.log.file.disk ≡ 0)) }
    ensures mark { IfOk result (λ s. (s.log.writer.next ≡ length (known_entries s.list))
        × (s.log.writer.page ≤ 2 ^ 28) × (s.log.writer.room ≡ 0)) }
    // It begins within the known list, so that the next start with that finds no gap.
    ensures within { IfOk result (λ s. s.log.writer.first ≤ length (known_entries known)) }
    ensures order { OnOk result ((found : F) × HasFound F.call_gives folder.old found) }
    ensures kept { F.tells folder.old → IfErr result (λ fault. fault ≢ StartFault.Rename →
        KeepsName F.named F.may_name folder.old folder.new) }
    ensures tells { F.tells folder.old ↔ F.tells folder.new }
    ensures failures { OnOk result (F.failure_count folder.new ≡ F.failure_count folder.old) }
    ensures why { IfErr result (λ fault.
        FailsToFind F.call_gives folder.old folder.new (F.failure_count folder.old) (F.failure_count folder.new) fault
        ⊎ ((found : F) × HasFound F.call_gives folder.old found
        × RefusesStart F.Disk.LogDisk (F.tells folder.old) (F.stored folder.old) (F.named folder.old) kept.0 kept.1
        setup.now owner.now known (F.failure_count folder.old) (F.failure_count folder.new) fault)) }
{
    match find_log(folder) {
        Err(FindFault::Sync) => Err(StartFault::Sync),
        Err(FindFault::Open) => Err(StartFault::Create),
        Ok(None) if owner.must_be_there => Err(StartFault::NotFound),
        Ok(None) => {
            let identity = owner.known.or_else(Identity::unknown(), owner.drawn);
            begin_behind(folder, setup, identity, known)
        }
        Ok(Some(found)) => start_from(folder, alloc, setup, owner, known, found),
    }
}
