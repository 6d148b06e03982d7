//! Starts of a log on what a loss of power has left: within an append, within an earlier start, or once a new log has
//! taken the name.
//!
//! They are here for their proofs, and no server calls them: what a loss of power leaves is what the next start asks.
ghost use Rattle.std.specs.Prelude.{◌≡◌, ◌≢◌, ℕ, ◌+◌, ◌<◌, ◌^◌, List, Option, Some, None, IfOk, IfSome};
ghost use Rattle.batch_store.specs.Books.{AreAccepted, accepted_in};
ghost use Rattle.log_blocks.specs.Blocks.{Block};
ghost use Rattle.log_file.specs.Logs.{Log, MayHoldNext};
ghost use Rattle.log_file.specs.Writer.{CanAppend, HasRoom};
ghost use Rattle.open_log.specs.Rotations.{begun};
ghost use Rattle.log_start.specs.Restarts.{CanTake, HasNextOrNot, HasOwnHead, IsLeftOf};
ghost use Rattle.log_start.specs.Starts.{WasLeft};

use crate::fault::StartFault;
use crate::owner::LogOwner;
use crate::start::{Started, start_log};
use crate::told::fault_of_rotate;
use batch_store::{BookList, Setup};
use log_folder::LogFolder;
use log_page::PAGE;
use open_log::{OpenLog, begin_rotation, finish_rotation};
use std::alloc::Global;

/// A loss of power, for whoever starts the log of a folder again.
pub trait PowerLoss<F: LogFolder> {
    // It comes at this moment of a file, or at a later one.
    ghost comes_since: { Self → ℕ → Type 0 };

    /// It may come from now on.
    fn watch(&mut self, disk: &F::Disk)
        ensures { comes_since self.new (F.Disk.moment disk.now) };

    /// It has come. The folder after it has under the name what was left of this file.
    fn lose(self, disk: F::Disk) -> F
        ensures left { F.Disk.tells disk → (since : ℕ) → comes_since self since → (found : F.Disk) →
            F.stored result found → IsLeftOf F.Disk.LogDisk since disk found }
        ensures named { F.tells result → F.named result ≢ None }
        ensures failures { F.failure_count result ≡ 0 };
}

/// What a start is given beside the folder.
#[derive(Drop)]
pub struct StartInput {
    pub alloc: Global,
    pub setup: Setup,
    pub owner: LogOwner,
    pub known: BookList,
}

/// The bytes of a block, and how many pages and batches it has.
#[derive(Clone, Copy)]
pub struct NextBlock<'a> {
    pub bytes: &'a [u8],
    pub pages: u64,
    pub batches: u64,
}

/// Starts the log after a loss of power that left it, and of the next block any part.
fn start_after<F: LogFolder + Drop, P: PowerLoss<F> + Drop>(
    disk: F::Disk,
    power: P,
    input: StartInput,
) -> Result<Started<F::Disk>, StartFault>
    ghost kept: { Log × Block }
    requires takes { F.Disk.telling → CanTake kept.0 kept.1 }
    requires left { F.Disk.telling → F.Disk.tells disk × (since : ℕ) × P.comes_since power since
        × ((left : List ℕ) → F.Disk.left_since disk since left → MayHoldNext kept.0 kept.1 left) }
    requires accepted { AreAccepted input.setup (accepted_in input.known) }
    ensures list { F.Disk.telling → IfOk result (λ s. HasNextOrNot kept.0 kept.1 input.setup input.owner input.known
        s.list s.identity s.setup) }
{
    let mut folder = power.lose(disk);
    let StartInput {
        alloc,
        setup,
        owner,
        known,
    } = input;
    start_log(&mut folder, alloc, &setup, &owner, known)
}

/// Appends a block, loses power at any moment of that or later, and starts the log again. That has the log's blocks,
/// with the new one or without.
pub fn append_and_start<F: LogFolder + Drop, P: PowerLoss<F> + Drop>(
    log: OpenLog<F::Disk>,
    next: NextBlock<'_>,
    power: P,
    input: StartInput,
) -> Result<Started<F::Disk>, StartFault>
    ghost known: { Log × Block }
    requires told { F.Disk.telling → F.Disk.tells log.file.disk × HasOwnHead known.0
        × CanAppend F.Disk.written F.Disk.may_leave log.file.disk log.writer known.0 known.1 next.bytes.now next.pages
        next.batches }
    requires fits { HasRoom F.Disk.in_doubt F.Disk.failure_count log.file.disk log.writer next.pages next.batches }
    requires accepted { AreAccepted input.setup (accepted_in input.known) }
    ensures list { F.Disk.telling → IfOk result (λ s. HasNextOrNot known.0 known.1 input.setup input.owner
        input.known s.list s.identity s.setup) }
{
    let OpenLog { file, mut writer } = log;
    let mut disk = file.disk;
    let mut power = power;
    power.watch(&disk);
    let _ = writer.append(&mut disk, next.bytes, next.pages, next.batches);
    start_after(disk, power, input)
}

/// Starts a log, loses power at any moment of that or later, and starts it again. That has the blocks which the first
/// start could find, no matter how far it came. None where the first has begun a new log, or found one without blocks.
pub fn start_and_start<F: LogFolder + Drop, P: PowerLoss<F> + Drop>(
    folder: F,
    first: StartInput,
    power: P,
    input: StartInput,
) -> Result<Option<Started<F::Disk>>, StartFault>
    ghost kept: { Log × Block }
    requires left { F.tells folder → (disk : F.Disk) → F.stored folder disk → F.Disk.tells disk
        × WasLeft F.Disk.LogDisk disk kept.0 kept.1 × P.comes_since power (F.Disk.moment disk) }
    requires failures { F.failure_count folder + 1 < 2 ^ 64 }
    requires first_accepted { AreAccepted first.setup (accepted_in first.known) }
    requires accepted { AreAccepted input.setup (accepted_in input.known) }
    ensures list { F.Disk.telling → IfOk result (λ again. IfSome again (λ s. HasNextOrNot kept.0 kept.1 input.setup
        input.owner input.known s.list s.identity s.setup)) }
{
    let mut folder = folder;
    let StartInput {
        alloc,
        setup,
        owner,
        known,
    } = first;
    let started = start_log(&mut folder, alloc, &setup, &owner, known)?;
    if started.log.writer.mark().page == 1 {
        return Ok(None);
    }
    let again = start_after(started.log.file.disk, power, input)?;
    Ok(Some(again))
}

/// Begins a new log in the place of the one in use, loses power once it has the name, and starts it again.
pub fn rotate_and_start<F: LogFolder + Drop, P: PowerLoss<F> + Drop>(
    folder: F,
    page: &[u8; PAGE],
    first: u64,
    power: P,
    input: StartInput,
) -> Result<Started<F::Disk>, StartFault>
    ghost kept: { Log × Block }
    requires log { kept.0 ≡ begun page.now first }
    requires takes { CanTake kept.0 kept.1 }
    requires failures { F.failure_count folder + 1 < 2 ^ 64 }
    requires accepted { AreAccepted input.setup (accepted_in input.known) }
    ensures list { F.Disk.telling → IfOk result (λ s. HasNextOrNot kept.0 kept.1 input.setup input.owner input.known
        s.list s.identity s.setup) }
{
    let mut folder = folder;
    let new = match begin_rotation(&mut folder, page, first) {
        Ok(new) => new,
        Err(fault) => return Err(fault_of_rotate(fault)),
    };
    let mut power = power;
    power.watch(&new.file.disk);
    let mut in_use = None;
    if let Err(fault) = finish_rotation(&mut folder, &mut in_use, new) {
        return Err(fault_of_rotate(fault));
    }
    match in_use {
        Some(log) => start_after(log.file.disk, power, input),
        None => Err(StartFault::Rename),
    }
}
