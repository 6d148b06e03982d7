//! Joins a snapshot with the front of a log.
ghost use Rattle.std.specs.Prelude.{◌≡◌, ◌+◌, ◌<◌, ◌^◌, true, false, Option, IfOk, IfErr, length};
ghost use Rattle.batch_store.specs.Batches.{values};
ghost use Rattle.batch_store.specs.Growth.{FitsIn};
ghost use Rattle.log_batches.specs.Payloads.{block_of};
ghost use Rattle.log_join.specs.Joins.{HasGap, known_entries};
ghost use Rattle.log_read.specs.Logs.{pages_in};
ghost use Rattle.snap_file.specs.Origins.{IsOtherBook};
ghost use Rattle.snap_report.specs.Kept.{most_bytes};
ghost use Rattle.snap_report.specs.Logged.{IsRead, IsUnjoined};
ghost use Rattle.snap_salvage.specs.Found.{IsFrontRead};
ghost use Rattle.snap_salvage.specs.Salvages.{IsOfBoth, IsSalvaged};
ghost use Rattle.snap_salvage.specs.Reported.{IsApart, IsUnsalvaged};
ghost use Rattle.snap_salvage.specs.declared.salvage_end.SalvageEnd.{SalvageEnd};

use crate::front::Front;
use crate::salvage_end::SalvageEnd;
use batch_store::{BookList, Setup};
use log_batches::block_pages;
use log_blocks::LogFault;
use log_head::LogHead;
use log_read::{Block, LogFile};
use snap_file::Snapshot;
use snap_report::{CheckFault, LogFileFault, join_beside};
use std::alloc::Global;

/// What is salvaged: a snapshot, what ends its batches, and from which page on the log has what isn't in it.
#[derive(Drop)]
pub(crate) struct Salvage {
    pub snapshot: Snapshot,
    pub end: SalvageEnd,
    pub from: u64,
}

// How many pages a block has.
fn pages_of_one(block: &Block) -> u64
    requires { length (block_of (values block.now.batches.items)) < 2 ^ 50 }
    ensures { result ≡ length (block_of (values block.now.batches.items)) }
{
    block_pages(&block.batches)
}

// How many pages the blocks of a log have.
fn pages_of(blocks: &[Block]) -> u64
    requires { pages_in blocks.now < 2 ^ 50 }
    ensures { result ≡ pages_in blocks.now }
{
    let mut pages = 0;
    for block in blocks {
        pages += pages_of_one(block);
    }
    pages
}

// How many batches a list has, folded or not.
fn count_of(list: &BookList) -> u64
    ensures { result ≡ length (known_entries list.now) }
{
    list.folded.len() as u64 + list.batches.len() as u64
}

// Whether matrices of the first setup's dimensions fit into those of the second.
fn fits_in(from: &Setup, to: &Setup) -> bool
    ensures yes { result ≡ true → FitsIn from.now to.now }
    ensures no { result ≡ false → FitsIn from.now to.now → ⊥ }
{
    from.rows() <= to.rows() && from.cols() <= to.cols()
}

// Whether a log of this head begins after the end of a snapshot that it may belong to.
fn is_after(snapshot: &Snapshot, head: &LogHead) -> bool
    ensures book { result ≡ true → IsOtherBook snapshot.now.origin.identity head.now.identity → ⊥ }
    ensures gap { result ≡ true →
        HasGap snapshot.now.setup (known_entries snapshot.now.list) head.now head.now.first }
    ensures no { result ≡ false → (IsOtherBook snapshot.now.origin.identity head.now.identity → ⊥) →
        HasGap snapshot.now.setup (known_entries snapshot.now.list) head.now head.now.first → ⊥ }
{
    !snapshot.origin.identity.is_other(&head.identity)
        && fits_in(&head.setup, &snapshot.setup)
        && head.first > count_of(&snapshot.list)
}

// What a snapshot and a log have together.
fn join_pages(
    alloc: Global,
    found: Option<Snapshot>,
    logged: &LogFile,
    why: SalvageEnd,
) -> Result<Salvage, CheckFault>
    requires { IsRead most_bytes logged.now }
    ensures both { IfOk result (λ s. IsOfBoth found logged.now why s.snapshot s.end s.from) }
    ensures err { IfErr result (IsUnjoined found logged.now) }
    ensures few { IfOk result (λ s. s.from < 2 ^ 50) }
{
    let snapshot = join_beside(alloc, found, logged)?;
    Ok(Salvage {
        snapshot,
        end: why,
        from: 1 + pages_of(&logged.blocks),
    })
}

// The snapshot alone, where a log begins after its end; else both.
fn join_log(
    alloc: Global,
    found: Option<Snapshot>,
    logged: &LogFile,
    why: SalvageEnd,
) -> Result<Salvage, CheckFault>
    requires { IsRead most_bytes logged.now }
    ensures both { IfOk result (λ s. IsOfBoth found logged.now why s.snapshot s.end s.from) }
    ensures err { IfErr result (IsApart found logged.now) }
    ensures few { IfOk result (λ s. s.from < 2 ^ 50) }
{
    match found {
        Some(snapshot) => {
            if is_after(&snapshot, &logged.head) {
                return Ok(Salvage {
                    snapshot,
                    end: SalvageEnd::Gap(logged.head.first),
                    from: 1,
                });
            }
            join_pages(alloc, Some(snapshot), logged, why)
        }
        None => join_pages(alloc, None, logged, why),
    }
}

// The snapshot alone, beside a log without a head.
fn alone(found: Option<Snapshot>, fault: LogFault) -> Result<Salvage, CheckFault>
    ensures alone { IfOk result (λ s. IsSalvaged found (Front.Headless fault) s.snapshot s.end s.from) }
    ensures err { IfErr result (IsUnsalvaged found (Front.Headless fault)) }
    ensures few { IfOk result (λ s. s.from < 2 ^ 50) }
{
    match found {
        Some(snapshot) => Ok(Salvage {
            snapshot,
            end: SalvageEnd::Fault(fault),
            from: 1,
        }),
        None => Err(CheckFault::from(LogFileFault::Log(fault))),
    }
}

/// What a snapshot, or nothing, and the front of a log have together.
///
/// # Errors
///
/// As of a start where the two don't belong together, but for a gap after the snapshot; `Log` where there is no
/// snapshot and the log has no head; and `Memory`.
pub(crate) fn join_front(
    alloc: Global,
    found: Option<Snapshot>,
    front: &Front,
) -> Result<Salvage, CheckFault>
    requires { IsFrontRead front.now }
    ensures both { IfOk result (λ s. IsSalvaged found front.now s.snapshot s.end s.from) }
    ensures err { IfErr result (IsUnsalvaged found front.now) }
    ensures few { IfOk result (λ s. s.from < 2 ^ 50) }
{
    match front {
        Front::Whole(logged) => join_log(alloc, found, logged, SalvageEnd::Whole),
        Front::Before(logged, fault) => join_log(alloc, found, logged, SalvageEnd::Fault(*fault)),
        Front::Headless(fault) => alone(found, *fault),
    }
}
