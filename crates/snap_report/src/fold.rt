//! `fold`: reads a snapshot, folds all its batches, and saves it again.
ghost use Rattle.std.specs.Prelude.{◌≡◌, ◌+◌, ◌<◌, ◌^◌, ◌⊎◌, ◌++◌, Ok, Err, OnOk, IfOk, IfErr};
ghost use Rattle.std.specs.Arc.{arc_value};
ghost use Rattle.byte_io.specs.Writing.{HasTaken, HasStopped};
ghost use Rattle.byte_io.specs.declared.fault.WriteFault.{WriteFault};
ghost use Rattle.hyper_matrix.specs.Cells.{built_of};
ghost use Rattle.hyper_matrix.specs.Matrix.{matrix};
ghost use Rattle.batch_store.specs.Accepted.{count_in, total_in};
ghost use Rattle.batch_store.specs.Batches.{entries_of, values};
ghost use Rattle.batch_store.specs.Books.{AreAccepted, accepted_in};
ghost use Rattle.snap_file.specs.Snapshots.{HasBase, Saved};
ghost use Rattle.snap_report.specs.Folds.{fold_line, LeavesLine};
ghost use Rattle.snap_report.specs.Kept.{folded_in, HasFolded, IsFoldTold};

use crate::check::sum_of;
use crate::fault::FoldFault;
use crate::limits::SNAPSHOT_BYTES;
use crate::making::line_of;
use crate::refit::{needs_log, refit};
use batch_store::{Batch, BookList, Entry, GivenNumbers, Pieces, Setup};
use byte_io::{Sink, write_all};
use cells::Cell;
use hyper_matrix::Hyper;
use snap_file::SnapshotFile;
use std::alloc::{AllocError, Global};
use std::sync::Arc;

// The matrix of these cells, as one piece.
fn base_of(alloc: Global, setup: &Setup, cells: Vec<Cell>) -> Result<Arc<Pieces>, AllocError>
    ensures { IfOk result (λ base.
        (arc_value base).whole ≡ matrix setup.now.rows setup.now.cols (built_of cells.items)) }
{
    match Hyper::build_list(alloc, setup.rows(), setup.cols(), cells) {
        Ok(sum) => Pieces::one(alloc, &sum),
        Err(_) => Err(AllocError),
    }
}

// The entries of folded batches, and behind them those of others.
fn with_entries(folded: Vec<Entry>, batches: &[Arc<Batch>]) -> Result<Vec<Entry>, AllocError>
    ensures { IfOk result (λ list. list.items ≡ folded.items ++ entries_of (values batches.now)) }
{
    let mut list = folded;
    list.reserve(batches.len())?;
    'batches: for batch in batches {
        list.push(batch.entry())?;
    }
    Ok(list)
}

// The entries of all batches of a list, folded or not. Their cells are let go of.
fn all_entries(list: BookList) -> Result<Vec<Entry>, AllocError>
    ensures { IfOk result (λ entries. entries.items ≡ list.folded ++ entries_of list.list) }
{
    let BookList {
        base: _,
        folded,
        batches,
    } = list;
    with_entries(folded, &batches)
}

// A list with all its batches folded.
pub(crate) fn folded(alloc: Global, setup: &Setup, list: BookList) -> Result<BookList, AllocError>
    requires accepted { AreAccepted setup.now (accepted_in list) }
    requires based { HasBase setup.now list }
    ensures state { IfOk result (λ l. accepted_in l ≡ folded_in list) }
    ensures based { IfOk result (λ l. HasBase setup.now l) }
{
    // It bounds the total.
    let _limit = setup.limit();
    let cells = sum_of(alloc, setup, &list.base, &list.batches)?;
    // The batches go before their sum takes memory.
    let folded = all_entries(list)?;
    let base = base_of(alloc, setup, cells)?;
    Ok(BookList {
        base,
        folded,
        batches: Vec::new(alloc),
    })
}

// Folds the snapshot in a file, and answers how many batches are folded then, and their total.
fn fold_file<F: SnapshotFile>(
    alloc: Global,
    file: &mut F,
    numbers: &GivenNumbers,
) -> Result<(u64, u64), FoldFault>
    ensures ok { IfOk result (λ r. (x : Saved)
        × HasFolded F.load_gives F.save_gives file.old file.new numbers.now x (Ok tt)
        × (r.0 ≡ count_in (accepted_in x.list)) × (r.1 ≡ total_in (accepted_in x.list))) }
    ensures told { IfErr result (λ fault.
        IsFoldTold F.load_gives F.save_gives file.old file.new numbers.now fault) }
    ensures unwritten { IfErr result (λ fault. LeavesLine fault → ⊥) }
{
    let snapshot = file.load(alloc, SNAPSHOT_BYTES)?;
    let origin = snapshot.origin;
    let from = snapshot.setup;
    let setup = numbers.over(&from);
    if needs_log(&origin, &from, &setup) {
        return Err(FoldFault::NeedsLog);
    }
    let fitted = refit(alloc, &from, &setup, snapshot.list)?;
    let list = folded(alloc, &setup, fitted)?;
    file.save(alloc, origin, &setup, &list)?;
    Ok((list.folded.len() as u64, list.base.total()))
}

// Writes the line of so many folded batches with this total.
fn write_line<W: Sink>(w: &mut W, batches: u64, total: u64) -> Result<(), FoldFault>
    requires { W.failure_count w.old + 1 < 2 ^ 64 }
    ensures ok { OnOk result (HasTaken W.write_takes W.failure_count w.old w.new (fold_line batches total)) }
    ensures output { (fault : WriteFault) → result ≡ Err (FoldFault.Output fault) →
        HasStopped W.write_takes W.failure_count w.old w.new (fold_line batches total) fault.written }
    ensures line { IfErr result LeavesLine }
{
    let line = line_of("folded ", batches, total);
    match write_all(w, line.as_str().as_bytes()) {
        Ok(()) => Ok(()),
        Err(fault) => Err(FoldFault::Output(fault)),
    }
}

/// Reads the snapshot in a file, folds all its batches into its base, saves it in that file, and writes the line
/// `folded F total T`: how many batches are folded now, and their total. What an engine that is started from it answers
/// stays as it was, repeats included; the cells of each batch are gone. Its setup is that of the file, but for the
/// numbers that are given.
///
/// Takes the memory of `run_check`: the batches are let go of before their sum is built. Where a server may save to the
/// file meanwhile, give a `LockedFile`, whose lock is held from before the reading to the end of the save.
///
/// # Errors
///
/// `File` where there is no such file, where another may save there (`Busy`), where it can't be opened or read, or
/// where it is no snapshot; `Memory`; `NeedsLog` where other numbers are given and a log goes with the file; `TooSmall`
/// where the file has more than a number allows; `Save` where the file could not be saved; and `Output` where the line
/// could not be written whole: the file is saved then.
pub fn run_fold<F: SnapshotFile, W: Sink>(
    alloc: Global,
    file: &mut F,
    numbers: &GivenNumbers,
    w: &mut W,
) -> Result<(), FoldFault>
    requires { W.failure_count w.old + 1 < 2 ^ 64 }
    // One load is made of the file and then one save, of the snapshot that the load has answered, with all its batches
    // folded, under the given numbers. What was written is the line of that snapshot.
    ensures ok { OnOk result ((x : Saved) × HasFolded F.load_gives F.save_gives file.old file.new numbers.now x (Ok tt)
        × HasTaken W.write_takes W.failure_count w.old w.new
        (fold_line (count_in (accepted_in x.list)) (total_in (accepted_in x.list)))) }
    ensures output { (fault : WriteFault) → result ≡ Err (FoldFault.Output fault) →
        (x : Saved) × HasFolded F.load_gives F.save_gives file.old file.new numbers.now x (Ok tt)
        × HasStopped W.write_takes W.failure_count w.old w.new
        (fold_line (count_in (accepted_in x.list)) (total_in (accepted_in x.list))) fault.written }
    ensures told { IfErr result (λ fault.
        IsFoldTold F.load_gives F.save_gives file.old file.new numbers.now fault) }
    ensures unwritten { IfErr result (λ fault. LeavesLine fault ⊎ (w.new ≡ w.old)) }
{
    let (batches, total) = fold_file(alloc, file, numbers)?;
    write_line(w, batches, total)
}
