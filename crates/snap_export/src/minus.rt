//! `export --minus`: loads two snapshots of one book, and writes the canonical text of what the later one has more.
//!
//! Both are in memory until they were judged. Then each is added up and let go of. At the end there are the two sums and
//! the cells of the difference.
ghost use Rattle.std.specs.Prelude.{◌≡◌, ℕ, ◌+◌, ◌<◌, ◌^◌, ◌⊎◌, Err, OnOk, IfOk, IfErr, IsTrue, ◌↔◌};
ghost use Rattle.byte_io.specs.Writing.{HasTaken, HasStopped};
ghost use Rattle.byte_io.specs.declared.fault.WriteFault.{WriteFault};
ghost use Rattle.cells.specs.Bounds.{IsDimension, AreWithin};
ghost use Rattle.cells.specs.Order.{Rise};
ghost use Rattle.hyper_matrix.specs.Cells.{built_of};
ghost use Rattle.hyper_matrix.specs.Counts.{Counts};
ghost use Rattle.hyper_matrix.specs.Matrix.{matrix};
ghost use Rattle.matrix_difference.specs.Difference.{IsFirstFall};
ghost use Rattle.batch_store.specs.Books.{AreAccepted, accepted_in};
ghost use Rattle.snap_file.specs.Snapshots.{Saved};
ghost use Rattle.snap_report.specs.Kept.{HasLoaded};
ghost use Rattle.snap_export.specs.Minus.{TellsNew, TellsOld, TellsSecond, TellsMore, TellsDifference, LeavesMore};
ghost use Rattle.snap_export.specs.Minus.{HaveBoth, HaveSameDims, IsLater, IsMisfit, IsMore, sum_in, more_text};
ghost use Rattle.snap_export.specs.Minus.{HasMore};

use crate::begun::first_other;
use crate::minus_fault::DifferenceFault;
use crate::several::{SnapshotFiles, with_list};
use byte_io::Sink;
use cells::Cell;
use hyper_matrix::Hyper;
use matrix_difference::{MinusFault, minus_cells};
use mm_text::write_matrix;
use snap_file::Snapshot;
use snap_report::{CheckFault, SNAPSHOT_BYTES};
use std::alloc::{AllocError, Global};

/// Cells by row and then by column, and the dimensions within which they lie.
#[derive(Drop)]
pub struct More {
    pub rows: u64,
    pub cols: u64,
    pub cells: Vec<Cell>,
}

// Loads the later snapshot.
fn load_new<F: SnapshotFiles>(alloc: Global, files: &mut F) -> Result<Snapshot, DifferenceFault>
    ensures ok { IfOk result (λ x. HasLoaded F.load_gives files.old files.new x) }
    ensures err { IfErr result (λ fault. TellsNew F.load_gives files.old files.new fault) }
{
    match files.load_next(alloc, SNAPSHOT_BYTES) {
        Ok(snapshot) => Ok(snapshot),
        Err(CheckFault::Memory) => Err(DifferenceFault::Memory),
        Err(fault) => Err(DifferenceFault::New(fault)),
    }
}

// Loads the earlier one, after the later one.
fn load_old<F: SnapshotFiles>(alloc: Global, files: &mut F) -> Result<Snapshot, DifferenceFault>
    ensures ok { IfOk result (λ x. HasLoaded F.load_gives files.old files.new x) }
    ensures err { IfErr result (λ fault. TellsOld F.load_gives files.old files.new fault) }
{
    match files.load_next(alloc, SNAPSHOT_BYTES) {
        Ok(snapshot) => Ok(snapshot),
        Err(CheckFault::Memory) => Err(DifferenceFault::Memory),
        Err(fault) => Err(DifferenceFault::Old(fault)),
    }
}

// Whether two snapshots have the same numbers of rows and columns.
fn have_same_dims(new: &Snapshot, old: &Snapshot) -> bool
    ensures { IsTrue result ↔ HaveSameDims new.now old.now }
{
    new.setup.rows() == old.setup.rows() && new.setup.cols() == old.setup.cols()
}

// Judges whether one snapshot goes on from another.
fn judge_later(new: &Snapshot, old: &Snapshot) -> Result<(), DifferenceFault>
    ensures ok { OnOk result (IsLater new.now old.now) }
    ensures err { IfErr result (IsMisfit new.now old.now) }
{
    if new.origin.identity.is_other(&old.origin.identity) {
        return Err(DifferenceFault::OtherBook);
    }
    let are_same = have_same_dims(new, old);
    if !are_same {
        return Err(DifferenceFault::DimensionsDiffer);
    }
    match first_other(&new.list, &old.list) {
        Some(at) => Err(DifferenceFault::NotBefore(at)),
        None => Ok(()),
    }
}

// The sum of the batches of a snapshot. The snapshot is let go of.
fn sum_of(alloc: Global, snapshot: Snapshot) -> Result<Hyper, AllocError>
    requires { AreAccepted snapshot.setup (accepted_in snapshot.list) }
    ensures { IfOk result (λ m. m ≡ matrix snapshot.setup.rows snapshot.setup.cols (sum_in snapshot)) }
{
    let none = Hyper::new(alloc, snapshot.setup.rows(), snapshot.setup.cols());
    let sum = with_list(alloc, none, &snapshot.setup, &snapshot.list)?;
    Ok(sum)
}

// What one snapshot has more than another. Both are let go of.
fn more_of(alloc: Global, new: Snapshot, old: Snapshot) -> Result<More, MinusFault>
    requires new { AreAccepted new.setup (accepted_in new.list) }
    requires old { AreAccepted old.setup (accepted_in old.list) }
    ensures ok { IfOk result (λ more. HasMore new old more.rows more.cols more.cells.items) }
    ensures falls { (row col : ℕ) → result ≡ Err (MinusFault.Falls row col) →
        IsFirstFall (sum_in new) (sum_in old) (row, col) }
{
    let new_sum = sum_of(alloc, new)?;
    let old_sum = sum_of(alloc, old)?;
    let cells = minus_cells(alloc, new_sum.as_cells(), old_sum.as_cells())?;
    let (rows, cols) = new_sum.dims();
    Ok(More { rows, cols, cells })
}

/// Loads two snapshots, and gives what the first has more than the second.
pub fn load_more<F: SnapshotFiles>(alloc: Global, files: &mut F) -> Result<More, DifferenceFault>
    ensures ok { IfOk result (λ more. (a b : Saved) × HaveBoth F.load_gives files.old files.new a b × IsLater a b
        × HasMore a b more.rows more.cols more.cells.items) }
    ensures err { IfErr result (λ fault. TellsMore F.load_gives files.old files.new fault) }
{
    let new = load_new(alloc, files)?;
    let old = load_old(alloc, files)?;
    judge_later(&new, &old)?;
    let more = more_of(alloc, new, old)?;
    Ok(more)
}

/// Loads two snapshots of one book, the later one first, and writes the canonical text of what it has more: the cells
/// that the earlier one lacks, and where both have one what the count has risen by, if it has.
///
/// The batches of the earlier one are the first of the later one, folded or not. The book is only known of files that
/// say it. Takes the memory of both snapshots and of what they add up to, and then that of the two sums, 24 bytes a
/// cell, and of the difference. The time is that of both loads, of sorting the cells, and of one pass over both sums.
/// `w` is not flushed.
///
/// # Errors
///
/// In this order: `New` and `Old` where a file can't be opened or read or is no snapshot; `OtherBook`;
/// `DimensionsDiffer`; `NotBefore`; `Falls`; `Memory` where memory ran out, before or after `Falls` was looked for;
/// `Output` where the sink failed or took nothing. Only `Output` leaves anything written: the first bytes of the text,
/// as many as it says. Of one book neither `NotBefore` nor `Falls` comes.
pub fn run_export_minus<F: SnapshotFiles, W: Sink>(
    alloc: Global,
    files: &mut F,
    w: &mut W,
) -> Result<(), DifferenceFault>
    requires { W.failure_count w.old + 1 < 2 ^ 64 }

    // Two loads have answered snapshots, and the first goes on from the second. The output has the canonical text of
    // the difference: added to the sum of the second it gives the sum of the first.
    ensures ok { OnOk result ((a b : Saved) × (x : Counts)
        × HaveBoth F.load_gives files.old files.new a b × IsLater a b × IsMore a b x
        × HasTaken W.write_takes W.failure_count w.old w.new (more_text a x)) }

    ensures output { (fault : WriteFault) → result ≡ Err (DifferenceFault.Output fault) →
        (a b : Saved) × (x : Counts)
        × HaveBoth F.load_gives files.old files.new a b × IsLater a b × IsMore a b x
        × HasStopped W.write_takes W.failure_count w.old w.new (more_text a x) fault.written }
    ensures told { IfErr result (λ fault. TellsDifference F.load_gives files.old files.new fault) }
    ensures unwritten { IfErr result (λ fault. LeavesMore fault ⊎ (w.new ≡ w.old)) }
{
    let more = load_more(alloc, files)?;
    match write_matrix(w, more.rows, more.cols, &more.cells) {
        Ok(()) => Ok(()),
        Err(fault) => Err(DifferenceFault::Output(fault)),
    }
}
