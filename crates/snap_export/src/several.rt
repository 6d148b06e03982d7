//! `export` of several snapshots: loads one behind the other, and writes the canonical text of the sum of all.
//!
//! Memory goes to the sum, a matrix, to one snapshot, and to a part of its cells, which are added a part at a time: each
//! snapshot is loaded once the one before is gone. Batches stand in a snapshot in the order in which they came, so that
//! all of it must be there before its first cell is known. The text is written from the matrix, a line at a time.
ghost use Rattle.std.specs.Prelude.{◌≡◌, ◌≢◌, ℕ, ◌+◌, ◌<◌, ◌≤◌, ◌^◌, ◌⊎◌, ◌↔◌, List, [], ◌∷◌, ◌++◌, length};
ghost use Rattle.std.specs.Prelude.{Option, Some, None, Result, Ok, Err, OnOk, OnErr, IfOk, IfErr, IfSome, IsTrue};
ghost use Rattle.byte_io.specs.Writing.{HasTaken, HasStopped};
ghost use Rattle.byte_io.specs.declared.fault.WriteFault.{WriteFault};
ghost use Rattle.cells.specs.Bounds.{IsDimension};
ghost use Rattle.hyper_matrix.specs.Counts.{ewise_add, total};
ghost use Rattle.hyper_matrix.specs.Matrix.{matrix};
ghost use Rattle.batch_store.specs.Accepted.{summed};
ghost use Rattle.batch_store.specs.Books.{AreAccepted, accepted_in};
ghost use Rattle.mm_laws.specs.MatrixText.{matrix_text};
ghost use Rattle.snap_file.specs.Snapshots.{Saved, HasBase};
ghost use Rattle.snap_report.specs.Kept.{HasLoaded};
ghost use Rattle.snap_report.specs.Logged.{IsReadFault};
ghost use Rattle.snap_report.specs.declared.fault.CheckFault.{CheckFault};
ghost use Rattle.snap_export.specs.Several.{added_up, sum_text, AddUp, TellsSum, Tells, LeavesText};
ghost use Rattle.snap_export.specs.Steps.{IsUnread, IsSumOf, Grows, FitsBehind, AddsNext, TellsNext};
ghost use Rattle.snap_export.specs.Steps.{HaveSummed, TellsRead};

use crate::fault::ExportFault;
use batch_store::{BookList, Setup, with_batches};
use byte_io::{Sink, WriteFault};
use hyper_matrix::Hyper;
use mm_text::TextWriter;
use snap_file::Snapshot;
use snap_report::{CheckFault, SNAPSHOT_BYTES, total_of_list};
use std::alloc::{AllocError, Global};

/// Files, one behind the other, in each of which a snapshot is kept.
///
/// As of `SnapshotFile`, one call is a relation between what stands before it, its answer and what stands after it.
pub trait SnapshotFiles {
    // What a load of at most so many bytes may answer, and what it leaves.
    ghost load_gives: { Self → ℕ → Result Saved CheckFault → Self → Type 0 };

    /// Loads the snapshot in the next file, of at most `max_bytes` bytes, or what it and a log beside it have together.
    fn load_next(&mut self, alloc: Global, max_bytes: u64) -> Result<Snapshot, CheckFault>
        ensures answer { load_gives self.old max_bytes result self.new }
        // A fault is of what was read, or want of memory, which is told as such.
        ensures read { IfErr result (λ f. f ≢ CheckFault.Memory → IsReadFault f) };
}

// Loads the next snapshot, which is in the file of this number.
fn load_next<F: SnapshotFiles>(
    alloc: Global,
    files: &mut F,
    number: u64,
) -> Result<Snapshot, ExportFault>
    ensures ok { IfOk result (λ x. HasLoaded F.load_gives files.old files.new x) }
    ensures err { IfErr result (λ fault. IsUnread F.load_gives files.old files.new number fault) }
{
    match files.load_next(alloc, SNAPSHOT_BYTES) {
        Ok(snapshot) => Ok(snapshot),
        Err(CheckFault::Memory) => Err(ExportFault::Memory),
        Err(fault) => Err(ExportFault::File(number, fault)),
    }
}

// Whether counts of this total fit 64 bits beside those of a matrix.
fn fits_beside(sum: &Hyper, more: u64) -> bool
    ensures { IsTrue result ↔ (total sum.now.counts + more < 2 ^ 64) }
{
    sum.total().checked_add(more).is_some()
}

/// A matrix with all cells of a list of batches added.
pub fn with_list(
    alloc: Global,
    m: Hyper,
    setup: &Setup,
    list: &BookList,
) -> Result<Hyper, AllocError>
    requires accepted { AreAccepted setup.now (accepted_in list.now) }
    requires based { HasBase setup.now list.now }
    requires rows { setup.now.rows ≡ m.rows }
    requires cols { setup.now.cols ≡ m.cols }
    requires fits { total m.counts + total (summed (accepted_in list.now)) < 2 ^ 64 }
    ensures { IfOk result (λ sum.
        sum ≡ record m { counts = ewise_add m.counts (summed (accepted_in list.now)) }) }
{
    let base = list.base.sum(alloc)?;
    let with_base = m.into_sum(alloc, base)?;
    let sum = with_batches(alloc, with_base, &list.batches)?;
    Ok(sum)
}

// The sum with all cells of a snapshot added, or None where the counts don't fit 64 bits together.
fn grown(alloc: Global, sum: Hyper, snapshot: Snapshot) -> Result<Option<Hyper>, AllocError>
    requires rows { snapshot.setup.rows ≡ sum.rows }
    requires cols { snapshot.setup.cols ≡ sum.cols }
    ensures sum { IfOk result (λ next. Grows (Some sum) snapshot next) }
    ensures memory { OnErr result (FitsBehind (Some sum) snapshot) }
{
    let total = total_of_list(&snapshot.setup, &snapshot.list);
    if !fits_beside(&sum, total) {
        return Ok(None);
    }
    let next = with_list(alloc, sum, &snapshot.setup, &snapshot.list)?;
    Ok(Some(next))
}

// The same where the counts may have passed 64 bits before.
fn added(alloc: Global, sum: Option<Hyper>, snapshot: Snapshot) -> Result<Option<Hyper>, AllocError>
    requires rows { IfSome sum (λ m. snapshot.setup.rows ≡ m.rows) }
    requires cols { IfSome sum (λ m. snapshot.setup.cols ≡ m.cols) }
    ensures sum { IfOk result (λ next. Grows sum snapshot next) }
    ensures memory { OnErr result (FitsBehind sum snapshot) }
{
    match sum {
        Some(sum) => grown(alloc, sum, snapshot),
        None => Ok(None),
    }
}

// Whether a snapshot has so many rows and columns.
fn has_dims(snapshot: &Snapshot, rows: u64, cols: u64) -> bool
    ensures { IsTrue result ↔ ((snapshot.now.setup.rows ≡ rows) × (snapshot.now.setup.cols ≡ cols)) }
{
    snapshot.setup.rows() == rows && snapshot.setup.cols() == cols
}

// Loads the first snapshot, and gives its sum.
fn first_sum<F: SnapshotFiles>(
    alloc: Global,
    files: &mut F,
) -> Result<(u64, u64, Option<Hyper>), ExportFault>
    ensures ok { IfOk result (λ first. HaveSummed F.load_gives files.old files.new 1 first.0 first.1 first.2) }
    ensures err { IfErr result (λ fault. TellsRead F.load_gives files.old files.new fault) }
{
    let snapshot = load_next(alloc, files, 0)?;
    let (rows, cols) = (snapshot.setup.rows(), snapshot.setup.cols());
    let none = Hyper::new(alloc, rows, cols);
    let sum = added(alloc, Some(none), snapshot)?;
    Ok((rows, cols, sum))
}

// Loads the next snapshot, which is in the file of this number, and adds its sum to that of those before it.
fn next_sum<F: SnapshotFiles>(
    alloc: Global,
    files: &mut F,
    number: u64,
    rows: u64,
    cols: u64,
    sum: Option<Hyper>,
) -> Result<Option<Hyper>, ExportFault>
    requires summed { (earlier : List Saved) × IsSumOf rows cols earlier sum }
    ensures ok { IfOk result (λ next. (earlier : List Saved) → IsSumOf rows cols earlier sum →
        AddsNext F.load_gives earlier files.old files.new rows cols next) }
    ensures err { IfErr result (λ fault. (earlier : List Saved) → IsSumOf rows cols earlier sum →
        TellsNext F.load_gives earlier files.old files.new rows cols number fault) }
{
    let snapshot = load_next(alloc, files, number)?;
    let is_same = has_dims(&snapshot, rows, cols);
    if !is_same {
        return Err(ExportFault::DimensionsDiffer(number));
    }
    let next = added(alloc, sum, snapshot)?;
    Ok(next)
}

// Loads so many snapshots, and gives the sum of all, or None where their counts don't fit 64 bits.
fn sum_of_all<F: SnapshotFiles>(
    alloc: Global,
    files: &mut F,
    count: u64,
) -> Result<Option<Hyper>, ExportFault>
    requires some { 0 < count }
    ensures ok { IfOk result (λ sum. (rows cols : ℕ) ×
        HaveSummed F.load_gives files.old files.new count rows cols sum) }
    ensures err { IfErr result (λ fault. TellsRead F.load_gives files.old files.new fault) }
{
    let (rows, cols, first) = first_sum(alloc, files)?;
    let mut sum = first;
    'files: for number in 1..count {
        sum = next_sum(alloc, files, number, rows, cols, sum)?;
    }
    Ok(sum)
}

/// Loads so many snapshots of the same dimensions, one after the other, and gives the sum of all: of what their
/// batches, folded ones too, add up to together. A file that is given twice counts twice.
///
/// Shards, cuts and limits may differ. Takes the memory of the sum as a matrix, 24 bytes a cell, twice while a part is
/// added, and that of the largest of the files. The time is that of all loads, of sorting the cells of each, and of a
/// copy of the sum for each.
///
/// # Errors
///
/// In this order: at its place in the order of the files, `File` where one can't be opened or read or is no snapshot,
/// and `DimensionsDiffer` where its dimensions aren't those of the first; `Memory` where memory ran out, at a place up
/// to which no file bears a fault and the counts fit 64 bits, unless a load was refused it; `SumTooLarge` once all
/// files were loaded.
pub fn load_sum<F: SnapshotFiles>(
    alloc: Global,
    files: &mut F,
    count: u64,
) -> Result<Hyper, ExportFault>
    requires some { 0 < count }
    // So many loads were made, one after the other, and have answered snapshots of one size that fit together.
    ensures ok { IfOk result (λ sum. (rows cols : ℕ) × (xs : List Saved)
        × AddUp F.load_gives files.old files.new count rows cols xs × (sum ≡ matrix rows cols (added_up xs))) }
    ensures err { IfErr result (λ fault. TellsSum F.load_gives files.old files.new count fault) }
{
    let found = sum_of_all(alloc, files, count)?;
    match found {
        Some(sum) => {
            // It is below 2^64.
            let _total = sum.total();
            Ok(sum)
        }
        None => Err(ExportFault::SumTooLarge),
    }
}

// Writes the canonical text of a matrix, a line at a time.
fn write_hyper<W: Sink>(w: &mut W, m: &Hyper) -> Result<(), WriteFault>
    requires { W.failure_count w.old + 1 < 2 ^ 64 }
    ensures ok { OnOk result (HasTaken W.write_takes W.failure_count w.old w.new (matrix_text m.now)) }
    ensures err { IfErr result (λ fault.
        HasStopped W.write_takes W.failure_count w.old w.new (matrix_text m.now) fault.written) }
{
    let (rows, cols) = m.dims();
    let mut writer = TextWriter::new(rows, cols, m.entries());
    for cell in m.iter() {
        writer.write_cell(w, cell)?;
    }
    writer.finish(w)
}

/// Loads so many snapshots of the same dimensions, one after the other, and writes the canonical text of the sum of
/// all, as `load_sum` gives it.
///
/// Takes the memory and the time of `load_sum`. `w` is not flushed.
///
/// # Errors
///
/// Those of `load_sum`, in its order, and then `Output` where the sink failed or took nothing. Only `Output` leaves
/// anything written: the first bytes of the text, as many as it says.
pub fn run_export_of<F: SnapshotFiles, W: Sink>(
    alloc: Global,
    files: &mut F,
    count: u64,
    w: &mut W,
) -> Result<(), ExportFault>
    requires some { 0 < count }
    requires writes { W.failure_count w.old + 1 < 2 ^ 64 }

    // So many loads were made, one behind the other, and have answered snapshots of one size that fit together; what
    // was written is the canonical text of what they add up to.
    ensures ok { OnOk result ((rows cols : ℕ) × (xs : List Saved)
        × AddUp F.load_gives files.old files.new count rows cols xs
        × HasTaken W.write_takes W.failure_count w.old w.new (sum_text rows cols xs)) }

    ensures output { (fault : WriteFault) → result ≡ Err (ExportFault.Output fault) →
        (rows cols : ℕ) × (xs : List Saved) × AddUp F.load_gives files.old files.new count rows cols xs
        × HasStopped W.write_takes W.failure_count w.old w.new (sum_text rows cols xs) fault.written }
    ensures told { IfErr result (λ fault. Tells F.load_gives files.old files.new count fault) }
    ensures unwritten { IfErr result (λ fault. LeavesText fault ⊎ (w.new ≡ w.old)) }
{
    let sum = load_sum(alloc, files, count)?;
    match write_hyper(w, &sum) {
        Ok(()) => Ok(()),
        Err(fault) => Err(ExportFault::Output(fault)),
    }
}
