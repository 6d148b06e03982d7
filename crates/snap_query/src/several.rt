//! The questions that snapshots are asked together: of the sum of what each of them adds up to.
ghost use Rattle.std.specs.Prelude.{◌≡◌, ℕ, ◌+◌, ◌<◌, ◌^◌, ◌⊎◌, List, Err, OnOk, IfOk, IfErr};
ghost use Rattle.std.specs.FinMap.{entries};
ghost use Rattle.byte_io.specs.Writing.{HasTaken, HasStopped};
ghost use Rattle.byte_io.specs.declared.fault.WriteFault.{WriteFault};
ghost use Rattle.cells.specs.Bounds.{AreWithin};
ghost use Rattle.cells.specs.Order.{Rise};
ghost use Rattle.hyper_matrix.specs.Cells.{built_of, cell_total};
ghost use Rattle.cell_queries.specs.declared.tally.RowTally.{RowTally};
ghost use Rattle.cell_queries.specs.Degrees.{degrees_of};
ghost use Rattle.cell_queries.specs.Tallies.{tallies};
ghost use Rattle.cell_queries.specs.Tops.{IsTop};
ghost use Rattle.snap_file.specs.Snapshots.{Saved};
ghost use Rattle.snap_export.specs.Several.{AddUp, Tells, LeavesText};
ghost use Rattle.snap_query.specs.Queries.{by_side, degree_lines, row_lines};
ghost use Rattle.snap_query.specs.Spans.{rows_across, span_text};

use crate::degrees::degrees_of_cells;
use crate::lines::write_lines;
use crate::list::kept_in;
use crate::side::Side;
use crate::top::{TopQuery, top_of_cells};
use byte_io::Sink;
use cell_queries::{CellRange, Degree, RowTally};
use cells::Cell;
use hyper_matrix::Hyper;
use mm_text::write_matrix;
use snap_export::{ExportFault, SnapshotFiles, load_sum};
use std::alloc::{AllocError, Global};

// The cells of a matrix, which is let go of.
fn cells_of(alloc: Global, sum: Hyper) -> Result<Vec<Cell>, AllocError>
    ensures rises { IfOk result (λ cells. Rise cells.items) }
    ensures within { IfOk result (λ cells. AreWithin sum.rows sum.cols cells.items) }
    ensures builds { IfOk result (λ cells. built_of cells.items ≡ sum.counts) }
    ensures fits { IfOk result (λ cells. cell_total cells.items < 2 ^ 64) }
{
    // It is that of the cells, and below 2^64.
    let _total = sum.total();
    let cells = Vec::from_slice(alloc, sum.as_cells())?;
    Ok(cells)
}

// The rows or columns of a matrix that lead.
fn top_of_sum(alloc: Global, sum: Hyper, query: &TopQuery) -> Result<Vec<RowTally>, AllocError>
    ensures { IfOk result (λ top. IsTop query.now.by query.now.most
        (tallies (entries (by_side query.now.side sum.counts))) top.items) }
{
    let cells = cells_of(alloc, sum)?;
    top_of_cells(alloc, cells, query)
}

// How many rows or columns of a matrix have how many entries.
fn degrees_of_sum(alloc: Global, sum: Hyper, side: Side) -> Result<Vec<Degree>, AllocError>
    ensures { IfOk result (λ list. list.items ≡ degrees_of (tallies (entries (by_side side sum.counts)))) }
{
    let cells = cells_of(alloc, sum)?;
    degrees_of_cells(alloc, cells, side)
}

/// Loads so many snapshots of the same dimensions, one after the other, and writes a line `row entries total` for each
/// of the rows or columns of their sum that lead: its number, counted from 0, how many entries it has, and their total.
/// A file that is given twice counts twice.
///
/// Takes the memory and the time of `load_sum`, and then 24 bytes for each cell; for columns also time to sort the
/// cells by column.
///
/// # Errors
///
/// Those of `load_sum`, in its order, and then `Output`. Only `Output` leaves anything written.
pub fn run_top_of<F: SnapshotFiles, W: Sink>(
    alloc: Global,
    files: &mut F,
    count: u64,
    w: &mut W,
    query: &TopQuery,
) -> Result<(), ExportFault>
    requires some { 0 < count }
    requires writes { W.failure_count w.old + 1 < 2 ^ 64 }
    // So many loads were made, one after the other, and have answered snapshots of one size that fit together; what was
    // written is the lines of the rows that lead in what they add up to.
    ensures ok { OnOk result ((rows cols : ℕ) × (xs : List Saved) × (top : List RowTally)
        × AddUp F.load_gives files.old files.new count rows cols xs
        × IsTop query.now.by query.now.most (rows_across query.now.side xs) top
        × HasTaken W.write_takes W.failure_count w.old w.new (row_lines top)) }
    ensures output { (fault : WriteFault) → result ≡ Err (ExportFault.Output fault) →
        (rows cols : ℕ) × (xs : List Saved) × (top : List RowTally)
        × AddUp F.load_gives files.old files.new count rows cols xs
        × IsTop query.now.by query.now.most (rows_across query.now.side xs) top
        × HasStopped W.write_takes W.failure_count w.old w.new (row_lines top) fault.written }
    ensures told { IfErr result (λ fault. Tells F.load_gives files.old files.new count fault) }
    ensures unwritten { IfErr result (λ fault. LeavesText fault ⊎ (w.new ≡ w.old)) }
{
    let sum = load_sum(alloc, files, count)?;
    let top = top_of_sum(alloc, sum, query)?;
    match write_lines(w, &top) {
        Ok(()) => Ok(()),
        Err(fault) => Err(ExportFault::Output(fault)),
    }
}

/// The same, and writes the text of the cells in a range of their sum: a Matrix Market text in the dimensions of the
/// whole, with the cells by row and then by column.
///
/// Takes the memory of `load_sum`, and then 24 bytes for each cell; the time is that of `load_sum` and of the text's
/// bytes. `w` is not flushed.
///
/// # Errors
///
/// Those of `load_sum`, in its order, and then `Output`. Only `Output` leaves anything written.
pub fn run_list_of<F: SnapshotFiles, W: Sink>(
    alloc: Global,
    files: &mut F,
    count: u64,
    w: &mut W,
    range: &CellRange,
) -> Result<(), ExportFault>
    requires some { 0 < count }
    requires writes { W.failure_count w.old + 1 < 2 ^ 64 }
    // The loads are those of `run_top_of`; what was written is the text of the range in what they add up to.
    ensures ok { OnOk result ((rows cols : ℕ) × (xs : List Saved)
        × AddUp F.load_gives files.old files.new count rows cols xs
        × HasTaken W.write_takes W.failure_count w.old w.new (span_text rows cols range.now xs)) }
    ensures output { (fault : WriteFault) → result ≡ Err (ExportFault.Output fault) →
        (rows cols : ℕ) × (xs : List Saved) × AddUp F.load_gives files.old files.new count rows cols xs
        × HasStopped W.write_takes W.failure_count w.old w.new (span_text rows cols range.now xs) fault.written }
    ensures told { IfErr result (λ fault. Tells F.load_gives files.old files.new count fault) }
    ensures unwritten { IfErr result (λ fault. LeavesText fault ⊎ (w.new ≡ w.old)) }
{
    let sum = load_sum(alloc, files, count)?;
    let (rows, cols) = sum.dims();
    let cells = cells_of(alloc, sum)?;
    let kept = kept_in(cells, range);
    match write_matrix(w, rows, cols, &kept) {
        Ok(()) => Ok(()),
        Err(fault) => Err(ExportFault::Output(fault)),
    }
}

/// The same, and writes a line `from to rows` for each range of numbers of entries that a row or column of their sum
/// has: 1 to 1, 2 to 3, 4 to 7 and so on, and how many rows or columns have so many.
///
/// Takes the memory and the time of `run_top_of`.
///
/// # Errors
///
/// Those of `load_sum`, in its order, and then `Output`. Only `Output` leaves anything written.
pub fn run_degrees_of<F: SnapshotFiles, W: Sink>(
    alloc: Global,
    files: &mut F,
    count: u64,
    w: &mut W,
    side: Side,
) -> Result<(), ExportFault>
    requires some { 0 < count }
    requires writes { W.failure_count w.old + 1 < 2 ^ 64 }
    // The loads are those of `run_top_of`; what was written is the lines of what they add up to.
    ensures ok { OnOk result ((rows cols : ℕ) × (xs : List Saved)
        × AddUp F.load_gives files.old files.new count rows cols xs
        × HasTaken W.write_takes W.failure_count w.old w.new (degree_lines (degrees_of (rows_across side xs)))) }
    ensures output { (fault : WriteFault) → result ≡ Err (ExportFault.Output fault) →
        (rows cols : ℕ) × (xs : List Saved) × AddUp F.load_gives files.old files.new count rows cols xs
        × HasStopped W.write_takes W.failure_count w.old w.new (degree_lines (degrees_of (rows_across side xs)))
        fault.written }
    ensures told { IfErr result (λ fault. Tells F.load_gives files.old files.new count fault) }
    ensures unwritten { IfErr result (λ fault. LeavesText fault ⊎ (w.new ≡ w.old)) }
{
    let sum = load_sum(alloc, files, count)?;
    let degrees = degrees_of_sum(alloc, sum, side)?;
    match write_lines(w, &degrees) {
        Ok(()) => Ok(()),
        Err(fault) => Err(ExportFault::Output(fault)),
    }
}
