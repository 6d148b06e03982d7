//! Reads the cells of a matrix.
ghost use Rattle.std.specs.Prelude.{◌≡◌, ℕ, List, suc, ◌+◌, ◌<◌, ◌≤◌, ◌^◌, nat_lt, OnOk, IfErr, IsTrue, IsFalse};
ghost use Rattle.cells.specs.Sums.{cell_total};
ghost use Rattle.cells.specs.declared.cell.Cell.{Cell};
ghost use Rattle.snap_file.specs.Table.{Reading, Tally, cells_behind, is_below};
ghost use Rattle.snap_file.specs.Outcomes.{Task, HasJudged, IsBehindHead, Stops};
ghost use Rattle.snap_file.specs.Tallies.{tally_of, IsRun, HasNoFault, TakesCell};

use crate::fault::SnapFault;
use crate::head::Head;
use crate::reader::{ByteReader, refuse};
use byte_io::Source;
use cells::Cell;
use std::alloc::Global;

/// The cells that were read, the least place that the next one may have, and the sum of all counts so far.
#[derive(Drop)]
pub struct CellTally {
    pub cells: Vec<Cell>,
    pub least_row: u64,
    pub least_col: u64,
    pub counted: u64,
}

impl CellTally {
    /// No cell was read yet, and this was counted.
    pub fn new(alloc: Global, counted: u64) -> CellTally
        ensures { result.counted ≡ counted }
    {
        CellTally {
            cells: Vec::new(alloc),
            least_row: 0,
            least_col: 0,
            counted,
        }
    }
}

/// Whether one place stands before another, by row, then column.
fn stands_before(row: u64, col: u64, least_row: u64, least_col: u64) -> bool
    ensures { result ≡ is_below row col least_row least_col }
{
    row < least_row || (row == least_row && col < least_col)
}

/// Whether a number more passes the total.
pub fn passes(total: u64, counted: u64, count: u64) -> bool
    requires { counted ≤ total }
    ensures { result ≡ nat_lt total (counted + count) }
{
    total - counted < count
}

/// Reads one more cell field by field, each of which is judged before the next is asked for.
#[inline(never)]
fn read_fields<R: Source>(
    reader: &mut ByteReader,
    r: &mut R,
    head: &Head,
    most: u64,
    tally: &mut CellTally,
) -> Result<(), SnapFault>
    requires failures { R.failure_count r.old + 1 < 2 ^ 64 }
    requires counted { tally.old.counted ≤ most }
    requires run { IsRun head.now.setup.rows head.now.setup.cols tally.old.cells.items
        tally.old.least_row tally.old.least_col }
    ensures counted { OnOk result (tally.new.counted ≤ most) }
    ensures run { OnOk result (IsRun head.now.setup.rows head.now.setup.cols tally.new.cells.items
        tally.new.least_row tally.new.least_col) }
    ensures added { OnOk result (tally.new.counted + cell_total tally.old.cells.items ≡
        tally.old.counted + cell_total tally.new.cells.items) }
    ensures ok { OnOk result ((s : R) (task : Task) (n : ℕ) (done : List Cell) (k : Tally → Reading) →
        HasJudged R.read_gives R.failure_count task s r.old reader.old
        (cells_behind head.now most (suc n) (tally_of done tally.old) k) →
        HasJudged R.read_gives R.failure_count task s r.new reader.new
        (cells_behind head.now most n (tally_of done tally.new) k)) }
    ensures err { IfErr result (λ f. (s : R) (task : Task) (n : ℕ) (done : List Cell) (k : Tally → Reading) →
        ((t : Tally) → IsBehindHead (k t)) →
        HasJudged R.read_gives R.failure_count task s r.old reader.old
        (cells_behind head.now most (suc n) (tally_of done tally.old) k) →
        Stops R.read_gives R.failure_count (R.at_end r.new) task s r.new f) }
    ensures no_failure { OnOk result (R.failure_count r.new ≡ R.failure_count r.old) }
{
    let row = reader.next_u64_in(r, 0, head.setup.rows() - 1, SnapFault::BadBatch)?;
    let col = reader.next_u64_in(r, 0, head.setup.cols() - 1, SnapFault::BadBatch)?;
    let early = stands_before(row, col, tally.least_row, tally.least_col);
    refuse(early, SnapFault::OutOfOrder)?;
    let count = reader.next_u64_in(r, 0, most - tally.counted, SnapFault::TotalDiffers)?;
    match tally.cells.push(Cell { row, col, count }) {
        Err(_) => Err(SnapFault::Memory),
        Ok(()) => {
            tally.least_row = row;
            tally.least_col = col + 1;
            tally.counted += count;
            Ok(())
        }
    }
}

/// Whether a cell that is next has no fault.
fn has_no_fault(cell: Cell, head: &Head, most: u64, tally: &CellTally) -> bool
    requires { tally.now.counted ≤ most }
    ensures judged { IsTrue result → HasNoFault head.now most tally.now cell }
    ensures fits { IsTrue result → cell.col + 1 < 2 ^ 64 }
{
    cell.row < head.setup.rows()
        && cell.col < head.setup.cols()
        && !stands_before(cell.row, cell.col, tally.least_row, tally.least_col)
        && !passes(most, tally.counted, cell.count)
}

/// Takes the cell that is next, where all its bytes came, it has no fault and the list has room for it, as it is with
/// nearly all cells. Whoever is answered false reads it field by field, and tells what is amiss.
#[inline(always)]
fn take_ahead(reader: &mut ByteReader, head: &Head, most: u64, tally: &mut CellTally) -> bool
    requires counted { tally.old.counted ≤ most }
    requires run { IsRun head.now.setup.rows head.now.setup.cols tally.old.cells.items
        tally.old.least_row tally.old.least_col }
    ensures counted { tally.new.counted ≤ most }
    ensures run { IsRun head.now.setup.rows head.now.setup.cols tally.new.cells.items
        tally.new.least_row tally.new.least_col }
    ensures added { tally.new.counted + cell_total tally.old.cells.items ≡
        tally.old.counted + cell_total tally.new.cells.items }
    ensures taken { IsTrue result → TakesCell head.now most reader.old tally.old reader.new tally.new }
    ensures left { IsFalse result → (reader.new ≡ reader.old) × (tally.new ≡ tally.old) }
{
    let Some(cell) = reader.cell_ahead() else {
        return false;
    };
    if tally.cells.len() == tally.cells.capacity() || !has_no_fault(cell, head, most, tally) {
        return false;
    }
    reader.pass_cell();
    match tally.cells.push(cell) {
        Err(_) => unreachable!(),
        Ok(()) => {
            tally.least_row = cell.row;
            tally.least_col = cell.col + 1;
            tally.counted += cell.count;
            true
        }
    }
}

/// Reads one more cell, where the counts together may come to `most`.
pub fn read_cell<R: Source>(
    reader: &mut ByteReader,
    r: &mut R,
    head: &Head,
    most: u64,
    tally: &mut CellTally,
) -> Result<(), SnapFault>
    requires failures { R.failure_count r.old + 1 < 2 ^ 64 }
    requires counted { tally.old.counted ≤ most }
    requires run { IsRun head.now.setup.rows head.now.setup.cols tally.old.cells.items
        tally.old.least_row tally.old.least_col }
    ensures counted { OnOk result (tally.new.counted ≤ most) }
    ensures run { OnOk result (IsRun head.now.setup.rows head.now.setup.cols tally.new.cells.items
        tally.new.least_row tally.new.least_col) }
    ensures added { OnOk result (tally.new.counted + cell_total tally.old.cells.items ≡
        tally.old.counted + cell_total tally.new.cells.items) }
    ensures ok { OnOk result ((s : R) (task : Task) (n : ℕ) (done : List Cell) (k : Tally → Reading) →
        HasJudged R.read_gives R.failure_count task s r.old reader.old
        (cells_behind head.now most (suc n) (tally_of done tally.old) k) →
        HasJudged R.read_gives R.failure_count task s r.new reader.new
        (cells_behind head.now most n (tally_of done tally.new) k)) }
    ensures err { IfErr result (λ f. (s : R) (task : Task) (n : ℕ) (done : List Cell) (k : Tally → Reading) →
        ((t : Tally) → IsBehindHead (k t)) →
        HasJudged R.read_gives R.failure_count task s r.old reader.old
        (cells_behind head.now most (suc n) (tally_of done tally.old) k) →
        Stops R.read_gives R.failure_count (R.at_end r.new) task s r.new f) }
    ensures no_failure { OnOk result (R.failure_count r.new ≡ R.failure_count r.old) }
{
    if take_ahead(reader, head, most, tally) {
        return Ok(());
    }
    read_fields(reader, r, head, most, tally)
}

/// Reads so many more cells.
pub fn read_cells<R: Source>(
    reader: &mut ByteReader,
    r: &mut R,
    head: &Head,
    most: u64,
    tally: &mut CellTally,
    count: u64,
) -> Result<(), SnapFault>
    requires failures { R.failure_count r.old + 1 < 2 ^ 64 }
    requires counted { tally.old.counted ≤ most }
    requires run { IsRun head.now.setup.rows head.now.setup.cols tally.old.cells.items
        tally.old.least_row tally.old.least_col }
    ensures counted { OnOk result (tally.new.counted ≤ most) }
    ensures run { OnOk result (IsRun head.now.setup.rows head.now.setup.cols tally.new.cells.items
        tally.new.least_row tally.new.least_col) }
    ensures added { OnOk result (tally.new.counted + cell_total tally.old.cells.items ≡
        tally.old.counted + cell_total tally.new.cells.items) }
    ensures ok { OnOk result ((s : R) (task : Task) (done : List Cell) (k : Tally → Reading) →
        HasJudged R.read_gives R.failure_count task s r.old reader.old
        (cells_behind head.now most count (tally_of done tally.old) k) →
        HasJudged R.read_gives R.failure_count task s r.new reader.new (k (tally_of done tally.new))) }
    ensures err { IfErr result (λ f. (s : R) (task : Task) (done : List Cell) (k : Tally → Reading) →
        ((t : Tally) → IsBehindHead (k t)) →
        HasJudged R.read_gives R.failure_count task s r.old reader.old
        (cells_behind head.now most count (tally_of done tally.old) k) →
        Stops R.read_gives R.failure_count (R.at_end r.new) task s r.new f) }
    ensures no_failure { OnOk result (R.failure_count r.new ≡ R.failure_count r.old) }
{
    for i in 0..count {
        read_cell(reader, r, head, most, tally)?;
    }
    Ok(())
}
