//! Reads matrices.
//!
//! The cells of one stand in order, each once. So they are read into a list, and the matrix takes it over, without a
//! sort and without a copy.
ghost use Rattle.std.specs.Prelude.{◌≡◌, ℕ, ◌+◌, ◌<◌, ◌≤◌, ◌^◌, IfOk, OnOk, IfErr};
ghost use Rattle.cells.specs.Bounds.{AreWithin};
ghost use Rattle.cells.specs.Order.{Rise};
ghost use Rattle.cells.specs.Sums.{cell_total};
ghost use Rattle.hyper_matrix.specs.Cells.{built_of};
ghost use Rattle.hyper_matrix.specs.Matrix.{matrix};
ghost use Rattle.snap_file.specs.Table.{Reading, Tally, no_cells, cells_behind};
ghost use Rattle.snap_file.specs.Outcomes.{Task, HasJudged, IsBehindHead, Stops};
ghost use Rattle.snap_file.specs.declared.fault.SnapFault.{SnapFault};

use crate::fault::SnapFault;
use crate::head::Head;
use crate::limits::FIRST_CELLS;
use crate::reader::ByteReader;
use crate::tally::{CellTally, read_cells};
use byte_io::Source;
use cells::Cell;
use hyper_matrix::Hyper;
use std::alloc::Global;
use std::mem;

// The matrix of cells that were read. It takes their list over.
fn matrix_of(alloc: Global, head: &Head, cells: Vec<Cell>) -> Result<Hyper, SnapFault>
    requires rises { Rise cells.items }
    requires within { AreWithin head.now.setup.rows head.now.setup.cols cells.items }
    requires fits { cell_total cells.items < 2 ^ 64 }
    ensures ok { IfOk result (λ m. m ≡ matrix head.now.setup.rows head.now.setup.cols (built_of cells.items)) }
    ensures err { IfErr result (λ f. f ≡ SnapFault.Memory) }
{
    match Hyper::from_sorted(alloc, head.setup.rows(), head.setup.cols(), cells) {
        Ok(m) => Ok(m),
        Err(_) => Err(SnapFault::Memory),
    }
}

/// Reads the cells of a matrix; the counts together may come to `most`.
pub fn read_entries<R: Source>(
    alloc: Global,
    reader: &mut ByteReader,
    r: &mut R,
    head: &Head,
    most: u64,
    tally: &mut CellTally,
    count: u64,
) -> Result<Hyper, SnapFault>
    requires failures { R.failure_count r.old + 1 < 2 ^ 64 }
    requires counted { tally.old.counted ≤ most }
    ensures counted { OnOk result (tally.new.counted ≤ most) }
    ensures dims { IfOk result (λ m. (m.rows ≡ head.now.setup.rows) × (m.cols ≡ head.now.setup.cols)) }
    ensures ok { IfOk result (λ m. (s : R) (task : Task) (k : Tally → Reading) →
        HasJudged R.read_gives R.failure_count task s r.old reader.old
        (cells_behind head.now most count (no_cells tally.old.counted) k) →
        (t : Tally) × (m ≡ matrix head.now.setup.rows head.now.setup.cols (built_of t.cells)) ×
        (t.counted ≡ tally.new.counted)
        × HasJudged R.read_gives R.failure_count task s r.new reader.new (k t)) }
    ensures err { IfErr result (λ f. (s : R) (task : Task) (k : Tally → Reading) →
        ((t : Tally) → IsBehindHead (k t)) →
        HasJudged R.read_gives R.failure_count task s r.old reader.old
        (cells_behind head.now most count (no_cells tally.old.counted) k) →
        Stops R.read_gives R.failure_count (R.at_end r.new) task s r.new f) }
    ensures no_failure { OnOk result (R.failure_count r.new ≡ R.failure_count r.old) }
{
    tally.least_row = 0;
    tally.least_col = 0;
    tally.cells.clear();
    // Where memory is refused here, the first cell is told so.
    let _room = tally.cells.reserve_exact(count.min(FIRST_CELLS) as usize);
    read_cells(reader, r, head, most, tally, count)?;
    let cells = mem::replace(&mut tally.cells, Vec::new(alloc));
    let m = matrix_of(alloc, head, cells)?;
    Ok(m)
}
