//! The judgement of a list of cells that a batch is to be made of.
ghost use Rattle.std.specs.Prelude.{◌≡◌, length, IfOk, OnOk, IfErr};
ghost use Rattle.hyper_matrix.specs.Cells.{built_of};
ghost use Rattle.hyper_matrix.specs.Matrix.{matrix};
ghost use Rattle.hyper_matrix.specs.Refusals.{LeavesDimensions};
ghost use Rattle.batch_store.specs.Lists.{MakesBatch, RefusesList};

use crate::fault::CellsFault;
use crate::limits::MAX_CELLS;
use crate::setup::Setup;
use cells::Cell;
use hyper_matrix::{BuildFault, Hyper};
use std::alloc::Global;

/// How many cells stand before the first that lies outside, or all. A pass over these.
pub fn cells_before_outside(rows: u64, cols: u64, cells: &[Cell]) -> usize
    ensures { (w : LeavesDimensions rows cols cells.now) → result ≡ length w.before }
{
    let mut i = 0;
    'cells: while i < cells.len() {
        let cell = cells[i];
        if cell.row >= rows || cell.col >= cols {
            return i;
        }
        i += 1;
    }
    i
}

/// The matrix of a list of cells, in a setup's dimensions, or the first fault of the list.
pub fn list_matrix(alloc: Global, setup: &Setup, cells: &[Cell]) -> Result<Hyper, CellsFault>
    ensures ok { IfOk result (λ m. m ≡ matrix setup.now.rows setup.now.cols (built_of cells.now)) }
    ensures fits { OnOk result (MakesBatch setup.now cells.now) }
    ensures err { IfErr result (λ fault. RefusesList setup.now cells.now fault) }
{
    if cells.len() > MAX_CELLS {
        return Err(CellsFault::TooManyCells);
    }
    let rows = setup.rows();
    let cols = setup.cols();
    match Hyper::build(alloc, rows, cols, cells) {
        Ok(m) => Ok(m),
        Err(BuildFault::Memory) => Err(CellsFault::Memory),
        Err(BuildFault::IndexOutOfRange) => Err(CellsFault::IndexOutOfRange {
            at: cells_before_outside(rows, cols, cells) as u64,
        }),
        Err(BuildFault::SumTooLarge) => Err(CellsFault::SumTooLarge),
    }
}
