//! The matrix of a list of cells that is given away, for a batch.
ghost use Rattle.std.specs.Prelude.{◌≡◌, IfOk, OnOk, IfErr};
ghost use Rattle.hyper_matrix.specs.Cells.{built_of};
ghost use Rattle.hyper_matrix.specs.Matrix.{matrix};
ghost use Rattle.batch_store.specs.Lists.{MakesBatch, RefusesList};

use crate::fault::CellsFault;
use crate::limits::MAX_CELLS;
use crate::listed::cells_before_outside;
use crate::setup::Setup;
use cells::Cell;
use hyper_matrix::{BuildFault, Hyper};
use std::alloc::Global;

/// The matrix of a list of cells, in a setup's dimensions, or the first fault of the list: as `list_matrix`, and the
/// list is sorted in its own memory. Which cell lies outside is looked for before that, in a pass of its own.
pub fn given_list_matrix(
    alloc: Global,
    setup: &Setup,
    cells: Vec<Cell>,
) -> Result<Hyper, CellsFault>
    ensures ok { IfOk result (λ m. m ≡ matrix setup.now.rows setup.now.cols (built_of cells.items)) }
    ensures fits { OnOk result (MakesBatch setup.now cells.items) }
    ensures err { IfErr result (λ fault. RefusesList setup.now cells.items fault) }
{
    if cells.len() > MAX_CELLS {
        return Err(CellsFault::TooManyCells);
    }
    let rows = setup.rows();
    let cols = setup.cols();
    let at = cells_before_outside(rows, cols, &cells) as u64;
    match Hyper::build_list(alloc, rows, cols, cells) {
        Ok(m) => Ok(m),
        Err(BuildFault::Memory) => Err(CellsFault::Memory),
        Err(BuildFault::IndexOutOfRange) => Err(CellsFault::IndexOutOfRange { at }),
        Err(BuildFault::SumTooLarge) => Err(CellsFault::SumTooLarge),
    }
}
