//! The judgement of a list of cells, before anything is made of it: one pass that takes no memory.
ghost use Rattle.std.specs.Prelude.{◌≡◌, ℕ, ◌<◌, ◌^◌};
ghost use Rattle.hyper_matrix.specs.Refusals.{first_fault};

use cells::Cell;
use thiserror::Error;

/// Why a list of cells makes no matrix.
#[derive(Clone, Copy, Debug, PartialEq, Eq, Error)]
pub enum BuildFault {
    /// Memory was refused. The list itself has no fault.
    #[error("no memory for a matrix")]
    Memory,
    /// A cell's row or column is not within the dimensions.
    #[error("a cell lies outside the dimensions")]
    IndexOutOfRange,
    /// The counts up to a cell come to 2^64 or more.
    #[error("the counts pass 2^64 - 1")]
    SumTooLarge,
}

/// The fault of the first cell that has one: at each cell its place, and then the running total.
pub fn judge_cells(rows: u64, cols: u64, cells: &[Cell]) -> Option<BuildFault>
    ensures { result ≡ first_fault rows cols 0 cells.now }
{
    let mut sum = 0u64;
    for cell in cells {
        if cell.row >= rows || cell.col >= cols {
            return Some(BuildFault::IndexOutOfRange);
        }
        match sum.checked_add(cell.count) {
            Some(more) => sum = more,
            None => return Some(BuildFault::SumTooLarge),
        }
    }
    None
}
