//! The difference of two lists of cells in order: one walk over both.
ghost use Rattle.std.specs.Prelude.{◌≡◌, ◌++◌, ◌∷◌, [], ℕ, slice_get, Err, IfOk, OnOk};
ghost use Rattle.cells.specs.Bounds.{AreWithin};
ghost use Rattle.cells.specs.Order.{Rise};
ghost use Rattle.hyper_matrix.specs.Cells.{built_of};
ghost use Rattle.matrix_difference.specs.Difference.{IsDifference, IsFirstFall};

use crate::walk::{Step, step_over};
use cells::Cell;
use std::alloc::{AllocError, Global};
use thiserror::Error;

/// Why there is no difference.
#[derive(Clone, Copy, Debug, PartialEq, Eq, Error)]
pub enum MinusFault {
    /// At this place, counted from 0, the later matrix has less than the earlier one, or nothing where that has an entry.
    #[error("Falls at row {0} col {1}")]
    Falls(u64, u64),
    /// There was no memory for the cells of the difference.
    #[error("memory")]
    Memory,
}

impl From<AllocError> for MinusFault {
    ghost use Rattle.matrix_difference.specs.declared.difference.MinusFault.TheVariants.{Memory};

    ghost from_gives = { λ _ fault. fault ≡ Memory };

    fn from(_error: AllocError) -> MinusFault {
        MinusFault::Memory
    }
}

// The cell at an index, if there is one.
fn cell_at(cells: &[Cell], at: usize) -> Option<Cell>
    ensures { result ≡ slice_get cells.now at }
{
    cells.get(at).copied()
}

// Appends a cell.
fn push_cell(cells: &mut Vec<Cell>, cell: Cell) -> Result<(), AllocError>
    ensures { OnOk result (cells.new.items ≡ cells.old.items ++ cell ∷ []) }
{
    cells.push(cell)?;
    Ok(())
}

/// The cells of what `new` has more than `old`, by row and then by column: where `old` has no entry those of `new`, and
/// where it has one what the count has risen by, if it has. One walk over both; memory goes to the cells of the
/// difference.
///
/// # Errors
///
/// `Falls` at the first place where a count falls, and `Memory`.
pub fn minus_cells(alloc: Global, new: &[Cell], old: &[Cell]) -> Result<Vec<Cell>, MinusFault>
    requires new { Rise new.now }
    requires old { Rise old.now }
    ensures difference { IfOk result (λ cells.
        IsDifference (built_of new.now) (built_of old.now) (built_of cells.items)) }
    ensures falls { (row col : ℕ) → result ≡ Err (MinusFault.Falls row col) →
        IsFirstFall (built_of new.now) (built_of old.now) (row, col) }
    ensures rises { IfOk result (λ cells. Rise cells.items) }
    ensures within { IfOk result (λ cells. (rows cols : ℕ) → AreWithin rows cols new.now →
        AreWithin rows cols cells.items) }
{
    let mut more = Vec::new(alloc);
    let mut at = 0;
    'cells: for cell in new {
        match step_over(*cell, cell_at(old, at)) {
            Step::Falls(row, col) => return Err(MinusFault::Falls(row, col)),
            Step::Keep(cell) => push_cell(&mut more, cell)?,
            Step::Meet(rest) => {
                at += 1;
                if let Some(cell) = rest {
                    push_cell(&mut more, cell)?;
                }
            }
        }
    }
    match cell_at(old, at) {
        Some(cell) => Err(MinusFault::Falls(cell.row, cell.col)),
        None => Ok(more),
    }
}
