//! A cell of the later list beside the next one of the earlier list.
ghost use Rattle.std.specs.Prelude.{◌≡◌};
ghost use Rattle.hyper_matrix.specs.Counts.{place_cmp};
ghost use Rattle.hyper_matrix.specs.Cells.{place_of};
ghost use Rattle.matrix_difference.specs.Walk.{step_of, counted};

use cells::Cell;
use std::cmp::Ordering;

/// What a cell of the later list comes to.
#[derive(Clone, Copy, Debug, PartialEq, Eq)]
pub enum Step {
    /// The count falls at this place.
    Falls(u64, u64),
    /// The earlier list has nothing there.
    Keep(Cell),
    /// The earlier list has the same place, and this is left over.
    Meet(Option<Cell>),
}

// The order of the places of two cells.
fn place_order(a: Cell, b: Cell) -> Ordering
    ensures { result ≡ place_cmp (place_of a) (place_of b) }
{
    match a.row.cmp(&b.row) {
        Ordering::Equal => a.col.cmp(&b.col),
        order => order,
    }
}

// A cell at whose place the earlier list has this count.
fn counted(cell: Cell, before: u64) -> Step
    ensures { result ≡ counted cell before }
{
    if cell.count < before {
        Step::Falls(cell.row, cell.col)
    } else if cell.count == before {
        Step::Meet(None)
    } else {
        Step::Meet(Some(Cell {
            row: cell.row,
            col: cell.col,
            count: cell.count - before,
        }))
    }
}

/// What a cell of the later list comes to, where this is the next one of the earlier list.
pub fn step_over(cell: Cell, front: Option<Cell>) -> Step
    ensures { result ≡ step_of cell front }
{
    let Some(before) = front else {
        return Step::Keep(cell);
    };
    match place_order(before, cell) {
        Ordering::Less => Step::Falls(before.row, before.col),
        Ordering::Equal => counted(cell, before.count),
        Ordering::Greater => Step::Keep(cell),
    }
}
