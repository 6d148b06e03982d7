//! Rows or columns.
ghost use Rattle.std.specs.Prelude.{◌≡◌, ℕ, ◌<◌, ◌^◌, map};
ghost use Rattle.std.specs.FinMap.{entries};
ghost use Rattle.cells.specs.Order.{Rise};
ghost use Rattle.cells.specs.Sums.{sum_at};
ghost use Rattle.hyper_matrix.specs.Cells.{built_of, cell_total, entry_of};
ghost use Rattle.snap_query.specs.Queries.{by_side};
ghost use Rattle.snap_query.specs.Turned.{turned_cell};

use cells::{Cell, into_summed};

/// What a question is of.
#[derive(Clone, Copy, Debug, PartialEq, Eq)]
pub enum Side {
    Rows,
    Cols,
}

// Exchanges rows and columns.
fn turn(cells: &mut [Cell])
    ensures { cells.new ≡ map turned_cell cells.old }
{
    'cells: for cell in cells.iter_mut() {
        *cell = Cell {
            row: cell.col,
            col: cell.row,
            count: cell.count,
        };
    }
}

// The cells with rows and columns exchanged, in order, in their own memory.
fn turned(cells: Vec<Cell>) -> Vec<Cell>
    requires { cell_total cells.items < 2 ^ 64 }
    ensures rises { Rise result.items }
    ensures cells { (q : ℕ × ℕ) → sum_at q result.items ≡ sum_at q (map turned_cell cells.items) }
{
    let mut list = cells;
    turn(&mut list);
    into_summed(list)
}

impl Side {
    /// Cells in order, and where columns are asked for by column and then by row: the column stands as the row then.
    pub fn arranged(self, cells: Vec<Cell>) -> Vec<Cell>
        requires rises { Rise cells.items }
        requires fits { cell_total cells.items < 2 ^ 64 }
        ensures { map entry_of result.items ≡ entries (by_side self (built_of cells.items)) }
    {
        match self {
            Side::Rows => cells,
            Side::Cols => turned(cells),
        }
    }
}
