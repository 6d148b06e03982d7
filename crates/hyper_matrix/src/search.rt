//! Searches in a list of cells that stand by row and then by column, each place once. A search is a bisection: it takes
//! time in the logarithm of the cells, that of a row's sum also in the entries of the row, and none takes memory.
ghost use Rattle.std.specs.Prelude.{◌≡◌, ◌<◌, ◌^◌, map, length, MatchOption};
ghost use Rattle.std.specs.Option.{option_map};
ghost use Rattle.std.specs.FinMap.{get};
ghost use Rattle.cells.specs.Order.{Rise};
ghost use Rattle.hyper_matrix.specs.Cells.{built_of, cell_total, entry_of};
ghost use Rattle.hyper_matrix.specs.Search.{TurnsAt, is_before, first_from, IsRowSum};
ghost use Rattle.hyper_matrix.specs.Places.{place_at};
ghost use Rattle.hyper_matrix.specs.RowOf.{IsFirst, HasNoneFrom};

use crate::bisection::{is_before, partition_point};
use crate::row_sum::{Entry, RowSum};
use cells::Cell;

/// How many cells of a list in order come before a place, by bisection.
pub fn count_before(cells: &[Cell], place: (u64, u64)) -> usize
    ensures { TurnsAt (λ k. is_before (place_at (map entry_of cells.now) k) place) (length cells.now) result }
{
    partition_point(
        cells.len(),
        |k| is_before((cells[k].row, cells[k].col), place),
    )
}

/// The first cell at the place or behind it.
pub fn first_from(cells: &[Cell], place: (u64, u64)) -> Option<Cell>
    requires { Rise cells.now }
    ensures { option_map entry_of result ≡ first_from place (map entry_of cells.now) }
{
    let i = count_before(cells, place);
    if i < cells.len() {
        Some(cells[i])
    } else {
        None
    }
}

/// The count at a place.
pub fn get(cells: &[Cell], row: u64, col: u64) -> Option<u64>
    requires { Rise cells.now }
    ensures { result ≡ get (built_of cells.now) (row, col) }
{
    let Some(cell) = first_from(cells, (row, col)) else {
        return None;
    };
    if cell.row == row && cell.col == col {
        Some(cell.count)
    } else {
        None
    }
}

/// The first entry of a row at a column or behind it.
pub fn first_in_row(cells: &[Cell], row: u64, from: u64) -> Option<Entry>
    requires { Rise cells.now }
    ensures { MatchOption result (HasNoneFrom (built_of cells.now) row from)
        (IsFirst (built_of cells.now) row from) }
{
    let Some(cell) = first_from(cells, (row, from)) else {
        return None;
    };
    if cell.row == row {
        Some(Entry {
            col: cell.col,
            count: cell.count,
        })
    } else {
        None
    }
}

/// The entries of a row, counted and summed up.
pub fn row_total(cells: &[Cell], row: u64) -> RowSum
    requires rises { Rise cells.now }
    requires fits { cell_total cells.now < 2 ^ 64 }
    ensures { IsRowSum row (map entry_of cells.now) result.entries result.total }
{
    let mut entries = 0u64;
    let mut total = 0u64;
    let mut i = count_before(cells, (row, 0));
    'sum: while i < cells.len() && cells[i].row == row {
        entries += 1;
        total += cells[i].count;
        i += 1;
    }
    RowSum { entries, total }
}
