//! The cells in a range.
ghost use Rattle.std.specs.Prelude.{◌≡◌, ℕ, map};
ghost use Rattle.cells.specs.Bounds.{AreWithin};
ghost use Rattle.hyper_matrix.specs.Cells.{entry_of};
ghost use Rattle.cell_queries.specs.Ranges.{cells_in};

use cell_queries::CellRange;
use cells::Cell;

/// The cells that stand in a range, in their own memory.
pub fn kept_in(cells: Vec<Cell>, range: &CellRange) -> Vec<Cell>
    ensures cells { map entry_of result.items ≡ cells_in range.now (map entry_of cells.items) }
    ensures within { (rows cols : ℕ) → AreWithin rows cols cells.items → AreWithin rows cols result.items }
{
    let mut list = cells;
    list.retain(|cell| range.contains(*cell));
    list
}
