//! How many rows or columns of cells have how many entries.
ghost use Rattle.std.specs.Prelude.{◌≡◌, ◌<◌, ◌^◌, IfOk};
ghost use Rattle.std.specs.FinMap.{entries};
ghost use Rattle.cells.specs.Order.{Rise};
ghost use Rattle.hyper_matrix.specs.Cells.{built_of, cell_total};
ghost use Rattle.cell_queries.specs.Tallies.{tallies};
ghost use Rattle.cell_queries.specs.Degrees.{degrees_of};
ghost use Rattle.snap_query.specs.Queries.{by_side};

use crate::side::Side;
use cell_queries::{Degree, ListedCells, degrees_of};
use cells::Cell;
use std::alloc::{AllocError, Global};

/// How many rows or columns of cells have how many entries.
pub fn degrees_of_cells(
    alloc: Global,
    cells: Vec<Cell>,
    side: Side,
) -> Result<Vec<Degree>, AllocError>
    requires rises { Rise cells.items }
    requires fits { cell_total cells.items < 2 ^ 64 }
    ensures { IfOk result (λ list. list.items ≡ degrees_of (tallies (entries (by_side side (built_of cells.items))))) }
{
    let arranged = side.arranged(cells);
    let mut source = ListedCells::new(&arranged);
    degrees_of(alloc, &mut source)
}
