//! Which rows or columns of cells lead.
ghost use Rattle.std.specs.Prelude.{◌<◌, ◌^◌, IfOk};
ghost use Rattle.std.specs.FinMap.{entries};
ghost use Rattle.cells.specs.Order.{Rise};
ghost use Rattle.hyper_matrix.specs.Cells.{built_of, cell_total};
ghost use Rattle.cell_queries.specs.Tallies.{tallies};
ghost use Rattle.cell_queries.specs.Tops.{IsTop};
ghost use Rattle.snap_query.specs.Queries.{by_side};

use crate::side::Side;
use cell_queries::{ListedCells, RowTally, TopBy, top_of};
use cells::Cell;
use std::alloc::{AllocError, Global};

/// Which rows or columns are told, and how many of them.
#[derive(Clone, Copy, Debug, PartialEq, Eq)]
pub struct TopQuery {
    pub side: Side,
    pub by: TopBy,
    pub most: usize,
}

/// The rows or columns of cells that lead.
pub fn top_of_cells(
    alloc: Global,
    cells: Vec<Cell>,
    query: &TopQuery,
) -> Result<Vec<RowTally>, AllocError>
    requires rises { Rise cells.items }
    requires fits { cell_total cells.items < 2 ^ 64 }
    ensures { IfOk result (λ top. IsTop query.now.by query.now.most
        (tallies (entries (by_side query.now.side (built_of cells.items)))) top.items) }
{
    let arranged = query.side.arranged(cells);
    let mut source = ListedCells::new(&arranged);
    top_of(alloc, &mut source, query.by, query.most)
}
