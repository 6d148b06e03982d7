//! Where cells come from.
ghost use Rattle.std.specs.Prelude.{◌≡◌, ℕ, T, List};
ghost use Rattle.std.specs.FinMap.{entries, is_sorted};
ghost use Rattle.std.specs.Iterator.{YieldsFirstBy};
ghost use Rattle.hyper_matrix.specs.Cells.{entry_of};
ghost use Rattle.hyper_matrix.specs.Counts.{Place, place_cmp};
ghost use Rattle.hyper_matrix.specs.Search.{cells_from};

use cells::Cell;
use hyper_matrix::Cells;
use merged_cells::MergedCells;

/// Cells that come one after the other. Contracts see the entries that are still to come.
pub trait CellSource {
    ghost left: { Self → List (Place × ℕ) };

    /// The next cell. After None it goes on to answer None.
    fn next_cell(&mut self) -> Option<Cell>
        ensures { YieldsFirstBy entry_of left self.old result self.new };

    /// Passes over the cells before a place, by a search: those at it and behind it are left, in order.
    fn skip_to_place(&mut self, place: (u64, u64))
        requires { T (is_sorted place_cmp (left self.old)) }
        ensures { left self.new ≡ cells_from place (left self.old) };
}

impl CellSource for Cells<'_> {
    ghost left = { λ cells. cells };

    fn next_cell(&mut self) -> Option<Cell> {
        self.next()
    }

    fn skip_to_place(&mut self, place: (u64, u64)) {
        self.skip_to(place);
    }
}

impl CellSource for MergedCells<'_> {
    ghost left = { entries };

    fn next_cell(&mut self) -> Option<Cell> {
        self.next()
    }

    fn skip_to_place(&mut self, place: (u64, u64)) {
        self.skip_to(place);
    }
}
