//! The cells of a list as a source.
ghost use Rattle.std.specs.Prelude.{◌≡◌, map};
ghost use Rattle.hyper_matrix.specs.Cells.{entry_of};

use crate::source::CellSource;
use cells::Cell;
use hyper_matrix::count_before;
use std::marker::Model;

/// The cells of a list that are still to come. It borrows the list.
#[derive(Drop)]
pub struct ListedCells<'a> {
    cells: &'a [Cell],
}

impl<'a> Model for ListedCells<'a> {
    ghost use Rattle.std.specs.Prelude.{ℕ, List, map};
    ghost use Rattle.hyper_matrix.specs.Counts.{Place};
    ghost use Rattle.hyper_matrix.specs.Cells.{entry_of};

    ghost Value = { List (Place × ℕ) };

    ghost view = { λ c. map entry_of c.cells.now };
}

impl<'a> ListedCells<'a> {
    /// All cells of a list.
    pub fn new(cells: &'a [Cell]) -> ListedCells<'a>
        ensures { result ≡ map entry_of cells.now }
    {
        ListedCells { cells }
    }
}

impl CellSource for ListedCells<'_> {
    ghost left = { λ cells. cells };

    fn next_cell(&mut self) -> Option<Cell> {
        let (cell, cells) = self.cells.split_first()?;
        self.cells = cells;
        Some(*cell)
    }

    fn skip_to_place(&mut self, place: (u64, u64)) {
        let passed = count_before(self.cells, place);
        self.cells = &self.cells[passed..];
    }
}
