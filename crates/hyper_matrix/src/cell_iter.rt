//! The cells of a matrix one after the other, read from its list as they lie.
ghost use Rattle.std.specs.Prelude.{◌≡◌, T, map};
ghost use Rattle.std.specs.FinMap.{is_sorted};
ghost use Rattle.std.specs.Iterator.{YieldsFirstBy, item_count};
ghost use Rattle.hyper_matrix.specs.Cells.{entry_of};
ghost use Rattle.hyper_matrix.specs.Counts.{place_cmp};
ghost use Rattle.hyper_matrix.specs.Search.{cells_from};

use crate::search::count_before;
use cells::Cell;
use std::marker::Model;

/// The cells of a matrix by row and then by column, as `Hyper::iter` gives them. It borrows the matrix.
///
/// Contracts see the list of the entries that are still to come, each a place and a count. A call of `next` takes
/// constant time and no memory. After None it goes on to answer None.
#[derive(Drop)]
pub struct Cells<'a> {
    left: &'a [Cell],
}

impl<'a> Model for Cells<'a> {
    ghost use Rattle.std.specs.Prelude.{ℕ, List, map};
    ghost use Rattle.hyper_matrix.specs.Counts.{Place};
    ghost use Rattle.hyper_matrix.specs.Cells.{entry_of};

    ghost Value = { List (Place × ℕ) };

    ghost view = { λ c. map entry_of c.left.now };
}

impl<'a> Cells<'a> {
    /// All cells of a list.
    pub(crate) fn new(cells: &'a [Cell]) -> Cells<'a>
        ensures { result ≡ map entry_of cells.now }
    {
        Cells { left: cells }
    }

    /// Passes over the cells before a place: those at it and behind it are left, in order.
    ///
    /// It takes no memory, and time in the logarithm of the cells that are left: it bisects them.
    pub fn skip_to(&mut self, place: (u64, u64))
        requires { T (is_sorted place_cmp self.old) }
        ensures { self.new ≡ cells_from place self.old }
    {
        let passed = count_before(self.left, place);
        self.left = &self.left[passed..];
    }
}

impl<'a> Iterator for Cells<'a> {
    type Item = Cell;

    ghost next_gives = { YieldsFirstBy entry_of (λ left. left) };

    ghost remaining = { item_count (λ left. left) };

    fn next(&mut self) -> Option<Cell> {
        let (cell, left) = self.left.split_first()?;
        self.left = left;
        Some(*cell)
    }
}
