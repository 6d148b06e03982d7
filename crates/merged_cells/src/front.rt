//! The cells of one matrix that are still to come, ordered by the place of the first.
ghost use Rattle.std.specs.Prelude.{◌≡◌, [], ◌∷◌, ◌==◌, T, MatchBool};
ghost use Rattle.std.specs.FinMap.{is_sorted};
ghost use Rattle.std.proofs.Common.{rules};
ghost use Rattle.std.specs.Cmp.{partial_order_from_own_ties};
ghost use Rattle.std.specs.Cmp.Rules.{comparing};
ghost use Rattle.std.specs.Ordering.{nat_cmp, on, flip_args, then_cmp, as_partial_cmp, eq_of_both};
ghost use Rattle.hyper_matrix.specs.Cells.{entry_of};
ghost use Rattle.hyper_matrix.specs.Counts.{place_cmp};
ghost use Rattle.hyper_matrix.specs.Search.{cells_from};

use cells::Cell;
use hyper_matrix::Cells;
use std::cmp::Ordering;

/// The first cell of a matrix that is still to come, and those behind it.
///
/// Of two fronts the greater is the one whose first place is lower, as `BinaryHeap` gives the greatest first. Fronts at
/// one place are equal.
#[derive(Drop)]
pub struct Front<'a> {
    pub cell: Cell,
    pub rest: Cells<'a>,
}

impl Front<'_> {
    /// Goes on to the next cell, if there is one.
    pub fn advance(&mut self) -> bool
        ensures { MatchBool result (self.old.rest ≡ entry_of self.new.cell ∷ self.new.rest) (self.old.rest ≡ []) }
    {
        match self.rest.next() {
            Some(cell) => {
                self.cell = cell;
                true
            }
            None => false,
        }
    }

    /// Goes on to the next cell at a place or behind it, if there is one.
    pub fn skip_to(&mut self, place: (u64, u64)) -> bool
        requires { T (is_sorted place_cmp self.old.rest) }
        ensures { MatchBool result (cells_from place self.old.rest ≡ entry_of self.new.cell ∷ self.new.rest)
            (cells_from place self.old.rest ≡ []) }
    {
        self.rest.skip_to(place);
        self.advance()
    }
}

impl PartialEq for Front<'_> {
    ghost eq = { eq_of_both (on (λ f. f.cell.row) ◌==◌) (on (λ f. f.cell.col) ◌==◌) };

    ghost laws = { Prim.search (comparing, rules) };

    fn eq(&self, other: &Self) -> bool {
        self.cell.row == other.cell.row && self.cell.col == other.cell.col
    }
}

impl Eq for Front<'_> {
    ghost laws = { Prim.search (comparing, rules) };
}

impl Ord for Front<'_> {
    ghost cmp = { flip_args (then_cmp (on (λ f. f.cell.row) nat_cmp) (on (λ f. f.cell.col) nat_cmp)) };

    ghost total = { Prim.search (comparing, rules) };

    ghost matches_partial_cmp = { Prim.search (comparing, rules) };

    ghost matches_eq = { Prim.search (comparing, rules) };

    fn cmp(&self, other: &Self) -> Ordering {
        other
            .cell
            .row
            .cmp(&self.cell.row)
            .then(other.cell.col.cmp(&self.cell.col))
    }
}

impl PartialOrd for Front<'_> {
    ghost partial_cmp = { as_partial_cmp (flip_args (then_cmp (on (λ f. f.cell.row) nat_cmp) (on (λ f. f.cell.col) nat_cmp))) };

    ghost laws = { partial_order_from_own_ties (Prim.search (comparing, rules)) (Prim.search (comparing, rules)) };

    fn partial_cmp(&self, other: &Self) -> Option<Ordering> {
        Some(self.cmp(other))
    }
}
