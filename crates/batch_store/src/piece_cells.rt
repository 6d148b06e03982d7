//! The cells of all pieces of a matrix, by row and then by column.
ghost use Rattle.std.specs.Prelude.{◌≡◌, ◌%◌, ◌<◌, ◌≤◌, ◌∷◌, [], ℕ, List, None, Some, IfSome, T, length, option_map};
ghost use Rattle.std.specs.Prelude.{true, false};
ghost use Rattle.std.specs.FinMap.{entries, is_sorted};
ghost use Rattle.cells.specs.declared.cell.Cell.{Cell};
ghost use Rattle.hyper_matrix.specs.Cells.{entry_of, place_of};
ghost use Rattle.hyper_matrix.specs.Counts.{Place, place_cmp};
ghost use Rattle.hyper_matrix.specs.Search.{is_before};
ghost use Rattle.layer_compaction.specs.Shared.{all_counts, content, values};
ghost use Rattle.batch_store.specs.Pieces.{ArePieces};
ghost use Rattle.batch_store.specs.Walks.{AreParts, entries_each, entries_left};

use crate::limits::MAX_SHARDS;
use cells::Cell;
use hyper_matrix::{Hyper, is_before};
use std::marker::Model;
use std::sync::Arc;

// Whether the next cell of one piece comes before that of another; so it does where the other has none.
fn is_next(cells: &[Cell], others: &[Cell]) -> bool
    ensures none { cells.now ≡ [] → result ≡ false }
    ensures last { (c : Cell) (cs : List Cell) → cells.now ≡ c ∷ cs → others.now ≡ [] → result ≡ true }
    ensures both { (c o : Cell) (cs os : List Cell) → cells.now ≡ c ∷ cs → others.now ≡ o ∷ os →
        result ≡ is_before (place_of c) (place_of o) }
{
    match (cells.first(), others.first()) {
        (None, _) => false,
        (Some(_), None) => true,
        (Some(cell), Some(other)) => is_before((cell.row, cell.col), (other.row, other.col)),
    }
}

// The piece whose next cell comes before those of all others; None where no cell is left.
fn first_piece(left: &[&[Cell]]) -> Option<usize>
    requires { 0 < length left.now }
    ensures within { IfSome result (λ piece. piece < length left.now) }
    ensures none { AreParts 0 (length left.now) (entries_left left.now) [] → result ≡ None }
    ensures some { (e : Place × ℕ) (es : List (Place × ℕ)) → T (is_sorted place_cmp (e ∷ es)) →
        AreParts 0 (length left.now) (entries_left left.now) (e ∷ es) → result ≡ Some (e.0.0 % length left.now) }
{
    let mut first: &[Cell] = &[];
    let mut found = None;
    'pieces: for (piece, cells) in left.iter().enumerate() {
        if is_next(cells, first) {
            first = cells;
            found = Some(piece);
        }
    }
    found
}

/// The next cell of all pieces, of each of which these are the cells that are left: by row and then by column. Takes it
/// off, so that the cells of a matrix come one after the other. None where no cell is left. A look at each piece.
pub(crate) fn next_cell(left: &mut [&[Cell]]) -> Option<Cell>
    requires { 0 < length left.old }
    ensures length { length left.new ≡ length left.old }
    ensures none { AreParts 0 (length left.old) (entries_left left.old) [] → (result ≡ None) × (left.new ≡ left.old) }
    ensures some { (e : Place × ℕ) (es : List (Place × ℕ)) → T (is_sorted place_cmp (e ∷ es)) →
        AreParts 0 (length left.old) (entries_left left.old) (e ∷ es) →
        (option_map entry_of result ≡ Some e) × AreParts 0 (length left.old) (entries_left left.new) es }
{
    let piece = first_piece(left)?;
    let (cell, rest) = left[piece].split_first()?;
    left[piece] = rest;
    Some(*cell)
}

/// The cells of a matrix that is cut in pieces, by row and then by column, as `Pieces::cells` gives them. It borrows the
/// pieces.
///
/// Contracts see the list of the entries that are still to come, as those of `hyper_matrix::Cells`. A call of `next` looks
/// at each piece, and takes no memory. After None it goes on to answer None.
#[derive(Drop)]
pub struct PieceCells<'a> {
    left: [&'a [Cell]; MAX_SHARDS as usize],
    count: usize,
}

impl<'a> Model for PieceCells<'a> {
    ghost use Rattle.std.specs.Prelude.{ℕ, List, take};
    ghost use Rattle.hyper_matrix.specs.Counts.{Place};
    ghost use Rattle.batch_store.specs.Walks.{IsWalk, entries_left, merged};

    ghost Value = { List (Place × ℕ) };

    ghost view = { λ c. merged (entries_left (take c.count c.left)) };

    ghost invariant = { λ c. IsWalk c.count (entries_left (take c.count c.left)) };
}

// Puts the cells of each matrix at its place.
fn start_each<'a>(left: &mut [&'a [Cell]], list: &'a [Arc<Hyper>])
    requires { length left.old ≡ length list.now }
    ensures { entries_left left.new ≡ entries_each (values list.now) }
{
    'matrices: for (place, matrix) in list.iter().enumerate() {
        left[place] = matrix.as_cells();
    }
}

impl<'a> PieceCells<'a> {
    /// All cells of these pieces.
    pub(crate) fn new(list: &'a [Arc<Hyper>]) -> PieceCells<'a>
        requires some { 0 < length list.now }
        requires few { length list.now ≤ 64 }
        requires pieces { (rows cols : ℕ) × ArePieces rows cols (values list.now) }
        ensures { result ≡ entries (content (all_counts (values list.now))) }
    {
        let mut left: [&'a [Cell]; MAX_SHARDS as usize] = [&[]; MAX_SHARDS as usize];
        let count = list.len();
        start_each(&mut left[..count], list);
        PieceCells { left, count }
    }
}

impl<'a> Iterator for PieceCells<'a> {
    type Item = Cell;

    ghost use Rattle.std.specs.Iterator.{YieldsFirstBy, item_count};
    ghost use Rattle.hyper_matrix.specs.Cells.{entry_of};

    ghost next_gives = { YieldsFirstBy entry_of (λ left. left) };

    ghost remaining = { item_count (λ left. left) };

    fn next(&mut self) -> Option<Cell> {
        next_cell(&mut self.left[..self.count])
    }
}
