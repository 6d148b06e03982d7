//! Two matrices walked through side by side, to tell at how many places of the second the first has none.
ghost use Rattle.std.specs.Prelude.{◌≡◌, ℕ, ◌≤◌, List, IsTrue, T, ◌↔◌, length, map, take};
ghost use Rattle.std.specs.FinMap.{entries, is_sorted};
ghost use Rattle.hyper_matrix.specs.Cells.{entry_of};
ghost use Rattle.hyper_matrix.specs.Counts.{Place, place_cmp};
ghost use Rattle.hyper_matrix.specs.Places.{IsFirst};
ghost use Rattle.layer_compaction.specs.Runs.{count_new, from_place, left_with, without};

use cells::Cell;
use hyper_matrix::{Cells, Hyper, is_before};

// Passes the cells that stand before a place, and gives the first that doesn't. `head` is the one taken last.
fn advanced(cells: &mut Cells<'_>, head: Option<Cell>, place: (u64, u64)) -> Option<Cell>
    ensures { left_with result cells.new ≡ from_place place (left_with head cells.old) }
{
    let mut head = head;
    'passed: while let Some(cell) = head {
        if !is_before((cell.row, cell.col), place) {
            return head;
        }
        head = cells.next();
    }
    head
}

// Whether a cell stands at a place.
fn stands_at(head: Option<Cell>, place: (u64, u64)) -> bool
    ensures { (behind : List (Place × ℕ)) → IsTrue result ↔ IsFirst place (left_with head behind) }
{
    match head {
        Some(cell) => cell.row == place.0 && cell.col == place.1,
        None => false,
    }
}

/// How many entries a matrix has at places where the one before it has none. Takes constant time for each cell of both.
pub fn new_beside(before: &Hyper, m: &Hyper) -> u64
    ensures { result ≡ count_new before.now.counts (entries m.now.counts) }
{
    // They fit 64 bits, so the new ones do.
    let _bound = m.entries();
    let mut others = before.iter();
    let mut head = others.next();
    let mut new = 0;
    'cells: for cell in m.iter() {
        let place = (cell.row, cell.col);
        head = advanced(&mut others, head, place);
        if !stands_at(head, place) {
            new += 1;
        }
    }
    new
}

/// Moves the cells of a list in order at whose places a matrix has none to the front, in the same order, and gives
/// their number. What stands behind them is not said. Takes constant time for each cell of both, and no memory.
pub fn keep_new(cells: &mut [Cell], before: &Hyper) -> usize
    requires order { T (is_sorted place_cmp (map entry_of cells.old)) }
    ensures within { result ≤ length cells.new }
    ensures kept { map entry_of (take result cells.new) ≡ without before.now.counts (map entry_of cells.old) }
{
    let mut others = before.iter();
    let mut head = others.next();
    let mut kept = 0;
    'cells: for i in 0..cells.len() {
        let cell = cells[i];
        let place = (cell.row, cell.col);
        head = advanced(&mut others, head, place);
        if !stands_at(head, place) {
            cells[kept] = cell;
            kept += 1;
        }
    }
    kept
}
