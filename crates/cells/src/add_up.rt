//! The cells of a list with the counts of equal places added up: `GrB_Matrix_build` of GraphBLAS C API 2.0 combines
//! them by its operator `dup`, here plus.
//!
//! A list that isn't in order is sorted first. Equal places stand together then, and one pass adds them up where they
//! stand.
ghost use Rattle.std.specs.Prelude.{◌≡◌, ℕ, ◌+◌, ◌<◌, ◌≤◌, ◌^◌, ◌↔◌, IsTrue, IsOk, IfOk, length, take};
ghost use Rattle.cells.specs.Bounds.{AreWithin};
ghost use Rattle.cells.specs.Order.{NeverFall, Rise};
ghost use Rattle.cells.specs.Sums.{cell_total, sum_at};

use crate::cell::Cell;
use crate::order::rises;
use crate::sort::{into_sorted, sorted};
use std::alloc::{AllocError, Global};

// Whether two cells stand at one place.
fn is_same_place(a: Cell, b: Cell) -> bool
    ensures { IsTrue result ↔ ((a.row ≡ b.row) × (a.col ≡ b.col)) }
{
    a.row == b.row && a.col == b.col
}

// Adds up the counts of equal places in a list in order, and gives the number of places. Their cells stand at the
// front then, and what stands behind them is not said.
fn add_up(cells: &mut [Cell]) -> usize
    requires some { 0 < length cells.old }
    requires order { NeverFall cells.old }
    requires fits { cell_total cells.old < 2 ^ 64 }
    ensures within { result ≤ length cells.new }
    ensures rises { Rise (take result cells.new) }
    ensures sums { (q : ℕ × ℕ) → sum_at q (take result cells.new) ≡ sum_at q cells.old }
    ensures total { cell_total (take result cells.new) ≡ cell_total cells.old }
{
    let mut last = 0;
    'cells: for i in 1..cells.len() {
        let cell = cells[i];
        if is_same_place(cells[last], cell) {
            cells[last].count += cell.count;
        } else {
            last += 1;
            cells[last] = cell;
        }
    }
    last + 1
}

/// The places of a list in order, each once and with the sum of its counts, in the list's own memory.
///
/// Takes a pass, and no memory.
pub fn added_up(cells: Vec<Cell>) -> Vec<Cell>
    requires order { NeverFall cells.items }
    requires fits { cell_total cells.items < 2 ^ 64 }
    ensures rises { Rise result.items }
    ensures sums { (q : ℕ × ℕ) → sum_at q result.items ≡ sum_at q cells.items }
    ensures total { cell_total result.items ≡ cell_total cells.items }
{
    let mut list = cells;
    if list.is_empty() {
        return list;
    }
    let places = add_up(&mut list);
    list.truncate(places);
    list
}

/// The places of a list by row and then by column, each once and with the sum of its counts, in the list's own memory.
///
/// Takes the time of `into_sorted`, and a pass or two. A list in which each place stands once, in order, is given back
/// after one.
pub fn into_summed(cells: Vec<Cell>) -> Vec<Cell>
    requires fits { cell_total cells.items < 2 ^ 64 }
    ensures rises { Rise result.items }
    ensures sums { (q : ℕ × ℕ) → sum_at q result.items ≡ sum_at q cells.items }
    ensures total { cell_total result.items ≡ cell_total cells.items }
    ensures within { (rows cols : ℕ) → AreWithin rows cols cells.items → AreWithin rows cols result.items }
{
    if rises(&cells) {
        return cells;
    }
    added_up(into_sorted(cells))
}

/// The same in a list of its own, for a list that is lent. Takes the time and memory of `sorted`, and a pass.
///
/// # Errors
///
/// Memory was refused, which doesn't happen for an empty list.
pub fn summed(alloc: Global, cells: &[Cell]) -> Result<Vec<Cell>, AllocError>
    requires fits { cell_total cells.now < 2 ^ 64 }
    ensures rises { IfOk result (λ list. Rise list.items) }
    ensures sums { IfOk result (λ list. (q : ℕ × ℕ) → sum_at q list.items ≡ sum_at q cells.now) }
    ensures total { IfOk result (λ list. cell_total list.items ≡ cell_total cells.now) }
    ensures within { IfOk result (λ list. (rows cols : ℕ) → AreWithin rows cols cells.now →
        AreWithin rows cols list.items) }
    ensures none { length cells.now ≡ 0 → IsOk result }
{
    let list = sorted(alloc, cells)?;
    Ok(added_up(list))
}
