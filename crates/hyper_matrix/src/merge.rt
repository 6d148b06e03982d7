//! The sum of two lists of cells in strict order, as one list in strict order: a merge.
//!
//! Room is reserved once. What lies before all of the other list is found by bisection and copied, and so is what is
//! left when one of them ends: lists of which one ends before the other begins are copied as they are. Between, the
//! cell that is taken is picked by masks and not by a branch, since nobody can foresee which list has the next one.
//! Only equal places take a branch of their own.
ghost use Rattle.std.specs.Prelude.{◌≡◌, ℕ, ◌+◌, ◌-◌, ◌*◌, ◌<◌, ◌≤◌, ◌^◌, ◌⊎◌, ◌↔◌, List, IsTrue, IsFalse, OnOk, IfOk, length};
ghost use Rattle.std.specs.Prelude.{vec_len, vec_capacity, slice_index_or};
ghost use Rattle.cells.specs.declared.cell.Cell.{Cell};
ghost use Rattle.cells.specs.Order.{Precedes, Rise};
ghost use Rattle.hyper_matrix.specs.Cells.{cell_total};
ghost use Rattle.hyper_matrix.specs.Merge.{AppendsSum, SumsTo};

use crate::bisection::partition_point;
use cells::Cell;
use std::alloc::AllocError;

// A cell's place as one number: places are in order as these numbers are.
fn key(cell: Cell) -> u128
    ensures { result ≡ cell.row * 2 ^ 64 + cell.col }
{
    u128::from(cell.row) * (1 << 64) + u128::from(cell.col)
}

/// Whether a cell's place comes before another's.
pub(crate) fn precedes(first: Cell, second: Cell) -> bool
    ensures { IsTrue result ↔ Precedes first second }
{
    key(first) < key(second)
}

// Whether two cells stand at one place.
fn is_same_place(first: Cell, second: Cell) -> bool
    ensures { IsTrue result ↔ ((first.row ≡ second.row) × (first.col ≡ second.col)) }
{
    key(first) == key(second)
}

// 1 where a test holds, and 0 where it doesn't.
fn number_of(test: bool) -> u64
    ensures yes { IsTrue test → result ≡ 1 }
    ensures no { IsFalse test → result ≡ 0 }
{
    u64::from(test)
}

// One of two numbers, by a mask: the first where all bits of the mask are set, the second where none is.
fn picked(first: u64, second: u64, mask: u64) -> u64
    ensures all { mask ≡ u64.MAX → result ≡ first }
    ensures none { mask ≡ 0 → result ≡ second }
{
    second ^ ((first ^ second) & mask)
}

// One of two cells, without a branch.
fn picked_cell(first: Cell, second: Cell, is_first: u64) -> Cell
    ensures first { is_first ≡ 1 → result ≡ first }
    ensures second { is_first ≡ 0 → result ≡ second }
{
    let mask = 0u64.wrapping_sub(is_first);
    Cell {
        row: picked(first.row, second.row, mask),
        col: picked(first.col, second.col, mask),
        count: picked(first.count, second.count, mask),
    }
}

// How many cells come before another, by bisection.
fn cells_before(cells: &[Cell], cell: Cell) -> usize
    ensures within { result ≤ length cells.now }
    ensures before { (d : Cell) → 0 < result → Precedes (slice_index_or cells.now (result - 1) d) cell }
{
    partition_point(cells.len(), |k| precedes(cells[k], cell))
}

// Appends what one list has before all of the other, and gives how many cells of each that is.
fn push_front(
    out: &mut Vec<Cell>,
    left: &[Cell],
    right: &[Cell],
) -> Result<(usize, usize), AllocError>
    requires left { Rise left.now }
    requires right { Rise right.now }
    ensures sums { IfOk result (λ at. SumsTo out.old.items out.new.items left.now right.now at.0 at.1) }
    ensures len { IfOk result (λ at. vec_len out.new ≡ vec_len out.old + (at.0 + at.1)) }
    ensures capacity { OnOk result (vec_capacity out.old ≤ vec_capacity out.new) }
{
    if left.is_empty() || right.is_empty() {
        return Ok((0, 0));
    }
    if precedes(left[0], right[0]) {
        let end = cells_before(left, right[0]);
        out.extend_from_slice(&left[..end])?;
        return Ok((end, 0));
    }
    let end = cells_before(right, left[0]);
    out.extend_from_slice(&right[..end])?;
    Ok((0, end))
}

// Goes on with the sum from these cells until one list ends, and gives how far it came in each. There is room for all.
fn push_both(
    out: &mut Vec<Cell>,
    left: &[Cell],
    right: &[Cell],
    from: (usize, usize),
) -> (usize, usize)
    requires left { Rise left.now }
    requires right { Rise right.now }
    requires fits { cell_total left.now + cell_total right.now < 2 ^ 64 }
    requires left_within { from.0 ≤ length left.now }
    requires right_within { from.1 ≤ length right.now }
    requires room { vec_len out.old + (length left.now + length right.now) ≤ vec_capacity out.old + (from.0 + from.1) }
    ensures sums { (begun : List Cell) → SumsTo begun out.old.items left.now right.now from.0 from.1 →
        SumsTo begun out.new.items left.now right.now result.0 result.1 }
    ensures ends { (length left.now ≡ result.0) ⊎ (length right.now ≡ result.1) }
{
    let (mut i, mut j) = from;
    'steps: while i < left.len() && j < right.len() {
        let x = left[i];
        let y = right[j];
        if is_same_place(x, y) {
            out.push_reserved(Cell {
                row: x.row,
                col: x.col,
                count: x.count + y.count,
            });
            i += 1;
            j += 1;
        } else {
            let is_left = number_of(precedes(x, y));
            out.push_reserved(picked_cell(x, y, is_left));
            i += is_left as usize;
            j += (1 - is_left) as usize;
        }
    }
    (i, j)
}

/// Appends the sum of two lists in strict order: each place of either, in order, with its count or the sum of both.
///
/// Takes memory for the cells of both, where the list hasn't the room, and time in proportion to them: a step for each
/// cell from where the lists overlap until one ends, and for the others that of a copy.
///
/// # Errors
///
/// Memory was refused. Some cells of the sum may have been appended.
pub fn push_merged(out: &mut Vec<Cell>, left: &[Cell], right: &[Cell]) -> Result<(), AllocError>
    requires left { Rise left.now }
    requires right { Rise right.now }
    requires fits { cell_total left.now + cell_total right.now < 2 ^ 64 }
    ensures { OnOk result (AppendsSum out.old.items out.new.items left.now right.now) }
{
    out.reserve(left.len() + right.len())?;
    let front = push_front(out, left, right)?;
    let (i, j) = push_both(out, left, right, front);
    out.extend_from_slice(&left[i..])?;
    out.extend_from_slice(&right[j..])?;
    Ok(())
}
