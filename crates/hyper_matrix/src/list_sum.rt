//! The sum of many lists of cells in strict order, as one list in strict order, by merges of two.
//!
//! The lists are parted where both parts have about as many cells, each part is summed, and the two sums are merged. So
//! a cell is written as often as the cells can be halved down to its list, and a list that is the larger part is
//! written once. The sums of parts lie in a second list, and the two lists change roles from one halving to the next:
//! each of them grows once.
ghost use Rattle.std.specs.Prelude.{◌≡◌, ◌+◌, ◌<◌, ◌^◌, map, length, All, OnOk, IfOk};
ghost use Rattle.cells.specs.Order.{Rise};
ghost use Rattle.hyper_matrix.specs.Counts.{total};
ghost use Rattle.hyper_matrix.specs.ListSum.{sum_built, IsSumOf, AppendsSeveral, IsSumOfSeveral};

use crate::merge::push_merged;
use cells::Cell;
use std::alloc::{AllocError, Global};

// How many cells lists have together, up to what a usize holds.
fn cells_in(lists: &[&[Cell]]) -> usize {
    let mut cells = 0usize;
    for list in lists {
        cells = cells.saturating_add(list.len());
    }
    cells
}

// Where lists are parted, so that both parts have about as many cells. Neither is empty.
fn middle_of(lists: &[&[Cell]]) -> usize
    requires { 1 < length lists.now }
    ensures { (0 < result) × (result < length lists.now) }
{
    let all = cells_in(lists);
    let mut before = 0usize;
    'lists: for place in 1..lists.len() {
        let with = before.saturating_add(lists[place - 1].len());
        // A list goes to the part where its own middle lies.
        if with.saturating_add(before) >= all {
            return (place - 1).max(1);
        }
        before = with;
    }
    lists.len() - 1
}

// The cells that `push_several` appends at most.
fn room_of(lists: &[&[Cell]]) -> usize {
    if lists.len() == 1 { 0 } else { cells_in(lists) }
}

// The sum of lists: the only one, or else the one that was made of them.
fn part_of<'a>(lists: &[&'a [Cell]], made: &'a [Cell]) -> &'a [Cell]
    requires rise { All Rise (map (λ list. list.now) lists.now) }
    requires made { IsSumOfSeveral made.now (map (λ list. list.now) lists.now) }
    ensures { IsSumOf result.now (map (λ list. list.now) lists.now) }
{
    match lists {
        [only] => *only,
        _ => made,
    }
}

// Appends the sum of lists, unless they are one alone: nothing is made of that. The other list is room for the sums of
// parts, and has what it had then.
fn push_several(
    out: &mut Vec<Cell>,
    spare: &mut Vec<Cell>,
    lists: &[&[Cell]],
) -> Result<(), AllocError>
    requires rise { All Rise (map (λ list. list.now) lists.now) }
    requires fits { total (sum_built (map (λ list. list.now) lists.now)) < 2 ^ 64 }
    ensures sum { OnOk result (AppendsSeveral out.old.items out.new.items (map (λ list. list.now) lists.now)) }
    ensures spare { OnOk result (spare.new.items ≡ spare.old.items) }
{
    if lists.len() <= 1 {
        return Ok(());
    }
    let (left, right) = lists.split_at(middle_of(lists));
    let begun = spare.len();
    spare.reserve(room_of(left).saturating_add(room_of(right)))?;
    push_several(spare, out, left)?;
    let middle = spare.len();
    push_several(spare, out, right)?;
    let left = part_of(left, &spare[begun..middle]);
    let right = part_of(right, &spare[middle..]);
    push_merged(out, left, right)?;
    spare.truncate(begun);
    Ok(())
}

/// The sum of lists in strict order: each place of any of them, in order, with the sum of its counts.
///
/// Takes memory for the cells of all and for a part of them again while it runs, and time in proportion to them and to
/// how often they can be halved.
///
/// # Errors
///
/// Memory was refused.
pub fn sum_of_lists(alloc: Global, lists: &[&[Cell]]) -> Result<Vec<Cell>, AllocError>
    requires rise { All Rise (map (λ list. list.now) lists.now) }
    requires fits { total (sum_built (map (λ list. list.now) lists.now)) < 2 ^ 64 }
    ensures { IfOk result (λ sum. IsSumOf sum.items (map (λ list. list.now) lists.now)) }
{
    let mut out = Vec::with_capacity(alloc, cells_in(lists))?;
    if lists.len() == 1 {
        out.extend_from_slice(lists[0])?;
        return Ok(out);
    }
    let mut spare = Vec::new(alloc);
    push_several(&mut out, &mut spare, lists)?;
    Ok(out)
}
