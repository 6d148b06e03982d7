//! The merged cells, and the way through them.
ghost use Rattle.std.specs.Prelude.{◌≡◌, ◌<◌, ◌^◌, ◌↔◌, ◌∷◌, ℕ, None, IsTrue, MatchOption, OnOk, OnErr};
ghost use Rattle.std.specs.BinaryHeap.{heap_items, IsHeap};
ghost use Rattle.std.specs.FinMap.{entries, empty};
ghost use Rattle.std.specs.Iterator.{YieldsFirstBy, item_count};
ghost use Rattle.std.specs.List.Sorted.{IsPermutation};
ghost use Rattle.hyper_matrix.specs.Counts.{ewise_add, total};
ghost use Rattle.hyper_matrix.specs.Cells.{place_of, entry_of};
ghost use Rattle.merged_cells.specs.Within.{LieWithin};
ghost use Rattle.hyper_matrix.specs.Search.{cells_from};
ghost use Rattle.merged_cells.specs.Fronts.{front_cmp, fronts_of, fronts_sum, AreFronts, NoneBefore, Pulls, Skips};
ghost use Rattle.merged_cells.specs.Fronts.{IsElsewhere, IsFrontBefore};

use crate::front::Front;
use cells::Cell;
use hyper_matrix::{Hyper, is_before};
use std::alloc::{AllocError, Global};
use std::collections::BinaryHeap;
use std::marker::Model;

/// The matrices whose cells are to be merged. It borrows them.
///
/// Contracts see the sum of what was added. Its memory is some 100 bytes for each matrix.
#[derive(Drop)]
pub struct Sources<'a> {
    fronts: BinaryHeap<Front<'a>>,
    // No less than all counts together.
    bound: u64,
}

impl<'a> Model for Sources<'a> {
    ghost use Rattle.std.specs.BinaryHeap.{heap_items};
    ghost use Rattle.hyper_matrix.specs.Counts.{Counts, coded_counts};

    ghost Value = { Counts };

    ghost coded = { coded_counts };

    ghost use Rattle.merged_cells.specs.Fronts.{fronts_sum, AreSources};

    ghost view = { λ a. fronts_sum (heap_items a.fronts) };

    ghost invariant = { λ a. AreSources a.bound (heap_items a.fronts) };
}

/// The cells of a sum of matrices, by row and then by column, each place once with the sum of its counts.
///
/// Contracts see the sum of what is still to come. A call of `next` takes no memory, and time in the logarithm of the
/// number of matrices for each of them that has the place. After None it goes on to answer None.
#[derive(Drop)]
pub struct MergedCells<'a> {
    // The front with the least cell, which lies apart while its matrix has the next one too, and the others.
    first: Option<Front<'a>>,
    others: BinaryHeap<Front<'a>>,
    // No less than all counts together.
    bound: u64,
}

impl<'a> Model for MergedCells<'a> {
    ghost use Rattle.std.specs.BinaryHeap.{heap_items};
    ghost use Rattle.hyper_matrix.specs.Counts.{Counts, coded_counts};

    ghost Value = { Counts };

    ghost coded = { coded_counts };

    ghost use Rattle.merged_cells.specs.Fronts.{fronts_of, fronts_sum, IsMerge};

    ghost view = { λ a. fronts_sum (fronts_of a.first (heap_items a.others)) };

    ghost invariant = { λ a. IsMerge a.bound a.first (heap_items a.others) };
}

impl<'a> Sources<'a> {
    /// No matrix yet. It takes no memory.
    pub fn new(alloc: Global) -> Sources<'a>
        ensures { result ≡ empty }
    {
        Sources {
            fronts: BinaryHeap::new(alloc),
            bound: 0,
        }
    }

    /// Adds a matrix: a place that others have too counts once, with all counts together.
    ///
    /// # Errors
    ///
    /// A growth was refused, or the totals of all matrices together pass 2^64 - 1. All is as before then.
    pub fn add(&mut self, m: &'a Hyper) -> Result<(), AllocError>
        ensures sum { OnOk result (self.new ≡ ewise_add self.old m.now.counts) }
        ensures within { (rows cols : ℕ) → LieWithin rows cols self.old → m.now.rows ≡ rows → m.now.cols ≡ cols →
            OnOk result (LieWithin rows cols self.new) }
        ensures err { OnErr result (self.new ≡ self.old) }
    {
        let Some(bound) = self.bound.checked_add(m.total()) else {
            return Err(AllocError);
        };
        let mut rest = m.iter();
        let Some(cell) = rest.next() else {
            return Ok(());
        };
        match self.fronts.push(Front { cell, rest }) {
            Ok(()) => {
                self.bound = bound;
                Ok(())
            }
            Err(_) => Err(AllocError),
        }
    }

    /// The way through the cells of the sum.
    pub fn merged(self) -> MergedCells<'a>
        ensures { result ≡ self.entry }
    {
        let Sources { fronts, bound } = self;
        let mut others = fronts;
        let first = others.pop();
        MergedCells {
            first,
            others,
            bound,
        }
    }
}

// The first of a front and others, which are left.
fn exchanged<'a>(front: Front<'a>, others: &mut BinaryHeap<Front<'a>>) -> Front<'a>
    requires { IsHeap front_cmp (heap_items others.old) }
    ensures heap { IsHeap front_cmp (heap_items others.new) }
    ensures same { IsPermutation (front.entry ∷ heap_items others.old) (result ∷ heap_items others.new) }
    ensures least { NoneBefore (place_of result.cell) (heap_items others.new) }
{
    let is_before = match others.peek() {
        Some(other) => *other > front,
        None => false,
    };
    if !is_before {
        return front;
    }
    let Some(other) = others.pop() else {
        return front;
    };
    // The place of the other is free.
    match others.push(front) {
        Ok(()) => other,
        Err(_) => unreachable!(),
    }
}

// Takes the least cell that is left.
fn pull<'a>(first: &mut Option<Front<'a>>, others: &mut BinaryHeap<Front<'a>>) -> Option<Cell>
    requires { AreFronts first.old (heap_items others.old) }
    ensures { MatchOption result
        ((first.old ≡ None) × (first.new ≡ None) × (heap_items others.new ≡ heap_items others.old))
        (λ cell. Pulls first.old (heap_items others.old) cell first.new (heap_items others.new)) }
{
    let mut front = first.take()?;
    let cell = front.cell;
    *first = if front.advance() {
        Some(exchanged(front, others))
    } else {
        others.pop()
    };
    Some(cell)
}

// Takes the least cell that is left where it is at this place.
fn pull_at<'a>(
    first: &mut Option<Front<'a>>,
    others: &mut BinaryHeap<Front<'a>>,
    row: u64,
    col: u64,
) -> Option<Cell>
    requires { AreFronts first.old (heap_items others.old) }
    ensures { MatchOption result ((first.new ≡ first.old) × (heap_items others.new ≡ heap_items others.old)
        × IsElsewhere (row, col) first.old)
        (λ cell. Pulls first.old (heap_items others.old) cell first.new (heap_items others.new)
        × (cell.row ≡ row) × (cell.col ≡ col)) }
{
    let front = first.as_ref()?;
    if front.cell.row != row || front.cell.col != col {
        return None;
    }
    pull(first, others)
}

// Takes all cells at the least place that is left, and gives their sum.
fn pull_sum<'a>(first: &mut Option<Front<'a>>, others: &mut BinaryHeap<Front<'a>>) -> Option<Cell>
    requires kept { AreFronts first.old (heap_items others.old) }
    requires fits { total (fronts_sum (fronts_of first.old (heap_items others.old))) < 2 ^ 64 }
    ensures kept { AreFronts first.new (heap_items others.new) }
    ensures steps { YieldsFirstBy entry_of entries (fronts_sum (fronts_of first.old (heap_items others.old))) result
        (fronts_sum (fronts_of first.new (heap_items others.new))) }
{
    let Some(mut sum) = pull(first, others) else {
        return None;
    };
    'places: while let Some(cell) = pull_at(first, others, sum.row, sum.col) {
        sum.count += cell.count;
    }
    Some(sum)
}

// Whether the least cell that is left stands before a place.
fn begins_before(first: &Option<Front<'_>>, place: (u64, u64)) -> bool
    ensures { IsTrue result ↔ IsFrontBefore place first.now }
{
    match first {
        Some(front) => is_before((front.cell.row, front.cell.col), place),
        None => false,
    }
}

// Has the first front pass over its cells before a place, of which its first is one.
fn skip_first<'a>(
    first: &mut Option<Front<'a>>,
    others: &mut BinaryHeap<Front<'a>>,
    place: (u64, u64),
)
    requires kept { AreFronts first.old (heap_items others.old) }
    requires before { IsFrontBefore place first.old }
    ensures { Skips place first.old (heap_items others.old) first.new (heap_items others.new) }
{
    let Some(mut front) = first.take() else {
        return;
    };
    *first = if front.skip_to(place) {
        Some(exchanged(front, others))
    } else {
        others.pop()
    };
}

// Has each front pass over its cells before a place.
fn skip_fronts<'a>(
    first: &mut Option<Front<'a>>,
    others: &mut BinaryHeap<Front<'a>>,
    place: (u64, u64),
)
    requires { AreFronts first.old (heap_items others.old) }
    ensures kept { AreFronts first.new (heap_items others.new) }
    ensures left { entries (fronts_sum (fronts_of first.new (heap_items others.new))) ≡
        cells_from place (entries (fronts_sum (fronts_of first.old (heap_items others.old)))) }
{
    'skip: while begins_before(first, place) {
        skip_first(first, others, place);
    }
}

impl<'a> MergedCells<'a> {
    /// Passes over the cells before a place: those at it and behind it are left, in order.
    ///
    /// It takes no memory, and for each matrix that has a cell before the place the time of `Cells::skip_to` and the
    /// logarithm of the number of matrices.
    pub fn skip_to(&mut self, place: (u64, u64))
        ensures { entries self.new ≡ cells_from place (entries self.old) }
    {
        skip_fronts(&mut self.first, &mut self.others, place);
    }
}

impl<'a> Iterator for MergedCells<'a> {
    type Item = Cell;

    ghost next_gives = { YieldsFirstBy entry_of entries };

    ghost remaining = { item_count entries };

    fn next(&mut self) -> Option<Cell> {
        // This read tells that the bound is a u64.
        let _bound = self.bound;
        pull_sum(&mut self.first, &mut self.others)
    }
}
