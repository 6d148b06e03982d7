//! The rows that lead.
//!
//! Those that lead so far lie in a heap with the last of them on top (Knuth, The Art of Computer Programming, volume 3,
//! section 5.2.3): a row that isn't ahead of that one costs a comparison, another the logarithm of their number.
ghost use Rattle.std.specs.Prelude.{◌≡◌, ◌<◌, ◌↔◌, ◌==◌, ℕ, List, [], ◌∷◌, ◌++◌, map, IsTrue, OnOk, IfOk};
ghost use Rattle.std.specs.BinaryHeap.{heap_items, IsHeap};
ghost use Rattle.std.proofs.Common.{rules};
ghost use Rattle.std.specs.Cmp.{partial_order_from_own_ties};
ghost use Rattle.std.specs.Cmp.Rules.{comparing};
ghost use Rattle.std.specs.Ordering.{nat_cmp, on, flip_args, then_cmp, as_partial_cmp, eq_of_both};
ghost use Rattle.cell_queries.specs.Tallies.{tallies};
ghost use Rattle.cell_queries.specs.Heaps.{AreLed, ranked, ranked_cmp, IsOffered, Leads};
ghost use Rattle.cell_queries.specs.Shards.{LieInShard};
ghost use Rattle.cell_queries.specs.declared.tally.RowTally.{RowTally};
ghost use Rattle.cell_queries.specs.declared.top.TopBy.{TopBy};
ghost use Rattle.cell_queries.specs.Tops.{IsTop};

use crate::source::CellSource;
use crate::tally::{RowTally, next_row};
use hyper_matrix::shard_of;
use std::alloc::{AllocError, Global};
use std::cmp::Ordering;
use std::collections::BinaryHeap;
use std::marker::Model;

/// What rows are compared by. Of two with the same number the lower row leads.
#[derive(Clone, Copy, Debug, PartialEq, Eq)]
pub enum TopBy {
    Total,
    Entries,
}

// A row and the number that it is compared by. Of two the greater is the one that comes behind.
#[derive(Clone, Copy, Drop)]
struct Ranked {
    number: u64,
    tally: RowTally,
}

impl PartialEq for Ranked {
    ghost eq = { eq_of_both (on (λ r. r.number) ◌==◌) (on (λ r. r.tally.row) ◌==◌) };

    ghost laws = { Prim.search (comparing, rules) };

    fn eq(&self, other: &Self) -> bool {
        self.number == other.number && self.tally.row == other.tally.row
    }
}

impl Eq for Ranked {
    ghost laws = { Prim.search (comparing, rules) };
}

impl Ord for Ranked {
    ghost cmp = { then_cmp (flip_args (on (λ r. r.number) nat_cmp)) (on (λ r. r.tally.row) nat_cmp) };

    ghost total = { Prim.search (comparing, rules) };

    ghost matches_partial_cmp = { Prim.search (comparing, rules) };

    ghost matches_eq = { Prim.search (comparing, rules) };

    fn cmp(&self, other: &Self) -> Ordering {
        other
            .number
            .cmp(&self.number)
            .then(self.tally.row.cmp(&other.tally.row))
    }
}

impl PartialOrd for Ranked {
    ghost partial_cmp = { as_partial_cmp (then_cmp (flip_args (on (λ r. r.number) nat_cmp)) (on (λ r. r.tally.row) nat_cmp)) };

    ghost laws = { partial_order_from_own_ties (Prim.search (comparing, rules)) (Prim.search (comparing, rules)) };

    fn partial_cmp(&self, other: &Self) -> Option<Ordering> {
        Some(self.cmp(other))
    }
}

impl TopBy {
    // The number that a row is compared by.
    fn ranked(self, tally: RowTally) -> Ranked
        ensures { result ≡ ranked self tally }
    {
        let number = match self {
            TopBy::Total => tally.total,
            TopBy::Entries => tally.entries,
        };
        Ranked { number, tally }
    }
}

// Gives a row its place among the first `most`, if it has one.
fn offer(heap: &mut BinaryHeap<Ranked>, most: usize, row: Ranked) -> Result<(), AllocError>
    requires { IsHeap ranked_cmp (heap_items heap.old) }
    ensures heap { IsHeap ranked_cmp (heap_items heap.new) }
    ensures offered { OnOk result (IsOffered most row (heap_items heap.old) (heap_items heap.new)) }
{
    if heap.len() < most {
        heap.push(row)?;
        return Ok(());
    }
    let Some(last) = heap.peek().copied() else {
        return Ok(());
    };
    if row >= last {
        return Ok(());
    }
    heap.pop();
    heap.push(row)?;
    Ok(())
}

// The rows of a list.
fn rows_of(alloc: Global, ranked: &[Ranked]) -> Result<Vec<RowTally>, AllocError>
    ensures { IfOk result (λ rows. rows.items ≡ map (λ r. r.tally) ranked.now) }
{
    ranked.iter().map(|row| row.tally).collect(alloc)
}

// The rows of a heap, the first first.
fn in_order(alloc: Global, heap: BinaryHeap<Ranked>) -> Result<Vec<RowTally>, AllocError>
    requires { IsHeap ranked_cmp (heap_items heap) }
    ensures { (by : TopBy) (most : ℕ) (rows : List RowTally) → Leads by most rows (heap_items heap) →
        IfOk result (λ top. IsTop by most rows top.items) }
{
    let ranked = heap.into_sorted_vec();
    rows_of(alloc, &ranked)
}

/// The rows that lead of those that were offered so far: the first `most` by this number, or all.
///
/// It takes memory for `most` rows, or for all if they are fewer. Contracts see the heap, and tell by `AreLed` of which
/// rows it has the first.
#[derive(Drop)]
pub struct Leaders {
    by: TopBy,
    most: usize,
    heap: BinaryHeap<Ranked>,
}

impl Model for Leaders {
    ghost use Rattle.std.specs.BinaryHeap.{heap_items, IsHeap};
    ghost use Rattle.cell_queries.specs.Heaps.{Leading, ranked_cmp};

    ghost Value = { Leading };

    ghost view = { λ a. record { by = a.by; most = a.most; items = heap_items a.heap } };

    ghost invariant = { λ a. IsHeap ranked_cmp (heap_items a.heap) };
}

impl Leaders {
    /// Those of no row. It takes no memory.
    pub fn new(alloc: Global, by: TopBy, most: usize) -> Leaders
        ensures { AreLed by most [] result }
    {
        Leaders {
            by,
            most,
            heap: BinaryHeap::new(alloc),
        }
    }

    // Offers one row more.
    pub(crate) fn offer(&mut self, row: RowTally) -> Result<(), AllocError>
        ensures { (by : TopBy) (most : ℕ) (rows : List RowTally) → AreLed by most rows self.old →
            OnOk result (AreLed by most (rows ++ row ∷ []) self.new) }
    {
        offer(&mut self.heap, self.most, self.by.ranked(row))
    }

    /// Offers all rows of a source.
    ///
    /// # Errors
    ///
    /// Memory was refused, or the counts of a row, or its entries, pass 2^64 - 1. No memory holds such a matrix.
    pub fn offer_all<S: CellSource>(&mut self, source: &mut S) -> Result<(), AllocError>
        ensures { (by : TopBy) (most : ℕ) (rows : List RowTally) → AreLed by most rows self.old →
            OnOk result (AreLed by most (rows ++ tallies (S.left source.old)) self.new) }
    {
        let mut ahead = source.next_cell();
        'rows: while let Some(row) = next_row(source, &mut ahead)? {
            self.offer(row)?;
        }
        Ok(())
    }

    /// Offers all rows of a source if each of them lies in the shard `s` of `k`, and says whether that is so. Where it
    /// isn't, some of them may have been offered.
    ///
    /// # Errors
    ///
    /// As `offer_all`.
    pub fn offer_shard<S: CellSource>(
        &mut self,
        source: &mut S,
        s: u64,
        k: u64,
    ) -> Result<bool, AllocError>
        requires { 0 < k }
        ensures tells { IfOk result (λ all. IsTrue all ↔ LieInShard s k (tallies (S.left source.old))) }
        ensures leads { (by : TopBy) (most : ℕ) (rows : List RowTally) → AreLed by most rows self.old →
            IfOk result (λ all. IsTrue all → AreLed by most (rows ++ tallies (S.left source.old)) self.new) }
    {
        let mut ahead = source.next_cell();
        'rows: while let Some(row) = next_row(source, &mut ahead)? {
            if shard_of(row.row, k) != s {
                return Ok(false);
            }
            self.offer(row)?;
        }
        Ok(true)
    }

    /// The rows that lead, the first first.
    ///
    /// # Errors
    ///
    /// Memory was refused.
    pub fn into_rows(self, alloc: Global) -> Result<Vec<RowTally>, AllocError>
        ensures { (by : TopBy) (most : ℕ) (rows : List RowTally) → AreLed by most rows self →
            IfOk result (λ top. IsTop by most rows top.items) }
    {
        in_order(alloc, self.heap)
    }
}

/// The first `most` rows that have an entry, or all, by this number: the highest first, and equal ones by row.
///
/// It goes through all cells. It takes memory for `most` rows, or for all if they are fewer.
///
/// # Errors
///
/// Memory was refused, or the counts of a row, or its entries, pass 2^64 - 1. No memory holds such a matrix.
pub fn top_of<S: CellSource>(
    alloc: Global,
    source: &mut S,
    by: TopBy,
    most: usize,
) -> Result<Vec<RowTally>, AllocError>
    ensures { IfOk result (λ top. IsTop by most (tallies (S.left source.old)) top.items) }
{
    let mut leaders = Leaders::new(alloc, by, most);
    leaders.offer_all(source)?;
    leaders.into_rows(alloc)
}
