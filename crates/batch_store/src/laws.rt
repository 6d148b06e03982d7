//! Laws of the verdict, of the shards' parts and of records, in terms of the definitions alone.
//!
//! Each is a function without parameters whose `ensures` is the law. They hold for all numbers, matrices and lists.
ghost use Rattle.std.specs.Prelude.{◌≡◌, ℕ, ◌+◌, ◌<◌, ◌≤◌, ◌↔◌, ◌++◌, [], ◌∷◌, List, false, length};
ghost use Rattle.std.specs.FinMap.{empty};
ghost use Rattle.std.specs.List.{IsDistinct};
ghost use Rattle.hyper_matrix.specs.Counts.{Counts, ewise_add, part, total};
ghost use Rattle.batch_store.specs.declared.verdict.Entry.{Entry};
ghost use Rattle.batch_store.specs.Batches.{Submission};
ghost use Rattle.batch_store.specs.Accepted.{Accepted, IsBase, total_in, summed};
ghost use Rattle.batch_store.specs.Parts.{part_of, below, concerns, concerned, below_in, record_content};
ghost use Rattle.batch_store.specs.Verdicts.{verdict_of, IsVerdict, same_pair, total_of_entries};

use crate::verdict::Verdict;

/// Each verdict stands exactly where its meaning does, in a list in which no client and number stands twice. Known:
/// the batch's own entry stands in the list, and the reply is its place and the totals up to it. NumberReused: its
/// client and number stand there with other cells or another total. OverTotal: they don't, and the totals together pass
/// the limit. BookFull: they don't, the totals fit, and the list is full. Fresh: they don't, and both limits hold.
pub fn verdicts_are_exact()
    ensures { (limit most : ℕ) (es : List Entry) (b : Entry) (r : Verdict) → IsDistinct same_pair es →
        (verdict_of limit most es b ≡ r) ↔ IsVerdict limit most es b r }
{}

/// A fresh batch fits within both limits.
pub fn fresh_batches_fit()
    ensures { (limit most : ℕ) (es : List Entry) (b : Entry) → verdict_of limit most es b ≡ Verdict.Fresh →
        (total_of_entries es + b.total ≤ limit) × (length es < most) }
{}

/// A part is no more than the whole.
pub fn a_part_is_no_more_than_the_whole()
    ensures { (s k : ℕ) (m : Counts) → part_of s k m ≤ total m }
{}

/// A matrix has nothing in a shard in which none of its cells lies.
pub fn unconcerned_shards_have_nothing()
    ensures total { (s k : ℕ) (m : Counts) → concerns s k m ≡ false → part_of s k m ≡ 0 }
    ensures part { (s k : ℕ) (m : Counts) → concerns s k m ≡ false → part m s k ≡ empty }
{}

/// No cell lies below shard 0.
pub fn no_cell_lies_below_shard_zero()
    ensures matrix { (k : ℕ) (m : Counts) → below 0 k m ≡ 0 }
    ensures accepted { (k : ℕ) (a : Accepted) → below_in 0 k a ≡ 0 }
{}

/// One shard more is its part more. Of all that was accepted it is the content of its record more.
pub fn one_shard_more()
    ensures matrix { (s k : ℕ) (m : Counts) → below (s + 1) k m ≡ below s k m + part_of s k m }
    ensures accepted { (s k : ℕ) (a : Accepted) →
        below_in (s + 1) k a ≡ below_in s k a + total (record_content s k (part a.base s k) a.list) }
{}

/// A record of what was accepted holds the part of all of it: the part of the base, and those of the batches that have
/// a cell in the shard.
pub fn records_hold_the_part()
    ensures { (s k : ℕ) (a : Accepted) →
        record_content s k (part a.base s k) (concerned s k a.list) ≡ part (summed a) s k }
{}

/// The parts of all shards make the whole.
pub fn shards_have_all()
    ensures matrix { (k : ℕ) (m : Counts) → 0 < k → below k k m ≡ total m }
    ensures accepted { (k : ℕ) (a : Accepted) → 0 < k → IsBase a.base a.folded → below_in k k a ≡ total_in a }
{}

/// One batch more in a record is its part more in the content.
pub fn records_grow_by_a_part()
    ensures { (s k : ℕ) (base : Counts) (list : List Submission) (b : Submission) →
        record_content s k base (list ++ b ∷ []) ≡ ewise_add (record_content s k base list) (part b.matrix.counts s k) }
{}

/// The batches with no cell in a shard add nothing to its content.
pub fn unconcerned_batches_add_nothing()
    ensures { (s k : ℕ) (base : Counts) (list : List Submission) →
        record_content s k base (concerned s k list) ≡ record_content s k base list }
{}
