//! Putting a batch: the verdict, the cut into parts, then every other growth, then one admission and the commits, which
//! can't fail.
ghost use Rattle.std.specs.Prelude.{◌≡◌, ◌+◌, ◌<◌, ◌≤◌, IfOk, IfSome, IfNone, OnOk, OnErr, true, false};
ghost use Rattle.std.specs.Prelude.{map};
ghost use Rattle.std.specs.Arc.{arc_value};
ghost use Rattle.batch_store.specs.declared.verdict.Verdict.TheVariants.{Fresh};
ghost use Rattle.batch_store.specs.Batches.{batch_total};
ghost use Rattle.batch_store.specs.Accepted.{count_in, total_in, with_batch};
ghost use Rattle.batch_store.specs.Books.{verdict_on};
ghost use Rattle.batch_store.specs.BatchParts.{part_matrix, parts_if_any};
ghost use Rattle.batch_store.specs.Parts.{concerns};
ghost use Rattle.batch_store.specs.Shards.{IsReady, stands, shard_total, amount_in};
ghost use Rattle.batch_store.specs.Verdicts.{kept};
ghost use Rattle.plain_engine.specs.Puts.{shard_after, AllTake, AreAllHeld};
ghost use Rattle.plain_engine.specs.Standing.{bare_shard};

use batch_store::{Batch, Book, Kept, Prepared, Shard, ShardFault};
use hyper_matrix::Hyper;
use std::alloc::{AllocError, Global};
use std::sync::Arc;

// A batch's part in shard s, and None where no cell of it lies there.
fn part_in<'a>(parts: &'a [Option<Hyper>], b: &Batch, s: u64, k: u64) -> Option<&'a Hyper>
    requires told { parts.now ≡ parts_if_any k k b.now }
    requires shard { s < k }
    requires most { k ≤ 64 }
    ensures part { IfSome result (λ m. m.now ≡ part_matrix s k b.now) }
    ensures some { IfSome result (λ m. concerns s k b.now.matrix.counts ≡ true) }
    ensures none { IfNone result (concerns s k b.now.matrix.counts ≡ false) }
{
    match &parts[s as usize] {
        Some(part) => Some(part),
        None => None,
    }
}

// All that a shard needs to take a batch whose pair is new there, and whose part, this one, fits.
fn prepared_for(
    shard: &mut Shard,
    alloc: Global,
    b: &Arc<Batch>,
    part: &Hyper,
) -> Result<Prepared, AllocError>
    requires rows { (arc_value b.now).matrix.rows ≡ shard.old.setup.rows }
    requires cols { (arc_value b.now).matrix.cols ≡ shard.old.setup.cols }
    requires part { part.now ≡ part_matrix shard.old.number shard.old.setup.shards (arc_value b.now) }
    requires absent { stands (arc_value b.now).client (arc_value b.now).number shard.old.record_list ≡ false }
    requires fits { shard_total shard.old + amount_in shard.old (arc_value b.now) ≤ shard.old.setup.limit }
    ensures bare { bare_shard shard.new ≡ bare_shard shard.old }
    ensures batch { IfOk result (λ p. p.batch ≡ arc_value b.now) }
    ensures ready { IfOk result (IsReady shard.new) }
{
    match shard.prepare_with(alloc, b, part) {
        Ok(prepared) => Ok(prepared),
        Err(ShardFault::Memory) => Err(AllocError),
        Err(ShardFault::AlreadyThere) => unreachable!(),
        Err(ShardFault::Over) => unreachable!(),
    }
}

// Makes a free place in the book for a fresh batch, and admits it.
fn admitted(book: &mut Book, b: Arc<Batch>) -> Result<Kept, AllocError>
    requires fresh { verdict_on book.old (arc_value b) ≡ Fresh }
    requires rows { (arc_value b).matrix.rows ≡ book.old.setup.rows }
    requires cols { (arc_value b).matrix.cols ≡ book.old.setup.cols }
    ensures setup { book.new.setup ≡ book.old.setup }
    ensures state { OnOk result (book.new.state ≡ with_batch book.old.state (arc_value b)) }
    ensures kept { IfOk result (λ r. r ≡
        kept (count_in book.old.state) (total_in book.old.state + batch_total (arc_value b))) }
    ensures same_state { OnErr result (book.new.state ≡ book.old.state) }
{
    book.reserve(&b)?;
    Ok(book.admit(b))
}

// Prepares those of these shards, of k, that a fresh batch concerns, admits it, and commits in each on the way back.
//
// It calls itself once for each shard, of at most 64.
fn put_from(
    shards: &mut [Shard],
    alloc: Global,
    k: u64,
    book: &mut Book,
    b: Arc<Batch>,
    parts: &[Option<Hyper>],
) -> Result<Kept, AllocError>
    requires fresh { verdict_on book.old (arc_value b) ≡ Fresh }
    requires rows { (arc_value b).matrix.rows ≡ book.old.setup.rows }
    requires cols { (arc_value b).matrix.cols ≡ book.old.setup.cols }
    requires k { k ≡ book.old.setup.shards }
    requires parts { parts.now ≡ parts_if_any k k (arc_value b) }
    requires take { AllTake book.old.setup (arc_value b) shards.old }
    ensures setup { book.new.setup ≡ book.old.setup }
    ensures state { OnOk result (book.new.state ≡ with_batch book.old.state (arc_value b)) }
    ensures kept { IfOk result (λ r. r ≡
        kept (count_in book.old.state) (total_in book.old.state + batch_total (arc_value b))) }
    ensures shards { OnOk result (map bare_shard shards.new ≡ map (shard_after (arc_value b)) shards.old) }
    ensures held { OnOk result (AreAllHeld shards.new) }
    ensures same_state { OnErr result (book.new.state ≡ book.old.state) }
    ensures same_shards { OnErr result (map bare_shard shards.new ≡ map bare_shard shards.old) }
{
    let Some((first, rest)) = shards.split_first_mut() else {
        return admitted(book, b);
    };
    // A call on a shard tells what it keeps, here and after the commit.
    let _held = first.total();
    let Some(part) = part_in(parts, &b, first.number(), k) else {
        return put_from(rest, alloc, k, book, b, parts);
    };
    let prepared = prepared_for(first, alloc, &b, part)?;
    let kept = put_from(rest, alloc, k, book, b, parts)?;
    first.commit(prepared);
    let _held = first.total();
    Ok(kept)
}

/// Cuts a fresh batch into its parts, prepares those of these shards, of k, that it concerns, admits it, and commits in
/// each on the way back: every growth stands before the admission, and nothing fails behind it. Where a growth was
/// refused, what the shards and the book hold is as before.
pub fn put_fresh(
    shards: &mut [Shard],
    alloc: Global,
    k: u64,
    book: &mut Book,
    b: Arc<Batch>,
) -> Result<Kept, AllocError>
    requires fresh { verdict_on book.old (arc_value b) ≡ Fresh }
    requires rows { (arc_value b).matrix.rows ≡ book.old.setup.rows }
    requires cols { (arc_value b).matrix.cols ≡ book.old.setup.cols }
    requires k { k ≡ book.old.setup.shards }
    requires some { 0 < k }
    requires take { AllTake book.old.setup (arc_value b) shards.old }
    ensures setup { book.new.setup ≡ book.old.setup }
    ensures state { OnOk result (book.new.state ≡ with_batch book.old.state (arc_value b)) }
    ensures kept { IfOk result (λ r. r ≡
        kept (count_in book.old.state) (total_in book.old.state + batch_total (arc_value b))) }
    ensures shards { OnOk result (map bare_shard shards.new ≡ map (shard_after (arc_value b)) shards.old) }
    ensures held { OnOk result (AreAllHeld shards.new) }
    ensures same_state { OnErr result (book.new.state ≡ book.old.state) }
    ensures same_shards { OnErr result (map bare_shard shards.new ≡ map bare_shard shards.old) }
{
    let parts = b.parts(alloc, k)?;
    put_from(shards, alloc, k, book, b, &parts)
}
