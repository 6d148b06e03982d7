//! An engine from a list of what was accepted, as from a file.
ghost use Rattle.std.specs.Prelude.{◌≡◌, ◌+◌, ◌≤◌, ◌++◌, List, [], ◌∷◌, None, Some, OnOk, IfOk, IfErr, length};
ghost use Rattle.std.specs.Prelude.{false, IfSome, IfNone, OnSome};
ghost use Rattle.std.specs.BTreeSet.{BTreeSet};
ghost use Rattle.std.specs.List.{IsDistinct};
ghost use Rattle.std.specs.Arc.{arc_value};
ghost use Rattle.batch_store.specs.Setups.{Setting};
ghost use Rattle.batch_store.specs.declared.verdict.Entry.{Entry};
ghost use Rattle.batch_store.specs.Batches.{entries_of, values};
ghost use Rattle.batch_store.specs.Accepted.{Accepted, accepted, unfolded, entries_in, with_batch};
ghost use Rattle.batch_store.specs.Books.{HaveDims, AreAccepted, accepted_in};
ghost use Rattle.batch_store.specs.Verdicts.{same_pair, total_of_entries, verdict_on_new};
ghost use Rattle.batch_store.specs.Batches.{entry_of};
ghost use Rattle.batch_store.specs.declared.verdict.Verdict.TheVariants.{Fresh};
ghost use Rattle.plain_engine.specs.Object.{verdict_in};
ghost use Rattle.plain_engine.specs.Loads.{refusal_of, first_refusal, HavePairs, stands_among};

use crate::engine::PlainEngine;
use crate::fault::{LoadFault, PutFault};
use batch_store::{Batch, BookList, Entry, Setup, Verdict};
use std::alloc::Global;
use std::collections::BTreeSet;
use std::random::RandomSource;
use std::sync::Arc;

/// Of what a book accepts nothing is refused: put in order, each batch is fresh behind those before it.
pub fn accepted_lists_load()
    ensures { (setup : Setting) (a : Accepted) → AreAccepted setup a → first_refusal setup [] (entries_in a) ≡ None }
{}

// Why a batch at a place isn't taken.
fn judged(verdict: Verdict, at: u64) -> Result<(), LoadFault>
    ensures ok { OnOk result (verdict ≡ Fresh) }
    ensures err { IfErr result (λ fault. refusal_of verdict at None ≡ Some fault) }
{
    match verdict {
        Verdict::Fresh => Ok(()),
        Verdict::Known(_) => Err(LoadFault::RepeatedNumber { at }),
        Verdict::NumberReused => Err(LoadFault::RepeatedNumber { at }),
        Verdict::OverTotal { accepted: _ } => Err(LoadFault::OverTotal { at }),
        Verdict::BookFull => Err(LoadFault::BookFull { at }),
    }
}

// The total with an entry of a new client and number at this place, where those before it have this total, or why it
// isn't taken.
fn judged_new(setup: &Setup, total: u64, at: u64, entry: &Entry) -> Result<u64, LoadFault>
    requires { total ≤ setup.now.limit }
    ensures ok { OnOk result (verdict_on_new setup.now.limit setup.now.max_batches at total entry.now ≡ Fresh) }
    ensures sum { IfOk result (λ sum. sum ≡ total + entry.now.total) }
    ensures err { IfErr result (λ fault.
        refusal_of (verdict_on_new setup.now.limit setup.now.max_batches at total entry.now) at None ≡ Some fault) }
{
    if entry.total > setup.limit() - total {
        return Err(LoadFault::OverTotal { at });
    }
    if at >= setup.max_batches() {
        return Err(LoadFault::BookFull { at });
    }
    Ok(total + entry.total)
}

// Notes a pair: whether it was there, and None where there was no memory for a new one.
fn noted(pairs: &mut BTreeSet<(u64, u64)>, entry: &Entry) -> Option<bool>
    ensures told { IfSome result (λ repeated. (es : List Entry) → HavePairs pairs.old es →
        (repeated ≡ stands_among es entry.now)) }
    ensures kept { OnSome result ((es : List Entry) → HavePairs pairs.old es →
        HavePairs pairs.new (es ++ entry.now ∷ [])) }
    ensures new_pair { IfNone result ((es : List Entry) → HavePairs pairs.old es →
        (stands_among es entry.now ≡ false)) }
{
    match pairs.insert((entry.client, entry.number)) {
        Ok(added) => Some(!added),
        Err(_) => None,
    }
}

// Why these entries aren't those of what a book accepts, put in order. The pairs are kept in a tree meanwhile, of some
// 30 bytes each.
fn judge_folded(alloc: Global, setup: &Setup, folded: &[Entry]) -> Result<(), LoadFault>
    ensures distinct { OnOk result (IsDistinct same_pair folded.now) }
    ensures few { OnOk result (length folded.now ≤ setup.now.max_batches) }
    ensures within { OnOk result (total_of_entries folded.now ≤ setup.now.limit) }
    ensures ok { OnOk result ((more : List Entry) →
        first_refusal setup.now [] (folded.now ++ more) ≡ first_refusal setup.now folded.now more) }
    ensures err { IfErr result (λ fault. (fault ≡ LoadFault.Memory → ⊥) → (more : List Entry) →
        first_refusal setup.now [] (folded.now ++ more) ≡ Some fault) }
{
    let mut pairs = BTreeSet::new(alloc);
    let mut total = 0u64;
    let mut at = 0u64;
    'entries: for entry in folded {
        match noted(&mut pairs, entry) {
            Some(true) => return Err(LoadFault::RepeatedNumber { at }),
            Some(false) => total = judged_new(setup, total, at, entry)?,
            None => {
                judged_new(setup, total, at, entry)?;
                return Err(LoadFault::Memory);
            }
        }
        at += 1;
    }
    Ok(())
}

impl PlainEngine {
    // Puts the batch at a place of the list.
    fn load(&mut self, alloc: Global, b: &Arc<Batch>, at: u64) -> Result<(), LoadFault>
        requires rows { (arc_value b.now).matrix.rows ≡ self.old.setup.rows }
        requires cols { (arc_value b.now).matrix.cols ≡ self.old.setup.cols }
        ensures setup { self.new.setup ≡ self.old.setup }
        ensures fresh { OnOk result (verdict_in self.old.setup self.old.book.state (arc_value b.now) ≡ Fresh) }
        ensures state { OnOk result (self.new.book.state ≡ with_batch self.old.book.state (arc_value b.now)) }
        ensures err { IfErr result (λ fault. (fault ≡ LoadFault.Memory → ⊥) →
            refusal_of (verdict_in self.old.setup self.old.book.state (arc_value b.now)) at None ≡ Some fault) }
    {
        judged(self.verdict(b), at)?;
        let batch = Arc::try_clone(b)?;
        match self.put(alloc, batch) {
            Ok(_) => Ok(()),
            Err(PutFault::Memory) => Err(LoadFault::Memory),
            // The batch is fresh.
            Err(_) => unreachable!(),
        }
    }

    // Puts these batches behind those that were accepted.
    fn load_all(&mut self, alloc: Global, batches: &[Arc<Batch>]) -> Result<(), LoadFault>
        requires { HaveDims self.old.setup.rows self.old.setup.cols (values batches.now) }
        ensures setup { self.new.setup ≡ self.old.setup }
        ensures state { OnOk result (self.new.book.state ≡ accepted self.old.book.state.base
            self.old.book.state.folded (self.old.book.state.list ++ values batches.now)) }
        ensures ok { OnOk result (first_refusal self.old.setup (entries_in self.old.book.state)
            (entries_of (values batches.now)) ≡ None) }
        ensures err { IfErr result (λ fault. (fault ≡ LoadFault.Memory → ⊥) →
            first_refusal self.old.setup (entries_in self.old.book.state) (entries_of (values batches.now))
            ≡ Some fault) }
    {
        'batches: for b in batches {
            let at = self.book.len();
            self.load(alloc, b, at)?;
        }
        Ok(())
    }

    // The engine that has put these batches behind those that were accepted.
    fn with_batches(self, alloc: Global, batches: &[Arc<Batch>]) -> Result<PlainEngine, LoadFault>
        requires { HaveDims self.setup.rows self.setup.cols (values batches.now) }
        ensures setup { IfOk result (λ e. e.setup ≡ self.setup) }
        ensures state { IfOk result (λ e. e.book.state ≡ accepted self.book.state.base self.book.state.folded
            (self.book.state.list ++ values batches.now)) }
        ensures ok { OnOk result (first_refusal self.setup (entries_in self.book.state)
            (entries_of (values batches.now)) ≡ None) }
        ensures err { IfErr result (λ fault. (fault ≡ LoadFault.Memory → ⊥) →
            first_refusal self.setup (entries_in self.book.state) (entries_of (values batches.now)) ≡ Some fault) }
        ensures accepted { first_refusal self.setup (entries_in self.book.state)
            (entries_of (values batches.now)) ≡ None → IfErr result (λ fault. fault ≡ LoadFault.Memory) }
    {
        let mut engine = self;
        match engine.load_all(alloc, batches) {
            Ok(()) => Ok(engine),
            Err(fault) => Err(fault),
        }
    }

    /// An engine that has put these batches in order: that of `from_folded` where nothing is folded.
    ///
    /// # Errors
    ///
    /// The first batch that isn't fresh where those before it were put is told by its place, from 0, and why:
    /// `RepeatedNumber`, `OverTotal` or `BookFull`. `Memory` where a growth was refused: at a batch that is fresh, as
    /// are all before it, or before the first. A list that a book accepts is refused for want of memory alone.
    pub fn from_batches(
        rt: &impl RandomSource,
        alloc: Global,
        setup: Setup,
        list: &[Arc<Batch>],
    ) -> Result<PlainEngine, LoadFault>
        requires { HaveDims setup.rows setup.cols (values list.now) }
        ensures setup { IfOk result (λ e. e.setup ≡ setup) }
        ensures state { IfOk result (λ e. e.book.state ≡ unfolded (values list.now)) }
        ensures ok { OnOk result (first_refusal setup [] (entries_of (values list.now)) ≡ None) }
        ensures err { IfErr result (λ fault. (fault ≡ LoadFault.Memory → ⊥) →
            first_refusal setup [] (entries_of (values list.now)) ≡ Some fault) }
        ensures accepted { AreAccepted setup (unfolded (values list.now)) → IfErr result (λ fault. fault ≡ LoadFault.Memory) }
    {
        let engine = PlainEngine::new(rt, alloc, setup)?;
        engine.with_batches(alloc, list)
    }

    /// An engine that has accepted what this list tells: its folded batches by their entries, over its base, which is
    /// shared, and behind them its batches, put in order. It takes the time of cutting the base for the shards and of a
    /// look-up for each folded batch, beside that of the puts.
    ///
    /// # Errors
    ///
    /// As `from_batches`, of all batches: the folded ones come first, and places count over both.
    pub fn from_folded(
        rt: &impl RandomSource,
        alloc: Global,
        setup: Setup,
        list: &BookList,
    ) -> Result<PlainEngine, LoadFault>
        requires rows { list.now.base.rows ≡ setup.rows }
        requires cols { list.now.base.cols ≡ setup.cols }
        requires dims { HaveDims setup.rows setup.cols list.now.list }
        ensures setup { IfOk result (λ e. e.setup ≡ setup) }
        ensures state { IfOk result (λ e. e.book.state ≡ accepted_in list.now) }
        ensures ok { OnOk result (first_refusal setup [] (entries_in (accepted_in list.now)) ≡ None) }
        ensures err { IfErr result (λ fault. (fault ≡ LoadFault.Memory → ⊥) →
            first_refusal setup [] (entries_in (accepted_in list.now)) ≡ Some fault) }
        ensures accepted { AreAccepted setup (accepted_in list.now) → IfErr result (λ fault. fault ≡ LoadFault.Memory) }
    {
        judge_folded(alloc, &setup, &list.folded)?;
        let engine = PlainEngine::with_folded(rt, alloc, setup, &list.base, &list.folded)?;
        engine.with_batches(alloc, &list.batches)
    }
}
