//! Folding: all accepted batches go into one matrix, the base, and of each its entry and its reply are kept.
ghost use Rattle.std.specs.Prelude.{◌≡◌, ◌≤◌, List, [], IfOk, IfErr, OnOk, OnErr, length, map};
ghost use Rattle.std.specs.Arc.{arc_value};
ghost use Rattle.hyper_matrix.specs.Counts.{total};
ghost use Rattle.hyper_matrix.specs.Matrix.{matrix};
ghost use Rattle.batch_store.specs.declared.verdict.Entry.{Entry};
ghost use Rattle.batch_store.specs.Accepted.{accepted, folded_into, summed};
ghost use Rattle.batch_store.specs.Books.{AreAccepted, listed_in};
ghost use Rattle.batch_store.specs.Pieces.{cut_in};
ghost use Rattle.plain_engine.specs.Folds.{AllHoldParts, shard_folded};
ghost use Rattle.plain_engine.specs.Puts.{AreAllHeld};
ghost use Rattle.plain_engine.specs.Standing.{Stand, bare, bare_shard};

use crate::engine::PlainEngine;
use batch_store::{Book, BookList, Entry, Pieces, Setup, Shard};
use std::alloc::{AllocError, Global};
use std::random::RandomSource;
use std::sync::Arc;

// Shares a piece of the base for each of these shards, of k, folds the book, and gives each its piece on the way back:
// all that can fail is done before the book folds, and nothing fails after it. Where a growth was refused, what the shards and the book
// hold is as before.
//
// It calls itself once for each shard, of at most 64.
fn fold_from(
    shards: &mut [Shard],
    alloc: Global,
    k: u64,
    book: &mut Book,
    base: Arc<Pieces>,
) -> Result<(), AllocError>
    requires base { arc_value base ≡ cut_in k (matrix book.old.setup.rows book.old.setup.cols (summed book.old.state)) }
    requires k { k ≡ book.old.setup.shards }
    requires parts { AllHoldParts book.old.setup (summed book.old.state) shards.old }
    ensures setup { book.new.setup ≡ book.old.setup }
    ensures state { OnOk result (book.new.state ≡ folded_into (summed book.old.state) book.old.state) }
    ensures shards { OnOk result (map bare_shard shards.new ≡ map shard_folded shards.old) }
    ensures held { OnOk result (AreAllHeld shards.new) }
    ensures same_state { OnErr result (book.new.state ≡ book.old.state) }
    ensures same_shards { OnErr result (map bare_shard shards.new ≡ map bare_shard shards.old) }
{
    let Some((first, rest)) = shards.split_first_mut() else {
        return book.fold(alloc, base);
    };
    // A call on a shard tells what it keeps, here and after it has its base.
    let s = first.number();
    let own = Arc::try_clone(base.piece(s))?;
    fold_from(rest, alloc, k, book, base)?;
    first.rebase(own);
    let _held = first.number();
    Ok(())
}

// A shard for each number, with its piece of the base, which it shares.
fn based_shards(
    rt: &impl RandomSource,
    alloc: Global,
    setup: &Setup,
    base: &Pieces,
) -> Result<Vec<Shard>, AllocError>
    requires count { base.now.count ≡ setup.now.shards }
    requires rows { base.now.whole.rows ≡ setup.now.rows }
    requires cols { base.now.whole.cols ≡ setup.now.cols }
    requires within { total base.now.whole.counts ≤ setup.now.limit }
    ensures count { IfOk result (λ v. length v.items ≡ setup.now.shards) }
    ensures stand { IfOk result (λ v. (folded : List Entry) →
        Stand setup.now (accepted base.now.whole.counts folded []) 0 v.items) }
{
    let k = setup.shards();
    let mut shards = Vec::with_capacity(alloc, k as usize)?;
    'make: for s in 0..k {
        let own = Arc::try_clone(base.piece(s))?;
        let shard = Shard::with_base(rt, alloc, setup, s, own)?;
        // Any call on a shard tells what it keeps.
        let _held = shard.number();
        shards.push(shard)?;
    }
    Ok(shards)
}

impl PlainEngine {
    /// How many of the accepted batches are folded. Constant time, and no memory.
    pub fn folded(&self) -> u64
        ensures { result ≡ length self.now.book.state.folded }
    {
        self.book.folded()
    }

    /// All that was accepted: the base, the entries of the folded batches in order, and the batches behind them. It
    /// shares the base and the batches: two growths, of 32 bytes for each folded batch and a pointer for each other.
    ///
    /// # Errors
    ///
    /// A growth was refused.
    pub fn book_list(&self, alloc: Global) -> Result<BookList, AllocError>
        ensures { IfOk result (λ list. list ≡ listed_in self.now.setup self.now.book.state) }
    {
        self.book.book_list(alloc)
    }

    /// Folds all accepted batches into the base, which is then the sum of all. Of each batch its client, its number,
    /// its number of cells, its total, its place and its reply are kept, and its cells are let go of, as far as nobody
    /// else shares them: no verdict, cell, row, status or export changes. It takes the time of an export and of cutting
    /// it for the shards, and the memory of both, some 60 bytes for each cell of the sum beside what the layers hold.
    ///
    /// # Errors
    ///
    /// A growth was refused. The engine is handed back with all that it had.
    pub fn fold(self, alloc: Global) -> Result<PlainEngine, (PlainEngine, AllocError)>
        ensures setup { IfOk result (λ e. e.setup ≡ self.setup) }
        ensures state { IfOk result (λ e. e.book.state ≡ folded_into (summed self.book.state) self.book.state) }
        ensures shards { IfOk result (λ e. map bare_shard e.shards ≡ map shard_folded self.shards) }
        ensures err { IfErr result (λ r. bare r.0 ≡ bare self) }
    {
        let mut engine = self;
        match engine.fold_all(alloc) {
            Ok(()) => Ok(engine),
            Err(error) => Err((engine, error)),
        }
    }

    // Folds in place. Where a growth was refused, all is as before.
    fn fold_all(&mut self, alloc: Global) -> Result<(), AllocError>
        ensures setup { self.new.setup ≡ self.old.setup }
        ensures state { OnOk result (self.new.book.state ≡
            folded_into (summed self.old.book.state) self.old.book.state) }
        ensures shards { OnOk result (map bare_shard self.new.shards ≡ map shard_folded self.old.shards) }
        ensures err { OnErr result (bare self.new ≡ bare self.old) }
    {
        let sum = self.export(alloc)?;
        let k = self.setup.shards();
        let pieces = Pieces::cut(alloc, &sum, k)?;
        let base = Arc::new(alloc, pieces)?;
        let answer = fold_from(self.shards.as_mut_slice(), alloc, k, &mut self.book, base);
        // Any call on the book tells what it keeps.
        let _accepted = self.book.len();
        answer
    }

    // An engine of folded batches alone, which shares the base, where that is in as many pieces as there are shards.
    pub(crate) fn with_folded(
        rt: &impl RandomSource,
        alloc: Global,
        setup: Setup,
        base: &Arc<Pieces>,
        folded: &[Entry],
    ) -> Result<PlainEngine, AllocError>
        requires accepted { AreAccepted setup (accepted (arc_value base.now).whole.counts folded.now []) }
        requires rows { (arc_value base.now).whole.rows ≡ setup.rows }
        requires cols { (arc_value base.now).whole.cols ≡ setup.cols }
        ensures setup { IfOk result (λ e. e.setup ≡ setup) }
        ensures state { IfOk result (λ e. e.book.state ≡ accepted (arc_value base.now).whole.counts folded.now []) }
    {
        let own = Pieces::in_pieces(alloc, base, setup.shards())?;
        let shards = based_shards(rt, alloc, &setup, &own)?;
        let book = Book::with_folded(rt, alloc, &setup, own, folded)?;
        // Any call on a book tells what it keeps.
        let _accepted = book.len();
        Ok(PlainEngine::of_parts(setup, book, shards))
    }
}
