//! The engine itself: its type, how it is made, and its answers to queries.
ghost use Rattle.std.specs.Prelude.{◌≡◌, ◌%◌, ℕ, [], IfOk, OnOk, OnErr, length, map, slice_get};
ghost use Rattle.std.specs.Option.{option_copied};
ghost use Rattle.std.specs.Arc.{arc_value};
ghost use Rattle.batch_store.specs.declared.verdict.Verdict.TheVariants.{Fresh};
ghost use Rattle.plain_engine.specs.Object.{verdict_in, Puts, cell_of, row_sum_of, export_of, status_of};
ghost use Rattle.plain_engine.specs.Puts.{IsFresh, shard_after};
ghost use Rattle.plain_engine.specs.Standing.{AreEmpty, Stand, StandsAt, KeepsEngine, IsWhole, HaveSetup};
ghost use Rattle.plain_engine.specs.Standing.{standing, bare, bare_shard};
ghost use Rattle.batch_store.specs.Accepted.{unfolded};
ghost use Rattle.batch_store.specs.Batches.{values};

use crate::export::{ViewedSum, views_of};
use crate::fault::PutFault;
use crate::put::put_fresh;
use crate::status::Status;
use batch_store::{Batch, Book, Kept, Setup, Shard, Verdict};
use hyper_matrix::{Hyper, RowSum};
use std::alloc::{AllocError, Global};
use std::marker::Model;
use std::random::RandomSource;
use std::sync::Arc;

/// A book of accepted batches, and a shard for each number below the setup's shards.
///
/// Contracts see the setup, the book and the shards in order. At any time the record of shard s is, in order, the
/// book's batches that concern s, so that the shards' totals and contents add up to those of the book. Every answer
/// follows from the accepted list alone, as the object of one thread gives it (specs/Object.antt).
#[derive(Drop)]
pub struct PlainEngine {
    pub(crate) setup: Setup,
    pub(crate) book: Book,
    pub(crate) shards: Vec<Shard>,
}

impl Model for PlainEngine {
    ghost use Rattle.plain_engine.specs.Standing.{Standing, standing, coded_standing, KeepsEngine};

    ghost Value = { Standing };

    ghost coded = { coded_standing };

    ghost view = { λ a. standing a.setup a.book a.shards.items };

    ghost invariant = { λ a. KeepsEngine a.setup a.book a.shards.items };
}

impl PlainEngine {
    /// An engine that has accepted nothing. It draws a seed for the book and one for each shard.
    ///
    /// # Errors
    ///
    /// A growth was refused, or the system gave no seed.
    pub fn new(
        rt: &impl RandomSource,
        alloc: Global,
        setup: Setup,
    ) -> Result<PlainEngine, AllocError>
        ensures setup { IfOk result (λ e. e.setup ≡ setup) }
        ensures empty { IfOk result (λ e. e.book.state ≡ unfolded []) }
        ensures layers { IfOk result (λ e. AreEmpty setup e.shards) }
    {
        let book = Book::new(rt, alloc, &setup)?;
        let shards = empty_shards(rt, alloc, &setup)?;
        // Any call on a book tells what it keeps.
        let _accepted = book.len();
        Ok(PlainEngine {
            setup,
            book,
            shards,
        })
    }

    /// The setup. This call also tells what the engine keeps: book and shards belong together, and the shards' totals
    /// and contents add up to those of the accepted batches.
    pub fn setup(&self) -> Setup
        ensures value { result ≡ self.now.setup }
        ensures kept { IsWhole self.now }
    {
        self.setup
    }

    /// How many batches were accepted, and their total. Constant time, and no memory.
    pub fn status(&self) -> Status
        ensures { result ≡ status_of self.now.book.state }
    {
        Status {
            batches: self.book.len(),
            total: self.book.total(),
        }
    }

    // What the book says of a batch.
    pub(crate) fn verdict(&self, b: &Batch) -> Verdict
        ensures { result ≡ verdict_in self.now.setup self.now.book.state b.now }
    {
        self.book.look(b)
    }

    /// The accepted batches in order, in a list that shares them: one growth, and no copy of a batch.
    ///
    /// # Errors
    ///
    /// A growth was refused.
    pub fn batches(&self, alloc: Global) -> Result<Vec<Arc<Batch>>, AllocError>
        ensures { IfOk result (λ list. values list.items ≡ self.now.book.state.list) }
    {
        self.book.list(alloc)
    }

    /// The shard with this number, from 0, and None from the number of shards on.
    pub fn shard(&self, s: u64) -> Option<&Shard>
        ensures { option_copied result ≡ slice_get self.now.shards s }
    {
        self.shards.get(s as usize)
    }

    // The shard of a row.
    fn shard_of(&self, row: u64) -> &Shard
        ensures { StandsAt self.now.setup self.now.book.state (row % self.now.setup.shards) result.now }
    {
        let k = self.setup.shards();
        &self.shards[(row % k) as usize]
    }

    /// The count at a place of the sum of all accepted batches, and None where that sum has no entry, as outside the
    /// dimensions. A stored zero is Some. Bisections in the layers of one shard, and no memory.
    pub fn cell(&self, row: u64, col: u64) -> Option<u64>
        ensures { result ≡ cell_of self.now.book.state row col }
    {
        self.shard_of(row).get(row, col)
    }

    /// How many entries a row of the sum of all accepted batches has, stored zeros included, and the sum of their
    /// counts. Both are 0 where it has none, as outside the dimensions. One shard is read; no memory.
    pub fn row(&self, row: u64) -> RowSum
        ensures { result ≡ row_sum_of self.now.book.state row }
    {
        self.shard_of(row).row_total(row)
    }

    /// The sum of all accepted batches, in the setup's dimensions.
    ///
    /// # Errors
    ///
    /// A growth was refused. The engine is as it was.
    pub fn export(&self, alloc: Global) -> Result<Hyper, AllocError>
        ensures { IfOk result (λ m. m ≡ export_of self.now.setup self.now.book.state) }
    {
        let viewed = self.viewed(alloc)?;
        let sum = viewed.build(alloc)?;
        Ok(sum)
    }

    /// The sum of all accepted batches as a view, which takes a pointer for each layer of each shard. What is put later
    /// leaves it as it is.
    ///
    /// # Errors
    ///
    /// A growth was refused. The engine is as it was.
    pub fn viewed(&self, alloc: Global) -> Result<ViewedSum, AllocError>
        ensures { IfOk result (λ m. m ≡ export_of self.now.setup self.now.book.state) }
    {
        let views = views_of(&self.shards, alloc)?;
        Ok(ViewedSum::new(self.setup, views))
    }

    /// The engine's setup, its book and its shards in order, as they are. `join_parts` makes an engine of them again.
    pub fn parts(self) -> (Setup, Book, Vec<Shard>)
        ensures setup { result.0 ≡ self.setup }
        ensures book { result.1 ≡ self.book }
        ensures shards { result.2.items ≡ self.shards }
        ensures of_setup { result.1.setup ≡ result.0 }
        ensures made { HaveSetup result.0 result.2.items }
        ensures kept { IsWhole self }
    {
        let PlainEngine {
            setup,
            book,
            shards,
        } = self;
        (setup, book, shards)
    }
}

impl PlainEngine {
    /// Puts a batch of the setup's dimensions. The book's verdict comes first: a batch that it knows is answered the
    /// reply that it keeps, and one that it refuses is refused, both by one look-up and without memory. A fresh batch
    /// is prepared in each shard that it concerns, then the book admits it, and each of these shards takes its part in.
    ///
    /// A fresh batch is read once and cut into its parts, which cost what they cost the shards' layers.
    ///
    /// # Errors
    ///
    /// `NumberReused`, `OverTotal` with the accepted total, or `BookFull`, as the book's verdict tells; and `Memory`
    /// where a growth was refused, of a fresh batch alone. After each the accepted list, the records and the layers are
    /// as before; only free places may be more. `RecordsDiffer` is never answered.
    pub fn put(&mut self, alloc: Global, b: Arc<Batch>) -> Result<Kept, PutFault>
        requires rows { (arc_value b).matrix.rows ≡ self.old.setup.rows }
        requires cols { (arc_value b).matrix.cols ≡ self.old.setup.cols }
        ensures setup { self.new.setup ≡ self.old.setup }

        // What the object of one thread answers and leaves; or, of a fresh batch alone, want of memory.
        ensures object { Puts self.old.setup self.old.book.state (arc_value b) result self.new.book.state }
        // Each shard that a fresh batch concerns has taken its part in, and the others are as before.
        ensures shards { OnOk result (IsFresh self.old (arc_value b) →
            map bare_shard self.new.shards ≡ map (shard_after (arc_value b)) self.old.shards) }
        ensures not_fresh { (IsFresh self.old (arc_value b) → ⊥) → self.new ≡ self.old }
        ensures err { OnErr result (bare self.new ≡ bare self.old) }
        ensures never { result ≡ Err PutFault.RecordsDiffer → ⊥ }
    {
        match self.book.look(&b) {
            Verdict::Fresh => {}
            Verdict::Known(kept) => return Ok(kept),
            Verdict::NumberReused => return Err(PutFault::NumberReused),
            Verdict::OverTotal { accepted } => return Err(PutFault::OverTotal { accepted }),
            Verdict::BookFull => return Err(PutFault::BookFull),
        }
        let k = self.setup.shards();
        let answer = put_fresh(self.shards.as_mut_slice(), alloc, k, &mut self.book, b);
        // Any call on the book tells what it keeps.
        let _accepted = self.book.len();
        match answer {
            Ok(kept) => Ok(kept),
            Err(_) => Err(PutFault::Memory),
        }
    }

    /// The engine of parts that belong together.
    pub(crate) fn of_parts(setup: Setup, book: Book, shards: Vec<Shard>) -> PlainEngine
        requires { KeepsEngine setup book shards.items }
        ensures { result ≡ standing setup book shards.items }
    {
        PlainEngine {
            setup,
            book,
            shards,
        }
    }
}

// An empty shard for each number.
fn empty_shards(
    rt: &impl RandomSource,
    alloc: Global,
    setup: &Setup,
) -> Result<Vec<Shard>, AllocError>
    ensures count { IfOk result (λ v. length v.items ≡ setup.now.shards) }
    ensures stand { IfOk result (λ v. Stand setup.now (unfolded []) 0 v.items) }
    ensures layers { IfOk result (λ v. AreEmpty setup.now v.items) }
{
    let k = setup.shards();
    let mut shards = Vec::with_capacity(alloc, k as usize)?;
    'make: for s in 0..k {
        let shard = Shard::new(rt, alloc, setup, s)?;
        // Any call on a shard tells what it keeps.
        let _held = shard.number();
        shards.push(shard)?;
    }
    Ok(shards)
}
