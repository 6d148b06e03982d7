//! What a session asks of the store behind it.
ghost use Rattle.std.specs.Prelude.{◌≡◌, ℕ, ◌<◌, Result};
ghost use Rattle.std.specs.Prelude.{Ok, Err};
ghost use Rattle.std.specs.Arc.{arc_value};
ghost use Rattle.std.specs.declared.alloc.AllocError.{AllocError};
ghost use Rattle.hyper_matrix.specs.Matrix.{Matrix};
ghost use Rattle.batch_store.specs.Setups.{Setting};
ghost use Rattle.batch_store.specs.Batches.{Submission};
ghost use Rattle.batch_store.specs.declared.verdict.Kept.{Kept};
ghost use Rattle.wire_proto.specs.Keeping.{Event, put as putting, cell as looking, row as summing, status as counting};
ghost use Rattle.wire_proto.specs.Keeping.{export as exporting, save as saving, stored as telling, settled};
ghost use Rattle.wire_proto.specs.Keeping.{stats as told_by, fold as folding};
ghost use Rattle.wire_proto.specs.Telling.{Telling};
ghost use Rattle.wire_proto.specs.declared.keeper.PutRefusal.{PutRefusal};
ghost use Rattle.wire_proto.specs.declared.keeper.Settled.{Settled};

use crate::told::Told;
use batch_store::{Batch, Kept, Setup};
use hyper_matrix::RowSum;
use plain_engine::{PutFault, Status, ViewedSum};
use std::alloc::{AllocError, Global};
use std::sync::Arc;
use thiserror::Error;

/// Why a put got no reply that is kept.
#[derive(Clone, Copy, Debug, PartialEq, Eq, Error)]
pub enum PutRefusal {
    /// The engine refused the batch.
    #[error("the batch is refused: {0}")]
    Put(PutFault),
    /// The log has no room for the batch. Nothing was accepted.
    #[error("the log has no room for the batch")]
    LogFull,
    /// A write to the log has failed, now or earlier. The batch may be accepted, and isn't known to be durable: sent
    /// again under its two numbers it counts once.
    #[error("the log has failed")]
    LogFailed,
}

impl From<PutFault> for PutRefusal {
    ghost use Rattle.std.specs.Prelude.{◌≡◌};
    ghost use Rattle.wire_proto.specs.declared.keeper.PutRefusal.TheVariants.{Put};

    ghost from_gives = { λ fault refusal. refusal ≡ Put fault };

    fn from(fault: PutFault) -> PutRefusal {
        PutRefusal::Put(fault)
    }
}

/// What is known of a place once a store was asked to settle it.
#[derive(Clone, Copy, Debug, PartialEq, Eq)]
pub enum Settled {
    /// Its batch is durable.
    Durable,
    /// A write to the log has failed, now or earlier. The batch is in the store, and isn't known to be durable.
    LogFailed,
    /// The store's book and its log don't belong together, so that nothing is known of the place.
    RecordsDiffer,
}

/// Why nothing was saved.
#[derive(Clone, Copy, Debug, PartialEq, Eq, Error)]
pub enum SaveRefusal {
    /// A growth was refused.
    #[error("no memory for a save")]
    Memory,
    /// There is no place to save to.
    #[error("there is no place to save to")]
    SaveOff,
    /// The place refused it. What was saved before stands as it was, or, where the folder wasn't synced behind the
    /// rename, what was to be saved.
    #[error("the save failed")]
    SaveFailed,
}

/// Why a fold wasn't answered with a number.
#[derive(Clone, Copy, Debug, PartialEq, Eq, Error)]
pub enum FoldRefusal {
    /// A growth was refused.
    #[error("no memory for a fold")]
    Memory,
    /// A write to the log has failed, now or earlier. What isn't known to be durable is not folded.
    #[error("the log has failed")]
    LogFailed,
    /// The store's book and its log don't belong together, so that nothing is known to be durable.
    #[error("the log and what was accepted differ")]
    RecordsDiffer,
}

/// A store of batches as a session sees it.
///
/// What a call answers is a relation between the state before, the call with its answer, and the state after, since
/// others may use the store at the same time. `fact` is whatever the keeper keeps across its calls: a session keeps it
/// too, however it ends.
///
/// A put is two calls: `begin_put` has the store accept the batch, and `settle` waits until its place is durable.
/// `gives` says what both may answer as one call. Where several puts are begun before the first is settled, it is as if
/// each had been settled before the next was begun: so the laws have it.
pub trait Keeper {
    // What a call may answer, and the state that it leaves.
    ghost gives: { Self → Event → Self → Type 0 };

    // What the store may answer a put at once, and the state that this leaves.
    ghost begins: { Self → Submission → Result Kept PutRefusal → Self → Type 0 };

    // What may be known of a place once it was settled, and the state that this leaves.
    ghost settles: { Self → ℕ → Settled → Self → Type 0 };

    // What the keeper keeps across its calls.
    ghost fact: { Self → Type 0 };

    // What is fixed of the store.
    ghost setup_of: { Self → Setting };

    /// What is fixed of the store.
    fn setup(&self) -> Setup
        ensures { result ≡ setup_of self.now };

    /// Accepts a batch of the setup's dimensions, gives the reply that it keeps for it, or refuses it. A refusal is
    /// what the put is answered. Ok isn't, before its place was settled.
    fn begin_put(&mut self, alloc: Global, batch: Arc<Batch>) -> Result<Kept, PutRefusal>
        requires fact { fact self.old }
        requires rows { (arc_value batch).matrix.rows ≡ (setup_of self.old).rows }
        requires cols { (arc_value batch).matrix.cols ≡ (setup_of self.old).cols }
        ensures begins { begins self.old (arc_value batch) result self.new }
        ensures fact { fact self.new }
        ensures setup { setup_of self.new ≡ setup_of self.old };

    /// Waits until the batch at a place that `begin_put` gave is durable, and answers that, or why it can't be known. A
    /// store without a log answers at once.
    fn settle(&mut self, place: u64) -> Settled
        requires fact { fact self.old }
        ensures settles { settles self.old place result self.new }
        ensures fact { fact self.new }
        ensures setup { setup_of self.new ≡ setup_of self.old };

    /// The count at a place of the sum of all batches, where it has an entry. Row and column count from 0.
    fn cell(&mut self, row: u64, col: u64) -> Option<u64>
        requires fact { fact self.old }
        requires row { row < (setup_of self.old).rows }
        requires col { col < (setup_of self.old).cols }
        ensures gives { gives self.old (looking row col result) self.new }
        ensures fact { fact self.new }
        ensures setup { setup_of self.new ≡ setup_of self.old };

    /// The entries of a row of the sum of all batches, and their total.
    fn row(&mut self, row: u64) -> RowSum
        requires fact { fact self.old }
        requires row { row < (setup_of self.old).rows }
        ensures gives { gives self.old (summing row result) self.new }
        ensures fact { fact self.new }
        ensures setup { setup_of self.new ≡ setup_of self.old };

    /// How many batches were accepted, and their total.
    fn status(&mut self) -> Status
        requires fact { fact self.old }
        ensures gives { gives self.old (counting result) self.new }
        ensures fact { fact self.new }
        ensures setup { setup_of self.new ≡ setup_of self.old };

    /// The sum of all batches, as a view of it, whose cells aren't added up before a session goes through them.
    ///
    /// # Errors
    ///
    /// A growth was refused.
    fn export(&mut self, alloc: Global) -> Result<ViewedSum, AllocError>
        requires fact { fact self.old }
        ensures gives { gives self.old (exporting result) self.new }
        ensures fact { fact self.new }
        ensures setup { setup_of self.new ≡ setup_of self.old };

    /// Saves what was accepted, and answers how many batches that are.
    fn save(&mut self, alloc: Global) -> Result<u64, SaveRefusal>
        requires fact { fact self.old }
        ensures gives { gives self.old (saving result) self.new }
        ensures fact { fact self.new }
        ensures setup { setup_of self.new ≡ setup_of self.old };

    /// How many of the batches are durable, and their total: no crash takes these back. They are the first in the book.
    /// A store without a log tells all that was accepted.
    fn stored(&mut self) -> Status
        requires fact { fact self.old }
        ensures gives { gives self.old (telling result) self.new }
        ensures fact { fact self.new }
        ensures setup { setup_of self.new ≡ setup_of self.old };

    /// What the store tells of itself.
    ///
    /// # Errors
    ///
    /// A growth was refused.
    fn stats(&mut self, alloc: Global) -> Result<Told, AllocError>
        requires fact { fact self.old }
        ensures gives { gives self.old (told_by result) self.new }
        ensures fact { fact self.new }
        ensures setup { setup_of self.new ≡ setup_of self.old };

    /// Folds what was accepted, and answers how many batches are folded then. What is read, and what a put is answered,
    /// is the same before and after.
    fn fold(&mut self, alloc: Global) -> Result<u64, FoldRefusal>
        requires fact { fact self.old }
        ensures gives { gives self.old (folding result) self.new }
        ensures fact { fact self.new }
        ensures setup { setup_of self.new ≡ setup_of self.old };

    // A refusal is what the put is answered.
    ghost refused: { (s t : Self) (batch : Submission) (refusal : PutRefusal) → begins s batch (Err refusal) t →
        gives s (putting batch (Err refusal)) t };

    // What was accepted is answered once its place was settled.
    ghost answered: { (s m t : Self) (batch : Submission) (kept : Kept) (known : Settled) →
        begins s batch (Ok kept) m → settles m kept.index known t →
        gives s (putting batch (settled kept known)) t };

    // What is settled behind a put that was begun could have been settled before it.
    ghost earlier: { (s m t : Self) (batch : Submission) (answer : Result Kept PutRefusal) (place : ℕ)
        (known : Settled) → begins s batch answer m → settles m place known t →
        (x : Self) × settles s place known x × begins x batch answer t };

    // To go through an exported sum takes memory too. Where that is refused it is as if the export had been.
    ghost may_lack: { (s t : Self) (m : Matrix) (e : AllocError) → gives s (exporting (Ok m)) t →
        gives s (exporting (Err e)) t };

    // Nor is there a text of what was told where that takes more memory than there is.
    ghost may_lack_text: { (s t : Self) (told : Telling) (e : AllocError) → gives s (told_by (Ok told)) t →
        gives s (told_by (Err e)) t };
}
