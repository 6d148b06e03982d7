//! What the desk asks of a log.
ghost use Rattle.std.specs.Prelude.{◌≡◌, ◌≢◌, ℕ, ◌+◌, ◌≤◌, ◌++◌, List, Bool, true, false, Err, OnOk, OnErr};
ghost use Rattle.batch_store.specs.declared.verdict.Entry.{Entry};
ghost use Rattle.batch_store.specs.Batches.{Submission, entries_of, values};

use crate::fault::{LogFailed, RoomFault};
use batch_store::Batch;
use std::sync::Arc;

/// A log on a device that keeps, behind a sync that has answered Ok, what was written before.
///
/// `was_synced`, `has_failed` and `was_full` say what logs of this type have answered, and stay true. A caller is
/// proved for every log, so what it tells as durable was made so by a sync, and what it tells as failed has failed.
pub trait Log: Drop {
    // The entries of all that was accepted up to its end, by what stands before it and by its blocks; all durable while
    // no call on it has failed.
    ghost durable: { Self → List Entry };

    // Whether a call on it has failed.
    ghost failed: { Self → Bool };

    // How many pages of zeros are ready for blocks.
    ghost ready: { Self → ℕ };

    // How many pages the block of these batches takes.
    ghost takes: { List Submission → ℕ };

    // It has this path, where a start finds it.
    ghost has_name: { Self → List ℕ → Type 0 };

    // A log has answered Ok to a sync, behind which these were its entries.
    ghost was_synced: { List Entry → Type 0 };

    // A log has answered a failure.
    ghost has_failed: { Type 0 };

    // A log has answered that it is full.
    ghost was_full: { Type 0 };

    /// Whether a call on it has failed.
    fn is_failed(&self) -> bool
        ensures { result ≡ failed self.now };

    /// How many pages are ready for blocks: zeros that were written and synced before.
    fn room(&self) -> u64
        ensures { result ≡ ready self.now };

    /// How many pages the block of these batches takes.
    fn pages_of(batches: &[Arc<Batch>]) -> u64
        ensures { result ≡ takes (values batches.now) };

    /// Writes these batches behind the others, as one block into the room that is ready, and syncs once. No call has
    /// failed before.
    ///
    /// # Errors
    ///
    /// A write or the sync has failed. The log is failed from then on.
    fn append(&mut self, batches: &[Arc<Batch>]) -> Result<(), LogFailed>
        requires working { failed self.old ≡ false }
        requires room { takes (values batches.now) ≤ ready self.old }
        ensures working { OnOk result (failed self.new ≡ false) }
        ensures durable { OnOk result (durable self.new ≡ durable self.old ++ entries_of (values batches.now)) }
        ensures synced { OnOk result (was_synced (durable self.new)) }
        ensures room { OnOk result (ready self.old ≤ ready self.new + takes (values batches.now)) }
        ensures named { (path : List ℕ) → has_name self.old path → has_name self.new path }
        ensures broken { OnErr result (failed self.new ≡ true) }
        ensures told { OnErr result has_failed };

    /// Writes zeros behind the end, so that so many pages in all are ready, and syncs. No call has failed before.
    ///
    /// # Errors
    ///
    /// `Full`: not so many pages are to be had, and the log can be used as before. `Failed`: a sync failed.
    fn make_room(&mut self, pages: u64) -> Result<(), RoomFault>
        requires working { failed self.old ≡ false }
        ensures working { result ≢ Err RoomFault.Failed → failed self.new ≡ false }
        ensures room { OnOk result (pages ≤ ready self.new) }
        ensures kept { failed self.new ≡ false → ready self.old ≤ ready self.new }
        ensures durable { failed self.new ≡ false → durable self.new ≡ durable self.old }
        ensures named { (path : List ℕ) → has_name self.old path → has_name self.new path }
        ensures broken { result ≡ Err RoomFault.Failed → failed self.new ≡ true }
        ensures told { result ≡ Err RoomFault.Failed → has_failed }
        ensures full { result ≡ Err RoomFault.Full → was_full };
}
