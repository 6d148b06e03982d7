//! The book as the queue from which a log is written.
ghost use Rattle.std.specs.Prelude.{◌≡◌, ◌<◌, [], IfErr, OnOk, vec_len, vec_capacity};
ghost use mathlib.Core.List.{IsPrefix};
ghost use Rattle.batch_store.specs.Batches.{entries_of, values};
ghost use Rattle.locked_engine.specs.Queues.{Follows};

use crate::engine::Engine;
use crate::names::Named;
use crate::version::Version;
use batch_store::Batch;
use std::sync::ledger::Ledger;
use std::sync::{Arc, MutexGuard, Wait};

/// A book was asked for its batches from an index on, and gave none. Contracts see the index.
///
/// Only `Engine::batches_from` makes it, so whoever has one has asked a book.
#[derive(Clone, Copy, Debug, PartialEq, Eq)]
pub struct NoneShared {
    from: u64,
}

impl NoneShared {
    // None was given from this index on.
    pub(crate) fn at(from: u64) -> NoneShared
        ensures { result.from ≡ from }
    {
        NoneShared { from }
    }

    /// The index from which batches were asked for.
    pub fn from(&self) -> u64
        ensures { result ≡ self.now.from }
    {
        self.from
    }
}

impl<N: Named, H: Ledger> Engine<N, H> {
    /// Puts the batches from a place on, counted from 0 over all that were ever accepted, into a list that shares them:
    /// in order, as far as it has room, and the first alone or as many as have at most so many cells together. So a log
    /// is written on behind its end. It waits for the book's lock, holds it for as long as pointers are copied, and
    /// takes no memory. The version is shown the entries of all.
    ///
    /// At Ok there is at least one.
    ///
    /// # Errors
    ///
    /// The batch at this index is folded, or the book has none there. Or more was shown before, to which puts alone never
    /// lead, or too many copies of a batch's pointer are in use.
    pub fn batches_from<R: Wait>(
        &self,
        rt: &R,
        seen: &mut Version<N>,
        from: u64,
        most_cells: u64,
        out: &mut Vec<Arc<Batch>>,
    ) -> Result<(), NoneShared>
        requires empty { out.old.items ≡ [] }
        requires none { vec_len out.old ≡ 0 }
        requires room { 0 < vec_capacity out.old }
        ensures later { IsPrefix seen.old seen.new }
        ensures capacity { vec_capacity out.new ≡ vec_capacity out.old }
        ensures next { OnOk result (Follows from (entries_of (values out.new.items)) seen.new) }
        ensures some { OnOk result (0 < vec_len out.new) }
        ensures from { IfErr result (λ none. none.from ≡ from) }
    {
        let locked = self.book.lock(rt);
        let answer = locked.batches_from(seen, from, most_cells, out);
        let _ = MutexGuard::unlock(locked);
        answer
    }
}
