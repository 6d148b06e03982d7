//! What a leader writes at once.
ghost use Rattle.std.specs.Prelude.{◌≡◌, ◌≢◌, ℕ, ◌<◌, ◌≤◌, List, false, true, Err, length, IfOk, OnOk, OnErr};
ghost use mathlib.Core.List.{IsPrefix};
ghost use Rattle.log_desk.specs.Standings.{IsGroup};

use crate::durable::Durable;
use crate::fault::DeskFault;
use crate::log::Log;
use crate::room::write_block;
use batch_store::Batch;
use locked_engine::{Engine, Named, Version};
use std::alloc::{AllocError, Global};
use std::marker::Model;
use std::sync::ledger::Ledger;
use std::sync::{Arc, Wait};

/// The most batches of a group.
const MOST_BATCHES: usize = 1024;

/// The most cells of a group of more than one batch: as many as one batch may have. So the block of a group has at most
/// 25,190,408 bytes of payload: 24 for each cell, 24 for each of 1,024 batches, and 8 for their number.
const MOST_CELLS: u64 = 1_048_576;

/// Room for the batches of one group, and what the book was seen to have, which is what contracts see.
#[derive(Drop)]
pub struct Group<N: Named> {
    // Its own, so that no seat is shown anything by a group.
    seen: Version<N>,
    // Reserved when it is made, so that a group takes no memory.
    batches: Vec<Arc<Batch>>,
}

impl<N: Named> Model for Group<N> {
    ghost use Rattle.std.specs.Prelude.{ℕ, ◌<◌, List, vec_capacity};
    ghost use Rattle.batch_store.specs.declared.verdict.Entry.{Entry};

    ghost Value = { List Entry };

    ghost view = { λ g. g.seen };

    ghost invariant = { λ g. 0 < vec_capacity g.batches };
}

impl<N: Named> Group<N> {
    /// Room for a group of 1,024 batches: a growth of 8 KiB. `seen` is any version of the book.
    ///
    /// # Errors
    ///
    /// The growth was refused.
    pub fn new(alloc: Global, seen: Version<N>) -> Result<Group<N>, AllocError>
        ensures { IfOk result (λ group. group ≡ seen) }
    {
        let batches = Vec::with_capacity(alloc, MOST_BATCHES)?;
        Ok(Group { seen, batches })
    }

    /// Writes one group: what the book has accepted behind the log's end, by one sync. Nothing that was durable is
    /// lost, and at Ok at least one entry more is durable.
    ///
    /// # Errors
    ///
    /// - `LogFailed`: the log failed now.
    /// - `LogFull`: there is no room for it in the log. Nothing was written.
    /// - `HistoriesDiffer`: the book was asked, and has nothing after what is durable. Nothing was written.
    pub fn write<L: Log, H: Ledger, R: Wait>(
        &mut self,
        rt: &R,
        engine: &Engine<N, H>,
        log: &mut L,
        durable: &mut Durable<N, L>,
    ) -> Result<(), DeskFault>
        requires works { L.failed log.old ≡ false }
        requires durable { L.durable log.old ≡ durable.old }
        ensures extends { IsPrefix durable.old durable.new }
        ensures grows { OnOk result (length durable.old < length durable.new) }
        ensures durable { L.failed log.new ≡ false → L.durable log.new ≡ durable.new }
        ensures group { OnOk result (IsGroup L.takes durable.old durable.new (L.ready log.old) (L.ready log.new)) }
        ensures named { (path : List ℕ) → L.has_name log.old path → L.has_name log.new path }
        ensures room_kept { result ≢ Err DeskFault.LogFailed → OnErr result (L.ready log.old ≤ L.ready log.new) }
        ensures works { L.failed log.new ≡ true → result ≡ Err DeskFault.LogFailed }
        ensures broken { result ≡ Err DeskFault.LogFailed → L.failed log.new ≡ true }
        ensures told { result ≡ Err DeskFault.LogFailed → L.has_failed }
        ensures full { result ≡ Err DeskFault.LogFull → L.was_full }
        // The book was asked from the end of what a sync has made durable.
        ensures differ { (none : _) → result ≡ Err (DeskFault.HistoriesDiffer none) →
            (none.from ≡ length durable.old) × L.was_synced durable.old }
    {
        let Group { seen, batches } = self;
        batches.clear();
        // It says too that a sync has made it durable.
        let from = durable.status().batches;
        if let Err(none) = engine.batches_from(rt, seen, from, MOST_CELLS, batches) {
            return Err(DeskFault::HistoriesDiffer(none));
        }
        durable.begins(seen);
        let status = durable.status_with(batches.as_slice(), seen);
        if let Err(fault) = write_block(log, batches.as_slice()) {
            return Err(fault);
        }
        *durable = Durable::of(seen, status);
        batches.clear();
        Ok(())
    }
}
