//! Rotates the log at a start, so that its head says whose it is, and the server's setup. No head is ever overwritten.
ghost use Rattle.std.specs.Prelude.{◌≡◌, ◌⊎◌, ◌<◌, ◌≤◌, ◌++◌, [], List, None, length, IfOk, OnOk, IfSome, IsSomeAnd};
ghost use Rattle.std.specs.Prelude.{false};
ghost use Rattle.batch_store.specs.Accepted.{entries_in};
ghost use Rattle.batch_store.specs.Batches.{entries_of, values};
ghost use Rattle.batch_store.specs.Books.{AreAccepted, accepted_in};
ghost use Rattle.batch_store.specs.declared.verdict.Entry.{Entry};
ghost use Rattle.session_pool.specs.Saves.{of_book};

use crate::load::empty_list;
use batch_store::{Batch, BookList, Setup};
use byte_io::WriteFault;
use log_desk::{Log, RoomFault};
use log_folder::LogNews;
use session_pool::{Disk, LogPlace};
use snap_file::{Identity, SaveFault};
use std::alloc::Global;
use std::sync::Arc;

/// The most batches of a block.
const GROUP_BATCHES: usize = 1024;

/// The most cells of a block of more than one batch.
const GROUP_CELLS: u64 = 1 << 20;

/// A rotation of the log: its path and the snapshot's, if there is one, and what the new head says.
#[derive(Clone, Copy)]
pub struct Renewal<'a> {
    pub alloc: Global,
    pub log: &'a str,
    pub snapshot: Option<&'a str>,
    pub setup: &'a Setup,
    pub identity: Identity,
    pub news: &'a Arc<LogNews>,
}

// How many of some batches one block takes.
fn group_size(batches: &[Arc<Batch>]) -> usize
    requires { 0 < length batches.now }
    ensures some { 0 < result }
    ensures within { result ≤ length batches.now }
{
    let mut cells = 0u64;
    'batches: for at in 0..batches.len() {
        cells = cells.saturating_add(batches[at].entry().cells);
        if at > 0 && (at >= GROUP_BATCHES || cells > GROUP_CELLS) {
            return at;
        }
    }
    batches.len()
}

// Makes room in a log for the block of these batches, and appends it.
fn append_group<L: Log>(log: &mut L, batches: &[Arc<Batch>]) -> Result<(), SaveFault>
    requires works { L.failed log.old ≡ false }
    ensures works { OnOk result (L.failed log.new ≡ false) }
    ensures durable { OnOk result (L.durable log.new ≡ L.durable log.old ++ entries_of (values batches.now)) }
    ensures synced { OnOk result (L.was_synced (L.durable log.new)) }
{
    match log.make_room(L::pages_of(batches)) {
        Ok(()) => {}
        Err(RoomFault::Full) => return Err(SaveFault::Write(WriteFault { written: 0 })),
        Err(RoomFault::Failed) => return Err(SaveFault::Sync),
    }
    match log.append(batches) {
        Ok(()) => Ok(()),
        Err(_) => Err(SaveFault::Sync),
    }
}

// Appends batches to a log, by blocks.
fn append_all<L: Log>(log: &mut L, batches: &[Arc<Batch>]) -> Result<(), SaveFault>
    requires works { L.failed log.old ≡ false }
    requires synced { L.was_synced (L.durable log.old) }
    ensures works { OnOk result (L.failed log.new ≡ false) }
    ensures durable { OnOk result (L.durable log.new ≡ L.durable log.old ++ entries_of (values batches.now)) }
    ensures synced { OnOk result (L.was_synced (L.durable log.new)) }
{
    let mut rest = batches;
    'groups: while !rest.is_empty() {
        let (group, more) = rest.split_at(group_size(rest));
        append_group(log, group)?;
        rest = more;
    }
    Ok(())
}

impl<'a> Renewal<'a> {
    // Begins a log after what a list has, and appends batches to it.
    fn begin<L: Log, R: Disk + LogPlace<L>>(
        &self,
        rt: &R,
        front: &BookList,
        rest: &[Arc<Batch>],
    ) -> Result<L, SaveFault>
        requires accepted { AreAccepted self.now.setup.now (accepted_in front.now) }
        requires held { (entries_in (accepted_in front.now) ≡ []) ⊎ IsSomeAnd self.now.snapshot (λ saved.
            of_book R.saves self.now.identity rt.now saved.now self.now.setup.now (accepted_in front.now)) }
        ensures works { IfOk result (λ log. L.failed log ≡ false) }
        ensures durable { IfOk result (λ log.
            L.durable log ≡ entries_in (accepted_in front.now) ++ entries_of (values rest.now)) }
        ensures synced { IfOk result (λ log. L.was_synced (L.durable log)) }
        ensures begun { OnOk result (R.begins rt.now self.now.log.now self.now.setup.now self.now.identity
            (entries_in (accepted_in front.now))) }
    {
        let mut log = rt.begin_log(
            rt,
            self.alloc,
            self.log,
            self.snapshot,
            self.identity,
            self.setup,
            front,
            Some(self.news),
        )?;
        match append_all(&mut log, rest) {
            Ok(()) => Ok(log),
            Err(fault) => {
                rt.abandon_log(self.alloc, self.log, log);
                Err(fault)
            }
        }
    }

    // Begins a log of all that a list has: where a snapshot has that too, it has no blocks.
    fn begin_whole<L: Log, R: Disk + LogPlace<L>>(
        &self,
        rt: &R,
        list: &BookList,
    ) -> Result<L, SaveFault>
        requires accepted { AreAccepted self.now.setup.now (accepted_in list.now) }
        requires held { IfSome self.now.snapshot (λ saved.
            of_book R.saves self.now.identity rt.now saved.now self.now.setup.now (accepted_in list.now)) }
        requires unfolded { self.now.snapshot ≡ None → list.now.folded ≡ [] }
        ensures works { IfOk result (λ log. L.failed log ≡ false) }
        ensures durable { IfOk result (λ log. L.durable log ≡ entries_in (accepted_in list.now)) }
        ensures synced { IfOk result (λ log. L.was_synced (L.durable log)) }
        ensures begun { OnOk result ((es : List Entry)
            × R.begins rt.now self.now.log.now self.now.setup.now self.now.identity es) }
    {
        if self.snapshot.is_some() {
            return self.begin(rt, list, &[]);
        }
        let front = match empty_list(self.alloc, self.setup) {
            Ok(front) => front,
            Err(_) => return Err(SaveFault::Memory),
        };
        self.begin(rt, &front, &list.batches)
    }

    /// Makes a new log of all that the list has, and gives it the name of the one in use, which nobody else uses. Where
    /// there is a snapshot, all of the list was saved there before: the new log begins after it.
    ///
    /// # Errors
    ///
    /// As `LogPlace` says. What is under the names is started from as before.
    pub fn renew<L: Log, R: Disk + LogPlace<L>>(
        &self,
        rt: &R,
        list: &BookList,
        in_use: L,
    ) -> Result<L, SaveFault>
        requires accepted { AreAccepted self.now.setup.now (accepted_in list.now) }
        requires held { IfSome self.now.snapshot (λ saved.
            of_book R.saves self.now.identity rt.now saved.now self.now.setup.now (accepted_in list.now)) }
        requires unfolded { self.now.snapshot ≡ None → list.now.folded ≡ [] }
        ensures works { IfOk result (λ log. L.failed log ≡ false) }
        ensures durable { IfOk result (λ log. L.durable log ≡ entries_in (accepted_in list.now)) }
        ensures synced { IfOk result (λ log. L.was_synced (L.durable log)) }
        ensures begun { OnOk result ((es : List Entry)
            × R.begins rt.now self.now.log.now self.now.setup.now self.now.identity es) }
        ensures named { OnOk result (R.names rt.now self.now.log.now (entries_in (accepted_in list.now))) }
        ensures has_name { IfOk result (λ log. L.has_name log self.now.log.now) }
    {
        let new = self.begin_whole(rt, list)?;
        let mut log = in_use;
        rt.name_log(
            self.alloc,
            self.log,
            self.snapshot,
            self.identity,
            &mut log,
            new,
            Some(self.news),
        )?;
        Ok(log)
    }
}
