//! A log in memory for tests: it counts its syncs, fails at one of its calls, runs out of room, and lets a test hold a
//! sync back.
ghost use Rattle.std.specs.Prelude.{◌≡◌, ◌++◌, [], false, true, IfOk};
ghost use Rattle.batch_store.specs.Accepted.{entries_in};
ghost use Rattle.batch_store.specs.Batches.{entries_of, values};
ghost use Rattle.batch_store.specs.Books.{accepted_in};

use crate::fault::{LogFailed, RoomFault};
use crate::log::Log;
use batch_store::{Batch, BookList, Entry};
use std::alloc::{AllocError, Global};
use std::sync::Arc;

/// What happens in the sync of an append before it answers.
pub trait Pause: Drop {
    /// Returns when the sync of this number, from 0, may answer.
    fn pause(&self, sync: u64);
}

/// Syncs that answer at once.
#[derive(Drop)]
pub struct NoPause;

impl Pause for NoPause {
    fn pause(&self, _sync: u64) {}
}

/// The call on a log in memory that fails, counted from 0 among those of its kind.
#[derive(Clone, Copy, Debug, PartialEq, Eq)]
pub enum FailAt {
    Never,
    Append(u64),
    Room(u64),
}

/// A log in memory. A block takes a page for each of its batches.
#[derive(Drop)]
pub struct MemoryLog<P: Pause> {
    entries: Vec<Entry>,
    ready: u64,
    // How many pages can be made ready yet.
    left: u64,
    syncs: u64,
    stretches: u64,
    fail_at: FailAt,
    failed: bool,
    pause: P,
}

impl<P: Pause> MemoryLog<P> {
    /// An empty log of so many pages, none of them ready, with memory for so many entries; a call of it fails.
    ///
    /// # Errors
    ///
    /// The growth was refused.
    pub fn new(
        alloc: Global,
        entries: usize,
        pages: u64,
        fail_at: FailAt,
        pause: P,
    ) -> Result<MemoryLog<P>, AllocError>
        ensures works { IfOk result (λ l. l.failed ≡ false) }
        ensures empty { IfOk result (λ l. l.entries.items ≡ []) }
    {
        Ok(MemoryLog {
            entries: Vec::with_capacity(alloc, entries)?,
            ready: 0,
            left: pages,
            syncs: 0,
            stretches: 0,
            fail_at,
            failed: false,
            pause,
        })
    }

    /// A log without blocks behind what a list tells, of so many pages, none of them ready; a call of it fails.
    ///
    /// # Errors
    ///
    /// A growth was refused.
    pub fn behind(
        alloc: Global,
        list: &BookList,
        pages: u64,
        fail_at: FailAt,
        pause: P,
    ) -> Result<MemoryLog<P>, AllocError>
        ensures works { IfOk result (λ l. l.failed ≡ false) }
        ensures durable { IfOk result (λ l. l.entries.items ≡ entries_in (accepted_in list.now)) }
    {
        let mut entries = Vec::from_slice(alloc, list.folded.as_slice())?;
        if !write(&mut entries, list.batches.as_slice()) {
            return Err(AllocError);
        }
        Ok(MemoryLog {
            entries,
            ready: 0,
            left: pages,
            syncs: 0,
            stretches: 0,
            fail_at,
            failed: false,
            pause,
        })
    }

    /// Fails from now on, as a log does that couldn't be given its name.
    pub fn fail(&mut self)
        ensures { self.new ≡ record self.old { failed = true } }
    {
        self.failed = true;
    }

    /// How many appends were called.
    pub fn syncs(&self) -> u64 {
        self.syncs
    }

    /// The entries that were synced, and where a sync failed those that were written.
    pub fn entries(&self) -> &[Entry]
        ensures { result.now ≡ self.now.entries.items }
    {
        self.entries.as_slice()
    }

    // Whether the sync that comes answers Ok.
    fn syncs_well(&mut self) -> bool
        ensures entries { self.new.entries ≡ self.old.entries }
        ensures failed { self.new.failed ≡ self.old.failed }
        ensures ready { self.new.ready ≡ self.old.ready }
    {
        let sync = self.syncs;
        self.syncs = sync.saturating_add(1);
        self.pause.pause(sync);
        self.fail_at != FailAt::Append(sync)
    }

    // Whether the stretch of zeros that comes is synced.
    fn stretches_well(&mut self) -> bool
        ensures entries { self.new.entries ≡ self.old.entries }
        ensures failed { self.new.failed ≡ self.old.failed }
        ensures ready { self.new.ready ≡ self.old.ready }
    {
        let stretch = self.stretches;
        self.stretches = stretch.saturating_add(1);
        self.fail_at != FailAt::Room(stretch)
    }
}

// Writes the entries of batches behind others, where there is memory.
fn write(entries: &mut Vec<Entry>, batches: &[Arc<Batch>]) -> bool
    ensures { result ≡ true → entries.new.items ≡ entries.old.items ++ entries_of (values batches.now) }
{
    for batch in batches {
        if entries.push(batch.entry()).is_err() {
            return false;
        }
    }
    true
}

impl<P: Pause> Log for MemoryLog<P> {
    ghost use Rattle.std.specs.Prelude.{◌≡◌, length, ⊤};

    ghost durable = { λ l. l.entries.items };

    ghost failed = { λ l. l.failed };

    ghost ready = { λ l. l.ready };

    ghost takes = { λ list. length list };

    ghost has_name = { λ l path. ⊤ };

    ghost was_synced = { λ entries. ⊤ };

    ghost has_failed = { ⊤ };

    ghost was_full = { ⊤ };

    fn is_failed(&self) -> bool {
        self.failed
    }

    fn room(&self) -> u64 {
        self.ready
    }

    fn pages_of(batches: &[Arc<Batch>]) -> u64 {
        batches.len() as u64
    }

    fn append(&mut self, batches: &[Arc<Batch>]) -> Result<(), LogFailed> {
        self.ready -= batches.len() as u64;
        if write(&mut self.entries, batches) && self.syncs_well() {
            return Ok(());
        }
        self.failed = true;
        Err(LogFailed)
    }

    fn make_room(&mut self, pages: u64) -> Result<(), RoomFault> {
        if pages <= self.ready {
            return Ok(());
        }
        let more = pages - self.ready;
        if more > self.left {
            return Err(RoomFault::Full);
        }
        self.left -= more;
        self.ready = pages;
        if self.stretches_well() {
            return Ok(());
        }
        self.failed = true;
        Err(RoomFault::Failed)
    }
}
