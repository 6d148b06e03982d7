//! What was shown of the accepted batches, with its status: what readers take without waiting.
ghost use Rattle.std.specs.Prelude.{◌≡◌, ◌≤◌, ◌++◌, length};
ghost use Rattle.std.specs.Bool.{OnTrue};
ghost use mathlib.Core.List.{IsPrefix};
ghost use Rattle.batch_store.specs.Accepted.{entries_in};
ghost use Rattle.batch_store.specs.Batches.{entry_of as summary_of};
ghost use Rattle.locked_engine.specs.Histories.{added_in};
ghost use Rattle.locked_engine.specs.Versions.{IsVersion, version_status};

use crate::history::{HistoryRule, Line, NewHistory};
use crate::names::Named;
use batch_store::{Batch, Entry};
use crossbeam_utils::rule::Unruled;
use left_right::Absorb;
use left_right::reader::{Factory, Reader};
use left_right::writer::Writer;
use logbook::Seen;
use plain_engine::Status;
use std::alloc::{AllocError, Global};
use std::marker::{Model, PhantomData};
use std::sync::{Arc, OnceLock};

/// The status of what was opened and of a beginning of the history behind it.
///
/// Contracts see the entries. No client and number stands twice, and both limits hold.
#[derive(Drop)]
pub struct Version<N: Named> {
    status: Status,
    // How many of them were accepted after the engine was opened.
    added: u64,
    seen: Seen<Line, u64, HistoryRule>,
    of: PhantomData<N>,
}

impl<N: Named> Model for Version<N> {
    ghost use Rattle.std.specs.Prelude.{◌≡◌, ◌++◌, List, length};
    ghost use Rattle.std.specs.Coded.{coded_list};
    ghost use Rattle.batch_store.specs.declared.verdict.Entry.{Entry};
    ghost use Rattle.batch_store.specs.Accepted.{entries_in};
    ghost use Rattle.batch_store.specs.Verdicts.{coded_entry};
    ghost use Rattle.locked_engine.specs.Histories.{added_in};
    ghost use Rattle.locked_engine.specs.Versions.{IsVersion, version_status};

    ghost Value = { List Entry };

    ghost coded = { coded_list coded_entry };

    ghost view = { λ a. entries_in N.opened ++ added_in a.seen.log };

    ghost invariant = { λ a. (a.status ≡ version_status (entries_in N.opened ++ added_in a.seen.log))
        × (a.added ≡ length (added_in a.seen.log)) × (a.seen.book ≡ N.history) × IsVersion N.setup (entries_in N.opened ++ added_in a.seen.log) };
}

impl<N: Named> Version<N> {
    /// The version of an engine that is just opened, of this status.
    pub(crate) fn begin(opened: &NewHistory, status: Status) -> Version<N>
        requires history { opened.now.seen.book ≡ N.history }
        requires status { status ≡ version_status (entries_in N.opened) }
        requires legal { IsVersion N.setup (entries_in N.opened) }
        ensures { result ≡ entries_in N.opened }
    {
        Version {
            status,
            added: 0,
            seen: opened.seen.again(),
            of: PhantomData,
        }
    }

    /// The version of this beginning of the history.
    pub(crate) fn make(status: Status, added: u64, seen: Seen<Line, u64, HistoryRule>) -> Version<N>
        requires history { seen.book ≡ N.history }
        requires status { status ≡ version_status (entries_in N.opened ++ added_in seen.log) }
        requires added { added ≡ length (added_in seen.log) }
        requires legal { IsVersion N.setup (entries_in N.opened ++ added_in seen.log) }
        ensures { result ≡ entries_in N.opened ++ added_in seen.log }
    {
        Version {
            status,
            added,
            seen,
            of: PhantomData,
        }
    }

    /// What it has seen of the history.
    pub(crate) fn seen(&self) -> &Seen<Line, u64, HistoryRule>
        ensures book { result.now.book ≡ N.history }
        ensures entries { self.now ≡ entries_in N.opened ++ added_in result.now.log }
    {
        &self.seen
    }

    /// Its status.
    pub fn status(&self) -> Status
        ensures status { result ≡ version_status self.now }
        ensures legal { IsVersion N.setup self.now }
        ensures opened { IsPrefix (entries_in N.opened) self.now }
    {
        self.status
    }

    /// A copy.
    pub fn again(&self) -> Version<N>
        ensures { result ≡ self.now }
    {
        Version {
            status: self.status,
            added: self.added,
            seen: self.seen.again(),
            of: PhantomData,
        }
    }

    /// Takes in another version, where that is no shorter. The longer begins with the other.
    pub fn learn(&mut self, other: &Version<N>)
        ensures later { IsPrefix self.old self.new }
        ensures no_less { IsPrefix other.now self.new }
        ensures taken { length self.old ≤ length other.now → self.new ≡ other.now }
    {
        let mut both = self.seen.again();
        both.learn(&other.seen);
        if self.added <= other.added {
            *self = other.again();
        }
    }

    /// Whether another is as long, so that they are the same.
    pub fn is(&self, other: &Version<N>) -> bool
        ensures { OnTrue result (self.now ≡ other.now) }
    {
        if self.added != other.added {
            return false;
        }
        let mut longer = self.again();
        longer.learn(other);
        true
    }
}

/// What a version reads of a batch.
pub fn entry_of(b: &Batch) -> Entry
    ensures { result ≡ summary_of b.now }
{
    Entry {
        client: b.client,
        number: b.number,
        cells: b.matrix.entries(),
        total: b.total,
    }
}

/// A version that readers are shown once it is set.
pub type NextVersion<N> = Arc<OnceLock<Version<N>>>;

/// A place for the next version, in two hands: one is offered to readers, and by the other it is set. It is made before
/// the book's lock is taken.
#[derive(Drop)]
pub struct NextPlace<N: Named> {
    pub offered: NextVersion<N>,
    pub own: NextVersion<N>,
}

impl<N: Named> NextPlace<N> {
    /// An empty place: one growth.
    pub fn make(alloc: Global) -> Result<NextPlace<N>, AllocError> {
        let Ok(own) = Arc::new(alloc, OnceLock::new()) else {
            return Err(AllocError);
        };
        let offered = Arc::try_clone(&own)?;
        Ok(NextPlace { offered, own })
    }
}

impl<N: Named> Absorb<NextVersion<N>> for Version<N> {
    // What is shown is known by its type alone.
    type State = ();

    ghost state = { λ a. tt };

    ghost applied = { λ old new. old };

    ghost never_fails = { Unit {0} };

    fn absorb_first(
        &mut self,
        newer: &NextVersion<N>,
        _other: &Version<N>,
    ) -> Result<(), AllocError> {
        let place: &OnceLock<Version<N>> = newer;
        if let Some(version) = place.get() {
            *self = version.again();
        }
        Ok(())
    }
}

/// What shows a version to readers, what makes readers, and a reader of it.
pub type VersionWriter<N> = Writer<Version<N>, NextVersion<N>, (), Unruled>;

pub type VersionFactory<N> = Factory<Version<N>, (), Unruled>;

pub type VersionReader<N> = Reader<Version<N>, (), Unruled>;
