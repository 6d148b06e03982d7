//! What is known as durable.
ghost use Rattle.std.specs.Prelude.{◌≡◌, ◌≤◌, ◌<◌, ◌++◌, List, length, take, slice_get};
ghost use mathlib.Core.List.{IsPrefix};
ghost use Rattle.batch_store.specs.declared.verdict.Entry.{Entry};
ghost use Rattle.batch_store.specs.Batches.{entries_of, values};
ghost use Rattle.locked_engine.specs.Versions.{IsVersion, version_status};

use crate::log::Log;
use batch_store::Batch;
use locked_engine::{Named, Status, Version};
use std::marker::{Model, PhantomData};
use std::sync::Arc;

/// So many entries of a version, which a sync of the log has made durable, with their status.
///
/// Contracts see these entries. It is a token of the history: any two begin one list, which is the book's.
#[derive(Drop)]
pub struct Durable<N: Named, L: Log> {
    version: Version<N>,
    // Of the entries that are durable: a front of the version.
    status: Status,
    of: PhantomData<L>,
}

impl<N: Named, L: Log> Model for Durable<N, L> {
    ghost use Rattle.std.specs.Prelude.{◌≡◌, ◌≤◌, List, length, take};
    ghost use Rattle.batch_store.specs.declared.verdict.Entry.{Entry};
    ghost use Rattle.locked_engine.specs.Versions.{version_status};

    ghost Value = { List Entry };

    ghost view = { λ d. take d.status.batches d.version };

    ghost invariant = { λ d. (d.status.batches ≤ length d.version)
        × (d.status ≡ version_status (take d.status.batches d.version))
        × L.was_synced (take d.status.batches d.version) };
}

impl<N: Named, L: Log> Durable<N, L> {
    /// The front of a version that has this status, where a sync has made it durable.
    pub fn of(version: &Version<N>, status: Status) -> Durable<N, L>
        requires within { status.batches ≤ length version.now }
        requires status { status ≡ version_status (take status.batches version.now) }
        requires synced { L.was_synced (take status.batches version.now) }
        ensures { result ≡ take status.batches version.now }
    {
        Durable {
            version: version.again(),
            status,
            of: PhantomData,
        }
    }

    /// All of a version, where a sync has made it durable: what a log that was started has.
    pub fn all_of(version: &Version<N>) -> Durable<N, L>
        requires synced { L.was_synced version.now }
        ensures { result ≡ version.now }
    {
        Durable::of(version, version.status())
    }

    /// How many entries are durable.
    pub fn count(&self) -> u64
        ensures { result ≡ length self.now }
    {
        self.status.batches
    }

    /// How many entries are durable, and the sum of their totals.
    pub fn status(&self) -> Status
        ensures status { result ≡ version_status self.now }
        ensures synced { L.was_synced self.now }
    {
        self.status
    }

    /// The status of what is durable and these batches after it. A version begins with all of them, so no sum wraps.
    pub fn status_with(&self, batches: &[Arc<Batch>], version: &Version<N>) -> Status
        requires { IsPrefix (self.now ++ entries_of (values batches.now)) version.now }
        ensures { result ≡ version_status (self.now ++ entries_of (values batches.now)) }
    {
        // A version keeps within the setup's limits.
        let _whole = version.status();
        let mut status = self.status;
        for batch in batches {
            status = Status {
                batches: status.batches + 1,
                total: status.total + batch.entry().total,
            };
        }
        status
    }

    /// A copy.
    pub fn again(&self) -> Durable<N, L>
        ensures { result ≡ self.now }
    {
        Durable {
            version: self.version.again(),
            status: self.status,
            of: PhantomData,
        }
    }

    /// Takes in what is known elsewhere, where that is no less.
    pub fn learn(&mut self, other: &Durable<N, L>)
        ensures later { IsPrefix self.old self.new }
        ensures no_less { IsPrefix other.now self.new }
        ensures taken { length self.old ≤ length other.now → self.new ≡ other.now }
    {
        let mut both = self.version.again();
        both.learn(&other.version);
        if self.status.batches <= other.status.batches {
            *self = other.again();
        }
    }

    /// What is durable stands at the front of a version that is no shorter.
    pub fn begins(&self, version: &Version<N>)
        ensures { length self.now ≤ length version.now → self.now ≡ take (length self.now) version.now }
    {
        let mut both = self.version.again();
        both.learn(version);
    }

    /// What is durable and a version begin one list.
    pub fn joins(&self, version: &Version<N>)
        ensures { (all : List Entry) × IsVersion N.setup all × IsPrefix self.now all × IsPrefix version.now all }
    {
        let mut both = self.version.again();
        both.learn(version);
        // It tells that both together are legal.
        let _status = both.status();
    }

    /// What a version has at a place is what is durable there, where both have it.
    pub fn has_as(&self, version: &Version<N>, index: u64)
        requires durable { index < length self.now }
        requires shown { index < length version.now }
        ensures { slice_get self.now index ≡ slice_get version.now index }
    {
        let mut both = self.version.again();
        both.learn(version);
    }
}
