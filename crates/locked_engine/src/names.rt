//! What an engine is named by.
ghost use Rattle.std.specs.Prelude.{◌≡◌, ℕ, ◌+◌, ◌≤◌, ◌<◌, IfOk, ◌↔◌, [], List, None, ⊤};
ghost use Rattle.batch_store.specs.Setups.{Setting, setting};
ghost use Rattle.batch_store.specs.Accepted.{unfolded, entries_in};
ghost use Rattle.locked_engine.specs.Versions.{IsVersion, version_status};

use crate::fault::OpenFault;
use crate::history::NewHistory;
use crate::version::Version;
use batch_store::Setup;
use plain_engine::{PlainEngine, Status};
use std::alloc::Global;
use std::marker::{Brand, Model};
use std::sync::ledger::{Blank, Ledger};

/// Which engine it is: the first of its two ledgers, its setup and its number of seats, what had been accepted when it
/// was opened, the history of the entries that it accepts from then on, and the log that makes them durable. It has no
/// functions: what it names exists in proofs alone.
///
/// Whoever opens an engine takes `Brand` for it, and for the second ledger, and tells in the call's proof which names
/// are meant. A function over an engine takes them as type parameters.
pub trait Named: Ledger {
    ghost use Rattle.std.specs.Prelude.{ℕ, List, Option};
    ghost use Rattle.logbook.specs.Pages.{Book};
    ghost use Rattle.batch_store.specs.Accepted.{Accepted};
    ghost use Rattle.batch_store.specs.declared.verdict.Entry.{Entry};

    ghost setup: { Setting };

    ghost seats: { ℕ };

    ghost history: { Book };

    ghost opened: { Accepted };

    // The path of the log that makes a batch durable before its put is answered, if there is one.
    ghost log: { Option (List ℕ) };

    // That log has answered Ok to a sync, after which these were its entries.
    ghost synced: { List Entry → Type 0 };
}

impl Named for Brand {
    ghost setup = { setting 1 1 [] 1 1 1 };

    ghost seats = { 1 };

    ghost history = { record { number = 0; log_name = 0; cells_name = 0 } };

    ghost opened = { unfolded [] };

    ghost log = { None };

    ghost synced = { λ entries. ⊤ };
}

/// The most seats.
const MAX_SEATS: usize = 32;

/// What an engine is named by: its setup, its number of seats, two ledgers that aren't open yet, and a history without
/// entries.
///
/// Contracts see the setup, the number of seats, and the names of both ledgers and of the history.
#[derive(Drop)]
pub struct Names {
    setup: Setup,
    seats: usize,
    first: Blank,
    second: Blank,
    history: NewHistory,
}

impl Model for Names {
    ghost use Rattle.std.specs.Prelude.{◌≡◌, ◌+◌, ◌≤◌};
    ghost use Rattle.locked_engine.specs.Views.{NamesView, coded_names};

    ghost Value = { NamesView };

    ghost coded = { coded_names };

    ghost view = { λ n. record {
      setup = n.setup;
      seats = n.seats;
      first = n.first.name;
      second = n.second.name;
      history = n.history.seen.book;
    } };

    ghost invariant = { λ n. (1 ≤ n.seats) × (n.seats ≤ 32) × (n.first.parts ≡ n.seats)
        × (n.second.parts ≡ n.setup.shards + n.seats) };
}

impl Names {
    /// Names for an engine of this engine's setup, with so many seats, from 1 to 32: one for each thread that is to
    /// put. Takes no memory, and waits for nobody.
    ///
    /// # Errors
    ///
    /// `BadSeats`: the number of seats is outside 1 to 32.
    pub fn new<R>(
        _rt: &R,
        _alloc: Global,
        plain: &PlainEngine,
        seats: usize,
    ) -> Result<Names, OpenFault>
        ensures bad { (result ≡ Err OpenFault.BadSeats) ↔ ((1 ≤ seats) × (seats ≤ 32) → ⊥) }
        ensures setup { IfOk result (λ n. n.setup ≡ plain.now.setup) }
        ensures seats { IfOk result (λ n. n.seats ≡ seats) }
    {
        if seats < 1 || seats > MAX_SEATS {
            return Err(OpenFault::BadSeats);
        }
        let Some(history) = NewHistory::new() else {
            return Err(OpenFault::Memory);
        };
        let setup = plain.setup();
        Ok(Names {
            setup,
            seats,
            first: Blank::new(seats as u64),
            second: Blank::new(setup.shards() + seats as u64),
            history,
        })
    }

    // The number of seats.
    pub(crate) fn seats(&self) -> usize
        ensures seats { result ≡ self.now.seats }
        ensures range { (1 ≤ result) × (result ≤ 32) }
    {
        self.seats
    }

    // What a seat is shown first: the entries with which the engine is opened.
    pub(crate) fn version<N: Named>(&self, status: Status) -> Version<N>
        requires history { self.now.history ≡ N.history }
        requires status { status ≡ version_status (entries_in N.opened) }
        requires legal { IsVersion N.setup (entries_in N.opened) }
        ensures { result ≡ entries_in N.opened }
    {
        Version::begin(&self.history, status)
    }

    // The ledgers, which aren't open yet, and the history.
    pub(crate) fn into_parts(self) -> (Blank, Blank, NewHistory)
        ensures first { (result.0.name ≡ self.first) × (result.0.parts ≡ self.seats) }
        ensures second { (result.1.name ≡ self.second) × (result.1.parts ≡ self.setup.shards + self.seats) }
        ensures history { result.2.seen.book ≡ self.history }
    {
        let Names {
            setup: _,
            seats: _,
            first,
            second,
            history,
        } = self;
        (first, second, history)
    }
}
