//! The places from which batches are put.
ghost use Rattle.std.specs.Prelude.{◌≡◌, ◌≤◌};
ghost use mathlib.Core.List.{IsPrefix};
ghost use Rattle.locked_engine.specs.Versions.{IsVersion, version_status};

use crate::known::Known;
use crate::names::Named;
use crate::version::{Version, VersionReader};
use crossbeam_utils::rule::Unruled;
use plain_engine::Status;
use std::marker::Model;
use std::sync::ledger::{Ledger, Share};

/// A place from which one thread at a time puts batches.
///
/// Contracts see its number, its share of the first ledger, which is the total of the batches that its puts were the
/// first to have accepted, the version that it was shown last, of entries of accepted batches, and the batches that it
/// knows as accepted. A seat is always balanced: what it has admitted it has delivered to the shards.
#[derive(Drop)]
pub struct Seat<N: Named, H: Ledger> {
    number: usize,
    pub(crate) first: Share<N>,
    pub(crate) second: Share<H>,
    pub(crate) seen: Version<N>,
    // With its own batches at least.
    known: Known<N>,
    // None where no place for a reader was to be had, and while it reads.
    reader: Option<VersionReader<N>>,
    // How many batches its puts were the first to have accepted. It stays at 2^64 - 1 once there.
    accepted: u64,
}

impl<N: Named, H: Ledger> Model for Seat<N, H> {
    ghost use Rattle.std.specs.Prelude.{◌≡◌};
    ghost use Rattle.locked_engine.specs.Views.{SeatView, seat_view, coded_seat};

    ghost Value = { SeatView };

    ghost coded = { coded_seat };

    ghost view = { λ s. seat_view s.number s.first.amount s.seen s.known };

    ghost invariant = { λ s. (s.first.parts ≡ 1) × (s.second.parts ≡ 1) × (s.second.amount ≡ 0) };
}

impl<N: Named, H: Ledger> Seat<N, H> {
    /// Its place in the list that `Engine::open` gave, from 0.
    pub fn number(&self) -> usize
        ensures { result ≡ self.now.number }
    {
        self.number
    }

    /// How many batches its puts were the first to have accepted, so that a caller can tell a first acceptance from a
    /// repeat by what it is before and after. It stays at 2^64 - 1 once there.
    pub fn accepted(&self) -> u64 {
        self.accepted
    }

    // One more was, with which these batches are known.
    pub(crate) fn note_accepted(&mut self, known: &Known<N>)
        ensures number { self.new.number ≡ self.old.number }
        ensures first { self.new.first ≡ self.old.first }
        ensures seen { self.new.seen ≡ self.old.seen }
        ensures later { IsPrefix self.old.known self.new.known }
        ensures known { IsPrefix known.now self.new.known }
    {
        self.accepted = self.accepted.saturating_add(1);
        self.known.learn(known);
    }

    /// A copy of the version that it was shown last, for whoever reads the book without a seat
    /// (`Engine::batches_from`).
    pub fn version(&self) -> Version<N>
        ensures { result ≡ self.now.seen }
    {
        self.seen.again()
    }

    // A balanced seat that was shown this, and knows this.
    pub(crate) fn make(
        number: usize,
        first: Share<N>,
        second: Share<H>,
        seen: Version<N>,
        known: Known<N>,
        reader: Option<VersionReader<N>>,
    ) -> Seat<N, H>
        requires one_first { first.parts ≡ 1 }
        requires one_second { second.parts ≡ 1 }
        requires balanced { second.amount ≡ 0 }
        ensures number { result.number ≡ number }
        ensures first { result.first ≡ first.amount }
        ensures seen { result.seen ≡ seen }
        ensures known { result.known ≡ known }
    {
        Seat {
            number,
            first,
            second,
            seen,
            known,
            reader,
            accepted: 0,
        }
    }

    // The status of what was shown, after a look at what is published, where the writer is there.
    pub(crate) fn look(&mut self) -> Status
        ensures number { self.new.number ≡ self.old.number }
        ensures first { self.new.first ≡ self.old.first }
        ensures known { self.new.known ≡ self.old.known }
        ensures later { IsPrefix self.old.seen self.new.seen }
        ensures status { result ≡ version_status self.new.seen }
        ensures legal { IsVersion N.setup self.new.seen }
    {
        if let Some(reader) = self.reader.take() {
            match reader.enter_as::<Unruled>() {
                Ok(reading) => {
                    let now = reading.get().again();
                    self.reader = Some(reading.leave());
                    self.seen.learn(&now);
                }
                Err(reader) => self.reader = Some(reader),
            }
        }
        self.seen.status()
    }

    // Its shares, as each seat has them, what it was shown, and what it knows. Its place for a reader is given back.
    pub(crate) fn into_parts(self) -> (Share<N>, Share<H>, Version<N>, Known<N>)
        ensures one_first { result.0.parts ≡ 1 }
        ensures one_second { result.1.parts ≡ 1 }
        ensures first { result.0.amount ≡ self.first }
        ensures balanced { result.1.amount ≡ 0 }
        ensures seen { result.2 ≡ self.seen }
        ensures known { result.3 ≡ self.known }
    {
        let Seat {
            number: _,
            first,
            second,
            seen,
            known,
            reader: _,
            accepted: _,
        } = self;
        (first, second, seen, known)
    }
}
