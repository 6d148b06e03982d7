//! A log that is made beside the one in use.
ghost use Rattle.std.specs.Prelude.{◌≡◌, ◌≢◌, ◌<◌, ◌≤◌, false, true, Err, length, OnOk};
ghost use mathlib.Core.List.{IsPrefix};
ghost use Rattle.log_desk.specs.Standings.{standing};

use locked_engine::{Engine, Named};
use log_desk::{DeskFault, Durable, Group, Log, RoomFault, make_stretch};
use std::marker::Model;
use std::sync::Wait;
use std::sync::ledger::Ledger;

/// A log without a name, what is durable in it, and what is needed to write a group to it. No session writes to it: the
/// turn of a desk is at a log that has its name.
///
/// Contracts see what is durable, whether a call on the log has failed, and how many pages are ready.
#[derive(Drop)]
pub(crate) struct NewLog<N: Named, L: Log> {
    log: L,
    durable: Durable<N, L>,
    group: Group<N>,
}

impl<N: Named, L: Log> Model for NewLog<N, L> {
    ghost use Rattle.std.specs.Prelude.{◌≡◌, false};
    ghost use Rattle.log_desk.specs.Standings.{Standing, standing};

    ghost Value = { Standing };

    ghost view = { λ n. standing n.durable (L.failed n.log) (L.ready n.log) };

    ghost invariant = { λ n. L.failed n.log ≡ false → L.durable n.log ≡ n.durable };
}

impl<N: Named, L: Log> NewLog<N, L> {
    /// A log all of whose entries are durable.
    pub(crate) fn new(log: L, durable: Durable<N, L>, group: Group<N>) -> NewLog<N, L>
        requires works { L.failed log ≡ false }
        requires durable { L.durable log ≡ durable }
        ensures { result ≡ standing durable false (L.ready log) }
    {
        NewLog {
            log,
            durable,
            group,
        }
    }

    /// How many batches are durable in it.
    pub(crate) fn count(&self) -> u64
        ensures { result ≡ length self.now.durable }
    {
        self.durable.count()
    }

    /// How many pages are ready.
    pub(crate) fn room(&self) -> u64
        ensures { result ≡ self.now.room }
    {
        self.log.room()
    }

    /// Gives the log, with what is durable in it.
    pub(crate) fn into_log(self) -> (L, Durable<N, L>)
        ensures known { result.1 ≡ self.durable }
        ensures failed { L.failed result.0 ≡ self.failed }
        ensures room { L.ready result.0 ≡ self.room }
        ensures durable { self.failed ≡ false → L.durable result.0 ≡ result.1 }
    {
        let NewLog {
            log,
            durable,
            group: _,
        } = self;
        (log, durable)
    }

    /// Writes one group (`Group::write`).
    pub(crate) fn write_group<H: Ledger, R: Wait>(
        &mut self,
        rt: &R,
        engine: &Engine<N, H>,
    ) -> Result<(), DeskFault>
        requires works { self.old.failed ≡ false }
        ensures extends { IsPrefix self.old.durable self.new.durable }
        ensures grows { OnOk result (length self.old.durable < length self.new.durable) }
        ensures works { self.new.failed ≡ true → result ≡ Err DeskFault.LogFailed }
    {
        self.group
            .write(rt, engine, &mut self.log, &mut self.durable)
    }

    /// Makes so many pages ready, and a long stretch more where that is to be had.
    pub(crate) fn make_room(&mut self, pages: u64) -> Result<(), RoomFault>
        requires works { self.old.failed ≡ false }
        ensures durable { self.new.durable ≡ self.old.durable }
        ensures room { OnOk result (pages ≤ self.new.room) }
        ensures works { result ≢ Err RoomFault.Failed → self.new.failed ≡ false }
    {
        make_stretch(&mut self.log, pages)
    }
}
