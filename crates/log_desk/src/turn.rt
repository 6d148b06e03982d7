//! The leader's turn: the log, taken out of the lock, with what is needed to write a group.
ghost use Rattle.std.specs.Prelude.{◌≡◌, ◌≢◌, ◌⊎◌, ◌<◌, ◌≤◌, false, true, Err, length, OnOk, OnErr};
ghost use Rattle.std.specs.Bool.{OnTrue};
ghost use mathlib.Core.List.{IsPrefix};
ghost use Rattle.log_desk.specs.Standings.{IsGroup, IsNamed, standing};

use crate::durable::Durable;
use crate::fault::{DeskFault, RoomFault};
use crate::group::Group;
use crate::log::Log;
use crate::room::make_stretch;
use crate::work::TurnWork;
use locked_engine::{Engine, Named};
use std::marker::Model;
use std::sync::Wait;
use std::sync::ledger::Ledger;

/// With fewer pages than these, 4 MiB, the leader makes room behind its group.
const LOW: u64 = 1024;

/// The log, what is durable in it, and what is needed to write a group. A log that works has the name by which the next
/// start finds it.
///
/// Contracts see what is durable, whether a call on the log has failed, and how many pages are ready.
#[derive(Drop)]
pub struct Turn<N: Named, L: Log> {
    log: L,
    durable: Durable<N, L>,
    group: Group<N>,
    // Whether no long stretch was to be had when the log was asked for room last.
    is_full: bool,
}

impl<N: Named, L: Log> Model for Turn<N, L> {
    ghost use Rattle.std.specs.Prelude.{◌≡◌, true, false};
    ghost use Rattle.log_desk.specs.Standings.{IsNamed, Standing, standing};

    ghost Value = { Standing };

    ghost view = { λ t. standing t.durable (L.failed t.log) (L.ready t.log) };

    ghost invariant = { λ t. (L.failed t.log ≡ false → L.durable t.log ≡ t.durable)
        × (L.failed t.log ≡ false → IsNamed N.log (L.has_name t.log))
        × (L.failed t.log ≡ true → L.has_failed) };
}

impl<N: Named, L: Log> Turn<N, L> {
    /// A turn at a log that has its name, and all of whose entries are durable.
    pub fn new(log: L, durable: Durable<N, L>, group: Group<N>) -> Turn<N, L>
        requires works { L.failed log ≡ false }
        requires durable { L.durable log ≡ durable }
        requires named { IsNamed N.log (L.has_name log) }
        ensures { result ≡ standing durable false (L.ready log) }
    {
        Turn {
            log,
            durable,
            group,
            is_full: false,
        }
    }

    /// Whether a call on the log has failed.
    pub fn is_failed(&self) -> bool
        ensures failed { result ≡ self.now.failed }
        ensures told { OnTrue result L.has_failed }
    {
        self.log.is_failed()
    }

    /// What is durable in the log.
    pub fn durable(&self) -> Durable<N, L>
        ensures { result ≡ self.now.durable }
    {
        self.durable.again()
    }

    /// How many pages are ready in the log.
    pub fn room(&self) -> u64
        ensures { result ≡ self.now.room }
    {
        self.log.room()
    }

    /// Gives the log back.
    pub fn into_log(self) -> (L, Durable<N, L>)
        ensures known { result.1 ≡ self.durable }
        ensures failed { L.failed result.0 ≡ self.failed }
        ensures room { L.ready result.0 ≡ self.room }
        ensures durable { self.failed ≡ false → L.durable result.0 ≡ result.1 }
    {
        let Turn {
            log,
            durable,
            group: _,
            is_full: _,
        } = self;
        (log, durable)
    }

    /// Writes one group (`Group::write`).
    ///
    /// # Errors
    ///
    /// As `Group::write` says.
    pub fn write_group<H: Ledger, R: Wait>(
        &mut self,
        rt: &R,
        engine: &Engine<N, H>,
    ) -> Result<(), DeskFault>
        requires works { self.old.failed ≡ false }
        ensures extends { IsPrefix self.old.durable self.new.durable }
        ensures grows { OnOk result (length self.old.durable < length self.new.durable) }
        ensures group { OnOk result (IsGroup L.takes self.old.durable self.new.durable self.old.room self.new.room) }
        ensures room_kept { result ≢ Err DeskFault.LogFailed → OnErr result (self.old.room ≤ self.new.room) }
        ensures works { self.new.failed ≡ true → result ≡ Err DeskFault.LogFailed }
        ensures broken { result ≡ Err DeskFault.LogFailed → self.new.failed ≡ true }
        ensures told { result ≡ Err DeskFault.LogFailed → L.has_failed }
        ensures full { result ≡ Err DeskFault.LogFull → L.was_full }
        ensures differ { (none : _) → result ≡ Err (DeskFault.HistoriesDiffer none) →
            (none.from ≡ length self.old.durable) × L.was_synced self.old.durable }
    {
        self.group
            .write(rt, engine, &mut self.log, &mut self.durable)
    }

    /// Makes so many pages ready, and a long stretch more where that is to be had. What is durable stays.
    ///
    /// # Errors
    ///
    /// - `LogFull`: not so many are to be had.
    /// - `LogFailed`: the log failed now.
    pub fn make_room(&mut self, wanted: u64) -> Result<(), DeskFault>
        requires works { self.old.failed ≡ false }
        ensures durable { self.new.durable ≡ self.old.durable }
        ensures room { OnOk result (wanted ≤ self.new.room) }
        ensures kept { self.new.failed ≡ false → self.old.room ≤ self.new.room }
        ensures works { result ≢ Err DeskFault.LogFailed → self.new.failed ≡ false }
        ensures broken { result ≡ Err DeskFault.LogFailed → self.new.failed ≡ true }
        ensures told { result ≡ Err DeskFault.LogFailed → L.has_failed }
        ensures full { result ≡ Err DeskFault.LogFull → L.was_full }
        ensures belong { (none : _) → result ≢ Err (DeskFault.HistoriesDiffer none) }
    {
        let answer = make_stretch(&mut self.log, wanted);
        // A stretch would be more.
        self.is_full = self.log.room() < LOW;
        match answer {
            Ok(()) => Ok(()),
            Err(RoomFault::Full) => Err(DeskFault::LogFull),
            Err(RoomFault::Failed) => Err(DeskFault::LogFailed),
        }
    }

    /// Whether few pages are ready, and more may be had.
    pub fn is_low(&self) -> bool
        ensures { OnTrue result (self.now.failed ≡ false) }
    {
        !self.is_full && !self.log.is_failed() && self.log.room() < LOW
    }

    /// Lends the log for some work, and then makes as many pages ready as are promised, unless it is full or failed.
    pub fn lend<T, W: TurnWork<N, L, T>>(&mut self, work: W, promised: u64) -> T
        ensures gives { W.gives work result }
        ensures later { IsPrefix self.old.durable self.new.durable }
        ensures room { self.new.failed ≡ false → (promised ≤ self.new.room) ⊎ L.was_full }
    {
        let answer = work.run(&mut self.log, &mut self.durable, promised);
        self.keep_promises(promised);
        answer
    }

    // Makes so many pages ready where fewer are, and they can be had.
    fn keep_promises(&mut self, promised: u64)
        ensures durable { self.new.durable ≡ self.old.durable }
        ensures room { self.new.failed ≡ false → (promised ≤ self.new.room) ⊎ L.was_full }
    {
        self.is_full = false;
        if !self.log.is_failed() && self.log.room() < promised {
            let _ = self.make_room(promised);
        }
    }
}
