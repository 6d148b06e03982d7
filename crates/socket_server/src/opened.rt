//! An engine that is open: its seats, and its log, as its workers share it.
ghost use Rattle.std.specs.Prelude.{◌≡◌, ℕ, List, length, IfOk, IfErr, is_some, false};
ghost use Rattle.std.specs.Bool.{OnTrue};
ghost use mathlib.Core.List.{IsPrefix};
ghost use Rattle.batch_store.specs.declared.verdict.Entry.{Entry};
ghost use Rattle.batch_store.specs.Accepted.{entries_in};
ghost use Rattle.locked_engine.specs.Opened.{NamesEngine, opened_seats};
ghost use Rattle.locked_engine.specs.Told.{AreShown};
ghost use Rattle.locked_engine.specs.Versions.{version_status};
ghost use Rattle.socket_server.specs.Faults.{IsMetServing};
ghost use Rattle.log_desk.specs.Standings.{IsNamed, IsWord};
ghost use Rattle.socket_server.specs.Starts.{HasName, IsReady};

use crate::fault::ServerFault;
use crate::start::Start;
use locked_engine::{Engine, Named, Names, Seat, Status};
use log_desk::{DeskFault, Durable, Log, LogDesk};
use std::alloc::Global;
use std::marker::Model;
use std::sync::Wait;
use std::sync::ledger::Ledger;

/// The desk of an engine's log, and what is known as durable in it: at least all that the engine was opened with, which
/// is what contracts see.
#[derive(Drop)]
pub struct SharedLog<N: Named, L: Log> {
    desk: LogDesk<N, L>,
    known: Durable<N, L>,
}

/// How a log ends: all that was accepted is written to it, or it has failed, or is full.
#[derive(Clone, Copy)]
pub enum LogEnd {
    Written,
    Full,
    Failed,
}

impl<N: Named, L: Log> Model for SharedLog<N, L> {
    ghost use Rattle.std.specs.Prelude.{List};
    ghost use mathlib.Core.List.{IsPrefix};
    ghost use Rattle.batch_store.specs.declared.verdict.Entry.{Entry};
    ghost use Rattle.batch_store.specs.Accepted.{entries_in};

    ghost Value = { List Entry };

    ghost view = { λ s. s.known };

    ghost invariant = { λ s. IsPrefix (entries_in N.opened) s.known };
}

impl<N: Named, L: Log> SharedLog<N, L> {
    // The desk of a log that has just what an engine was opened with. The seats are those that it was opened with.
    fn open<H: Ledger>(
        alloc: Global,
        log: L,
        seats: &[Seat<N, H>],
    ) -> Result<SharedLog<N, L>, ServerFault>
        requires works { L.failed log ≡ false }
        requires durable { L.durable log ≡ entries_in N.opened }
        requires synced { L.was_synced (entries_in N.opened) }
        requires has_name { IsNamed N.log (L.has_name log) }
        requires word { IsWord L.was_synced N.synced }
        requires seats { (total n : ℕ) × (seats.now ≡ opened_seats (entries_in N.opened) N.opened.list total n) }
        ensures met { IfErr result IsMetServing }
    {
        let Some(seat) = seats.first() else {
            return Err(ServerFault::NoWorker);
        };
        let version = seat.version();
        let known = Durable::all_of(&version);
        match LogDesk::open(alloc, log, known.again(), version) {
            Ok(desk) => Ok(SharedLog { desk, known }),
            Err(_) => Err(ServerFault::Memory),
        }
    }

    /// Its desk.
    pub fn desk(&self) -> &LogDesk<N, L> {
        &self.desk
    }

    /// Writes what was accepted and isn't in the log, as where a session has ended before its batches were settled. A log
    /// that is full or has failed lacks it still.
    pub fn write_rest<H: Ledger, R: Wait>(&mut self, rt: &R, engine: &Engine<N, H>) -> LogEnd
        ensures failed { result ≡ LogEnd.Failed → L.has_failed }
        ensures full { result ≡ LogEnd.Full → L.was_full }
    {
        // No place is the last one: groups are written until the book has no more, and that is the answer.
        match self.desk.wait(rt, engine, &mut self.known, u64::MAX) {
            Ok(()) | Err(DeskFault::HistoriesDiffer(_)) => LogEnd::Written,
            Err(DeskFault::LogFull) => LogEnd::Full,
            Err(DeskFault::LogFailed) => LogEnd::Failed,
        }
    }

    /// Learns what is durable in the end, when no worker is left. The seats' first is shown what was accepted. Whether
    /// what is durable is a beginning of that, which it always is.
    pub fn learn<H: Ledger, R: Wait>(
        &mut self,
        rt: &R,
        engine: &Engine<N, H>,
        seats: &mut [Seat<N, H>],
    ) -> bool
        ensures count { length seats.new ≡ length seats.old }
        ensures synced { L.was_synced self.new }
        ensures opened { IsPrefix (entries_in N.opened) self.new }
        ensures within { OnTrue result ((all : List Entry) → AreShown seats.new all → IsPrefix self.new all) }
    {
        let _stored = self.desk.stored(rt, &mut self.known);
        let Some(seat) = seats.first_mut() else {
            return false;
        };
        let status = engine.status(seat);
        if self.known.count() > status.batches {
            return false;
        }
        self.known.begins(&seat.version());
        true
    }

    /// How many batches are known as durable, and their total.
    pub fn status(&self) -> Status
        ensures { result ≡ version_status self.now }
    {
        self.known.status()
    }

    /// Gives the log back, once no worker uses its desk. It is always there then.
    pub fn into_log(self) -> Option<L> {
        let SharedLog { desk, known: _ } = self;
        let (log, _) = desk.close()?;
        Some(log)
    }
}

/// An engine of several threads with all its seats, and its log, where there is one.
///
/// It isn't Drop: it is closed (`close_all`) or ended.
pub struct Opened<N: Named, H: Ledger, L: Log> {
    pub engine: Engine<N, H>,
    pub seats: Vec<Seat<N, H>>,
    pub log: Option<SharedLog<N, L>>,
}

impl<N: Named, H: Ledger, L: Log> Opened<N, H, L> {
    /// Opens the engine that a start has made, and the desk of its log.
    pub fn open<R: Wait>(
        rt: &R,
        alloc: Global,
        start: Start<L>,
        names: Names,
    ) -> Result<Opened<N, H, L>, ServerFault>
        requires named { NamesEngine names N.setup N.seats N.history N.name N.parts H.name H.parts }
        requires made_from { start.plain.setup ≡ names.setup }
        requires opened { start.plain.book.state ≡ N.opened }
        requires ready { IsReady L.failed L.durable L.was_synced start.log N.opened }
        requires has_name { HasName L.has_name start.log N.log }
        requires word { IsWord L.was_synced N.synced }
        ensures seats { IfOk result (λ o. length o.seats.items ≡ N.seats) }
        ensures has_log { IfOk result (λ o. is_some o.log ≡ is_some start.log) }
        ensures met { IfErr result IsMetServing }
    {
        let Start {
            plain,
            log,
            identity: _,
        } = start;
        let Ok((engine, seats)) = Engine::<N, H>::open(alloc, plain, names) else {
            return Err(ServerFault::Memory);
        };
        let Some(log) = log else {
            return Ok(Opened {
                engine,
                seats,
                log: None,
            });
        };
        match SharedLog::open(alloc, log, seats.as_slice()) {
            Ok(shared) => Ok(Opened {
                engine,
                seats,
                log: Some(shared),
            }),
            Err(fault) => {
                drop(seats);
                engine.end(rt);
                Err(fault)
            }
        }
    }

    /// Gives all of it up: nothing is saved, and the log stays as it is.
    pub fn end<R: Wait>(self, rt: &R) {
        let Opened { engine, seats, log } = self;
        drop(seats);
        drop(log);
        engine.end(rt);
    }
}
