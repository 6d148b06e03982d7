//! A log that threads share, as one session uses it.
ghost use Rattle.std.specs.Prelude.{◌≡◌, ◌<◌, ◌≤◌, [], ◌∷◌, length, Some, Err, IfOk, IfErr, OnOk};
ghost use Rattle.std.specs.Arc.{arc_value};
ghost use mathlib.Core.List.{IsPrefix};
ghost use Rattle.session_pool.specs.Seats.{sight, SeatBegins, SeatSettles, IsStored, TellsLog};

use batch_store::{Batch, Kept};
use locked_engine::{Engine, Named, Seat, Status};
use log_desk::{DeskFault, Durable, Log, LogDesk, Ticket};
use std::alloc::Global;
use std::marker::Model;
use std::sync::ledger::Ledger;
use std::sync::{Arc, Wait};
use std::{mem, slice};
use wire_proto::{FoldRefusal, PutRefusal, Settled};

/// The desk of a log, what a session knows to be durable, and what it was promised for the puts that it has begun.
///
/// Contracts see what is known as durable. It isn't Drop: `end` gives back what is promised yet.
pub struct SessionLog<'a, N: Named, L: Log> {
    desk: &'a LogDesk<N, L>,
    known: Durable<N, L>,
    promised: Ticket,
    // How many puts were begun and not yet settled. What they were promised goes back once there is none.
    begun: u64,
}

impl<'a, N: Named, L: Log> Model for SessionLog<'a, N, L> {
    ghost use Rattle.std.specs.Prelude.{List};
    ghost use Rattle.batch_store.specs.declared.verdict.Entry.{Entry};

    ghost Value = { List Entry };

    ghost view = { λ l. l.known };
}

impl<'a, N: Named, L: Log> SessionLog<'a, N, L> {
    /// The log at this desk, for a session that has begun nothing and knows this.
    pub fn new(desk: &'a LogDesk<N, L>, known: Durable<N, L>) -> SessionLog<'a, N, L>
        ensures { result ≡ known }
    {
        SessionLog {
            desk,
            known,
            promised: Ticket::none(),
            begun: 0,
        }
    }

    /// The desk.
    pub fn desk(&self) -> &'a LogDesk<N, L> {
        self.desk
    }

    // Room for a batch, or why the log takes none.
    fn enter<R: Wait>(&self, rt: &R, batch: &Arc<Batch>) -> Result<Ticket, PutRefusal>
        ensures room { IfOk result (λ t. t ≡ L.takes (arc_value batch.now ∷ [])) }
        ensures told { IfErr result (λ r. TellsLog L.has_failed L.was_full r) }
    {
        let pages = L::pages_of(slice::from_ref(batch));
        match self.desk.enter(rt, pages) {
            Ok(ticket) => Ok(ticket),
            Err(DeskFault::LogFull) => Err(PutRefusal::LogFull),
            Err(DeskFault::LogFailed) => Err(PutRefusal::LogFailed),
            // Room is asked for alone, and not whether the book has a place.
            Err(DeskFault::HistoriesDiffer(_)) => unreachable!(),
        }
    }

    // Keeps what was promised to a put that was begun, or gives it back where the put was refused.
    fn keep<R: Wait>(&mut self, rt: &R, ticket: Ticket, is_begun: bool)
        ensures { self.new ≡ self.old }
    {
        if is_begun {
            self.promised.join(ticket);
            self.begun = self.begun.saturating_add(1);
        } else {
            self.desk.leave(rt, ticket);
        }
    }

    // What a batch is answered where the log takes nothing more, for this reason: the book's word on one that it knows
    // or refuses. A new one is left out.
    fn begin_unlogged<H: Ledger, R: Wait>(
        &mut self,
        rt: &R,
        engine: &Engine<N, H>,
        seat: &mut Seat<N, H>,
        batch: &Arc<Batch>,
        why: PutRefusal,
    ) -> Result<Kept, PutRefusal>
        requires told { TellsLog L.has_failed L.was_full why }
        ensures { SeatBegins N.setup N.opened L.has_failed L.was_full (sight seat.old (Some self.old)) (arc_value batch.now)
            result (sight seat.new (Some self.new)) }
    {
        match engine.judge(rt, seat, batch) {
            None => Err(why),
            Some(Ok(kept)) => {
                self.keep(rt, Ticket::none(), true);
                Ok(kept)
            }
            Some(Err(fault)) => Err(PutRefusal::Put(fault)),
        }
    }

    /// Has the log promise room for a batch, and the engine accept it. Where the log takes nothing more the engine is
    /// asked for the book's verdict alone: a batch that it knows is answered the reply that it keeps, to be settled as
    /// any other.
    ///
    /// # Errors
    ///
    /// - `LogFull`, `LogFailed`: the log has no room for the batch, or a call on it has failed, and the batch is new.
    ///   Nothing was admitted.
    /// - `Put`: as `Engine::put` says. What was promised went back.
    pub fn begin_put<H: Ledger, R: Wait>(
        &mut self,
        rt: &R,
        alloc: Global,
        engine: &Engine<N, H>,
        seat: &mut Seat<N, H>,
        batch: Arc<Batch>,
    ) -> Result<Kept, PutRefusal>
        requires rows { (arc_value batch).matrix.rows ≡ N.setup.rows }
        requires cols { (arc_value batch).matrix.cols ≡ N.setup.cols }
        ensures { SeatBegins N.setup N.opened L.has_failed L.was_full (sight seat.old (Some self.old)) (arc_value batch)
            result (sight seat.new (Some self.new)) }
    {
        let ticket = match self.enter(rt, &batch) {
            Ok(ticket) => ticket,
            Err(why) => return self.begin_unlogged(rt, engine, seat, &batch, why),
        };
        let answer = engine.put(rt, alloc, seat, batch);
        self.keep(rt, ticket, answer.is_ok());
        Ok(answer?)
    }

    // Waits until a place is durable, without a lock where that is known.
    fn wait<H: Ledger, R: Wait>(
        &mut self,
        rt: &R,
        engine: &Engine<N, H>,
        place: u64,
    ) -> Result<(), DeskFault>
        ensures later { IsPrefix self.old self.new }
        ensures ok { OnOk result (place < length self.new) }
        ensures told { result ≡ Err DeskFault.LogFailed → L.has_failed }
    {
        if place < self.known.count() {
            return Ok(());
        }
        self.desk.wait(rt, engine, &mut self.known, place)
    }

    // One put less is begun. Where that was the last, all that was promised goes back.
    fn settle_one<R: Wait>(&mut self, rt: &R)
        ensures { self.new ≡ self.old }
    {
        self.begun = self.begun.saturating_sub(1);
        if self.begun == 0 {
            let promised = mem::replace(&mut self.promised, Ticket::none());
            self.desk.leave(rt, promised);
        }
    }

    // What is known of a place behind a wait that ended so.
    fn settled<H: Ledger>(
        &self,
        seat: &Seat<N, H>,
        place: u64,
        answer: Result<(), DeskFault>,
    ) -> Settled
        requires ok { OnOk answer (place < length self.now) }
        requires told { answer ≡ Err DeskFault.LogFailed → L.has_failed }
        ensures { SeatSettles L.was_synced L.has_failed (sight seat.now (Some self.now)) place result
            (sight seat.now (Some self.now)) }
    {
        match answer {
            Ok(()) => {}
            Err(DeskFault::LogFailed) => return Settled::LogFailed,
            Err(DeskFault::LogFull | DeskFault::HistoriesDiffer(_)) =>
                return Settled::RecordsDiffer,
        }
        // What the seat was shown has the same there.
        self.known.joins(&seat.version());
        // A sync has made it durable.
        let _status = self.known.status();
        Settled::Durable
    }

    /// Waits until a place is durable, and tells what is known of it then. It takes no lock where that was known before,
    /// but where no further put is begun, to give back what was promised.
    pub fn settle<H: Ledger, R: Wait>(
        &mut self,
        rt: &R,
        engine: &Engine<N, H>,
        seat: &Seat<N, H>,
        place: u64,
    ) -> Settled
        ensures { SeatSettles L.was_synced L.has_failed (sight seat.now (Some self.old)) place result
            (sight seat.now (Some self.new)) }
    {
        let answer = self.wait(rt, engine, place);
        self.settle_one(rt);
        self.settled(seat, place, answer)
    }

    /// Waits until all batches in front of a place are durable, as `settle` does.
    ///
    /// # Errors
    ///
    /// - `LogFailed`: a write to the log has failed.
    /// - `RecordsDiffer`: the book and the log don't belong together.
    pub(crate) fn reach<H: Ledger, R: Wait>(
        &mut self,
        rt: &R,
        engine: &Engine<N, H>,
        place: u64,
    ) -> Result<(), FoldRefusal>
        ensures later { IsPrefix self.old self.new }
        ensures ok { OnOk result (place ≤ length self.new) }
        ensures failed { result ≡ Err FoldRefusal.LogFailed → L.has_failed }
    {
        let Some(last) = place.checked_sub(1) else {
            return Ok(());
        };
        match self.wait(rt, engine, last) {
            Ok(()) => Ok(()),
            Err(DeskFault::LogFailed) => Err(FoldRefusal::LogFailed),
            Err(DeskFault::LogFull | DeskFault::HistoriesDiffer(_)) => {
                Err(FoldRefusal::RecordsDiffer)
            }
        }
    }

    /// How many of the batches are durable, and their total.
    pub fn stored<H: Ledger, R: Wait>(&mut self, rt: &R, seat: &Seat<N, H>) -> Status
        ensures later { IsPrefix self.old self.new }
        ensures stored { IsStored N.setup L.was_synced result seat.now.seen (Some self.new) }
    {
        let status = self.desk.stored(rt, &mut self.known);
        self.known.joins(&seat.version());
        status
    }

    /// Gives back what is promised yet, as where a session ended with puts that weren't settled.
    pub fn end<R: Wait>(self, rt: &R) {
        let SessionLog {
            desk,
            known: _,
            promised,
            begun: _,
        } = self;
        desk.leave(rt, promised);
    }
}
