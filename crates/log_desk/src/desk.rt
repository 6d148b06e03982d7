//! The desk: where threads wait until a place is durable.
ghost use Rattle.std.specs.Prelude.{◌≡◌, ◌≢◌, ◌<◌, true, false, Err, length, OnOk, IfOk, IfSome};
ghost use Rattle.std.specs.Bool.{OnTrue};
ghost use mathlib.Core.List.{IsPrefix};
ghost use Rattle.locked_engine.specs.Versions.{version_status};
ghost use Rattle.log_desk.specs.Standings.{EndsBefore, IsNamed, IsWord};

use crate::durable::Durable;
use crate::fault::DeskFault;
use crate::group::Group;
use crate::log::Log;
use crate::state::{DeskFigures, DeskState, Ticket};
use crate::turn::Turn;
use crate::work::TurnWork;
use locked_engine::{Engine, Named, Status, Version};
use std::alloc::{AllocError, Global};
use std::marker::Model;
use std::sync::ledger::Ledger;
use std::sync::{Condvar, Mutex, MutexGuard, Wait};
use std::thread;

/// The most times that a leader gives way to other threads before it writes: with nothing else to run some 40 us, less
/// than a sync takes.
const MOST_YIELDS: u64 = 64;

/// A log that threads share: the one that the engine names. What it tells as durable is durable in the log, and a
/// beginning of the book's list.
///
/// Contracts see nothing of what it holds, since others may change that at any time.
///
/// Its lock is taken inside none of an engine's, and no lock is taken inside it.
#[derive(Drop)]
pub struct LogDesk<N: Named, L: Log> {
    state: Mutex<DeskState<N, L>>,
    // Tells of each turn that was put back, and of what it has made durable.
    told: Condvar,
}

impl<N: Named, L: Log> Model for LogDesk<N, L> {
    ghost use Rattle.log_desk.specs.Standings.{IsWord};

    ghost Value = { Unit {0} };

    ghost view = { λ d. tt };

    ghost invariant = { λ d. IsWord L.was_synced N.synced };
}

impl<N: Named, L: Log> LogDesk<N, L> {
    /// A desk at a log whose entries are durable. The log has the name by which the next start finds it. `seen` is any
    /// version of the log's book. It takes all memory that groups need: 8 KiB.
    ///
    /// # Errors
    ///
    /// The growth was refused.
    pub fn open(
        alloc: Global,
        log: L,
        durable: Durable<N, L>,
        seen: Version<N>,
    ) -> Result<LogDesk<N, L>, AllocError>
        requires works { L.failed log ≡ false }
        requires durable { L.durable log ≡ durable }
        requires named { IsNamed N.log (L.has_name log) }
        requires word { IsWord L.was_synced N.synced }
    {
        let group = Group::new(alloc, seen)?;
        let turn = Turn::new(log, durable, group);
        Ok(LogDesk {
            state: Mutex::new(DeskState::new(turn)),
            told: Condvar::new(),
        })
    }

    /// Promises so many pages to a put, before the book is asked to accept its batch: those that the block of that
    /// batch alone takes (`Log::pages_of`). `leave` gives them back.
    ///
    /// It is a subtraction under the lock where enough is ready. Where it isn't, the caller takes the turn and makes
    /// room, or waits until the turn is put back.
    ///
    /// # Errors
    ///
    /// - `LogFull`: the log answered that no room is to be had. What was promised to others stands.
    /// - `LogFailed`: a call on the log has failed.
    pub fn enter<R: Wait>(&self, rt: &R, pages: u64) -> Result<Ticket, DeskFault>
        ensures ok { IfOk result (λ t. t ≡ pages) }
        ensures told { result ≡ Err DeskFault.LogFailed → L.has_failed }
        ensures full { result ≡ Err DeskFault.LogFull → L.was_full }
        ensures belong { (none : _) → result ≢ Err (DeskFault.HistoriesDiffer none) }
    {
        for _ in rt.forever() {
            let mut state = self.told.wait_while(
                rt,
                self.state.lock(rt),
                |state| state.must_wait_for_room(pages),
            );
            if state.is_failed() {
                return Err(DeskFault::LogFailed);
            }
            if let Some(ticket) = state.promise(pages) {
                return Ok(ticket);
            }
            let wanted = state.wanted(pages);
            let Some(mut turn) = state.take_turn() else {
                continue;
            };
            let _ = MutexGuard::unlock(state);
            let answer = turn.make_room(wanted);
            self.put_back(rt, turn);
            answer?;
        }
        unreachable!()
    }

    /// Takes back a promise, once the batch is durable or was refused. After a wait that failed too.
    pub fn leave<R: Wait>(&self, rt: &R, ticket: Ticket) {
        let mut state = self.state.lock(rt);
        state.give_back(ticket);
        let _ = MutexGuard::unlock(state);
    }

    /// Waits until the entry at this place of the book is durable.
    ///
    /// Where no thread has the turn, the caller takes it, and is the leader of a group (`Group::write`); else it
    /// waits until the turn is put back. So one sync serves all who wait when it begins, but for those whose batches
    /// came after the leader had read the book: one of these leads the next group. Where little room is left the leader
    /// makes more behind its group, once the others were told.
    ///
    /// # Errors
    ///
    /// - `LogFailed`: a call on the log has failed. The place may be durable or not, and no call on it is made again.
    /// - `LogFull`: the log has no room, though it was promised.
    /// - `HistoriesDiffer`: the book hasn't that place. It was asked for its batches from the end of what is durable.
    pub fn wait<H: Ledger, R: Wait>(
        &self,
        rt: &R,
        engine: &Engine<N, H>,
        known: &mut Durable<N, L>,
        index: u64,
    ) -> Result<(), DeskFault>
        ensures later { IsPrefix known.old known.new }
        ensures ok { OnOk result (index < length known.new) }
        ensures told { result ≡ Err DeskFault.LogFailed → L.has_failed }
        ensures full { result ≡ Err DeskFault.LogFull → L.was_full }
        ensures differ { (none : _) → result ≡ Err (DeskFault.HistoriesDiffer none) →
            EndsBefore L.was_synced known.new index none.from }
    {
        for _ in rt.forever() {
            let mut state = self.state.lock(rt);
            state.note_waiting(index);
            let mut state = self
                .told
                .wait_while(rt, state, |state| state.must_wait(index));
            state.show(known);
            if index < known.count() {
                return Ok(());
            }
            if state.is_failed() {
                return Err(DeskFault::LogFailed);
            }
            let Some(turn) = state.take_turn() else {
                continue;
            };
            let _ = MutexGuard::unlock(state);
            self.lead(rt, engine, turn)?;
        }
        unreachable!()
    }

    // Writes a group in the turn that was taken out, tells of it, and puts the turn back.
    fn lead<H: Ledger, R: Wait>(
        &self,
        rt: &R,
        engine: &Engine<N, H>,
        turn: Turn<N, L>,
    ) -> Result<(), DeskFault>
        requires works { turn.failed ≡ false }
        ensures told { result ≡ Err DeskFault.LogFailed → L.has_failed }
        ensures full { result ≡ Err DeskFault.LogFull → L.was_full }
        ensures differ { (none : _) → result ≡ Err (DeskFault.HistoriesDiffer none) →
            (none.from ≡ length turn.durable) × L.was_synced turn.durable }
    {
        let mut turn = turn;
        self.wait_for_followers(rt);
        let answer = turn.write_group(rt, engine);
        if turn.is_low() {
            self.tell(rt, &turn);
            let _ = turn.make_room(0);
        }
        self.put_back(rt, turn);
        answer
    }

    // Gives way to other threads while more batches are likely to come at once: the followers of the group before were
    // woken just now, and those that put again then join this one. A sync for all of them costs less than two.
    fn wait_for_followers<R: Wait>(&self, rt: &R) {
        for _ in 0..MOST_YIELDS {
            thread::yield_now();
            let state = self.state.lock(rt);
            let expects_more = state.expects_more();
            let _ = MutexGuard::unlock(state);
            if !expects_more {
                break;
            }
        }
    }

    // Tells all who wait of what a turn that goes on has made durable.
    fn tell<R: Wait>(&self, rt: &R, turn: &Turn<N, L>) {
        let mut state = self.state.lock(rt);
        state.hear(turn);
        let _ = MutexGuard::unlock(state);
        self.told.notify_all();
    }

    // Puts the turn back and wakes all who wait.
    fn put_back<R: Wait>(&self, rt: &R, turn: Turn<N, L>) {
        let mut state = self.state.lock(rt);
        state.put_back(turn);
        let _ = MutexGuard::unlock(state);
        self.told.notify_all();
    }

    /// What is durable: what a session knows as it begins. It waits for the desk's lock, under which nobody writes.
    pub fn known<R: Wait>(&self, rt: &R) -> Durable<N, L>
        ensures synced { L.was_synced result }
        ensures word { N.synced result }
    {
        let state = self.state.lock(rt);
        let known = state.durable();
        let _ = MutexGuard::unlock(state);
        // It tells that a sync made it so.
        let _status = known.status();
        known
    }

    /// Whether a call on the log has failed, and no fresh log was put in its place since.
    pub fn is_failed<R: Wait>(&self, rt: &R) -> bool
        ensures { OnTrue result L.has_failed }
    {
        let state = self.state.lock(rt);
        let is_failed = state.is_failed();
        let _ = MutexGuard::unlock(state);
        is_failed
    }

    /// What is told of the log. It waits for the desk's lock, under which nobody writes.
    pub fn figures<R: Wait>(&self, rt: &R) -> DeskFigures {
        let state = self.state.lock(rt);
        let figures = state.figures();
        let _ = MutexGuard::unlock(state);
        figures
    }

    /// Shows what is durable, and tells how many batches that are, and their total. It waits for the desk's lock, under
    /// which nobody writes.
    pub fn stored<R: Wait>(&self, rt: &R, known: &mut Durable<N, L>) -> Status
        ensures later { IsPrefix known.old known.new }
        ensures status { result ≡ version_status known.new }
        ensures synced { L.was_synced known.new }
    {
        let state = self.state.lock(rt);
        state.show(known);
        let _ = MutexGuard::unlock(state);
        known.status()
    }

    /// Does some work with the log in its turn, once no other thread has it: no group is written and no room promised
    /// until it is done. Work may put a fresh log in the place of one that has failed; puts are taken again then.
    pub fn with_turn<T, W: TurnWork<N, L, T>, R: Wait>(&self, rt: &R, work: W) -> T
        ensures { W.gives work result }
    {
        let (mut turn, promised) = self.take_for_work(rt);
        let answer = turn.lend(work, promised);
        self.put_back(rt, turn);
        answer
    }

    // Waits until the turn is home, and takes it out for work.
    fn take_for_work<R: Wait>(&self, rt: &R) -> (Turn<N, L>, u64) {
        for _ in rt.forever() {
            let mut state = self
                .told
                .wait_while(rt, self.state.lock(rt), |state| state.is_out());
            let taken = state.take_for_work();
            let _ = MutexGuard::unlock(state);
            if let Some(taken) = taken {
                return taken;
            }
        }
        unreachable!()
    }

    /// Gives the log back, once no thread uses the desk, with what is durable in it. None where the turn is out, which
    /// it never is when no call on the desk runs.
    pub fn close(self) -> Option<(L, Durable<N, L>)>
        ensures durable { IfSome result (λ r. L.failed r.0 ≡ false → L.durable r.0 ≡ r.1) }
        ensures told { IfSome result (λ r. L.failed r.0 ≡ true → L.has_failed) }
    {
        let LogDesk { state, told: _ } = self;
        let turn = state.into_inner().into_turn()?;
        // It tells what a failure means.
        let _failed = turn.is_failed();
        Some(turn.into_log())
    }
}
