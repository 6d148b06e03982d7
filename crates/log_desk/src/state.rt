//! What stands behind the desk's lock.
ghost use Rattle.std.specs.Prelude.{◌≡◌, ◌+◌, ◌-◌, ◌^◌, ◌<◌, ◌≤◌, ◌↔◌, true, false, length, min};
ghost use Rattle.std.specs.Prelude.{IsTrue, IfSome, IfNone};
ghost use Rattle.std.specs.Bool.{OnTrue};
ghost use mathlib.Core.List.{IsPrefix};
ghost use Rattle.log_desk.specs.Standings.{desk_standing, standing};

mod ticket;

use crate::durable::Durable;
use crate::log::Log;
use crate::turn::Turn;
use locked_engine::Named;
use std::marker::Model;
pub use ticket::Ticket;

/// The most batches that a leader waits for. Behind larger groups the threads that write them have enough to do meanwhile.
const MOST_EXPECTED: u64 = 8;

/// What is durable, whether the log has failed, its room, what of it is promised, and the leader's turn, unless a
/// thread has it.
///
/// Contracts see all this. Where the turn is there, it is at a log of just what is told of it here.
#[derive(Drop)]
pub struct DeskState<N: Named, L: Log> {
    turn: Option<Turn<N, L>>,
    durable: Durable<N, L>,
    failed: bool,
    // How many pages were ready when the turn was put back last; 0 while the log may be exchanged. A group that is
    // written takes no more of them than its batches were promised.
    room: u64,
    // How many pages are promised, and not given back.
    promised: u64,
    // The place behind the last that a thread has waited for.
    awaited: u64,
    // How many batches were waited for when the last group was done, those of the group among them: so many may come
    // again before the next one.
    expected: u64,
    // How many batches the last group had.
    group: u64,
}

impl<N: Named, L: Log> Model for DeskState<N, L> {
    ghost use Rattle.std.specs.Prelude.{◌≡◌, true, IfSome, is_some};
    ghost use Rattle.log_desk.specs.Standings.{DeskStanding, desk_standing, standing};

    ghost Value = { DeskStanding };

    ghost view = { λ s. desk_standing (standing s.durable s.failed s.room) s.promised (is_some s.turn) };

    ghost invariant = { λ s. IfSome s.turn (λ t. t ≡ standing s.durable s.failed s.room)
        × (s.failed ≡ true → L.has_failed) };
}

/// What a desk tells of its log, of which nothing is proved.
#[derive(Clone, Copy, Debug, PartialEq, Eq)]
pub struct DeskFigures {
    /// How many batches are durable.
    pub durable: u64,
    /// How many pages are ready for blocks; 0 while the log may be exchanged.
    pub room: u64,
    /// How many batches the group had that was written last; 0 before the first.
    pub group: u64,
}

// How many batches the last group had, where so many were durable before and are now.
fn group_of(before: u64, now: u64, last: u64) -> u64 {
    if now > before { now - before } else { last }
}

impl<N: Named, L: Log> DeskState<N, L> {
    /// A state in which nobody has the turn, and nothing is promised.
    pub fn new(turn: Turn<N, L>) -> DeskState<N, L>
        ensures { result ≡ desk_standing turn 0 true }
    {
        DeskState {
            durable: turn.durable(),
            failed: turn.is_failed(),
            room: turn.room(),
            turn: Some(turn),
            promised: 0,
            awaited: 0,
            expected: 0,
            group: 0,
        }
    }

    /// What is told of the log.
    pub fn figures(&self) -> DeskFigures {
        DeskFigures {
            durable: self.durable.count(),
            room: self.room,
            group: self.group,
        }
    }

    /// Whether a thread has the turn.
    pub fn is_out(&self) -> bool
        ensures { IsTrue result ↔ (self.now.home ≡ false) }
    {
        self.turn.is_none()
    }

    /// Whether a thread that waits for this place has nothing to do but wait: it isn't durable, the log hasn't failed,
    /// and another thread has the turn.
    pub fn must_wait(&self, index: u64) -> bool
        ensures { IsTrue result ↔ ((length self.now.log.durable ≤ index) × (self.now.log.failed ≡ false)
            × (self.now.home ≡ false)) }
    {
        self.durable.count() <= index && !self.failed && self.is_out()
    }

    /// Notes that a thread waits for this place.
    pub fn note_waiting(&mut self, index: u64)
        ensures { self.new ≡ self.old }
    {
        self.awaited = self.awaited.max(index.saturating_add(1));
    }

    // How many batches behind what is durable are waited for.
    fn waiting(&self) -> u64 {
        self.awaited.saturating_sub(self.durable.count())
    }

    /// Whether more batches are likely to come at once: fewer are waited for than were when the last group was done, and
    /// those were few.
    pub fn expects_more(&self) -> bool {
        self.expected <= MOST_EXPECTED && self.waiting() < self.expected
    }

    /// Whether a thread that asks for so many pages has nothing to do but wait: they aren't there, the log hasn't
    /// failed, and another thread has the turn.
    pub fn must_wait_for_room(&self, pages: u64) -> bool
        ensures { IsTrue result ↔ ((self.now.log.room < self.now.promised + pages) × (self.now.log.failed ≡ false)
            × (self.now.home ≡ false)) }
    {
        self.promised_with(pages).is_none() && !self.failed && self.is_out()
    }

    // How many pages are promised with so many more. None where the room doesn't hold them.
    fn promised_with(&self, pages: u64) -> Option<u64>
        ensures sum { IfSome result (λ n. n ≡ self.now.promised + pages) }
        ensures room { IfSome result (λ n. n ≤ self.now.log.room) }
        ensures none { IfNone result (self.now.log.room < self.now.promised + pages) }
    {
        if self.promised > self.room {
            return None;
        }
        if pages > self.room - self.promised {
            return None;
        }
        Some(self.promised + pages)
    }

    /// How many pages must be ready for so many to be promised; 2^64 - 1 where they are more.
    pub fn wanted(&self, pages: u64) -> u64
        ensures { result ≡ min (self.now.promised + pages) (2 ^ 64 - 1) }
    {
        self.promised.saturating_add(pages)
    }

    /// Promises so many pages. None where the room doesn't hold them beside what is promised.
    pub fn promise(&mut self, pages: u64) -> Option<Ticket>
        ensures ticket { IfSome result (λ t. t ≡ pages) }
        ensures promised { IfSome result (λ t. self.new ≡
            desk_standing self.old.log (self.old.promised + pages) self.old.home) }
        ensures room { IfSome result (λ t. self.old.promised + pages ≤ self.old.log.room) }
        ensures none { IfNone result (self.old.log.room < self.old.promised + pages) }
        ensures same { IfNone result (self.new ≡ self.old) }
    {
        self.promised = self.promised_with(pages)?;
        Some(Ticket::new(pages))
    }

    /// Takes back a promise.
    pub fn give_back(&mut self, ticket: Ticket)
        ensures { self.new ≡ desk_standing self.old.log (self.old.promised - ticket) self.old.home }
    {
        self.promised = self.promised.saturating_sub(ticket.into_pages());
    }

    /// Shows what is durable.
    pub fn show(&self, known: &mut Durable<N, L>)
        ensures later { IsPrefix known.old known.new }
        ensures no_less { IsPrefix self.now.log.durable known.new }
    {
        known.learn(&self.durable);
    }

    /// What is durable.
    pub fn durable(&self) -> Durable<N, L>
        ensures { result ≡ self.now.log.durable }
    {
        self.durable.again()
    }

    /// Whether a call on the log has failed.
    pub fn is_failed(&self) -> bool
        ensures failed { result ≡ self.now.log.failed }
        ensures told { OnTrue result L.has_failed }
    {
        self.failed
    }

    /// Takes the turn out, where no thread has it.
    pub fn take_turn(&mut self) -> Option<Turn<N, L>>
        ensures turn { IfSome result (λ t. t ≡ self.old.log) }
        ensures home { IfSome result (λ t. self.old.home ≡ true) }
        ensures none { IfNone result (self.old.home ≡ false) }
        ensures out { self.new ≡ desk_standing self.old.log self.old.promised false }
    {
        self.turn.take()
    }

    /// Takes the turn out for work that may exchange the log, where no thread has it, and tells how many pages are
    /// promised. Until it is back no more are.
    pub fn take_for_work(&mut self) -> Option<(Turn<N, L>, u64)>
        ensures turn { IfSome result (λ t. t.0 ≡ self.old.log) }
        ensures promised { IfSome result (λ t. t.1 ≡ self.old.promised) }
        ensures no_room { IfSome result (λ t. self.new ≡
            desk_standing (standing self.old.log.durable self.old.log.failed 0) self.old.promised false) }
        ensures none { IfNone result ((self.old.home ≡ false) × (self.new ≡ self.old)) }
    {
        let turn = self.turn.take()?;
        self.room = 0;
        Some((turn, self.promised))
    }

    /// Takes in what a turn that is out has made durable. What is promised stays, and the room out of which it was.
    pub fn hear(&mut self, out: &Turn<N, L>)
        ensures { self.new ≡
            desk_standing (standing out.now.durable out.now.failed self.old.log.room) self.old.promised false }
    {
        self.turn = None;
        self.group = group_of(self.durable.count(), out.durable().count(), self.group);
        self.durable = out.durable();
        self.failed = out.is_failed();
    }

    /// Puts the turn back, with what it has made durable, and its room. What is promised stays.
    pub fn put_back(&mut self, turn: Turn<N, L>)
        ensures { self.new ≡ desk_standing turn self.old.promised true }
    {
        self.expected = self.waiting();
        self.group = group_of(self.durable.count(), turn.durable().count(), self.group);
        self.durable = turn.durable();
        self.failed = turn.is_failed();
        self.room = turn.room();
        self.turn = Some(turn);
    }

    /// Takes the turn out for good.
    pub fn into_turn(self) -> Option<Turn<N, L>>
        ensures some { IfSome result (λ t. t ≡ self.log) }
        ensures none { IfNone result (self.home ≡ false) }
    {
        let DeskState {
            turn,
            durable: _,
            failed: _,
            room: _,
            promised: _,
            awaited: _,
            expected: _,
            group: _,
        } = self;
        turn
    }
}
