//! Puts that are durable once they are answered.
ghost use Rattle.std.specs.Prelude.{◌≡◌, []};
ghost use Rattle.std.specs.Arc.{arc_value};

use batch_store::Batch;
use cells::Cell;
use locked_engine::{Engine, Named, PutFault, Seat, Status};
use log_desk::{DeskFault, Durable, Log, LogDesk, MemoryLog, Pause};
use std::alloc::Global;
use std::io::Eprint;
use std::process::Abort;
use std::sync::atomic::{AtomicU64, Ordering};
use std::sync::ledger::Ledger;
use std::sync::{Arc, Mutex, Wait};
use std::thread::Threads;
use std::time::{Clock, Duration};
use std::{slice, thread};
use test_support::{same, same_at};

/// Why a put is refused.
#[derive(Clone, Copy, Debug, PartialEq, Eq)]
pub enum Refusal {
    Put(PutFault),
    Desk(DeskFault),
}

/// The index of a batch that was put, or why it was refused.
pub type Answer = Result<u64, Refusal>;

/// How many puts were answered with what.
#[derive(Clone, Copy, Debug, PartialEq, Eq)]
pub struct Tally {
    pub kept: u64,
    pub full: u64,
    pub failed: u64,
    pub other: u64,
}

/// No puts.
pub const NONE: Tally = Tally {
    kept: 0,
    full: 0,
    failed: 0,
    other: 0,
};

impl Tally {
    fn count(&mut self, answer: &Answer) {
        match answer {
            Ok(_) => self.kept = self.kept.saturating_add(1),
            Err(Refusal::Desk(DeskFault::LogFull)) => self.full = self.full.saturating_add(1),
            Err(Refusal::Desk(DeskFault::LogFailed)) => self.failed = self.failed.saturating_add(1),
            Err(_) => self.other = self.other.saturating_add(1),
        }
    }
}

/// A sync whose first answer waits until so many batches were admitted, at most ten seconds.
#[derive(Drop)]
pub struct UntilAdmitted<'a, R> {
    pub rt: &'a R,
    pub admitted: &'a AtomicU64,
    pub count: u64,
}

impl<'a, R: Clock> Pause for UntilAdmitted<'a, R> {
    fn pause(&self, sync: u64) {
        if sync > 0 {
            return;
        }
        for _ in 0..10_000 {
            if self.admitted.load(Ordering::SeqCst) >= self.count {
                return;
            }
            thread::sleep(self.rt, Duration::from_millis(1));
        }
    }
}

/// A batch of one cell, of total 1.
pub fn batch_of<N: Named, H: Ledger>(
    rt: &impl Abort,
    alloc: Global,
    engine: &Engine<N, H>,
    client: u64,
    number: u64,
) -> Arc<Batch>
    ensures rows { (arc_value result).matrix.rows ≡ N.setup.rows }
    ensures cols { (arc_value result).matrix.cols ≡ N.setup.cols }
{
    let cell = Cell {
        row: 1,
        col: 1,
        count: 1,
    };
    Batch::from_cells(alloc, &engine.setup(), client, number, &[cell]).expect(rt, "a batch")
}

/// What an engine without batches has as durable in an empty log.
pub fn nothing<N: Named, H: Ledger, P: Pause>(seat: &Seat<N, H>) -> Durable<N, MemoryLog<P>>
    ensures { result ≡ [] }
{
    let none = Status {
        batches: 0,
        total: 0,
    };
    Durable::of(&seat.version(), none)
}

/// Puts one batch, counts it as admitted, and waits until it is durable.
pub fn put_one<N: Named, H: Ledger, L: Log, R: Wait + Abort>(
    rt: &R,
    alloc: Global,
    engine: &Engine<N, H>,
    desk: &LogDesk<N, L>,
    seat: &mut Seat<N, H>,
    known: &mut Durable<N, L>,
    admitted: &AtomicU64,
    pair: (u64, u64),
) -> Answer {
    let batch = batch_of(rt, alloc, engine, pair.0, pair.1);
    let ticket = match desk.enter(rt, L::pages_of(slice::from_ref(&batch))) {
        Ok(ticket) => ticket,
        Err(fault) => return Err(Refusal::Desk(fault)),
    };
    let answer = match engine.put(rt, alloc, seat, batch) {
        Ok(kept) => {
            admitted.fetch_add(1, Ordering::SeqCst);
            match desk.wait(rt, engine, known, kept.index) {
                Ok(()) => Ok(kept.index),
                Err(fault) => Err(Refusal::Desk(fault)),
            }
        }
        Err(fault) => Err(Refusal::Put(fault)),
    };
    desk.leave(rt, ticket);
    answer
}

/// Puts number 1 of one client after another, and compares what each is answered.
pub fn expect_puts<N: Named, H: Ledger, L: Log, R: Wait + Abort + Eprint>(
    rt: &R,
    alloc: Global,
    engine: &Engine<N, H>,
    desk: &LogDesk<N, L>,
    seat: &mut Seat<N, H>,
    known: &mut Durable<N, L>,
    puts: &[(u64, Answer)],
) {
    let admitted = AtomicU64::new(0);
    for (client, expected) in puts {
        let pair = (*client, 1);
        let answer = put_one(rt, alloc, engine, desk, seat, known, &admitted, pair);
        assert!(rt; same_at(rt, client, &answer, expected));
    }
}

/// Puts so many batches from each of the seats, each in a thread of its own, and counts the answers.
pub fn put_all<
    N: Named + Send + Sync,
    H: Ledger + Send + Sync,
    P: Pause + Send,
    R: Threads + Wait + Abort + Sync,
>(
    rt: &R,
    alloc: Global,
    engine: &Engine<N, H>,
    desk: &LogDesk<N, MemoryLog<P>>,
    seats: &mut [Seat<N, H>],
    admitted: &AtomicU64,
    numbers: u64,
) -> Tally {
    let tally = Mutex::new(NONE);
    assert!(rt; !seats.is_empty());
    let threads = seats.len();
    thread::for_each_mut(
        rt,
        seats,
        threads,
        &|client, seat: &mut Seat<N, H>| {
            let mut known = nothing(seat);
            for number in 0..numbers {
                let pair = (client as u64, number);
                let answer = put_one(rt, alloc, engine, desk, seat, &mut known, admitted, pair);
                tally.lock(rt).count(&answer);
            }
        },
    );
    tally.into_inner()
}

/// The log has so many entries, and they are those of the book, in its order.
pub fn expect_log<N: Named, H: Ledger, P: Pause, R: Wait + Abort + Eprint>(
    rt: &R,
    alloc: Global,
    engine: &Engine<N, H>,
    seat: &mut Seat<N, H>,
    log: &MemoryLog<P>,
    count: usize,
) {
    let list = engine.batch_list(rt, alloc, seat).expect(rt, "memory");
    let entries = log.entries();
    assert!(rt; same(rt, &entries.len(), &count));
    for (entry, batch) in entries.iter().zip(list.iter()) {
        assert!(rt; *entry == batch.entry());
    }
    drop(list);
}

/// How many batches the engine has, and how many of them are durable.
pub fn sizes<N: Named, H: Ledger, P: Pause, R: Wait>(
    rt: &R,
    engine: &Engine<N, H>,
    desk: &LogDesk<N, MemoryLog<P>>,
    seat: &mut Seat<N, H>,
) -> (u64, u64) {
    let mut known = nothing(seat);
    let stored = desk.stored(rt, &mut known);
    (engine.status(seat).batches, stored.batches)
}
