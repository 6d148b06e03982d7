//! Groups of puts that share a sync.
ghost use Rattle.std.specs.Prelude.{List};
ghost use Rattle.batch_store.specs.declared.verdict.Entry.{Entry};

use crate::logs::puts::{NONE, Tally, UntilAdmitted, batch_of, expect_log, nothing, put_all};
use locked_engine::{Engine, Named, Seat};
use log_desk::{Durable, FailAt, Log, LogDesk, MemoryLog, NoPause};
use std::alloc::Global;
use std::io::Eprint;
use std::process::Abort;
use std::sync::Wait;
use std::sync::atomic::AtomicU64;
use std::sync::ledger::Ledger;
use std::thread::Threads;
use std::time::Clock;
use test_support::same;

/// One put from each seat, of which the first waits in its sync for the others.
pub fn share_a_sync<
    N: Named + Send + Sync,
    H: Ledger + Send + Sync,
    R: Threads + Wait + Clock + Abort + Eprint + Sync,
>(rt: &R, alloc: Global, engine: &Engine<N, H>, seats: &mut [Seat<N, H>])
    requires { (entries : List Entry) → N.synced entries }
{
    let admitted = AtomicU64::new(0);
    let pause = UntilAdmitted {
        rt,
        admitted: &admitted,
        count: 4,
    };
    let log = MemoryLog::new(alloc, 16, 10_000, FailAt::Never, pause).expect(rt, "memory");
    let first = seats.first().expect(rt, "a seat");
    let desk = LogDesk::open(alloc, log, nothing(first), first.version()).expect(rt, "memory");
    let tally = put_all(rt, alloc, engine, &desk, seats, &admitted, 1);
    assert!(rt; same(rt, &tally, &Tally { kept: 4, ..NONE }));
    let (log, durable) = desk.close().expect(rt, "the turn");
    assert!(rt; log.syncs() <= 2);
    assert!(rt; same(rt, &durable.count(), &4));
    let seat = seats.first_mut().expect(rt, "a seat");
    expect_log(rt, alloc, engine, seat, &log, 4);
    drop(log);
}

/// Fifty puts from each of eight seats, with room for each.
pub fn put_many<
    N: Named + Send + Sync,
    H: Ledger + Send + Sync,
    R: Threads + Wait + Abort + Eprint + Sync,
>(rt: &R, alloc: Global, engine: &Engine<N, H>, seats: &mut [Seat<N, H>])
    requires { (entries : List Entry) → N.synced entries }
{
    let log = MemoryLog::new(alloc, 400, 100_000, FailAt::Never, NoPause).expect(rt, "memory");
    let first = seats.first().expect(rt, "a seat");
    let desk = LogDesk::open(alloc, log, nothing(first), first.version()).expect(rt, "memory");
    let tally = put_all(rt, alloc, engine, &desk, seats, &AtomicU64::new(0), 50);
    assert!(rt; same(rt, &tally, &Tally { kept: 400, ..NONE }));
    let (log, durable) = desk.close().expect(rt, "the turn");
    assert!(rt; log.syncs() <= 400);
    assert!(rt; same(rt, &durable.count(), &400));
    let seat = seats.first_mut().expect(rt, "a seat");
    expect_log(rt, alloc, engine, seat, &log, 400);
    drop(log);
}

/// Sixteen puts of one seat that are begun, and then settled.
pub fn pipeline<N: Named, H: Ledger, R: Wait + Abort + Eprint>(
    rt: &R,
    alloc: Global,
    engine: &Engine<N, H>,
    seats: &mut [Seat<N, H>],
)
    requires { (entries : List Entry) → N.synced entries }
{
    let seat = seats.first_mut().expect(rt, "a seat");
    let log = MemoryLog::new(alloc, 16, 16, FailAt::Never, NoPause).expect(rt, "memory");
    let mut known = nothing(seat);
    let desk = LogDesk::open(alloc, log, known.again(), seat.version()).expect(rt, "memory");
    let ticket = desk.enter(rt, 16).expect(rt, "room");
    for number in 0..16 {
        let batch = batch_of(rt, alloc, engine, 7, number);
        assert!(rt; engine.put(rt, alloc, seat, batch).is_ok());
    }
    settle_all(rt, engine, &desk, &mut known);
    desk.leave(rt, ticket);
    let (log, durable) = desk.close().expect(rt, "the turn");
    assert!(rt; same(rt, &(log.syncs(), durable.count()), &(1, 16)));
    expect_log(rt, alloc, engine, seat, &log, 16);
    drop(log);
}

fn settle_all<N: Named, H: Ledger, L: Log, R: Wait + Abort>(
    rt: &R,
    engine: &Engine<N, H>,
    desk: &LogDesk<N, L>,
    known: &mut Durable<N, L>,
) {
    for index in 0..16 {
        assert!(rt; desk.wait(rt, engine, known, index).is_ok());
        assert!(rt; known.count() > index);
    }
}
