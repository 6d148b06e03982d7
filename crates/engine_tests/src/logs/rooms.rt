//! Room is promised before a batch is accepted.
ghost use Rattle.std.specs.Prelude.{List};
ghost use Rattle.batch_store.specs.declared.verdict.Entry.{Entry};

use crate::logs::puts::Refusal::Desk;
use crate::logs::puts::{expect_puts, nothing, sizes};
use locked_engine::{Engine, Named, Seat};
use log_desk::DeskFault::LogFull;
use log_desk::{DeskFault, FailAt, Log, LogDesk, MemoryLog, NoPause};
use std::alloc::Global;
use std::io::Eprint;
use std::process::Abort;
use std::sync::Wait;
use std::sync::ledger::Ledger;
use test_support::same;

/// A put into a log of so many pages that fails so, or never: it is refused, and nothing is accepted.
pub fn refuse<N: Named, H: Ledger, R: Wait + Abort + Eprint>(
    rt: &R,
    alloc: Global,
    engine: &Engine<N, H>,
    seats: &mut [Seat<N, H>],
    pages: u64,
    fail_at: FailAt,
    fault: DeskFault,
)
    requires { (entries : List Entry) → N.synced entries }
{
    let seat = seats.first_mut().expect(rt, "a seat");
    let log = MemoryLog::new(alloc, 16, pages, fail_at, NoPause).expect(rt, "memory");
    let mut known = nothing(seat);
    let desk = LogDesk::open(alloc, log, known.again(), seat.version()).expect(rt, "memory");
    let put = [(7, Err(Desk(fault)))];
    expect_puts(rt, alloc, engine, &desk, seat, &mut known, &put);
    assert!(rt; same(rt, &sizes(rt, engine, &desk, seat), &(0, 0)));
    let (log, _) = desk.close().expect(rt, "the turn");
    let is_failed = fault == DeskFault::LogFailed;
    assert!(rt; same(rt, &(log.syncs(), log.is_failed()), &(0, is_failed)));
    drop(log);
}

/// Promises of a log of three pages, and puts that use them up.
pub fn fill_up<N: Named, H: Ledger, R: Wait + Abort + Eprint>(
    rt: &R,
    alloc: Global,
    engine: &Engine<N, H>,
    seats: &mut [Seat<N, H>],
)
    requires { (entries : List Entry) → N.synced entries }
{
    let seat = seats.first_mut().expect(rt, "a seat");
    let log = MemoryLog::new(alloc, 16, 3, FailAt::Never, NoPause).expect(rt, "memory");
    let mut known = nothing(seat);
    let desk = LogDesk::open(alloc, log, known.again(), seat.version()).expect(rt, "memory");
    let two = desk.enter(rt, 2).expect(rt, "room");
    assert!(rt; is_full(rt, &desk, 2));
    // The third page is free; once the batch is durable it is used up.
    let one = [(7, Ok(0))];
    expect_puts(rt, alloc, engine, &desk, seat, &mut known, &one);
    assert!(rt; is_full(rt, &desk, 1));
    desk.leave(rt, two);
    let more = [(8, Ok(1)), (9, Ok(2)), (10, Err(Desk(LogFull)))];
    expect_puts(rt, alloc, engine, &desk, seat, &mut known, &more);
    assert!(rt; same(rt, &sizes(rt, engine, &desk, seat), &(3, 3)));
    drop(desk);
}

// Whether so many pages aren't promised, since there is no room.
fn is_full<N: Named, L: Log, R: Wait>(rt: &R, desk: &LogDesk<N, L>, pages: u64) -> bool {
    match desk.enter(rt, pages) {
        Ok(ticket) => {
            desk.leave(rt, ticket);
            false
        }
        Err(fault) => fault == LogFull,
    }
}
