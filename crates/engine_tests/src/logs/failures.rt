//! A sync that fails: who waits is refused, and nobody writes to the log again.
ghost use Rattle.std.specs.Prelude.{List};
ghost use Rattle.batch_store.specs.declared.verdict.Entry.{Entry};

use crate::logs::puts::Refusal::Desk;
use crate::logs::puts::{NONE, Tally, UntilAdmitted, nothing, put_all, put_one, sizes};
use locked_engine::{Engine, Named, Seat};
use log_desk::DeskFault::LogFailed;
use log_desk::{FailAt, Log, LogDesk, MemoryLog};
use std::alloc::Global;
use std::io::Eprint;
use std::process::Abort;
use std::sync::Wait;
use std::sync::atomic::AtomicU64;
use std::sync::ledger::Ledger;
use std::thread::Threads;
use std::time::Clock;
use test_support::same;

/// One put from each seat, of which the first waits in its sync for the others, and fails. Then one more.
pub fn fail_first<
    N: Named + Send + Sync,
    H: Ledger + Send + Sync,
    R: Threads + Wait + Clock + Abort + Eprint + Sync,
>(rt: &R, alloc: Global, engine: &Engine<N, H>, seats: &mut [Seat<N, H>])
    requires { (entries : List Entry) → N.synced entries }
{
    let admitted = AtomicU64::new(0);
    let pause = UntilAdmitted {
        rt,
        admitted: &admitted,
        count: 4,
    };
    let log = MemoryLog::new(alloc, 16, 10_000, FailAt::Append(0), pause).expect(rt, "memory");
    let first = seats.first().expect(rt, "a seat");
    let desk = LogDesk::open(alloc, log, nothing(first), first.version()).expect(rt, "memory");
    let tally = put_all(rt, alloc, engine, &desk, seats, &admitted, 1);
    assert!(rt; same(rt, &tally, &Tally { failed: 4, ..NONE }));
    let seat = seats.first_mut().expect(rt, "a seat");
    let mut known = nothing(seat);
    let last = put_one(
        rt,
        alloc,
        engine,
        &desk,
        seat,
        &mut known,
        &admitted,
        (9, 1),
    );
    assert!(rt; same(rt, &last, &Err(Desk(LogFailed))));
    // The four are in the book, the last isn't, and nothing is durable.
    assert!(rt; same(rt, &sizes(rt, engine, &desk, seat), &(4, 0)));
    let (log, durable) = desk.close().expect(rt, "the turn");
    assert!(rt;
        same(
            rt,
            &(log.syncs(), log.is_failed(), durable.count()),
            &(1, true, 0)
        )
    );
    drop(log);
}
