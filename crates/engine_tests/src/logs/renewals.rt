//! A fresh log in the place of one that has failed.
ghost use Rattle.std.specs.Prelude.{List, ⊤};
ghost use Rattle.batch_store.specs.declared.verdict.Entry.{Entry};

use crate::logs::puts::Refusal::Desk;
use crate::logs::puts::{expect_log, expect_puts, nothing, sizes};
use locked_engine::{Engine, Named, Seat, Version};
use log_desk::DeskFault::LogFailed;
use log_desk::{Durable, FailAt, Group, LogDesk, MemoryLog, NoPause, TurnWork};
use plain_engine::Status;
use std::alloc::Global;
use std::io::Eprint;
use std::process::Abort;
use std::sync::Wait;
use std::sync::ledger::Ledger;
use test_support::same;

// Puts a fresh log in place, which has the book's batches as one block.
#[derive(Drop)]
struct Renewal<'a, N: Named, H: Ledger, R> {
    rt: &'a R,
    alloc: Global,
    engine: &'a Engine<N, H>,
    seen: Version<N>,
}

impl<'a, N: Named, H: Ledger, R: Wait> TurnWork<N, MemoryLog<NoPause>, bool>
    for Renewal<'a, N, H, R> {
    ghost gives = { λ work answer. ⊤ };

    fn run(
        self,
        log: &mut MemoryLog<NoPause>,
        durable: &mut Durable<N, MemoryLog<NoPause>>,
        promised: u64,
    ) -> bool {
        let Renewal {
            rt,
            alloc,
            engine,
            seen,
        } = self;
        let Ok(mut fresh) = MemoryLog::new(alloc, 16, 16, FailAt::Never, NoPause) else {
            return false;
        };
        let none = Status {
            batches: 0,
            total: 0,
        };
        let mut known = Durable::of(&seen, none);
        let Ok(mut group) = Group::new(alloc, seen) else {
            return false;
        };
        if group.write(rt, engine, &mut fresh, &mut known).is_err() {
            return false;
        }
        if known.count() < durable.count() || promised > 0 {
            return false;
        }
        *log = fresh;
        durable.learn(&known);
        true
    }
}

/// Two puts, of which the second fails, and once a fresh log is in place the second again and a third.
pub fn renew<N: Named, H: Ledger, R: Wait + Abort + Eprint>(
    rt: &R,
    alloc: Global,
    engine: &Engine<N, H>,
    seats: &mut [Seat<N, H>],
)
    requires { (entries : List Entry) → N.synced entries }
{
    let seat = seats.first_mut().expect(rt, "a seat");
    let log = MemoryLog::new(alloc, 16, 16, FailAt::Append(1), NoPause).expect(rt, "memory");
    let mut known = nothing(seat);
    let desk = LogDesk::open(alloc, log, known.again(), seat.version()).expect(rt, "memory");
    let failed = [(7, Ok(0)), (8, Err(Desk(LogFailed)))];
    expect_puts(rt, alloc, engine, &desk, seat, &mut known, &failed);
    assert!(rt; same(rt, &sizes(rt, engine, &desk, seat), &(2, 1)));
    // What is durable is answered without the log, what isn't is refused.
    let first = desk.wait(rt, engine, &mut known, 0);
    let second = desk.wait(rt, engine, &mut known, 1);
    assert!(rt; same(rt, &(first, second), &(Ok(()), Err(LogFailed))));
    let work = Renewal {
        rt,
        alloc,
        engine,
        seen: seat.version(),
    };
    assert!(rt; desk.with_turn(rt, work));
    // The fresh log has the second batch too.
    assert!(rt; same(rt, &sizes(rt, engine, &desk, seat), &(2, 2)));
    let kept = [(8, Ok(1)), (9, Ok(2))];
    expect_puts(rt, alloc, engine, &desk, seat, &mut known, &kept);
    let (log, durable) = desk.close().expect(rt, "the turn");
    assert!(rt; same(rt, &(log.syncs(), durable.count()), &(2, 3)));
    expect_log(rt, alloc, engine, seat, &log, 3);
    drop(log);
}
