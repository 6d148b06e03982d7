//! Pools of workers that share a log, which is begun anew beside their puts.
ghost use Rattle.std.specs.Prelude.{◌≡◌, List, is_some, true};
ghost use Rattle.batch_store.specs.declared.verdict.Entry.{Entry};
ghost use Rattle.session_pool.specs.Saves.{path_of};
ghost use Rattle.locked_engine.specs.Opened.{NamesEngine};

use crate::logged::frames::Ask;
use crate::logged::log::{TestLog, WELL};
use crate::logged::sessions::{link_of, nothing, saver_to};
use crate::pool::engines::{closed, opened, queued, unopened};
use crate::pool::gates::OpenGate;
use byte_io::Script;
use crossbeam_channel::Receiver;
use locked_engine::{Named, Names};
use log_desk::{FailAt, LogDesk, MemoryLog, NoPause};
use plain_engine::PlainEngine;
use server_counters::Machine;
use session_pool::{Disk, LogPlace, PoolFault, PoolReport, Saver, Session, run_pool};
use std::alloc::Global;
use std::marker::Brand;
use std::process::Abort;
use std::random::RandomSource;
use std::sync::Wait;
use std::sync::ledger::Ledger;
use std::test::Fail;
use std::thread::Threads;
use test_support::same_at;

/// What the pool did, how many batches are durable and how many entries the log in use has, and what is accepted.
#[derive(Clone, Copy, Debug, PartialEq, Eq)]
struct Outcome {
    report: Result<PoolReport, PoolFault>,
    durable: u64,
    entries: usize,
    accepted: (u64, u64),
}

fn play<
    N: Named + Send + Sync,
    H: Ledger + Send + Sync,
    R: Threads + Wait + Disk + Machine + LogPlace<TestLog> + Abort + Sync,
>(
    rt: &R,
    alloc: Global,
    plain: PlainEngine,
    names: Names,
    sessions: &Receiver<Session<Script>, Global>,
    saver: &Saver,
) -> Outcome
    requires named { NamesEngine names N.setup N.seats N.history N.name N.parts H.name H.parts }
    requires made_from { plain.setup ≡ names.setup }
    requires opened { plain.book.state ≡ N.opened }
    requires path { path_of saver.now.log ≡ N.log }
    requires logged { is_some N.log ≡ true }
    requires word { (entries : List Entry) → N.synced entries }
{
    let (engine, mut seats) = opened::<N, H>(rt, alloc, plain, names);
    let first = seats.first().expect(rt, "a seat");
    let log = MemoryLog::new(alloc, 100, 100_000, FailAt::Never, NoPause).expect(rt, "memory");
    let desk = LogDesk::open(alloc, TestLog { log }, nothing(first), first.version()).expect(
        rt, "memory",
    );
    let report = run_pool(
        rt,
        alloc,
        &engine,
        &mut seats,
        sessions,
        &OpenGate,
        saver,
        Some(&desk),
        2,
    );
    let (log, durable) = desk.close().expect(rt, "the turn");
    let entries = log.log.entries().len();
    drop(log);
    let closed = closed(rt, alloc, engine, seats);
    let status = closed.status();
    drop(closed);
    Outcome {
        report,
        durable: durable.count(),
        entries,
        accepted: (status.batches, status.total),
    }
}

// Serves 20 sessions, each of which puts a batch, folds and saves.
fn played<R: Threads + Wait + Disk + Machine + LogPlace<TestLog> + RandomSource + Abort + Sync>(
    rt: &R,
    alloc: Global,
    saver: &Saver,
) -> Outcome
    requires { is_some (path_of saver.now.log) ≡ true }
{
    let mut links = Vec::new(alloc);
    for number in 0..20u8 {
        let asks = [Ask::Put(7, number, 1), Ask::Fold, Ask::Save];
        links
            .push(link_of(rt, alloc, &[&asks]))
            .expect(rt, "memory");
    }
    let sessions = queued(rt, alloc, links);
    let (plain, names) = unopened(rt, alloc, 4);
    let outcome = play::<Brand, Brand, R>(rt, alloc, plain, names, &sessions, saver);
    drop(sessions);
    outcome
}

// What becomes of 20 sessions that four workers serve.
const ALL_DURABLE: Outcome = Outcome {
    report: Ok(PoolReport {
        started: 4,
        served: 20,
    }),
    durable: 20,
    entries: 20,
    accepted: (20, 20),
};

// Also where a thread folds beside them what is durable.
#[test]
fn workers_share_a_log_that_is_begun_anew(rt: HostRuntime) -> Result<(), Fail> {
    let path = "session_log_pool_test.snapshot";
    for fold_above in [0u64, 1] {
        let saver = saver_to(&rt, rt.alloc(), path, WELL).folding_above(fold_above);
        let found = played(&rt, rt.alloc(), &saver);
        drop(saver);
        assert!(&rt; same_at(&rt, &fold_above, &found, &ALL_DURABLE));
        std::fs::remove_file(&rt, path)?;
    }
    Ok(())
}
