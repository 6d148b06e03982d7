//! Two threads, two seats: what one has put the other reads, and a shard that is held keeps nobody from another.

use crate::cases::{Act, Case, Listed, NOTHING, play};
use crate::expected::{expect_counts, expect_export, expect_list, expect_status};
use crate::opened::{Answer, put, put_all, two_seats};
use locked_engine::{Engine, Named, Seat};
use std::alloc::Global;
use std::io::Eprint;
use std::process::Abort;
use std::sync::Wait;
use std::sync::atomic::{AtomicU64, Ordering};
use std::sync::ledger::Ledger;
use std::thread;
use std::thread::Threads;
use std::time::{Clock, Duration};
use test_batches::{Cells, small_setup};
use test_support::same;

// The most turns that a thread waits, each a sleep of one millisecond.
const MAX_TURNS: u64 = 10_000;

// Waits until a flag has a value. Whether it came to have it.
fn comes_to(clock: &impl Clock, flag: &AtomicU64, wanted: u64) -> bool {
    for _ in 0..MAX_TURNS {
        if flag.load(Ordering::SeqCst) == wanted {
            return true;
        }
        thread::sleep(clock, Duration::from_millis(1));
    }
    false
}

const HELD: u64 = 1;

const ANSWERED: u64 = 2;

static IN_SHARD_1: Cells = &[(1, 0, 4)];

static BESIDE: Case = Case {
    act: Act::PutBesideALook,
    accepted: (1, 4),
    shards: &[(0, 0, 0), (1, 4, 1)],
    ..NOTHING
};

#[test]
fn a_shard_that_is_held_keeps_nobody_from_another(rt: HostRuntime) {
    play(
        &rt,
        rt.alloc(),
        small_setup().expect(&rt, "a setup"),
        &BESIDE,
    );
}

/// While one thread holds shard 0, the other's put into shard 1 is answered.
pub fn put_beside_a_look<
    N: Named + Send + Sync,
    H: Ledger + Send + Sync,
    R: Threads + Wait + Abort + Eprint + Clock + Sync,
>(rt: &R, alloc: Global, engine: &Engine<N, H>, seats: &mut [Seat<N, H>]) {
    let seat = seats.last_mut().expect(rt, "a seat");
    let found = look_and_put(rt, alloc, engine, seat);
    assert!(rt; same(rt, &found, &(Some(true), Ok((0, 4)))));
    expect_export(rt, alloc, engine, IN_SHARD_1);
}

// Whether the put was answered while the shard was held, and what.
fn look_and_put<
    N: Named + Send + Sync,
    H: Ledger + Send + Sync,
    R: Threads + Wait + Clock + Abort + Sync,
>(rt: &R, alloc: Global, engine: &Engine<N, H>, seat: &mut Seat<N, H>) -> (Option<bool>, Answer) {
    let flag = AtomicU64::new(0);
    thread::join(
        rt,
        || hold_shard_0(rt, engine, &flag),
        || put_into_shard_1(rt, alloc, engine, seat, &flag),
    )
}

fn hold_shard_0<N: Named, H: Ledger, R: Wait + Clock>(
    rt: &R,
    engine: &Engine<N, H>,
    flag: &AtomicU64,
) -> Option<bool> {
    // A setup has at least one shard, as any call on it shows.
    let _shards = engine.setup().shards();
    engine.look(rt, 0, |_shard| {
        flag.store(HELD, Ordering::SeqCst);
        comes_to(rt, flag, ANSWERED)
    })
}

fn put_into_shard_1<N: Named, H: Ledger, R: Wait + Clock + Abort>(
    rt: &R,
    alloc: Global,
    engine: &Engine<N, H>,
    seat: &mut Seat<N, H>,
    flag: &AtomicU64,
) -> Answer {
    let _held = comes_to(rt, flag, HELD);
    let answer = put(rt, alloc, engine, seat, (7, 1), IN_SHARD_1);
    flag.store(ANSWERED, Ordering::SeqCst);
    answer
}

const FIRST: Cells = &[(0, 0, 5)];

const SECOND: Cells = &[(0, 1, 3), (1, 0, 4)];

const TWO: &[Listed] = &[(7, 1, FIRST), (8, 1, SECOND)];

static SUM: Cells = &[(0, 0, 5), (0, 1, 3), (1, 0, 4)];

static READ: Case = Case {
    act: Act::PutAndRead,
    accepted: (2, 12),
    shards: &[(0, 8, 2), (1, 4, 1)],
    batches: Some(TWO),
    ..NOTHING
};

#[test]
fn seats_read_what_was_put(rt: HostRuntime) {
    play(&rt, rt.alloc(), small_setup().expect(&rt, "a setup"), &READ);
}

/// One thread puts a batch and then another thread the next, and each seat reads both.
pub fn put_and_read<
    N: Named + Send + Sync,
    H: Ledger + Send + Sync,
    R: Threads + Wait + Abort + Eprint + Sync,
>(rt: &R, alloc: Global, engine: &Engine<N, H>, seats: &mut [Seat<N, H>]) {
    let (first, second) = two_seats(rt, seats);
    put_all(rt, alloc, engine, first, &[(7, 1, FIRST, Ok((0, 5)))]);
    expect_status(rt, engine, first, 1, 5);
    expect_status(rt, engine, second, 1, 5);
    let (answer, ()) = thread::join(rt, || put(rt, alloc, engine, second, (8, 1), SECOND), || {});
    assert!(rt; same(rt, &answer, &Ok((1, 12))));
    read_both(rt, alloc, engine, first);
    read_both(rt, alloc, engine, second);
}

static COUNTS: &[(u64, u64, Option<u64>)] = &[
    (0, 1, Some(3)),
    (0, 2, None),
    (3, 0, None),
    (0, 3, None),
];

// What a seat reads of the two batches.
fn read_both<N: Named, H: Ledger, R: Wait + Abort + Eprint>(
    rt: &R,
    alloc: Global,
    engine: &Engine<N, H>,
    seat: &mut Seat<N, H>,
) {
    expect_status(rt, engine, seat, 2, 12);
    expect_counts(rt, engine, COUNTS);
    let (row, none) = (engine.row(rt, 0), engine.row(rt, 3));
    let found = [(row.entries, row.total), (none.entries, none.total)];
    assert!(rt; same(rt, &found, &[(2, 8), (0, 0)]));
    expect_export(rt, alloc, engine, SUM);
    let list = engine.batch_list(rt, alloc, seat).expect(rt, "memory");
    expect_list(rt, alloc, list, TWO);
}
