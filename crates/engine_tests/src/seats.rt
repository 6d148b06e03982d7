//! Seats: how many there may be, and that all are given back before an engine is closed.

use crate::cases::{Act, Case, NOTHING, play};
use crate::opened::{Answer, put, two_seats};
use locked_engine::PutFault::OverTotal;
use locked_engine::{Engine, Named, Names, OpenFault, Seat};
use plain_engine::PlainEngine;
use std::alloc::Global;
use std::io::Eprint;
use std::process::Abort;
use std::sync::Wait;
use std::sync::ledger::Ledger;
use std::thread;
use std::thread::Threads;
use test_batches::small_setup;
use test_support::same_at;

/// Numbers of seats, and why they are refused.
static JUDGED: &[(usize, Option<OpenFault>)] = &[
    (0, Some(OpenFault::BadSeats)),
    (1, None),
    (2, None),
    (31, None),
    (32, None),
    (33, Some(OpenFault::BadSeats)),
    (64, Some(OpenFault::BadSeats)),
    (usize::MAX, Some(OpenFault::BadSeats)),
];

#[test]
fn there_are_1_to_32_seats(rt: HostRuntime) {
    let plain = PlainEngine::new(&rt, rt.alloc(), small_setup().expect(&rt, "a setup")).expect(
        &rt, "memory",
    );
    for (seats, fault) in JUDGED {
        let found = Names::new(&rt, rt.alloc(), &plain, *seats).err();
        assert!(rt; same_at(&rt, seats, &found, fault));
    }
    drop(plain);
}

// A seat that is kept back is missed.
static SHARED: Case = Case {
    act: Act::PutSixtyTwice,
    accepted: (1, 60),
    shards: &[(0, 40, 1), (1, 20, 1)],
    lacks_seat: true,
    ..NOTHING
};

#[test]
fn two_threads_share_the_limit(rt: HostRuntime) {
    play(
        &rt,
        rt.alloc(),
        small_setup().expect(&rt, "a setup"),
        &SHARED,
    );
}

static SIXTY: &[(u64, u64, u64)] = &[(0, 0, 40), (1, 0, 20)];

// A batch within the limit of 100, and a second one that would pass it.
const ACCEPTED: Answer = Ok((0, 60));

const REFUSED: Answer = Err(OverTotal { accepted: 60 });

/// Two threads put sixty each: one of them is refused.
pub fn put_sixty_twice<
    N: Named + Send + Sync,
    H: Ledger + Send + Sync,
    R: Threads + Wait + Abort + Eprint + Sync,
>(rt: &R, alloc: Global, engine: &Engine<N, H>, seats: &mut [Seat<N, H>]) {
    assert!(rt; engine.seat_count() == 2 && seats.len() == 2);
    let (first, second) = two_seats(rt, seats);
    assert!(rt; first.number() == 0 && second.number() == 1);
    let answers = put_at_once(rt, alloc, engine, first, second);
    assert!(rt; answers == (ACCEPTED, REFUSED) || answers == (REFUSED, ACCEPTED));
}

// What each of two threads is answered.
fn put_at_once<N: Named + Send + Sync, H: Ledger + Send + Sync, R: Threads + Wait + Abort + Sync>(
    rt: &R,
    alloc: Global,
    engine: &Engine<N, H>,
    first: &mut Seat<N, H>,
    second: &mut Seat<N, H>,
) -> (Answer, Answer) {
    thread::join(
        rt,
        || put(rt, alloc, engine, first, (7, 1), SIXTY),
        || put(rt, alloc, engine, second, (8, 1), SIXTY),
    )
}
