//! Puts from one seat are answered as an engine of one thread answers them.

use crate::cases::{Act, Case, NOTHING, play};
use crate::expected::expect_status;
use crate::opened::{Step, first_seat, put_all};
use locked_engine::PutFault::{BookFull, NumberReused, OverTotal};
use locked_engine::{Engine, Named, Seat};
use std::alloc::Global;
use std::io::Eprint;
use std::process::Abort;
use std::sync::Wait;
use std::sync::ledger::Ledger;
use test_batches::setup_up_to;

// The most batches, what is put, what is then accepted, and of shard 0 and of shard 1 the number, the total and the
// length of the record.
static CASES: &[(u64, Case)] = &[
    // Repeats are answered their replies; a number that is used for another batch is refused.
    (
        10,
        Case {
            seats: 1,
            act: Act::Put(&[
                (7, 1, &[(0, 0, 5)], Ok((0, 5))),
                (8, 1, &[(0, 0, 3)], Ok((1, 8))),
                (7, 1, &[(0, 0, 5)], Ok((0, 5))),
                (7, 1, &[(0, 0, 6)], Err(NumberReused)),
            ]),
            accepted: (2, 8),
            shards: &[(0, 8, 2), (1, 0, 0)],
            ..NOTHING
        },
    ),
    // The limit is kept exactly, and a repeat counts no more.
    (
        10,
        Case {
            seats: 1,
            act: Act::Put(&[
                (7, 1, &[(0, 0, 90)], Ok((0, 90))),
                (8, 1, &[(0, 0, 11)], Err(OverTotal { accepted: 90 })),
                (8, 1, &[(1, 2, 10)], Ok((1, 100))),
                (9, 1, &[(0, 0, 0)], Ok((2, 100))),
                (7, 1, &[(0, 0, 90)], Ok((0, 90))),
            ]),
            accepted: (3, 100),
            shards: &[(0, 90, 2), (1, 10, 1)],
            ..NOTHING
        },
    ),
    // A batch of no entries concerns no shard; a stored zero concerns its own.
    (
        10,
        Case {
            seats: 1,
            act: Act::Put(&[
                (9, 1, &[], Ok((0, 0))),
                (9, 1, &[], Ok((0, 0))),
                (9, 2, &[(1, 1, 0), (2, 2, 0)], Ok((1, 0))),
            ]),
            accepted: (2, 0),
            shards: &[(0, 0, 1), (1, 0, 1)],
            ..NOTHING
        },
    ),
    // A full book: what is known and what is over the limit is reported first.
    (
        1,
        Case {
            seats: 1,
            act: Act::Put(&[
                (7, 1, &[(0, 0, 5)], Ok((0, 5))),
                (8, 1, &[(0, 0, 3)], Err(BookFull)),
                (8, 1, &[(0, 0, 96)], Err(OverTotal { accepted: 5 })),
                (7, 1, &[(0, 0, 5)], Ok((0, 5))),
                (7, 1, &[(0, 0, 101)], Err(NumberReused)),
            ]),
            accepted: (1, 5),
            shards: &[(0, 5, 1), (1, 0, 0)],
            ..NOTHING
        },
    ),
];

#[test]
fn puts_are_answered_as_by_one_thread(rt: HostRuntime) {
    for (most, case) in CASES {
        play(
            &rt,
            rt.alloc(),
            setup_up_to(100, *most).expect(&rt, "a setup"),
            case,
        );
    }
}

/// Puts the batches of a table from the first seat.
pub fn put_steps<N: Named, H: Ledger, R: Wait + Abort + Eprint>(
    rt: &R,
    alloc: Global,
    engine: &Engine<N, H>,
    seats: &mut [Seat<N, H>],
    steps: &[Step],
    accepted: (u64, u64),
) {
    let seat = first_seat(rt, seats);
    put_all(rt, alloc, engine, seat, steps);
    expect_status(rt, engine, seat, accepted.0, accepted.1);
}
