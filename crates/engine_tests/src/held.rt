//! Reads that wait for no look: they are answered while a shard is held.
use crate::cases::{Act, Case, NOTHING, play};
use crate::expected::expect_export;
use crate::opened::{first_seat, put_all};
use hyper_matrix::RowSum;
use locked_engine::{Engine, Named, Seat, Status};
use std::alloc::Global;
use std::io::Eprint;
use std::process::Abort;
use std::sync::Wait;
use std::sync::ledger::Ledger;
use test_batches::{Cells, small_setup};
use test_support::same;

// Cells of both shards of the small setup.
static BOTH: Cells = &[(0, 0, 5), (0, 1, 3), (1, 0, 4)];

static HELD: Case = Case {
    act: Act::ReadInsideALook,
    accepted: (1, 12),
    shards: &[(0, 8, 1), (1, 4, 1)],
    ..NOTHING
};

#[test]
fn reads_are_answered_while_a_shard_is_held(rt: HostRuntime) {
    play(&rt, rt.alloc(), small_setup().expect(&rt, "a setup"), &HELD);
}

/// Reads a shard inside a look at it, of which any call that takes the shard's lock would never end.
pub fn read_inside_a_look<N: Named, H: Ledger, R: Wait + Abort + Eprint>(
    rt: &R,
    alloc: Global,
    engine: &Engine<N, H>,
    seats: &mut [Seat<N, H>],
) {
    let seat = first_seat(rt, seats);
    put_all(rt, alloc, engine, seat, &[(7, 1, BOTH, Ok((0, 12)))]);
    // A setup has at least one shard, as any call on it shows.
    let _shards = engine.setup().shards();
    let found = engine.look(rt, 0, |_shard| {
        expect_export(rt, alloc, engine, BOTH);
        (
            engine.cell(rt, 0, 1),
            engine.row(rt, 0),
            engine.status(seat),
        )
    });
    let sum = RowSum {
        entries: 2,
        total: 8,
    };
    let status = Status {
        batches: 1,
        total: 12,
    };
    assert!(rt; same(rt, &found, &Some((Some(3), sum, status))));
}
