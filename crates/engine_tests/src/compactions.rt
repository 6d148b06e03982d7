//! Each sum that is due is put in place once.
use crate::beside::compactions_of;
use crate::cases::{Act, Case, NOTHING, play};
use crate::opened::{first_seat, put};
use crate::streams::{COLS, ROWS, SHARDS};
use batch_store::Setup;
use locked_engine::{Engine, Named, Seat};
use std::alloc::Global;
use std::io::Eprint;
use std::process::Abort;
use std::sync::Wait;
use std::sync::ledger::Ledger;
use test_support::same_at;

// So many parts side by side in layer 1 are due, and one sum is made of all.
const DUE: u64 = 16;

static COMPACTED_TWICE: Case = Case {
    act: Act::CompactTwice,
    accepted: (32, 32),
    ..NOTHING
};

#[test]
fn each_sum_that_is_due_is_put_in_place_once(rt: HostRuntime) {
    let setup = Setup::new(ROWS, COLS, &[1_000], SHARDS, 1_000_000, 1_000);
    play(
        &rt,
        rt.alloc(),
        setup.expect(&rt, "a setup"),
        &COMPACTED_TWICE,
    );
}

/// So many parts are put into shard 0 that a sum is due there, twice: each time one is put in place, and then none.
pub fn compact_twice<N: Named, H: Ledger, R: Wait + Abort + Eprint>(
    rt: &R,
    alloc: Global,
    engine: &Engine<N, H>,
    seats: &mut [Seat<N, H>],
) {
    let seat = first_seat(rt, seats);
    assert!(rt; 0 < engine.setup().shards());
    for half in 0..2 {
        put_parts(rt, alloc, engine, seat, half);
        let made = compactions_of(rt, alloc, engine, 0);
        let more = compactions_of(rt, alloc, engine, 0);
        assert!(rt; same_at(rt, &half, &(made, more), &(Some(1), Some(0))));
    }
}

// Puts a cell each into so many places of one row of shard 0.
fn put_parts<N: Named, H: Ledger, R: Wait + Abort>(
    rt: &R,
    alloc: Global,
    engine: &Engine<N, H>,
    seat: &mut Seat<N, H>,
    half: u64,
) {
    for col in 0..DUE {
        let cells = [((half % 2) * SHARDS, col, 1)];
        let answer = put(rt, alloc, engine, seat, (half, col), &cells);
        assert!(rt; answer.is_ok());
    }
}
