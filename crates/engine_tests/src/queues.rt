//! An engine whose first batches are folded: what its seats are answered and read, and the batches from an index on,
//! which a log reads of its book.
ghost use Rattle.std.specs.Prelude.{◌≡◌};

use crate::cases::{Act, Case, NOTHING, play_on};
use crate::expected::{expect_export, expect_status};
use crate::opened::{Step, put_all, two_seats};
use batch_store::Setup;
use locked_engine::PutFault::{NumberReused, OverTotal};
use locked_engine::{Engine, Named, Seat, Version};
use plain_engine::PlainEngine;
use std::alloc::Global;
use std::io::Eprint;
use std::process::Abort;
use std::random::RandomSource;
use std::sync::Wait;
use std::sync::ledger::Ledger;
use test_batches::{Cells, batch, small_setup};
use test_support::{same, same_at};

const NINE: Cells = &[(0, 0, 5), (1, 0, 4)];

const THREE: Cells = &[(0, 0, 3)];

const TWO: Cells = &[(1, 0, 1), (2, 2, 1)];

const ONE: Cells = &[(0, 1, 1)];

// Puts a batch that is accepted.
fn accept(
    rt: &impl Abort,
    alloc: Global,
    plain: &mut PlainEngine,
    setup: &Setup,
    client: u64,
    cells: Cells,
)
    requires setup { plain.old.setup ≡ setup.now }
    ensures setup { plain.new.setup ≡ plain.old.setup }
{
    let b = batch(alloc, setup, (client, 1), cells).expect(rt, "a batch");
    let _kept = plain.put(alloc, b).expect(rt, "put");
}

// An engine of one thread that has folded two batches: one of client 7 of total 9, and one of client 8 of total 3.
fn folded_two<R: RandomSource + Abort>(rt: &R, alloc: Global, setup: Setup) -> PlainEngine {
    let mut plain = PlainEngine::new(rt, alloc, setup).expect(rt, "memory");
    accept(rt, alloc, &mut plain, &setup, 7, NINE);
    accept(rt, alloc, &mut plain, &setup, 8, THREE);
    match plain.fold(alloc) {
        Ok(folded) => folded,
        Err(_) => panic!(rt; "fold"),
    }
}

// Folded batches keep the replies that they had, a new one takes the next index, and the total goes on.
static FIRST: &[Step] = &[
    (7, 1, NINE, Ok((0, 9))),
    (8, 1, TWO, Err(NumberReused)),
    (9, 1, TWO, Ok((2, 14))),
];

static SECOND: &[Step] = &[
    (8, 1, THREE, Ok((1, 12))),
    (9, 1, TWO, Ok((2, 14))),
    (9, 2, &[(0, 1, 87)], Err(OverTotal { accepted: 14 })),
    (9, 2, ONE, Ok((3, 15))),
];

static SUM: Cells = &[(0, 0, 8), (0, 1, 1), (1, 0, 5), (2, 2, 1)];

static QUEUED: Case = Case {
    act: Act::PutAfterFolded,
    accepted: (4, 15),
    folded: 2,
    // Row 0 has 8 of what is folded and one of the second batch, row 2 one of the first.
    shards: &[(0, 10, 2), (1, 5, 1)],
    batches: Some(&[(9, 1, TWO), (9, 2, ONE)]),
    ..NOTHING
};

#[test]
fn batches_are_put_and_read_after_folded_ones(rt: HostRuntime) {
    let plain = folded_two(&rt, rt.alloc(), small_setup().expect(&rt, "a setup"));
    play_on(&rt, rt.alloc(), plain, &QUEUED);
}

// The numbers of the first two batches that are read.
type Read = (Option<u64>, Option<u64>);

// From where, at most how many cells, room for how many batches, and what is read, or None where that is refused.
static READS: &[(u64, u64, usize, Option<Read>)] = &[
    // Folded batches have no cells of their own.
    (0, 100, 8, None),
    (1, 100, 8, None),
    (2, 100, 8, Some((Some(1), Some(2)))),
    (3, 100, 8, Some((Some(2), None))),
    // The book ends there, or before that index.
    (4, 100, 8, None),
    (5, 100, 8, None),
    (u64::MAX, 100, 8, None),
    (2, 100, 1, Some((Some(1), None))),
    (2, 3, 8, Some((Some(1), Some(2)))),
    (2, 2, 8, Some((Some(1), None))),
    (2, 0, 8, Some((Some(1), None))),
];

/// Puts from both seats, reads from indices by a version that was taken before these puts, and is shown them.
pub fn put_after_folded<N: Named, H: Ledger, R: Wait + Abort + Eprint>(
    rt: &R,
    alloc: Global,
    engine: &Engine<N, H>,
    seats: &mut [Seat<N, H>],
) {
    let (first, second) = two_seats(rt, seats);
    expect_status(rt, engine, first, 2, 12);
    let before = first.version();
    put_all(rt, alloc, engine, first, FIRST);
    put_all(rt, alloc, engine, second, SECOND);
    assert!(rt; same(rt, &size_of(&before), &(2, 12)));
    for (from, most_cells, room, expected) in READS {
        let mut seen = before.again();
        let found = read(rt, alloc, engine, &mut seen, *from, *most_cells, *room);
        assert!(rt; same_at(rt, &(*from, *most_cells, *room), &found, expected));
        assert!(rt; same_at(rt, from, &size_of(&seen), &(4, 15)));
    }
    expect_export(rt, alloc, engine, SUM);
    let list = engine.book_list(rt, alloc, first).expect(rt, "memory");
    let listed = (list.folded.len(), list.batches.len(), list.base.total());
    drop(list);
    assert!(rt; same(rt, &listed, &(2, 2, 12)));
}

// How many entries a version has, and their total.
fn size_of<N: Named>(version: &Version<N>) -> (u64, u64) {
    let status = version.status();
    (status.batches, status.total)
}

fn read<N: Named, H: Ledger, R: Wait + Abort>(
    rt: &R,
    alloc: Global,
    engine: &Engine<N, H>,
    seen: &mut Version<N>,
    from: u64,
    most_cells: u64,
    room: usize,
) -> Option<Read> {
    assert!(rt; room > 0);
    let mut out = Vec::with_capacity(alloc, room).expect(rt, "memory");
    let is_there = engine
        .batches_from(rt, seen, from, most_cells, &mut out)
        .is_ok();
    assert!(rt; out.len() <= 2);
    let number = |i: usize| -> Option<u64> { Some(out.get(i)?.number) };
    let found = (number(0), number(1));
    drop(out);
    is_there.then_some(found)
}
