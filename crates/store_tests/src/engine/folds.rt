//! Engines whose batches are folded: what they answer, and what is loaded again.
ghost use Rattle.std.specs.Prelude.{◌≡◌};

use crate::engine::loads::{Batches, list_of};
use crate::engine::lookups::exports;
use crate::engine::puts::{Step, engine_of, put_all};
use batch_store::{BookList, Setup};
use plain_engine::PutFault::{NumberReused, OverTotal};
use plain_engine::{LoadFault, PlainEngine};
use std::alloc::Global;
use std::io::Eprint;
use std::process::Abort;
use std::random::RandomSource;
use test_batches::{Cells, small_setup};
use test_support::{same, same_at};

// Folds the batches of an engine.
fn folded(rt: &impl Abort, alloc: Global, engine: PlainEngine) -> PlainEngine
    ensures { result.setup ≡ engine.setup }
{
    match engine.fold(alloc) {
        Ok(engine) => engine,
        Err(_) => panic!(rt; "memory"),
    }
}

/// The engine that has put the batches of a table, folded or not.
pub fn engine_as<R: RandomSource + Abort + Eprint>(
    rt: &R,
    alloc: Global,
    setup: Setup,
    steps: &[Step],
    is_folded: bool,
) -> PlainEngine
    ensures { result.setup ≡ setup }
{
    let engine = engine_of(rt, alloc, setup, steps);
    if is_folded {
        return folded(rt, alloc, engine);
    }
    engine
}

// How many batches an engine has accepted, how many of them are folded, their total, and how many it lists.
type Size = (u64, u64, u64, usize);

fn size(rt: &impl Abort, alloc: Global, engine: &PlainEngine) -> Size {
    let status = engine.status();
    let batches = engine.batches(alloc).expect(rt, "memory");
    let listed = batches.len();
    drop(batches);
    (status.batches, engine.folded(), status.total, listed)
}

const TWO: &[Step] = &[
    (7, 1, &[(0, 0, 5)], Ok((0, 5))),
    (8, 1, &[(0, 0, 3)], Ok((1, 8))),
];

// Once they are folded: a repeat, a number used again, one that passes the limit, and one that is new.
static AFTER_TWO: &[Step] = &[
    (7, 1, &[(0, 0, 5)], Ok((0, 5))),
    (7, 1, &[(0, 0, 6)], Err(NumberReused)),
    (9, 1, &[(0, 0, 93)], Err(OverTotal { accepted: 8 })),
    (9, 1, &[(0, 0, 2), (1, 2, 0)], Ok((2, 10))),
    (8, 1, &[(1, 1, 3)], Ok((1, 8))),
];

// Once that is folded too: the last batch, and another in its name.
static AFTER_THREE: &[Step] = &[
    (9, 1, &[(0, 0, 2), (1, 2, 0)], Ok((2, 10))),
    (9, 1, &[(0, 0, 2)], Err(NumberReused)),
];

static SUM: Cells = &[(0, 0, 10), (1, 2, 0)];

#[test]
fn folded_batches_are_known_again(rt: HostRuntime) {
    let setup = small_setup().expect(&rt, "a setup");
    let mut engine = engine_as(&rt, rt.alloc(), setup, TWO, true);
    let once = size(&rt, rt.alloc(), &engine);
    put_all(&rt, rt.alloc(), &setup, &mut engine, AFTER_TWO);
    let between = size(&rt, rt.alloc(), &engine);
    let mut engine = folded(&rt, rt.alloc(), engine);
    put_all(&rt, rt.alloc(), &setup, &mut engine, AFTER_THREE);
    let twice = size(&rt, rt.alloc(), &engine);
    let has_sum = exports(&rt, rt.alloc(), &engine, SUM);
    drop(engine);
    let want = [(2, 2, 8, 0), (3, 2, 10, 1), (3, 3, 10, 0)];
    assert!(rt; same(&rt, &([once, between, twice], has_sum), &(want, true)));
}

// What is loaded of the folded batches of an engine under another setup of its dimensions, with these batches after
// them.
fn loaded<R: RandomSource + Abort>(
    rt: &R,
    alloc: Global,
    engine: &PlainEngine,
    setup: Setup,
    more: Batches,
) -> Result<Size, LoadFault>
    requires rows { setup.rows ≡ engine.now.setup.rows }
    requires cols { setup.cols ≡ engine.now.setup.cols }
{
    let BookList {
        base,
        folded,
        batches: before,
    } = engine.book_list(alloc).expect(rt, "memory");
    drop(before);
    let batches = list_of(rt, alloc, &setup, more);
    let list = BookList {
        base,
        folded,
        batches,
    };
    let answer = PlainEngine::from_folded(rt, alloc, setup, &list);
    drop(list);
    let engine = answer?;
    let size = size(rt, alloc, &engine);
    drop(engine);
    Ok(size)
}

// The limit and the most batches of a setup, the batches after two folded ones of totals 5 and 3, and what is loaded.
static LOADS: &[(u64, u64, Batches, Result<Size, LoadFault>)] = &[
    (100, 10, &[], Ok((2, 2, 8, 0))),
    (100, 3, &[(9, 1, &[(1, 2, 92)])], Ok((3, 2, 100, 1))),
    (8, 2, &[], Ok((2, 2, 8, 0))),
    (7, 2, &[], Err(LoadFault::OverTotal { at: 1 })),
    (4, 1, &[], Err(LoadFault::OverTotal { at: 0 })),
    (8, 1, &[], Err(LoadFault::BookFull { at: 1 })),
    (
        100,
        10,
        &[(9, 1, &[]), (8, 1, &[(0, 0, 3)])],
        Err(LoadFault::RepeatedNumber { at: 3 }),
    ),
    (
        100,
        10,
        &[(9, 1, &[(0, 0, 93)])],
        Err(LoadFault::OverTotal { at: 2 }),
    ),
    (100, 2, &[(9, 1, &[])], Err(LoadFault::BookFull { at: 2 })),
];

// A setup of three rows and columns.
fn setup_within(rt: &impl Abort, limit: u64, most: u64) -> Setup
    ensures rows { result.rows ≡ 3 }
    ensures cols { result.cols ≡ 3 }
{
    Setup::new(3, 3, &[2, 4], 2, limit, most).expect(rt, "a setup")
}

#[test]
fn folded_batches_are_judged_first(rt: HostRuntime) {
    let engine = engine_as(
        &rt,
        rt.alloc(),
        small_setup().expect(&rt, "a setup"),
        TWO,
        true,
    );
    for (limit, most, more, expected) in LOADS {
        let setup = setup_within(&rt, *limit, *most);
        let found = loaded(&rt, rt.alloc(), &engine, setup, more);
        assert!(rt; same_at(&rt, &(*limit, *most), &found, expected));
    }
    drop(engine);
}
