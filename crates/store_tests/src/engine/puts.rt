//! Puts: what each of a table is answered.
ghost use Rattle.std.specs.Prelude.{◌≡◌};

use batch_store::Setup;
use plain_engine::PutFault::{BookFull, NumberReused, OverTotal};
use plain_engine::{PlainEngine, PutFault};
use std::alloc::Global;
use std::io::Eprint;
use std::process::Abort;
use std::random::RandomSource;
use test_batches::{Cells, batch, setup_up_to};
use test_support::same_at;

/// The index and the total of a kept reply, or why there is none.
type Answer = Result<(u64, u64), PutFault>;

/// The client, the number and the cells of a batch that is put, and what is answered.
pub type Step = (u64, u64, Cells, Answer);

// Puts the batch of a table's row.
fn put(
    rt: &impl Abort,
    alloc: Global,
    setup: &Setup,
    engine: &mut PlainEngine,
    step: &Step,
) -> Answer
    requires { engine.old.setup ≡ setup.now }
    ensures { engine.new.setup ≡ setup.now }
{
    match engine.put(
        alloc,
        batch(alloc, setup, (step.0, step.1), step.2).expect(rt, "a batch"),
    ) {
        Ok(kept) => Ok((kept.index, kept.total_after)),
        Err(fault) => Err(fault),
    }
}

/// Puts the batches of a table, and compares each answer.
pub fn put_all(
    rt: &(impl Abort + Eprint),
    alloc: Global,
    setup: &Setup,
    engine: &mut PlainEngine,
    steps: &[Step],
)
    requires { engine.old.setup ≡ setup.now }
    ensures { engine.new.setup ≡ setup.now }
{
    'steps: for step in steps {
        let answer = put(rt, alloc, setup, engine, step);
        assert!(rt; same_at(rt, &(step.0, step.1, step.2), &answer, &step.3));
    }
}

/// The engine that has put the batches of a table.
pub fn engine_of<R: RandomSource + Abort + Eprint>(
    rt: &R,
    alloc: Global,
    setup: Setup,
    steps: &[Step],
) -> PlainEngine
    ensures { result.setup ≡ setup }
{
    let mut engine = PlainEngine::new(rt, alloc, setup).expect(rt, "an engine");
    put_all(rt, alloc, &setup, &mut engine, steps);
    engine
}

// Repeats, and numbers used for other batches: another total, or as many counts in more places. A batch of as many
// cells with the same total in another place is known all the same.
const REPEATS: &[Step] = &[
    (7, 1, &[(0, 0, 5)], Ok((0, 5))),
    (8, 1, &[(0, 0, 3)], Ok((1, 8))),
    (7, 1, &[(0, 0, 5)], Ok((0, 5))),
    (7, 1, &[(0, 0, 6)], Err(NumberReused)),
    (7, 1, &[(0, 0, 5), (0, 1, 0)], Err(NumberReused)),
    (7, 1, &[(2, 2, 5)], Ok((0, 5))),
    (7, 2, &[(0, 0, 6)], Ok((2, 14))),
];

// With a limit of 100.
const WITHIN_100: &[Step] = &[
    (7, 1, &[(0, 0, 90)], Ok((0, 90))),
    (8, 1, &[(0, 0, 11)], Err(OverTotal { accepted: 90 })),
    (8, 1, &[(1, 2, 10)], Ok((1, 100))),
    (9, 1, &[(0, 0, 0)], Ok((2, 100))),
    (7, 1, &[(0, 0, 90)], Ok((0, 90))),
    (9, 2, &[(2, 2, 1)], Err(OverTotal { accepted: 100 })),
];

// With at most one batch.
const AT_MOST_ONE: &[Step] = &[
    (7, 1, &[(0, 0, 5)], Ok((0, 5))),
    (8, 1, &[(0, 0, 3)], Err(BookFull)),
    (8, 1, &[(0, 0, 96)], Err(OverTotal { accepted: 5 })),
    (7, 1, &[(0, 0, 5)], Ok((0, 5))),
    (7, 1, &[(0, 0, 101)], Err(NumberReused)),
];

const EMPTY: &[Step] = &[(9, 1, &[], Ok((0, 0))), (9, 1, &[], Ok((0, 0)))];

// Two counts of 2^63 and one less, with the greatest limit.
const GREATEST: &[Step] = &[
    (
        7,
        1,
        &[(0, 0, 1 << 63), (1, 0, (1 << 63) - 1)],
        Ok((0, u64::MAX)),
    ),
    (7, 2, &[(0, 0, 1)], Err(OverTotal { accepted: u64::MAX })),
    (
        7,
        3,
        &[(0, 0, u64::MAX)],
        Err(OverTotal { accepted: u64::MAX }),
    ),
    (7, 4, &[(0, 0, 0)], Ok((1, u64::MAX))),
];

// A limit, the most batches, what is put, and how many batches are accepted, and their total.
static PUTS: &[(u64, u64, &[Step], (u64, u64))] = &[
    (100, 10, REPEATS, (3, 14)),
    (100, 10, WITHIN_100, (3, 100)),
    (100, 1, AT_MOST_ONE, (1, 5)),
    (100, 10, EMPTY, (1, 0)),
    (u64::MAX, 10, GREATEST, (2, u64::MAX)),
];

#[test]
fn puts_are_answered(rt: HostRuntime) {
    for (limit, most, steps, accepted) in PUTS {
        let setup = setup_up_to(*limit, *most).expect(&rt, "a setup");
        let engine = engine_of(&rt, rt.alloc(), setup, steps);
        let status = engine.status();
        drop(engine);
        let found = (status.batches, status.total);
        assert!(rt; same_at(&rt, &(*limit, *most), &found, accepted));
    }
}
