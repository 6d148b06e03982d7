//! Engines taken apart and put together again, folded and not.
use crate::engine::folds::engine_as;
use crate::engine::puts::Step;
use plain_engine::{Status, join_parts};
use std::alloc::Global;
use std::io::Eprint;
use std::process::Abort;
use std::random::RandomSource;
use test_batches::small_setup;
use test_support::same_at;

/// The batches that an engine has put, and whether they are folded.
type Engine = (&'static [Step], bool);

/// What a book and shards make: the status of an engine, or the lengths of the book and of the shards handed back.
type Joined = Result<Status, (u64, usize)>;

/// The engine whose book is taken, the one whose shards are, and what they make together.
type Case = (Engine, Engine, Joined);

const NONE: Engine = (&[], false);

const FIVE: Engine = (&[(7, 1, &[(0, 0, 5)], Ok((0, 5)))], false);

// Of the same pair and numbers, elsewhere in the same row.
const ELSEWHERE: Engine = (&[(7, 1, &[(0, 1, 5)], Ok((0, 5)))], false);

// With a stored zero in the other shard too.
const WITH_ZERO: Engine = (&[(7, 1, &[(0, 0, 5), (1, 1, 0)], Ok((0, 5)))], false);

const OTHER_CLIENT: Engine = (&[(8, 1, &[(0, 0, 5)], Ok((0, 5)))], false);

const OTHER_NUMBER: Engine = (&[(7, 2, &[(0, 0, 5)], Ok((0, 5)))], false);

const TWO_STEPS: &[Step] = &[
    (7, 1, &[(0, 0, 5)], Ok((0, 5))),
    (8, 1, &[(2, 0, 3), (1, 1, 1)], Ok((1, 9))),
];

const TWO: Engine = (TWO_STEPS, false);

const TWO_FOLDED: Engine = (TWO_STEPS, true);

const TURNED: Engine = (
    &[
        (8, 1, &[(2, 0, 3), (1, 1, 1)], Ok((0, 4))),
        (7, 1, &[(0, 0, 5)], Ok((1, 9))),
    ],
    false,
);

// The sum of those two as one batch, and in another column.
const SUM_FOLDED: Engine = (
    &[(7, 1, &[(0, 0, 5), (1, 1, 1), (2, 0, 3)], Ok((0, 9)))],
    true,
);

const OTHER_FOLDED: Engine = (
    &[(7, 1, &[(0, 0, 5), (1, 1, 1), (2, 1, 3)], Ok((0, 9)))],
    true,
);

// A batch without cells is in no record.
const WITH_EMPTY: Engine = (
    &[(7, 1, &[(0, 0, 5)], Ok((0, 5))), (9, 1, &[], Ok((1, 5)))],
    false,
);

const JOINED_TWO: Joined = Ok(Status {
    batches: 2,
    total: 9,
});

static CASES: &[Case] = &[
    (
        NONE,
        NONE,
        Ok(Status {
            batches: 0,
            total: 0,
        }),
    ),
    (TWO, TWO, JOINED_TWO),
    (
        WITH_EMPTY,
        FIVE,
        Ok(Status {
            batches: 2,
            total: 5,
        }),
    ),
    (FIVE, NONE, Err((1, 2))),
    (NONE, FIVE, Err((0, 2))),
    (FIVE, ELSEWHERE, Err((1, 2))),
    (FIVE, WITH_ZERO, Err((1, 2))),
    (WITH_ZERO, FIVE, Err((1, 2))),
    (FIVE, OTHER_CLIENT, Err((1, 2))),
    (FIVE, OTHER_NUMBER, Err((1, 2))),
    (FIVE, TWO, Err((1, 2))),
    (TWO, FIVE, Err((2, 2))),
    (TWO, TURNED, Err((2, 2))),
    (TWO_FOLDED, TWO_FOLDED, JOINED_TWO),
    // The bases are compared, and not what they were folded from.
    (TWO_FOLDED, SUM_FOLDED, JOINED_TWO),
    (TWO_FOLDED, OTHER_FOLDED, Err((2, 2))),
    (TWO_FOLDED, TWO, Err((2, 2))),
    (TWO, TWO_FOLDED, Err((2, 2))),
];

// What the book of one engine and the shards of another make.
fn joined<R: RandomSource + Abort + Eprint>(
    rt: &R,
    alloc: Global,
    first: Engine,
    second: Engine,
) -> Joined {
    let setup = small_setup().expect(rt, "a setup");
    let (_, book, own) = engine_as(rt, alloc, setup, first.0, first.1).parts();
    drop(own);
    let (_, other, shards) = engine_as(rt, alloc, setup, second.0, second.1).parts();
    drop(other);
    match join_parts(setup, book, shards) {
        Ok(engine) => {
            let status = engine.status();
            drop(engine);
            Ok(status)
        }
        Err((book, shards)) => {
            let lengths = (book.len(), shards.len());
            drop(book);
            drop(shards);
            Err(lengths)
        }
    }
}

#[test]
fn records_and_bases_are_compared_with_the_book(rt: HostRuntime) {
    for (first, second, expected) in CASES {
        let found = joined(&rt, rt.alloc(), *first, *second);
        assert!(rt; same_at(&rt, &(first, second), &found, expected));
    }
}
