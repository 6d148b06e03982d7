//! Cells, rows, sums and shards of what was put.
use crate::engine::puts::{Step, engine_of};
use plain_engine::PlainEngine;
use std::alloc::Global;
use std::process::Abort;
use test_batches::{cells_of, small_setup};
use test_support::{same, same_at};

// Rows 0 and 2 are of shard 0, row 1 is of shard 1.
static THREE: &[Step] = &[
    (7, 1, &[(0, 0, 5), (1, 1, 0)], Ok((0, 5))),
    (8, 1, &[(0, 1, 3), (1, 0, 4)], Ok((1, 12))),
    (9, 1, &[(2, 2, 1), (0, 0, 2)], Ok((2, 15))),
];

static SUM: &[(u64, u64, u64)] = &[(0, 0, 7), (0, 1, 3), (1, 0, 4), (1, 1, 0), (2, 2, 1)];

// What an engine has at each place of some more rows and columns than there are.
static PLACES: &[(u64, u64, Option<u64>)] = &[
    (0, 0, Some(7)),
    (0, 1, Some(3)),
    (0, 2, None),
    (1, 0, Some(4)),
    (1, 1, Some(0)),
    (1, 2, None),
    (2, 1, None),
    (2, 2, Some(1)),
    (3, 0, None),
    (0, 3, None),
    (u64::MAX, u64::MAX, None),
];

static ROWS: &[(u64, u64, u64)] = &[(0, 2, 10), (1, 2, 4), (2, 1, 1), (3, 0, 0), (4, 0, 0)];

// The number of a shard, its total, and how many batches are in its record.
static SHARDS: &[(u64, Option<(u64, u64, u64)>)] = &[
    // The first batch has a stored zero in row 1.
    (0, Some((0, 11, 3))),
    (1, Some((1, 4, 2))),
    (2, None),
    (u64::MAX, None),
];

/// Whether the sum of all batches has three rows and columns, and the cells of a table.
pub fn exports(
    rt: &impl Abort,
    alloc: Global,
    engine: &PlainEngine,
    table: &[(u64, u64, u64)],
) -> bool {
    let sum = engine.export(alloc).expect(rt, "memory");
    let cells = sum.cells(alloc).expect(rt, "memory");
    let expected = cells_of(alloc, table).expect(rt, "memory");
    let has = sum.dims() == (3, 3) && cells.as_slice() == expected.as_slice();
    drop(expected);
    drop(cells);
    drop(sum);
    has
}

fn shard_sizes(engine: &PlainEngine, s: u64) -> Option<(u64, u64, u64)> {
    let shard = engine.shard(s)?;
    Some((shard.number(), shard.total(), shard.record_len()))
}

#[test]
fn look_ups_are_those_of_the_sum(rt: HostRuntime) {
    let engine = engine_of(&rt, rt.alloc(), small_setup().expect(&rt, "a setup"), THREE);
    for (row, col, count) in PLACES {
        assert!(rt; same_at(&rt, &(*row, *col), &engine.cell(*row, *col), count));
    }
    for (row, entries, total) in ROWS {
        let sum = engine.row(*row);
        assert!(rt; same_at(&rt, row, &(sum.entries, sum.total), &(*entries, *total)));
    }
    for (s, want) in SHARDS {
        assert!(rt; same_at(&rt, s, &shard_sizes(&engine, *s), want));
    }
    let setup = engine.setup();
    let found = (
        exports(&rt, rt.alloc(), &engine, SUM),
        setup.shards(),
        setup.limit(),
    );
    drop(engine);
    assert!(rt; same(&rt, &found, &(true, 2, 100)));
}
