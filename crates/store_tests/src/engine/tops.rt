//! The rows that lead of what was put.
use crate::engine::puts::{Step, engine_of};
use batch_store::Setup;
use cell_queries::{RowTally, TopBy};
use plain_engine::ViewedSum;
use std::alloc::Global;
use std::process::Abort;
use test_support::holds_at;

// How many rows, and the number, the entries and the total of each.
type Top = (TopBy, usize, &'static [(u64, u64, u64)]);

// Rows 0, 3 and 6 are of shard 0, rows 1 and 4 of shard 1, row 2 is of shard 2.
static PUTS: &[Step] = &[
    (
        7,
        1,
        &[
            (0, 0, 4),
            (1, 0, 2),
            (2, 1, 20),
            (3, 3, 1),
            (3, 4, 1),
            (6, 6, 9),
        ],
        Ok((0, 37)),
    ),
    (
        8,
        1,
        &[(0, 0, 5), (1, 3, 7), (3, 5, 1), (4, 0, 0)],
        Ok((1, 50)),
    ),
];

static TOPS: &[Top] = &[
    (TopBy::Total, 0, &[]),
    (TopBy::Total, 3, &[(2, 1, 20), (0, 1, 9), (1, 2, 9)]),
    (
        TopBy::Total,
        10,
        &[
            (2, 1, 20),
            (0, 1, 9),
            (1, 2, 9),
            (6, 1, 9),
            (3, 3, 3),
            (4, 1, 0),
        ],
    ),
    (TopBy::Entries, 2, &[(3, 3, 3), (1, 2, 9)]),
    (
        TopBy::Entries,
        4,
        &[(3, 3, 3), (1, 2, 9), (0, 1, 9), (2, 1, 20)],
    ),
];

fn tallies_of(rt: &impl Abort, alloc: Global, table: &[(u64, u64, u64)]) -> Vec<RowTally> {
    let mut rows = Vec::new(alloc);
    for (row, entries, total) in table {
        let tally = RowTally {
            row: *row,
            entries: *entries,
            total: *total,
        };
        rows.push(tally).expect(rt, "memory");
    }
    rows
}

// Whether the rows that lead of a sum are those of a table.
fn leads(rt: &impl Abort, alloc: Global, sum: &ViewedSum, top: &Top) -> bool {
    let rows = sum.top(alloc, top.0, top.1).expect(rt, "memory");
    let wanted = tallies_of(rt, alloc, top.2);
    let is_same = rows.as_slice() == wanted.as_slice();
    drop(wanted);
    drop(rows);
    is_same
}

#[test]
fn rows_lead_over_all_shards(rt: HostRuntime) {
    let setup = Setup::new(7, 7, &[2, 4], 3, 100, 10).expect(&rt, "a setup");
    let engine = engine_of(&rt, rt.alloc(), setup, PUTS);
    let sum = engine.viewed(rt.alloc()).expect(&rt, "memory");
    drop(engine);
    for top in TOPS {
        let is_same = leads(&rt, rt.alloc(), &sum, top);
        assert!(rt; holds_at(&rt, &(top.0, top.1), is_same));
    }
    drop(sum);
}
