//! The rows that lead of several sources, which are offered one after the other.
use crate::fixtures::Triple;
use crate::merges::matrices::{matrix, merged};
use cell_queries::{Leaders, RowTally, TopBy};
use hyper_matrix::Hyper;
use std::alloc::Global;
use std::process::Abort;
use test_support::{same, same_at};

static EVEN: &[Triple] = &[(0, 5, 9), (2, 1, 20), (4, 0, 1), (4, 7, 1), (4, 8, 1)];

static ODD: &[Triple] = &[(1, 0, 2), (1, 3, 7), (3, 2, 0), (7, 7, 9)];

// How many rows, and their numbers, entries and totals.
type Top = (TopBy, usize, &'static [Triple]);

// Rows 0, 1 and 7 have the same total, and four rows have one entry.
static TOPS: &[Top] = &[
    (TopBy::Total, 0, &[]),
    (TopBy::Total, 1, &[(2, 1, 20)]),
    (TopBy::Total, 3, &[(2, 1, 20), (0, 1, 9), (1, 2, 9)]),
    (
        TopBy::Total,
        10,
        &[
            (2, 1, 20),
            (0, 1, 9),
            (1, 2, 9),
            (7, 1, 9),
            (4, 3, 3),
            (3, 1, 0),
        ],
    ),
    (TopBy::Entries, 2, &[(4, 3, 3), (1, 2, 9)]),
    (
        TopBy::Entries,
        4,
        &[(4, 3, 3), (1, 2, 9), (0, 1, 9), (2, 1, 20)],
    ),
];

fn tallies_of(rt: &impl Abort, alloc: Global, table: &[Triple]) -> Vec<RowTally> {
    let mut rows = Vec::new(alloc);
    for (row, entries, total) in table {
        let tally = RowTally {
            row: *row,
            entries: *entries,
            total: *total,
        };
        rows.push(tally).expect(rt, "memory");
    }
    rows
}

// Whether the rows that lead are these.
fn are(rt: &impl Abort, alloc: Global, leaders: Leaders, table: &[Triple]) -> bool {
    let top = leaders.into_rows(alloc).expect(rt, "memory");
    let wanted = tallies_of(rt, alloc, table);
    let is_same = top.as_slice() == wanted.as_slice();
    drop(wanted);
    drop(top);
    is_same
}

// Offers the rows of a matrix, which are those of the shard `s` of 2 or aren't.
fn offered(
    rt: &impl Abort,
    alloc: Global,
    leaders: &mut Leaders,
    all: &[Hyper],
    shard: u64,
) -> bool {
    let mut cells = merged(rt, alloc, all);
    let lies_there = leaders
        .offer_shard(&mut cells, shard, 2)
        .expect(rt, "memory");
    drop(cells);
    lies_there
}

fn one(rt: &impl Abort, alloc: Global, list: &[Triple]) -> Vec<Hyper> {
    let mut all = Vec::new(alloc);
    all.push(matrix(rt, alloc, list)).expect(rt, "memory");
    all
}

#[test]
fn shards_offer_their_rows_in_turn(rt: HostRuntime) {
    let (even, odd) = (one(&rt, rt.alloc(), EVEN), one(&rt, rt.alloc(), ODD));
    for top in TOPS {
        let mut leaders = Leaders::new(rt.alloc(), top.0, top.1);
        let first = offered(&rt, rt.alloc(), &mut leaders, &even, 0);
        let second = offered(&rt, rt.alloc(), &mut leaders, &odd, 1);
        let are_those = are(&rt, rt.alloc(), leaders, top.2);
        assert!(rt;
            same_at(
                &rt,
                &(top.0, top.1),
                &(first, second, are_those),
                &(true, true, true)
            )
        );
    }
    drop(odd);
    drop(even);
}

// The rows of a matrix as those of another shard, and then all of them: whether they are said to lie there, and
// whether the row 2 leads.
fn offered_wrongly(rt: &impl Abort, alloc: Global, all: &[Hyper]) -> (bool, bool) {
    let mut others = Leaders::new(alloc, TopBy::Total, 3);
    let lies_there = offered(rt, alloc, &mut others, all, 1);
    drop(others);
    let mut leaders = Leaders::new(alloc, TopBy::Total, 1);
    let mut cells = merged(rt, alloc, all);
    leaders.offer_all(&mut cells).expect(rt, "memory");
    drop(cells);
    (lies_there, are(rt, alloc, leaders, &[(2, 1, 20)]))
}

#[test]
fn rows_of_another_shard_are_reported(rt: HostRuntime) {
    let even = one(&rt, rt.alloc(), EVEN);
    let found = offered_wrongly(&rt, rt.alloc(), &even);
    drop(even);
    assert!(rt; same(&rt, &found, &(false, true)));
}
