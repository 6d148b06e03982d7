//! Lists of a few cells, whose sum was worked out by hand.
use crate::fixtures::{Triple, cells_of};
use crate::merges::matrices::{listed, matrices};
use std::alloc::Global;
use std::io::Eprint;
use std::process::Abort;
use test_support::holds_at;

const MAX: u64 = u64::MAX;

// The last row and column that there may be.
const LAST: u64 = (1 << 60) - 1;

/// The entries of each matrix, and those of their sum.
type Case = (&'static [&'static [Triple]], &'static [Triple]);

static CASES: &[Case] = &[
    // No matrix, and matrices without a cell.
    (&[], &[]),
    (&[&[], &[]], &[]),
    (&[&[], &[(2, 3, 5)], &[]], &[(2, 3, 5)]),
    // One matrix, of several rows.
    (
        &[&[(0, 9, 1), (3, 0, 2), (3, 1, 3)]],
        &[(0, 9, 1), (3, 0, 2), (3, 1, 3)],
    ),
    // Cells in turns, and one matrix behind another.
    (
        &[&[(0, 0, 1), (0, 2, 3)], &[(0, 1, 2), (0, 3, 4)]],
        &[(0, 0, 1), (0, 1, 2), (0, 2, 3), (0, 3, 4)],
    ),
    (
        &[&[(5, 0, 1), (6, 0, 1)], &[(1, 9, 7), (4, 9, 7)]],
        &[(1, 9, 7), (4, 9, 7), (5, 0, 1), (6, 0, 1)],
    ),
    // A place in three of four matrices, between others.
    (
        &[
            &[(1, 1, 1), (2, 2, 10)],
            &[(2, 2, 20)],
            &[(2, 1, 5), (2, 2, 30), (2, 3, 6)],
            &[(9, 9, 9)],
        ],
        &[(1, 1, 1), (2, 1, 5), (2, 2, 60), (2, 3, 6), (9, 9, 9)],
    ),
    // The same matrix three times.
    (
        &[
            &[(0, 0, 1), (7, 7, 2)],
            &[(0, 0, 1), (7, 7, 2)],
            &[(0, 0, 1), (7, 7, 2)],
        ],
        &[(0, 0, 3), (7, 7, 6)],
    ),
    // Rows come before columns: a low column in a high row is later.
    (&[&[(1, 0, 1)], &[(0, LAST, 2)]], &[(0, LAST, 2), (1, 0, 1)]),
    // Stored zeros stay, alone and together.
    (
        &[&[(1, 1, 0), (2, 2, 0)], &[(1, 1, 0)], &[(3, 3, 0)]],
        &[(1, 1, 0), (2, 2, 0), (3, 3, 0)],
    ),
    // The last place, and the largest total.
    (
        &[&[(LAST, LAST, 1)], &[(LAST, LAST, MAX - 3)], &[(0, 0, 2)]],
        &[(0, 0, 2), (LAST, LAST, MAX - 2)],
    ),
];

fn check(rt: &(impl Abort + Eprint), alloc: Global, case: &Case) {
    let sources = matrices(rt, alloc, case.0);
    let list = listed(rt, alloc, &sources);
    drop(sources);
    let want = cells_of(rt, alloc, case.1);
    let is_wanted = list.as_slice() == want.as_slice();
    drop(want);
    assert!(rt; holds_at(rt, &list, is_wanted));
    drop(list);
}

#[test]
fn sums_are_gone_through_in_order(rt: HostRuntime) {
    for case in CASES {
        check(&rt, rt.alloc(), case);
    }
}
