//! Skips, and pages of ranges, in two matrices that are merged and in one that has the same cells.
use crate::fixtures::{Triple, cell, cells_of};
use crate::merges::matrices::{matrices, matrix, merged};
use cell_queries::{CellRange, Span, range_of};
use cells::Cell;
use hyper_matrix::Hyper;
use merged_cells::MergedCells;
use std::alloc::Global;
use std::process::Abort;
use test_support::{holds_at, same_at};

const MAX: u64 = u64::MAX;

static APART: &[&[Triple]] = &[
    &[(0, 5, 4), (2, 1, 20), (4, 0, 1), (4, 8, 1)],
    &[
        (0, 5, 5),
        (1, 0, 2),
        (1, 3, 7),
        (3, 2, 0),
        (4, 7, 1),
        (7, 7, 9),
    ],
];

/// All of these together.
static TOGETHER: &[Triple] = &[
    (0, 5, 9),
    (1, 0, 2),
    (1, 3, 7),
    (2, 1, 20),
    (3, 2, 0),
    (4, 0, 1),
    (4, 7, 1),
    (4, 8, 1),
    (7, 7, 9),
];

/// A place, and the first cell from there on.
static SKIPS: &[((u64, u64), Option<Triple>)] = &[
    ((0, 0), Some((0, 5, 9))),
    ((0, 5), Some((0, 5, 9))),
    ((0, 6), Some((1, 0, 2))),
    ((1, MAX), Some((2, 1, 20))),
    ((4, 1), Some((4, 7, 1))),
    ((5, 0), Some((7, 7, 9))),
    ((7, 8), None),
    ((MAX, MAX), None),
];

// The first cell of a matrix from a place on.
fn left_of(m: &Hyper, place: (u64, u64)) -> Option<Cell> {
    let mut cells = m.iter();
    cells.skip_to(place);
    cells.next()
}

#[test]
fn cells_before_a_place_are_skipped(rt: HostRuntime) {
    let all = matrices(&rt, rt.alloc(), APART);
    let m = matrix(&rt, rt.alloc(), TOGETHER);
    for (place, want) in SKIPS {
        let mut sum = merged(&rt, rt.alloc(), &all);
        sum.skip_to(*place);
        let found = [sum.next(), left_of(&m, *place)];
        drop(sum);
        assert!(rt; same_at(&rt, place, &found, &[want.map(cell); 2]));
    }
    drop(m);
    drop(all);
}

/// The first and the last row, the first and the last column, a place, how many cells are asked for, those that come,
/// and whether there are more.
type Asked = (
    (u64, u64),
    (u64, u64),
    (u64, u64),
    usize,
    &'static [Triple],
    bool,
);

static PAGES: &[Asked] = &[
    ((0, MAX), (0, MAX), (0, 0), 2, &[(0, 5, 9), (1, 0, 2)], true),
    (
        (0, MAX),
        (0, MAX),
        (4, 8),
        9,
        &[(4, 8, 1), (7, 7, 9)],
        false,
    ),
    (
        (1, 4),
        (1, 7),
        (0, 0),
        4,
        &[(1, 3, 7), (2, 1, 20), (3, 2, 0), (4, 7, 1)],
        false,
    ),
    ((1, 4), (1, 7), (2, 2), 1, &[(3, 2, 0)], true),
    ((1, 4), (1, 7), (2, 2), 0, &[], true),
    ((9, 8), (0, MAX), (0, 0), 9, &[], false),
    ((0, MAX), (5, 4), (0, 0), 9, &[], false),
];

// Whether merged cells give a page.
fn page_of(rt: &impl Abort, alloc: Global, sum: &mut MergedCells<'_>, asked: &Asked) -> bool {
    let range = CellRange {
        rows: Span {
            first: asked.0.0,
            last: asked.0.1,
        },
        cols: Span {
            first: asked.1.0,
            last: asked.1.1,
        },
        start: asked.2,
    };
    let page = range_of(alloc, sum, &range, asked.3).expect(rt, "memory");
    let want = cells_of(rt, alloc, asked.4);
    let is_wanted = page.cells.as_slice() == want.as_slice() && page.more == asked.5;
    drop(want);
    drop(page);
    is_wanted
}

#[test]
fn pages_begin_anywhere(rt: HostRuntime) {
    let all = matrices(&rt, rt.alloc(), APART);
    for asked in PAGES {
        let mut sum = merged(&rt, rt.alloc(), &all);
        let is_wanted = page_of(&rt, rt.alloc(), &mut sum, asked);
        drop(sum);
        assert!(rt; holds_at(&rt, asked, is_wanted));
    }
    drop(all);
}
