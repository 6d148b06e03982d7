//! Look-ups in the matrix {(0, 0): 3, (0, 1): 0, (2, 2): 4} of 3 by 3, and in the empty matrix. Its cells are also pushed
//! to a list that has others.
use crate::fixtures::{Triple, cell, cells_of, small};
use hyper_matrix::{Entry, Hyper, RowSum};
use std::alloc::Global;
use std::process::Abort;
use test_support::{holds_at, same};

/// A question and its answer.
#[derive(Clone, Copy, Debug)]
enum LookUp {
    /// The count at a row and a column.
    Get(u64, u64, Option<u64>),
    /// The entries of a row, and their counts together.
    RowTotal(u64, u64, u64),
    /// The cell of a number.
    CellAt(u64, Option<Triple>),
    /// In a row from a column on, the column and the count of the first entry.
    FirstInRow(u64, u64, Option<(u64, u64)>),
}

use LookUp::{CellAt, FirstInRow, Get, RowTotal};

static SMALL: &[Triple] = &[(2, 2, 4), (0, 1, 0), (0, 0, 1), (0, 0, 2)];

static IN_SMALL: &[LookUp] = &[
    Get(0, 0, Some(3)),
    Get(0, 1, Some(0)),
    Get(0, 2, None),
    Get(1, 0, None),
    Get(1, 2, None),
    Get(2, 0, None),
    Get(2, 1, None),
    Get(2, 2, Some(4)),
    Get(2, 3, None),
    Get(3, 2, None),
    Get(u64::MAX, u64::MAX, None),
    RowTotal(0, 2, 3),
    RowTotal(1, 0, 0),
    RowTotal(2, 1, 4),
    RowTotal(3, 0, 0),
    RowTotal(u64::MAX, 0, 0),
    CellAt(0, Some((0, 0, 3))),
    CellAt(1, Some((0, 1, 0))),
    CellAt(2, Some((2, 2, 4))),
    CellAt(3, None),
    CellAt(u64::MAX, None),
    FirstInRow(0, 0, Some((0, 3))),
    FirstInRow(0, 1, Some((1, 0))),
    FirstInRow(0, 2, None),
    FirstInRow(1, 0, None),
    FirstInRow(2, 0, Some((2, 4))),
    FirstInRow(2, 2, Some((2, 4))),
    FirstInRow(2, 3, None),
    FirstInRow(3, 0, None),
    FirstInRow(2, u64::MAX, None),
];

static IN_NONE: &[LookUp] = &[
    Get(0, 0, None),
    RowTotal(0, 0, 0),
    CellAt(0, None),
    FirstInRow(0, 0, None),
];

fn is_answered(m: &Hyper, question: LookUp) -> bool {
    match question {
        Get(row, col, want) => m.get(row, col) == want,
        RowTotal(row, entries, total) => m.row_total(row) == RowSum { entries, total },
        CellAt(i, want) => m.cell_at(i) == want.map(cell),
        FirstInRow(row, from, want) => {
            m.first_in_row(row, from) == want.map(|(col, count)| Entry { col, count })
        }
    }
}

// The first question that the matrix of a list answers wrongly.
fn first_wrong(
    rt: &impl Abort,
    alloc: Global,
    list: &[Triple],
    questions: &[LookUp],
) -> Option<LookUp> {
    let m = small(rt, alloc, list);
    for question in questions {
        if !is_answered(&m, *question) {
            drop(m);
            return Some(*question);
        }
    }
    drop(m);
    None
}

#[test]
fn small_tables(rt: HostRuntime) {
    let wrong = [
        first_wrong(&rt, rt.alloc(), SMALL, IN_SMALL),
        first_wrong(&rt, rt.alloc(), &[], IN_NONE),
    ];
    assert!(rt; holds_at(&rt, &wrong, wrong[0].is_none() && wrong[1].is_none()));
}

#[test]
fn cells_are_pushed(rt: HostRuntime) {
    let m = small(&rt, rt.alloc(), SMALL);
    let mut list = cells_of(&rt, rt.alloc(), &[(7, 7, 7)]);
    m.push_cells(&mut list).expect(&rt, "memory");
    drop(m);
    let want = cells_of(
        &rt,
        rt.alloc(),
        &[(7, 7, 7), (0, 0, 3), (0, 1, 0), (2, 2, 4)],
    );
    assert!(rt; same(&rt, &list, &want));
    drop(want);
    drop(list);
}
