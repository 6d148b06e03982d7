//! Lists and sums that were worked out by hand, in a matrix of 3 by 3.
ghost use Rattle.cells.specs.Bounds.{AreWithin, IsDimension};

use crate::fixtures::{Triple, built, can_add, cell, cells_of, has, small};
use cells::{Cell, checked_total, rises};
use hyper_matrix::{BuildFault, Hyper};
use std::alloc::Global;
use std::process::Abort;
use test_support::{holds_at, same_at};

const HALF: u64 = 1 << 63;

/// A list, and the cells of what it builds.
static BUILT: &[(&[Triple], &[Triple])] = &[
    (&[], &[]),
    (&[(1, 1, 0)], &[(1, 1, 0)]),
    (&[(2, 2, u64::MAX)], &[(2, 2, u64::MAX)]),
    (&[(0, 0, 1), (0, 1, 0)], &[(0, 0, 1), (0, 1, 0)]),
    (
        &[(2, 1, 3), (0, 2, 1), (2, 0, 0), (0, 2, 5), (2, 1, 4)],
        &[(0, 2, 6), (2, 0, 0), (2, 1, 7)],
    ),
];

/// Two lists, and the cells of their matrices' sum.
static SUMS: &[(&[Triple], &[Triple], &[Triple])] = &[
    (&[], &[], &[]),
    (&[(0, 0, 1), (0, 1, 0)], &[], &[(0, 0, 1), (0, 1, 0)]),
    (
        &[(0, 0, 1), (0, 1, 0)],
        &[(0, 0, 2), (2, 2, 4)],
        &[(0, 0, 3), (0, 1, 0), (2, 2, 4)],
    ),
    (&[(1, 1, 0)], &[(1, 1, 0)], &[(1, 1, 0)]),
    (&[(1, 1, HALF)], &[(1, 1, HALF - 1)], &[(1, 1, u64::MAX)]),
];

/// A list, and the fault of its first cell that has one.
static REFUSED: &[(&[Triple], BuildFault)] = &[
    (&[(3, 0, 1)], BuildFault::IndexOutOfRange),
    (&[(0, 3, 1)], BuildFault::IndexOutOfRange),
    (&[(0, 0, 1), (3, 0, 0)], BuildFault::IndexOutOfRange),
    (&[(0, 0, HALF), (1, 1, HALF)], BuildFault::SumTooLarge),
    (
        &[(0, 0, HALF), (0, 0, HALF), (3, 0, 1)],
        BuildFault::SumTooLarge,
    ),
    (&[(0, 0, HALF), (3, 0, HALF)], BuildFault::IndexOutOfRange),
];

// Whether a list makes the matrix of these cells, lent and given away.
fn builds(rt: &impl Abort, alloc: Global, list: &[Triple], want: &[Triple]) -> bool {
    let want = cells_of(rt, alloc, want);
    let lent = small(rt, alloc, list);
    let given = Hyper::build_list(alloc, 3, 3, cells_of(rt, alloc, list)).expect(rt, "a matrix");
    let same = lent.dims() == (3, 3) && Some(given.total()) == checked_total(&want);
    let has_all = same && has(rt, alloc, &lent, &want) && has(rt, alloc, &given, &want);
    drop(lent);
    drop(given);
    drop(want);
    has_all
}

#[test]
fn lists(rt: HostRuntime) {
    for (list, want) in BUILT {
        assert!(rt; holds_at(&rt, &list, builds(&rt, rt.alloc(), list, want)));
    }
}

// Whether a copy of a matrix and a list of cells in order have this sum.
fn list_sum_has(rt: &impl Abort, alloc: Global, a: &Hyper, list: &[Cell], want: &[Cell]) -> bool
    requires { AreWithin a.now.rows a.now.cols list.now }
{
    let fits = match checked_total(list) {
        Some(sum) => a.total().checked_add(sum).is_some(),
        None => false,
    };
    if !fits || !rises(list) {
        return false;
    }
    let copy = a.copy(alloc).expect(rt, "memory");
    let sum = copy.into_sum_with_cells(alloc, list).expect(rt, "memory");
    let has_all = has(rt, alloc, &sum, want);
    drop(sum);
    has_all
}

// Whether two matrices have these cells as their sum, lent and given away.
fn sum_has(rt: &impl Abort, alloc: Global, a: Hyper, b: Hyper, want: &[Cell]) -> bool {
    if !can_add(&a, &b) {
        drop(a);
        drop(b);
        return false;
    }
    let lent = a.ewise_add(alloc, &b).expect(rt, "memory");
    let given = a.into_sum(alloc, b).expect(rt, "memory");
    let have_all = has(rt, alloc, &lent, want) && has(rt, alloc, &given, want);
    drop(lent);
    drop(given);
    have_all
}

fn sums(rt: &impl Abort, alloc: Global, xs: &[Triple], ys: &[Triple], want: &[Triple]) -> bool {
    let a = small(rt, alloc, xs);
    let b = small(rt, alloc, ys);
    let want = cells_of(rt, alloc, want);
    let list = b.cells(alloc).expect(rt, "memory");
    let with_list = a.dims() == b.dims() && list_sum_has(rt, alloc, &a, &list, &want);
    drop(list);
    let fits = sum_has(rt, alloc, a, b, &want);
    drop(want);
    with_list && fits
}

#[test]
fn pairs(rt: HostRuntime) {
    for (xs, ys, want) in SUMS {
        assert!(rt; holds_at(&rt, &(xs, ys), sums(&rt, rt.alloc(), xs, ys, want)));
    }
}

// The faults of a list, lent and given away.
fn faults(rt: &impl Abort, alloc: Global, list: &[Triple]) -> [Option<BuildFault>; 2] {
    let list = cells_of(rt, alloc, list);
    let lent = Hyper::build(alloc, 3, 3, &list).err();
    [lent, Hyper::build_list(alloc, 3, 3, list).err()]
}

#[test]
fn refusals(rt: HostRuntime) {
    for (list, want) in REFUSED {
        let found = faults(&rt, rt.alloc(), list);
        assert!(rt; same_at(&rt, &list, &found, &[Some(*want); 2]));
    }
}

fn reaches(rt: &impl Abort, alloc: Global, side: u64) -> bool
    requires { IsDimension side }
{
    let corner = [cell((side - 1, side - 1, u64::MAX))];
    let m = built(rt, alloc, side, &corner);
    let has_all = m.dims() == (side, side) && has(rt, alloc, &m, &corner);
    drop(m);
    has_all
}

#[test]
fn greatest_dimensions(rt: HostRuntime) {
    assert!(rt; reaches(&rt, rt.alloc(), 1));
    assert!(rt; reaches(&rt, rt.alloc(), 1 << 60));
    let empty = Hyper::new(rt.alloc(), 1 << 60, 1);
    let is_empty = has(&rt, rt.alloc(), &empty, &[]) && empty.dims() == (1 << 60, 1);
    drop(empty);
    assert!(rt; is_empty);
}
