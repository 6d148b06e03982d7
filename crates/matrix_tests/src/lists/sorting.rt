//! The sort of a list that is lent and of one that is given away.
use crate::fixtures::{Triple, cell, cells_of, mixed};
use cells::{Cell, into_sorted, sorted};
use std::alloc::Global;
use std::io::Eprint;
use std::process::Abort;
use test_support::{holds_at, same_at};

/// A list, and its cells in order.
static SORTED: &[(&[Triple], &[Triple])] = &[
    (&[], &[]),
    (
        &[(2, 1, 3), (0, 2, 1), (2, 0, 0), (0, 0, 9)],
        &[(0, 0, 9), (0, 2, 1), (2, 0, 0), (2, 1, 3)],
    ),
    (
        &[(1, 1, 4), (0, u64::MAX, 2), (1, 1, 4)],
        &[(0, u64::MAX, 2), (1, 1, 4), (1, 1, 4)],
    ),
];

// Whether a list is sorted to these cells, lent and given away.
fn sorts(rt: &impl Abort, alloc: Global, triples: &[Triple], want: &[Triple]) -> bool {
    let cells = cells_of(rt, alloc, triples);
    let want = cells_of(rt, alloc, want);
    let lent = sorted(alloc, &cells).expect(rt, "memory");
    let given = into_sorted(cells);
    let are_sorted = lent.as_slice() == want.as_slice() && given.as_slice() == want.as_slice();
    drop(lent);
    drop(given);
    drop(want);
    are_sorted
}

#[test]
fn worked_lists(rt: HostRuntime) {
    for (triples, want) in SORTED {
        assert!(rt; holds_at(&rt, triples, sorts(&rt, rt.alloc(), triples, want)));
    }
}

// So many cells at places that lie anywhere.
fn scattered(rt: &impl Abort, alloc: Global, count: u64) -> Vec<Cell> {
    let mut cells = Vec::new(alloc);
    for k in 0..count {
        let row = mixed(k);
        cells.push(cell((row, mixed(row), k))).expect(rt, "memory");
    }
    cells
}

// `rt try --test --fail-alloc N` refuses the Nth growth. The list is lent, and the next sort succeeds.
#[test]
fn refused_sort(rt: HostRuntime) {
    let cells = scattered(&rt, rt.alloc(), 4096);
    let first = sorted(rt.alloc(), &cells);
    let sorts = first.is_ok() || sorted(rt.alloc(), &cells).is_ok();
    drop(first);
    drop(cells);
    assert!(rt; sorts);
}

// A list that is given away stays in its memory, of which it takes no more.
fn check_room(rt: &(impl Abort + Eprint), alloc: Global, count: u64) {
    let cells = scattered(rt, alloc, count);
    let room = cells.capacity();
    let list = into_sorted(cells);
    let taken = list.capacity();
    drop(list);
    assert!(rt; same_at(rt, &count, &taken, &room));
}

/// Numbers of cells on both sides of each change of the way to sort them.
static COUNTS: &[u64] = &[0, 1, 2, 511, 512, 16_384, 16_385, 100_000];

#[test]
fn lists_given_away(rt: HostRuntime) {
    for count in COUNTS {
        check_room(&rt, rt.alloc(), *count);
    }
}
