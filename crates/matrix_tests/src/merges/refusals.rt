//! What is not added: a matrix with which the total would pass 2^64 - 1.
use crate::merges::matrices::matrix;
use cells::Cell;
use merged_cells::Sources;
use std::alloc::Global;
use std::process::Abort;
use test_support::same;

// Whether a matrix is refused with which the total would pass the limit, and what is gone through of the others.
fn refused_and_merged(rt: &impl Abort, alloc: Global) -> (bool, [Option<Cell>; 4]) {
    let full = matrix(rt, alloc, &[(1, 2, u64::MAX - 1), (1, 3, 1)]);
    let one = matrix(rt, alloc, &[(0, 0, 1)]);
    let none = matrix(rt, alloc, &[(1, 2, 0)]);
    let mut sources = Sources::new(alloc);
    sources.add(&full).expect(rt, "a source");
    let is_refused = sources.add(&one).is_err();
    sources.add(&none).expect(rt, "a source");
    let mut cells = sources.merged();
    let listed = [cells.next(), cells.next(), cells.next(), cells.next()];
    drop(cells);
    drop(full);
    drop(one);
    drop(none);
    (is_refused, listed)
}

#[test]
fn a_total_past_the_limit_is_refused(rt: HostRuntime) {
    let first = Cell {
        row: 1,
        col: 2,
        count: u64::MAX - 1,
    };
    let second = Cell {
        row: 1,
        col: 3,
        count: 1,
    };
    let want = (true, [Some(first), Some(second), None, None]);
    assert!(rt; same(&rt, &refused_and_merged(&rt, rt.alloc()), &want));
}
