//! The parts of a matrix, worked out by hand.
use crate::fixtures::{Triple, cells_of, has, small};
use cells::Cell;
use hyper_matrix::Hyper;
use std::alloc::Global;
use std::process::Abort;
use test_support::holds_at;

/// A list, a shard, how many there are, and the cells of the part.
type Parted = (&'static [Triple], u64, u64, &'static [Triple]);

const ROWS: &[Triple] = &[(0, 0, 3), (0, 1, 0), (1, 0, 5), (2, 2, 4)];

static PARTS: &[Parted] = &[
    (&[], 0, 2, &[]),
    (
        &[(0, 0, 3), (0, 1, 0), (2, 2, 4)],
        0,
        2,
        &[(0, 0, 3), (0, 1, 0), (2, 2, 4)],
    ),
    (&[(0, 0, 3), (0, 1, 0), (2, 2, 4)], 1, 2, &[]),
    (ROWS, 0, 1, ROWS),
    (ROWS, 0, 2, &[(0, 0, 3), (0, 1, 0), (2, 2, 4)]),
    (ROWS, 1, 2, &[(1, 0, 5)]),
    (ROWS, 2, 3, &[(2, 2, 4)]),
    (ROWS, 2, 64, &[(2, 2, 4)]),
    (ROWS, 63, 64, &[]),
    // By row, and not by column.
    (&[(2, 1, 7)], 0, 2, &[(2, 1, 7)]),
];

// The parts of all shards. Where memory is refused, they are to come out the next time.
fn parts_of(rt: &impl Abort, alloc: Global, m: &Hyper, k: u64) -> Vec<Hyper> {
    if k == 0 {
        return Vec::new(alloc);
    }
    match m.parts(alloc, k) {
        Ok(parts) => parts,
        Err(_) => m.parts(alloc, k).expect(rt, "memory"),
    }
}

// Whether shard s of k has these cells, made by itself and with all others.
fn part_has(rt: &impl Abort, alloc: Global, m: &Hyper, (s, k): (u64, u64), want: &[Cell]) -> bool {
    if s >= k {
        return false;
    }
    let part = m.part(alloc, s, k).expect(rt, "memory");
    let has_all = part.dims() == m.dims() && has(rt, alloc, &part, want);
    drop(part);
    let parts = parts_of(rt, alloc, m, k);
    let are_all = match parts.get(s as usize) {
        Some(part) => parts.len() as u64 == k && has(rt, alloc, part, want),
        None => false,
    };
    drop(parts);
    has_all && are_all
}

#[test]
fn shards_have_their_rows(rt: HostRuntime) {
    for (list, s, k, want) in PARTS {
        let m = small(&rt, rt.alloc(), list);
        let cells = cells_of(&rt, rt.alloc(), want);
        let has_all = part_has(&rt, rt.alloc(), &m, (*s, *k), &cells);
        drop(cells);
        drop(m);
        assert!(rt; holds_at(&rt, &(list, *s, *k), has_all));
    }
}
