//! A worked example of layers that are handed down: 8 rows and 8 columns, one cut of 2 entries.
use crate::cascade::adding::add;
use hyper_matrix::Hyper;
use layer_cascade::Layers;
use std::alloc::Global;
use std::process::Abort;
use test_support::same_at;

/// Cells that are added after layers with (1,1) 1 were handed down, and what is there then: the entries of both layers,
/// and the counts at (1,1) and (3,3).
type Step = ((u64, u64, u64), [u64; 2], (Option<u64>, Option<u64>));

static AFTER: &[Step] = &[
    ((1, 1, 2), [1, 1], (Some(3), None)),
    ((2, 2, 4), [2, 1], (Some(3), None)),
    ((3, 3, 1), [0, 3], (Some(3), Some(1))),
    ((4, 4, 1), [1, 3], (Some(3), Some(1))),
];

fn add_cell(rt: &impl Abort, alloc: Global, layers: &mut Layers, cell: (u64, u64, u64)) {
    let list = [cells::Cell {
        row: cell.0,
        col: cell.1,
        count: cell.2,
    }];
    let m = Hyper::build(alloc, 8, 8, &list).expect(rt, "a matrix");
    add(rt, alloc, layers, &m);
    drop(m);
}

/// The entries of both layers, and the counts at (1,1) and (3,3).
fn seen(layers: &Layers) -> ([Option<u64>; 2], (Option<u64>, Option<u64>)) {
    let entries = [layers.layer_entries(1), layers.layer_entries(2)];
    (entries, (layers.get(1, 1), layers.get(3, 3)))
}

#[test]
fn no_addition_reaches_what_was_handed_down(rt: HostRuntime) {
    let alloc = rt.alloc();
    let mut layers = Layers::new(alloc, 8, 8, &[2]).expect(&rt, "layers");
    add_cell(&rt, alloc, &mut layers, (1, 1, 1));
    let below = layers.hand_down(alloc).expect(&rt, "memory");
    assert!(rt; seen(&layers) == ([Some(0), Some(1)], (Some(1), None)));
    for (cell, entries, counts) in AFTER {
        add_cell(&rt, alloc, &mut layers, *cell);
        assert!(rt; same_at(&rt, cell, &seen(&layers), &(entries.map(Some), *counts)));
        assert!(rt; (below.get(1, 1), below.entries()) == (Some(1), 1));
    }
    drop((below, layers));
}
