//! Worked examples of layers of 3 rows and 3 columns.
use crate::cascade::adding::add;
use crate::fixtures::small;
use hyper_matrix::RowSum;
use layer_cascade::{CascadeFault, LayerView, Layers, are_cuts};
use std::alloc::Global;
use std::process::Abort;
use test_support::{same, same_at};

/// Layers of 3 rows and 3 columns.
fn layers_with(rt: &impl Abort, alloc: Global, cuts: &[u64]) -> Layers {
    Layers::new(alloc, 3, 3, cuts).expect(rt, "layers")
}

/// Adds one cell.
fn add_cell(rt: &impl Abort, alloc: Global, layers: &mut Layers, row: u64, col: u64, count: u64) {
    let m = small(rt, alloc, &[(row, col, count)]);
    add(rt, alloc, layers, &m);
    drop(m);
}

/// How many entries each of three layers has.
fn sizes(layers: &Layers) -> [Option<u64>; 3] {
    [
        layers.layer_entries(1),
        layers.layer_entries(2),
        layers.layer_entries(3),
    ]
}

/// Places, and the entries of three layers once a cell was added there.
static DISTINCT: &[((u64, u64), [u64; 3])] = &[
    ((0, 0), [1, 0, 0]),
    ((2, 1), [2, 0, 0]),
    ((0, 2), [0, 3, 0]),
    ((1, 1), [1, 3, 0]),
    ((2, 2), [2, 3, 0]),
    ((0, 1), [0, 0, 6]),
];

/// Whether the sum of all layers has so many entries, of 7 each, and so do the layers. Row 0 has three of them.
fn have_sevens(rt: &impl Abort, alloc: Global, layers: &Layers, entries: u64) -> bool {
    let sum = layers.sum(alloc).expect(rt, "memory");
    let size = (sum.entries(), sum.total());
    drop(sum);
    let row = RowSum {
        entries: 3,
        total: 21,
    };
    size == (entries, layers.total())
        && layers.total() == entries.saturating_mul(7)
        && layers.row_total(0) == row
}

#[test]
fn distinct_cells_cascade(rt: HostRuntime) {
    let mut layers = layers_with(&rt, rt.alloc(), &[2, 4]);
    let new = (
        layers.dims(),
        sizes(&layers),
        layers.cuts() == [2, 4].as_slice(),
    );
    assert!(rt; same(&rt, &new, &((3, 3), [Some(0); 3], true)));
    for (place, want) in DISTINCT {
        add_cell(&rt, rt.alloc(), &mut layers, place.0, place.1, 7);
        let found = (sizes(&layers), layers.get(place.0, place.1));
        assert!(rt; same_at(&rt, place, &found, &(want.map(Some), Some(7))));
    }
    let outside = (
        layers.layer_entries(0),
        layers.layer_entries(4),
        layers.get(1, 2),
    );
    let have_all = have_sevens(&rt, rt.alloc(), &layers, 6);
    drop(layers);
    assert!(rt; same(&rt, &(outside, have_all), &((None, None, None), true)));
}

/// What a view tells of its sum, and of its row 0 and the place (0, 0).
fn told(rt: &impl Abort, alloc: Global, view: &LayerView) -> (u64, u64, RowSum, Option<u64>) {
    let sum = view.sum(alloc).expect(rt, "memory");
    let size = (sum.entries(), sum.total());
    drop(sum);
    (size.0, size.1, view.row_total(0), view.get(0, 0))
}

#[test]
fn a_view_stays_as_it_was(rt: HostRuntime) {
    let mut layers = layers_with(&rt, rt.alloc(), &[2]);
    add_cell(&rt, rt.alloc(), &mut layers, 0, 0, 5);
    let view = layers.view(rt.alloc()).expect(&rt, "memory");
    add_cell(&rt, rt.alloc(), &mut layers, 0, 0, 3);
    let again = view.again(rt.alloc()).expect(&rt, "memory");
    drop(view);
    let row = RowSum {
        entries: 1,
        total: 5,
    };
    let found = (told(&rt, rt.alloc(), &again), layers.total());
    drop(again);
    drop(layers);
    assert!(rt; same(&rt, &found, &((1, 5, row, Some(5)), 8)));
}

const MOST: u64 = 1 << 40;

/// Cuts, and whether layers may have them.
static JUDGED: &[(&[u64], bool)] = &[
    (&[], true),
    (&[1], true),
    (&[MOST], true),
    (&[1, 2, 3, 4, 5, 6, MOST], true),
    (&[4, 4], false),
    (&[4, 3], false),
    (&[0], false),
    (&[0, 1], false),
    (&[MOST + 1], false),
    (&[1, MOST + 1], false),
    (&[1, 2, 3, 4, 5, 6, 7, 8], false),
];

#[test]
fn cuts_are_judged(rt: HostRuntime) {
    for (cuts, good) in JUDGED {
        let want = if *good {
            None
        } else {
            Some(CascadeFault::BadCuts)
        };
        let fault = Layers::new(rt.alloc(), 3, 3, cuts).err();
        assert!(rt; same_at(&rt, cuts, &(fault, are_cuts(cuts)), &(want, *good)));
    }
}
