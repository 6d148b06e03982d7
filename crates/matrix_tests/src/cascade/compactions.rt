//! Sums of the matrices of a layer that are made apart from the layers: which are due, and which the layers take over.
//!
//! `rt try --test --fail-alloc N` refuses the growth number N: the step is made once more then, and what the layers
//! hold is as before.
use crate::cascade::adding::add;
use cells::Cell;
use hyper_matrix::Hyper;
use layer_cascade::{Compaction, Layers};
use std::alloc::Global;
use std::process::Abort;
use test_support::{same, same_at};

/// What is due next in some layers, once more where memory is refused.
fn begun_in(
    rt: &impl Abort,
    alloc: Global,
    layers: &mut Layers,
    from: usize,
    until: usize,
) -> Option<Compaction> {
    match layers.begin(alloc, from, until) {
        Ok(compaction) => compaction,
        Err(_) => layers.begin(alloc, from, until).expect(rt, "memory"),
    }
}

/// What is due next in any layer.
fn begun(rt: &impl Abort, alloc: Global, layers: &mut Layers) -> Option<Compaction> {
    begun_in(rt, alloc, layers, 0, usize::MAX)
}

/// Has the layers take over what was made. Whether anything was.
fn settled(rt: &impl Abort, alloc: Global, layers: &mut Layers) -> bool {
    match layers.settle(alloc) {
        Ok(settled) => settled,
        Err(_) => layers.settle(alloc).expect(rt, "memory"),
    }
}

/// Makes a sum, if one was begun, and has the layers take it over. Whether they did. Where memory is refused, it is
/// given up.
fn made(
    rt: &impl Abort,
    alloc: Global,
    layers: &mut Layers,
    compaction: Option<Compaction>,
) -> bool {
    let Some(compaction) = compaction else {
        return false;
    };
    let ran = compaction.run(alloc).is_ok();
    settled(rt, alloc, layers) && ran
}

/// Whether anything more is due.
fn is_more_due(rt: &impl Abort, alloc: Global, layers: &mut Layers) -> bool {
    let more = begun(rt, alloc, layers);
    let is_due = more.is_some();
    drop(more);
    is_due
}

/// Compacts until nothing is due any more, and reports how often a sum was taken over. None where one was not, or where
/// it didn't end.
fn compacted(rt: &impl Abort, alloc: Global, layers: &mut Layers) -> Option<u64> {
    for sums in 0..100u64 {
        let compaction = begun(rt, alloc, layers);
        if compaction.is_none() {
            return Some(sums);
        }
        if !made(rt, alloc, layers, compaction) {
            return None;
        }
    }
    None
}

/// How many rows and columns the matrices below have.
const SIDE: u64 = 1 << 16;

/// Adds a matrix with so many cells of count 1 in one row.
fn add_row(rt: &impl Abort, alloc: Global, layers: &mut Layers, row: u64, cells: u64) {
    let mut list = Vec::new(alloc);
    for col in 0..cells {
        list.push(Cell { row, col, count: 1 }).expect(rt, "memory");
    }
    let m = Hyper::build(alloc, SIDE, SIDE, &list).expect(rt, "a matrix");
    add(rt, alloc, layers, &m);
    drop(list);
    drop(m);
}

/// So many runs of layer 1 are added up at once.
const MANY_RUNS: u64 = 16;

/// So many runs of layer 2 are.
const DEEP_RUNS: u64 = 10;

/// Layers with a cut and one row of 40 cells for each of so many, and then so many rows of so many cells.
fn layers_of(rt: &impl Abort, alloc: Global, cut: u64, long: u64, short: (u64, u64)) -> Layers {
    let mut layers = Layers::new(alloc, SIDE, SIDE, &[cut]).expect(rt, "layers");
    for row in 0..long {
        add_row(rt, alloc, &mut layers, row, 40);
    }
    for row in 0..short.0 {
        add_row(rt, alloc, &mut layers, row.wrapping_add(100), short.1);
    }
    layers
}

/// Layers with the cut 30 and long rows, which all pass it, and then so many of one cell, which stay in layer 1.
fn layers_with(rt: &impl Abort, alloc: Global, long: u64, short: u64) -> Layers {
    layers_of(rt, alloc, 30, long, (short, 1))
}

/// The entries of both layers, and the count of the last short row.
fn sizes(layers: &Layers, short: u64) -> [Option<u64>; 3] {
    [
        layers.layer_entries(1),
        layers.layer_entries(2),
        layers.get(short.wrapping_add(99), 0),
    ]
}

/// A cut, long rows, short ones and how many cells each of these has, how many sums are made, and the entries of both
/// layers.
type Rest = (u64, u64, (u64, u64), u64, [u64; 2]);

/// In layer 1 sixteen matrices are added up at once, and fewer only where they have more than three quarters of the
/// cut. In layer 2 ten are, from the first on that has no more entries than all after it.
const RESTS: [Rest; 11] = [
    (30, 0, (1, 1), 0, [1, 0]),
    (30, 1, (15, 1), 0, [15, 40]),
    (30, 1, (16, 1), 1, [16, 40]),
    (30, 2, (16, 1), 1, [16, 80]),
    (30, 9, (1, 1), 0, [1, 360]),
    (30, 10, (1, 1), 1, [1, 400]),
    (30, 10, (16, 1), 2, [16, 400]),
    (100, 0, (15, 5), 0, [75, 0]),
    (100, 0, (15, 6), 1, [90, 0]),
    (100, 0, (12, 6), 0, [72, 0]),
    (1_000, 0, (15, 6), 0, [90, 0]),
];

#[test]
fn what_is_due_is_compacted_once(rt: HostRuntime) {
    for (cut, long, short, sums, entries) in RESTS {
        let mut layers = layers_of(&rt, rt.alloc(), cut, long, short);
        let made = compacted(&rt, rt.alloc(), &mut layers);
        let found = (made, sizes(&layers, short.0));
        drop(layers);
        let want = (Some(sums), [Some(entries[0]), Some(entries[1]), Some(1)]);
        assert!(rt; same_at(&rt, &(cut, long, short), &found, &want));
    }
}

#[test]
fn what_is_given_up_is_begun_again(rt: HostRuntime) {
    let mut layers = layers_with(&rt, rt.alloc(), 0, MANY_RUNS);
    let first = begun(&rt, rt.alloc(), &mut layers);
    let had = first.is_some();
    drop(first);
    let settles = settled(&rt, rt.alloc(), &mut layers);
    let again = begun(&rt, rt.alloc(), &mut layers);
    let makes = made(&rt, rt.alloc(), &mut layers, again);
    let has_more = is_more_due(&rt, rt.alloc(), &mut layers);
    let found = (had, settles, makes, has_more, sizes(&layers, MANY_RUNS));
    drop(layers);
    let entries = [Some(MANY_RUNS), Some(0), Some(1)];
    assert!(rt; same(&rt, &found, &(true, false, true, false, entries)));
}

/// Both layers have something due: each is begun, and made by itself, the second one first.
#[test]
fn each_layer_has_its_turn(rt: HostRuntime) {
    let mut layers = layers_with(&rt, rt.alloc(), DEEP_RUNS, MANY_RUNS);
    let first = begun(&rt, rt.alloc(), &mut layers);
    let second = begun(&rt, rt.alloc(), &mut layers);
    let made_second = made(&rt, rt.alloc(), &mut layers, second);
    let made_first = made(&rt, rt.alloc(), &mut layers, first);
    let has_more = is_more_due(&rt, rt.alloc(), &mut layers);
    let found = (made_second, made_first, has_more, sizes(&layers, MANY_RUNS));
    drop(layers);
    let entries = [Some(MANY_RUNS), Some(DEEP_RUNS * 40), Some(1)];
    assert!(rt; same(&rt, &found, &(true, true, false, entries)));
}

/// Whether anything is due in layers that have none, or that aren't there.
fn is_due_past_the_last(rt: &impl Abort, alloc: Global, layers: &mut Layers) -> bool {
    let after = begun_in(rt, alloc, layers, 2, usize::MAX);
    let far = begun_in(rt, alloc, layers, usize::MAX, usize::MAX);
    let is_due = after.is_some() || far.is_some();
    drop(after);
    drop(far);
    is_due
}

/// The same, where each is begun in layers of its own, and both are taken over at once.
#[test]
fn sums_of_two_layers_are_taken_over_at_once(rt: HostRuntime) {
    let mut layers = layers_with(&rt, rt.alloc(), DEEP_RUNS, MANY_RUNS);
    let deeper = begun_in(&rt, rt.alloc(), &mut layers, 1, usize::MAX);
    let first = begun_in(&rt, rt.alloc(), &mut layers, 0, 1);
    let past = is_due_past_the_last(&rt, rt.alloc(), &mut layers);
    let runs = deeper.is_some_and(|it| it.run(rt.alloc()).is_ok());
    let made_both = made(&rt, rt.alloc(), &mut layers, first);
    let settles = settled(&rt, rt.alloc(), &mut layers);
    let has_more = is_more_due(&rt, rt.alloc(), &mut layers);
    let found = (
        past,
        runs,
        made_both,
        settles,
        has_more,
        sizes(&layers, MANY_RUNS),
    );
    drop(layers);
    let entries = [Some(MANY_RUNS), Some(DEEP_RUNS * 40), Some(1)];
    assert!(rt; same(&rt, &found, &(false, true, true, false, false, entries)));
}

/// What may be given to another thread, and be shared with it.
fn for_any_thread<T: Send + Sync>(value: T) -> T {
    value
}

/// Two have the same compaction: the first to end is taken over, and the second is not.
#[test]
fn the_sum_that_is_made_first_stays(rt: HostRuntime) {
    let mut layers = for_any_thread(layers_with(&rt, rt.alloc(), 0, MANY_RUNS));
    let first = for_any_thread(begun(&rt, rt.alloc(), &mut layers));
    let second = for_any_thread(begun(&rt, rt.alloc(), &mut layers));
    let made_second = made(&rt, rt.alloc(), &mut layers, second);
    let made_first = made(&rt, rt.alloc(), &mut layers, first);
    let found = (made_second, made_first, sizes(&layers, MANY_RUNS));
    drop(layers);
    let entries = [Some(MANY_RUNS), Some(0), Some(1)];
    assert!(rt; same(&rt, &found, &(true, false, entries)));
}

/// Layer 1 goes on to layer 2 before its sum is taken over.
#[test]
fn a_sum_of_what_went_on_is_not_used(rt: HostRuntime) {
    let mut layers = layers_with(&rt, rt.alloc(), 1, MANY_RUNS);
    let compaction = begun(&rt, rt.alloc(), &mut layers);
    add_row(&rt, rt.alloc(), &mut layers, 50, 40);
    let used = made(&rt, rt.alloc(), &mut layers, compaction);
    let found = (used, sizes(&layers, MANY_RUNS));
    drop(layers);
    assert!(rt; same(&rt, &found, &(false, [Some(0), Some(96), Some(1)])));
}

/// So many entries that a matrix is to have a filter.
const UNFILTERED: u64 = 33_000;

/// A matrix without a filter is in layer 2: one step has it made.
#[test]
fn a_filter_is_made_once(rt: HostRuntime) {
    let mut layers = Layers::new(rt.alloc(), SIDE, SIDE, &[20]).expect(&rt, "layers");
    add_row(&rt, rt.alloc(), &mut layers, 99, UNFILTERED);
    let sums = compacted(&rt, rt.alloc(), &mut layers);
    let found = (sums, sizes(&layers, 0));
    drop(layers);
    let entries = [Some(0), Some(UNFILTERED), Some(1)];
    assert!(rt; same(&rt, &found, &(Some(1), entries)));
}
