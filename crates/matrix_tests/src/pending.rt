//! Layers whose latest cells wait in a list, beside sums by hand.
//!
//! `rt try --test --fail-alloc N` refuses the growth number N: that is reported, and the same cells are summed the next
//! time.
ghost use Rattle.std.specs.Prelude.{◌≡◌, ◌+◌, ◌<◌, ◌^◌, IsTrue, IfOk};
ghost use Rattle.cells.specs.Bounds.{AreWithin};
ghost use Rattle.hyper_matrix.specs.Counts.{total};

use cells::{Cell, checked_total};
use hyper_matrix::Hyper;
use layer_cascade::CascadeFault;
use pending_layers::PendingLayers;
use std::alloc::{AllocError, Global};
use std::test::Fail;
use test_support::{same, same_at};

/// The numbers of rows and of columns.
const SIDE: u64 = 1 << 20;

/// So many cells may wait, that not only sums of millions go into the layers.
const MOST: usize = 1 << 17;

/// A stream of lists of cells of count 1, whose places come again in turn.
#[derive(Clone, Copy, Debug)]
struct Stream {
    lists: u64,
    cells: u64,
    places: u64,
}

impl Stream {
    /// List `number`, in no order. By an odd factor two places are the same only if their numbers are.
    fn list(&self, alloc: Global, number: u64) -> Result<Vec<Cell>, AllocError> {
        let mut list = Vec::new(alloc);
        let first = number.wrapping_mul(self.cells);
        for i in first..first.wrapping_add(self.cells) {
            let mixed = (i % self.places.max(1)).wrapping_mul(0x9e37_79b9_7f4a_7c15);
            let (row, col) = ((mixed >> 20) % SIDE, mixed % SIDE);
            if list.push(Cell { row, col, count: 1 }).is_err() {
                drop(list);
                return Err(AllocError);
            }
        }
        Ok(list)
    }
}

fn are_within(cells: &[Cell]) -> bool
    ensures { IsTrue result → AreWithin SIDE SIDE cells.now }
{
    cells.iter().all(|cell| cell.row < SIDE && cell.col < SIDE)
}

/// Whether so many counts more fit beside those that were added.
fn fits(layers: &PendingLayers, more: u64) -> bool
    ensures { IsTrue result → total layers.now.counts + more < 2 ^ 64 }
{
    layers.total().checked_add(more).is_some()
}
/// The layers with a list, as cells or as their matrix.
fn added(
    alloc: Global,
    layers: PendingLayers,
    list: &[Cell],
    as_matrix: bool,
) -> Result<PendingLayers, AllocError>
    requires rows { layers.rows ≡ SIDE }
    requires cols { layers.cols ≡ SIDE }
    ensures { IfOk result (λ after. (after.rows ≡ SIDE) × (after.cols ≡ SIDE)) }
{
    if as_matrix {
        let Ok(m) = Hyper::build(alloc, SIDE, SIDE, list) else {
            drop(layers);
            return Err(AllocError);
        };
        if !fits(&layers, m.total()) {
            drop(m);
            return Ok(layers);
        }
        let after = layers.add(alloc, &m);
        drop(m);
        return after;
    }
    let Some(sum) = checked_total(list) else {
        return Ok(layers);
    };
    if !are_within(list) || !fits(&layers, sum) {
        return Ok(layers);
    }
    layers.add_cells(alloc, list)
}

/// The sum of a stream, in layers with these cuts.
fn sum_of(
    alloc: Global,
    cuts: &[u64],
    expected: u64,
    stream: Stream,
    as_matrices: bool,
) -> Result<Vec<Cell>, CascadeFault> {
    let made = PendingLayers::new(alloc, SIDE, SIDE, cuts, expected)?;
    let mut layers = made.with_most(MOST);
    for number in 0..stream.lists {
        let Ok(list) = stream.list(alloc, number) else {
            drop(layers);
            return Err(CascadeFault::Memory);
        };
        let after = added(alloc, layers, &list, as_matrices);
        drop(list);
        layers = after?;
    }
    let sum = layers.into_cells(alloc)?;
    Ok(sum)
}

/// Streams, with the cuts and how many cells are expected: the number of places, and all counts together. The first
/// three stay in the list. Of the fourth no more than 131,072 cells may wait: two matrices go into the last layer, side
/// by side, and the rest waits, with places of the first that come again. In the last one each list has more cells than
/// may wait before the first sum.
static STREAMS: &[(Stream, &[u64], u64, (usize, u64))] = &[
    (
        Stream {
            lists: 0,
            cells: 1,
            places: 1,
        },
        &[2, 4],
        0,
        (0, 0),
    ),
    (
        Stream {
            lists: 3,
            cells: 2,
            places: 6,
        },
        &[2, 4],
        7,
        (6, 6),
    ),
    (
        Stream {
            lists: 3,
            cells: 2,
            places: 5,
        },
        &[2, 4],
        3,
        (5, 6),
    ),
    (
        Stream {
            lists: 265,
            cells: 1_000,
            places: 200_000,
        },
        &[2, 4],
        200_000,
        (200_000, 265_000),
    ),
    (
        Stream {
            lists: 2,
            cells: 70_000,
            places: 100_000,
        },
        &[70_000],
        0,
        (100_000, 140_000),
    ),
];

/// The length and the total of a stream's sum, which is made once more where memory was refused.
fn size_of(
    alloc: Global,
    cuts: &[u64],
    expected: u64,
    stream: Stream,
    as_matrices: bool,
) -> Result<(usize, Option<u64>), CascadeFault> {
    let first = sum_of(alloc, cuts, expected, stream, as_matrices);
    let sum = match first {
        Err(CascadeFault::Memory) => sum_of(alloc, cuts, expected, stream, as_matrices)?,
        answer => answer?,
    };
    let size = (sum.len(), checked_total(&sum));
    drop(sum);
    Ok(size)
}

#[test]
fn streams_are_summed(rt: HostRuntime) -> Result<(), Fail> {
    for (stream, cuts, expected, (places, total)) in STREAMS {
        for as_matrices in [false, true] {
            let size = size_of(rt.alloc(), cuts, *expected, *stream, as_matrices)?;
            assert!(rt; same_at(&rt, &(stream, as_matrices), &size, &(*places, Some(*total))));
        }
    }
    Ok(())
}

static NO_CUTS: &[&[u64]] = &[&[4, 4], &[0], &[1, 2, 3, 4, 5, 6, 7, 8]];

#[test]
fn cuts_are_judged_first(rt: HostRuntime) {
    for cuts in NO_CUTS {
        let fault = PendingLayers::new(rt.alloc(), SIDE, SIDE, cuts, u64::MAX).err();
        assert!(rt; same(&rt, &fault, &Some(CascadeFault::BadCuts)));
    }
}
