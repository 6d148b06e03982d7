//! Batches made of lists of cells.

use batch_store::{Batch, CellsFault, Setup};
use cells::Cell;
use std::alloc::Global;
use std::process::Abort;
use std::sync::Arc;
use test_batches::{cells_of, small_setup};
use test_support::{same, same_at};

// Lists for a setup of three rows and three columns, and their first fault.
static FAULTS: &[(&[(u64, u64, u64)], Option<CellsFault>)] = &[
    (&[], None),
    (&[(2, 2, u64::MAX)], None),
    (&[(3, 0, 1)], Some(CellsFault::IndexOutOfRange { at: 0 })),
    (&[(0, 3, 1)], Some(CellsFault::IndexOutOfRange { at: 0 })),
    // The first of two cells outside, after two that lie within, in no order.
    (
        &[(2, 2, 1), (0, 0, 1), (u64::MAX, 0, 1), (0, 3, 1)],
        Some(CellsFault::IndexOutOfRange { at: 2 }),
    ),
    // The last cell.
    (
        &[(0, 0, 1), (0, 1, 1), (1, 7, 1)],
        Some(CellsFault::IndexOutOfRange { at: 2 }),
    ),
    // Two counts of 2^63, and one less.
    (
        &[(0, 0, 1 << 63), (0, 1, 1 << 63)],
        Some(CellsFault::SumTooLarge),
    ),
    (&[(0, 0, 1 << 63), (0, 1, (1 << 63) - 1)], None),
    // At one place too.
    (
        &[(1, 1, u64::MAX), (1, 1, 1)],
        Some(CellsFault::SumTooLarge),
    ),
    // The first fault is reported: a sum before an index that comes after it, and an index before a sum.
    (
        &[(0, 0, u64::MAX), (1, 1, 1), (3, 3, 1)],
        Some(CellsFault::SumTooLarge),
    ),
    (
        &[(0, 0, u64::MAX), (3, 3, 1), (1, 1, 1)],
        Some(CellsFault::IndexOutOfRange { at: 1 }),
    ),
    (
        &[(0, 0, u64::MAX), (1, 3, u64::MAX)],
        Some(CellsFault::IndexOutOfRange { at: 1 }),
    ),
];

// The batch of a list that is lent or given away, made again where a growth was refused.
fn made(
    rt: &impl Abort,
    alloc: Global,
    setup: &Setup,
    cells: &[Cell],
    is_given: bool,
) -> Result<Arc<Batch>, CellsFault> {
    for _ in 0..2 {
        let answer = if is_given {
            let list = Vec::from_slice(alloc, cells).expect(rt, "memory");
            Batch::from_cell_list(alloc, setup, 7, 3, list)
        } else {
            Batch::from_cells(alloc, setup, 7, 3, cells)
        };
        match answer {
            Err(CellsFault::Memory) => {}
            answer => return answer,
        }
    }
    Err(CellsFault::Memory)
}

#[test]
fn lists_are_judged(rt: HostRuntime) {
    let setup = small_setup().expect(&rt, "a setup");
    for (list, expected) in FAULTS {
        let cells = cells_of(rt.alloc(), list).expect(&rt, "memory");
        let lent = made(&rt, rt.alloc(), &setup, &cells, false).err();
        let given = made(&rt, rt.alloc(), &setup, &cells, true).err();
        drop(cells);
        assert!(rt; same_at(&rt, list, &[lent, given], &[*expected; 2]));
    }
}

// One batch, as lists in strict order and in other orders.
static SAME: &[&[(u64, u64, u64)]] = &[
    &[(1, 0, 9), (1, 2, 0)],
    &[(1, 2, 0), (1, 0, 9)],
    &[(1, 0, 4), (1, 2, 0), (1, 0, 5)],
    &[(1, 0, 4), (1, 0, 5), (1, 2, 0)],
    &[(1, 2, 0), (1, 0, 0), (1, 2, 0), (1, 0, 9)],
];

// The client, the number and the total of a batch, its entries, and its counts at two places.
type Told = ((u64, u64, u64), u64, [Option<u64>; 2]);

fn told(b: Arc<Batch>) -> Told {
    let counts = [b.matrix.get(1, 0), b.matrix.get(1, 2)];
    let told = ((b.client, b.number, b.total), b.matrix.entries(), counts);
    drop(b);
    told
}

#[test]
fn a_batch_of_a_list_has_each_place_once(rt: HostRuntime) {
    let setup = small_setup().expect(&rt, "a setup");
    for list in SAME {
        for is_given in [false, true] {
            let cells = cells_of(rt.alloc(), list).expect(&rt, "memory");
            let b = made(&rt, rt.alloc(), &setup, &cells, is_given).expect(&rt, "a batch");
            drop(cells);
            let want = ((7, 3, 9), 2, [Some(9), Some(0)]);
            assert!(rt; same_at(&rt, list, &told(b), &want));
        }
    }
}

#[test]
fn a_list_has_at_most_1048576_cells(rt: HostRuntime) {
    let setup = small_setup().expect(&rt, "a setup");
    let one = Cell {
        row: 2,
        col: 1,
        count: 3,
    };
    let mut cells = vec![in rt.alloc(); one; 1_048_576].expect(&rt, "memory");
    let most = made(&rt, rt.alloc(), &setup, &cells, false).expect(&rt, "a batch");
    // One more, which lies outside: that there are too many is reported first.
    let outside = Cell {
        row: 3,
        col: 0,
        count: 1,
    };
    cells.push(outside).expect(&rt, "memory");
    let more = made(&rt, rt.alloc(), &setup, &cells, false).err();
    drop(cells);
    let found = (told(most), more);
    let want = ((7, 3, 3_145_728), 1, [None, None]);
    assert!(rt; same(&rt, &found, &(want, Some(CellsFault::TooManyCells))));
}
