//! Engines of lists of batches.
ghost use Rattle.std.specs.Prelude.{◌≡◌};
ghost use Rattle.batch_store.specs.Batches.{values};
ghost use Rattle.batch_store.specs.Books.{HaveDims};

use batch_store::{Batch, Setup};
use plain_engine::{LoadFault, PlainEngine, Status};
use std::alloc::Global;
use std::process::Abort;
use std::random::RandomSource;
use std::sync::Arc;
use test_batches::{Cells, batch, setup_up_to};
use test_support::same_at;

/// The client, the number and the cells of each batch of a list.
pub type Batches = &'static [(u64, u64, Cells)];

/// The batches of a table.
pub fn list_of(rt: &impl Abort, alloc: Global, setup: &Setup, table: Batches) -> Vec<Arc<Batch>>
    ensures { HaveDims setup.now.rows setup.now.cols (values result.items) }
{
    let mut list = Vec::new(alloc);
    'batches: for (client, number, cells) in table {
        let b = batch(alloc, setup, (*client, *number), cells).expect(rt, "a batch");
        list.push(b).expect(rt, "memory");
    }
    list
}

// The most batches of a setup with a limit of 100, a list, and what its engine has accepted or why there is none.
static LISTS: &[(u64, Batches, Result<Status, LoadFault>)] = &[
    (
        10,
        &[],
        Ok(Status {
            batches: 0,
            total: 0,
        }),
    ),
    (
        10,
        &[(7, 1, &[(0, 0, 5)]), (8, 1, &[(1, 0, 3)])],
        Ok(Status {
            batches: 2,
            total: 8,
        }),
    ),
    (
        10,
        &[(7, 1, &[(0, 0, 5)]), (7, 1, &[(0, 0, 5)])],
        Err(LoadFault::RepeatedNumber { at: 1 }),
    ),
    // A repeat of other cells is reported in the same way, and before the total.
    (
        10,
        &[(7, 1, &[(0, 0, 5)]), (8, 1, &[]), (7, 1, &[(0, 0, 99)])],
        Err(LoadFault::RepeatedNumber { at: 2 }),
    ),
    (
        10,
        &[(7, 1, &[(0, 0, 60)]), (8, 1, &[(0, 0, 41)]), (7, 1, &[])],
        Err(LoadFault::OverTotal { at: 1 }),
    ),
    (
        10,
        &[(7, 1, &[(0, 0, 101)])],
        Err(LoadFault::OverTotal { at: 0 }),
    ),
    (
        1,
        &[(7, 1, &[(0, 0, 5)]), (8, 1, &[(0, 0, 3)])],
        Err(LoadFault::BookFull { at: 1 }),
    ),
];

// What the engine of a list has accepted, or why there is none.
fn loaded<R: RandomSource + Abort>(
    rt: &R,
    alloc: Global,
    most: u64,
    table: Batches,
) -> Result<Status, LoadFault> {
    let setup = setup_up_to(100, most).expect(rt, "a setup");
    let list = list_of(rt, alloc, &setup, table);
    let answer = PlainEngine::from_batches(rt, alloc, setup, &list);
    drop(list);
    let engine = answer?;
    let status = engine.status();
    drop(engine);
    Ok(status)
}

#[test]
fn lists_are_judged_in_order(rt: HostRuntime) {
    for (most, list, expected) in LISTS {
        let found = loaded(&rt, rt.alloc(), *most, list);
        assert!(rt; same_at(&rt, &(*most, list), &found, expected));
    }
}
