//! The worked examples: read, and written again.

use crate::snapshots::bytes::{
    BOTH, CHECKED_BOTH, CHECKED_ONE, NAMED_ONE, ONE, WRITTEN_BOTH, WRITTEN_ONE, read,
};
use batch_store::{BookList, Entry, Setup};
use byte_io::Script;
use snap_file::{Identity, NO_WINDOW, Origin, write_snapshot};
use std::alloc::Global;
use std::process::Abort;
use test_support::{same, same_at};

// Whether this is the setup of the examples.
fn is_setup(setup: &Setup) -> bool {
    (setup.rows(), setup.cols(), setup.shards()) == (3, 3, 2)
        && setup.cuts() == [2u64, 4].as_slice()
        && (setup.limit(), setup.max_batches()) == (100, 10)
}

// The client, number and total of the first batch that isn't folded.
fn first_batch(list: &BookList) -> Option<(u64, u64, u64)> {
    let batch = list.batches.first()?;
    Some((batch.client, batch.number, batch.total))
}

// The row, column and count of the first cell of what is folded.
fn first_cell(list: &BookList) -> Option<(u64, u64, u64)> {
    let cell = list.base.cells().next()?;
    Some((cell.row, cell.col, cell.count))
}

// The first folded batch, the base's number of cells and total, and its first cell.
type Folded = (Option<Entry>, u64, u64, Option<(u64, u64, u64)>);

// What these bytes are read as, in pieces of 7: whether with the setup of the examples, how many batches are folded and
// how many are not, what is folded, and the first batch that isn't.
type Told = (bool, [usize; 2], Folded, Option<(u64, u64, u64)>);

fn told_of(rt: &impl Abort, alloc: Global, bytes: &[u8]) -> Told {
    let snapshot = read(rt, alloc, bytes, 7);
    let list = &snapshot.list;
    let folded = (
        list.folded.first().copied(),
        list.base.entries(),
        list.base.total(),
        first_cell(list),
    );
    let counts = [list.folded.len(), list.batches.len()];
    let told = (is_setup(&snapshot.setup), counts, folded, first_batch(list));
    drop(snapshot);
    told
}

// The entry of the one folded batch of `BOTH`.
const ENTRY: Entry = Entry {
    client: 7,
    number: 1,
    cells: 1,
    total: 5,
};

#[test]
fn examples_are_read(rt: HostRuntime) {
    let one = (true, [0, 1], (None, 0, 0, None), Some((7, 1, 5)));
    let both = (
        true,
        [1, 1],
        (Some(ENTRY), 1, 5, Some((0, 0, 5))),
        Some((8, 1, 3)),
    );
    for bytes in [ONE, CHECKED_ONE, WRITTEN_ONE, NAMED_ONE] {
        assert!(rt; same_at(&rt, &bytes, &told_of(&rt, rt.alloc(), bytes), &one));
    }
    for bytes in [BOTH, CHECKED_BOTH, WRITTEN_BOTH] {
        assert!(rt; same_at(&rt, &bytes, &told_of(&rt, rt.alloc(), bytes), &both));
    }
}

// Whether bytes that are read are written as these.
fn come_as(rt: &impl Abort, alloc: Global, bytes: &[u8], expected: &[u8]) -> bool {
    let snapshot = read(rt, alloc, bytes, 7);
    let mut script = Script::new(alloc, Vec::new(alloc), None, None);
    // Any call on it gives the facts that it keeps.
    let list = &snapshot.list;
    let answer = write_snapshot(&mut script, snapshot.origin, &snapshot.setup, list);
    let comes = answer == Ok(()) && script.written() == expected;
    drop(script);
    drop(snapshot);
    comes
}

#[test]
fn what_is_read_is_written_in_version_four(rt: HostRuntime) {
    let rows = [
        (ONE, WRITTEN_ONE),
        (BOTH, WRITTEN_BOTH),
        (CHECKED_ONE, WRITTEN_ONE),
        (NAMED_ONE, NAMED_ONE),
    ];
    for (bytes, expected) in rows {
        assert!(rt; come_as(&rt, rt.alloc(), bytes, expected));
    }
}

#[test]
fn a_file_says_whose_it_is(rt: HostRuntime) {
    let named = Origin {
        identity: Identity {
            book_high: 0x0011_2233_4455_6677,
            book_low: 0x8899_aabb_ccdd_eeff,
            window: NO_WINDOW,
        },
        has_log: true,
    };
    let unknown = Origin {
        identity: Identity {
            book_high: 0,
            book_low: 0,
            window: NO_WINDOW,
        },
        has_log: false,
    };
    for (bytes, origin) in [(NAMED_ONE, named), (ONE, unknown), (WRITTEN_ONE, unknown)] {
        let snapshot = read(&rt, rt.alloc(), bytes, 7);
        let found = snapshot.origin;
        drop(snapshot);
        assert!(rt; same(&rt, &found, &origin));
    }
}
