//! A snapshot's list and a log beside it: the list of both, and each refusal.

use batch_store::{BookList, Setup};
use log_head::LogHead;
use log_join::{JoinFault, join_log};
use snap_file::{Identity, NO_WINDOW};
use std::alloc::Global;
use std::process::Abort;
use std::random::RandomSource;
use test_batches::{list_of, one_cell, small_setup};
use test_support::same_at;

/// Clients and counts of batches of one cell.
type Rows = &'static [(u64, u64)];

/// A snapshot's batches, how many batches stand before a log with their total and link, the two batches of the log, and
/// the list of both.
struct Case {
    known: Rows,
    before: (u64, u64, u32),
    log: [(u64, u64); 2],
    list: Result<Rows, JoinFault>,
}

/// What stands before a log that begins with the first batch, and before one after the batch of client 7 with a count
/// of 5.
const NOTHING: (u64, u64, u32) = (0, 0, 0);

const SEVEN: (u64, u64, u32) = (1, 5, 0xde34_5a72);

static CASES: [Case; 8] = [
    Case {
        known: &[],
        before: NOTHING,
        log: [(7, 5), (8, 3)],
        list: Ok(&[(7, 5), (8, 3)]),
    },
    // The log begins within the snapshot, and goes on after it.
    Case {
        known: &[(7, 5), (8, 3)],
        before: SEVEN,
        log: [(8, 3), (9, 1)],
        list: Ok(&[(7, 5), (8, 3), (9, 1)]),
    },
    // The log ends before the snapshot does.
    Case {
        known: &[(7, 5), (8, 3), (9, 1)],
        before: NOTHING,
        log: [(7, 5), (8, 3)],
        list: Ok(&[(7, 5), (8, 3), (9, 1)]),
    },
    Case {
        known: &[],
        before: SEVEN,
        log: [(8, 3), (9, 1)],
        list: Err(JoinFault::Gap { first: 1 }),
    },
    Case {
        known: &[(8, 3)],
        before: SEVEN,
        log: [(8, 3), (9, 1)],
        list: Err(JoinFault::LinkDiffers),
    },
    Case {
        known: &[(7, 5), (8, 3)],
        before: NOTHING,
        log: [(7, 5), (8, 4)],
        list: Err(JoinFault::EntryDiffers { at: 1 }),
    },
    // The snapshot has the second batch of the log already.
    Case {
        known: &[(7, 5)],
        before: SEVEN,
        log: [(8, 3), (7, 5)],
        list: Err(JoinFault::NotFresh { at: 2 }),
    },
    // Together they pass the limit of 100.
    Case {
        known: &[(7, 60)],
        before: NOTHING,
        log: [(7, 60), (8, 41)],
        list: Err(JoinFault::NotFresh { at: 1 }),
    },
];

/// The clients and the counts of a list.
fn rows_of(rt: &impl Abort, alloc: Global, list: &BookList) -> Vec<(u64, u64)> {
    let mut rows = Vec::new(alloc);
    for batch in &list.batches {
        rows.push((batch.client, batch.total)).expect(rt, "a row");
    }
    rows
}

/// A book by its number.
fn book(number: u64) -> Identity {
    Identity {
        book_high: 0,
        book_low: number,
        window: NO_WINDOW,
    }
}

/// The list of the snapshot of one book and the log of another, as a case has them.
fn joined<R: Abort + RandomSource>(
    rt: &R,
    alloc: Global,
    case: &Case,
    books: [u64; 2],
) -> Result<BookList, JoinFault> {
    let setup = small_setup().expect(rt, "a setup");
    let list = list_of(rt, alloc, &setup, case.known).expect(rt, "a list");
    let (first, total, link) = case.before;
    let head = LogHead {
        setup,
        first,
        total,
        link,
        identity: book(books[1]),
    };
    let [one, two] = case.log;
    let batches = [
        one_cell(alloc, &setup, one.0, one.1).expect(rt, "a batch"),
        one_cell(alloc, &setup, two.0, two.1).expect(rt, "a batch"),
    ];
    join_log(alloc, &setup, &book(books[0]), list, &head, &batches)
}

#[test]
fn snapshots_and_logs_are_joined(rt: HostRuntime) {
    for (i, case) in CASES.iter().enumerate() {
        match (joined(&rt, rt.alloc(), case, [0, 0]), &case.list) {
            (Ok(list), Ok(rows)) => {
                assert!(rt; same_at(&rt, &i, &&rows_of(&rt, rt.alloc(), &list)[..], rows));
            }
            (got, want) => assert!(rt; same_at(&rt, &i, &got.err(), &want.err())),
        }
    }
}

// Of two books that are known, one refuses the other's log before all else; one that isn't known bears any.
#[test]
fn logs_of_other_books_are_refused(rt: HostRuntime) {
    let unlinked = &CASES[4];
    for (books, fault) in [
        ([1, 2], JoinFault::OtherBook),
        ([1, 0], JoinFault::LinkDiffers),
        ([0, 2], JoinFault::LinkDiffers),
    ] {
        let got = joined(&rt, rt.alloc(), unlinked, books).err();
        assert!(rt; same_at(&rt, &books[0], &got, &Some(fault)));
    }
}

/// The setup of a log beside a snapshot of the small setup that has the batch (7, 5) alone, the log's batch after that
/// one, and the dimensions of that batch in the list of both.
struct Grown {
    dims: (u64, u64),
    cuts: &'static [u64],
    shards: u64,
    limit: u64,
    most: u64,
    log: (u64, u64),
    list: Result<(u64, u64), JoinFault>,
}

// The small setup: three rows and columns, the cuts 2 and 4, two shards, a limit of 100, and ten batches.
const SMALL: Grown = Grown {
    dims: (3, 3),
    cuts: &[2, 4],
    shards: 2,
    limit: 100,
    most: 10,
    log: (8, 3),
    list: Ok((3, 3)),
};

static GROWN: [Grown; 12] = [
    SMALL,
    Grown {
        dims: (2, 3),
        ..SMALL
    },
    Grown {
        dims: (3, 1),
        ..SMALL
    },
    Grown {
        dims: (1, 1),
        ..SMALL
    },
    Grown {
        dims: (4, 3),
        list: Err(JoinFault::SetupDiffers),
        ..SMALL
    },
    Grown {
        dims: (3, 4),
        list: Err(JoinFault::SetupDiffers),
        ..SMALL
    },
    Grown {
        dims: (2, 4),
        list: Err(JoinFault::SetupDiffers),
        ..SMALL
    },
    Grown {
        cuts: &[3],
        ..SMALL
    },
    Grown { shards: 1, ..SMALL },
    // The snapshot's setup judges the list, also where the log's allows less or more.
    Grown {
        limit: 7,
        most: 1,
        ..SMALL
    },
    Grown {
        limit: 1000,
        log: (8, 95),
        ..SMALL
    },
    Grown {
        limit: 1000,
        log: (8, 96),
        list: Err(JoinFault::NotFresh { at: 1 }),
        ..SMALL
    },
];

/// The list of the snapshot and a log, whose batches have the dimensions of the log's setup.
fn beside_small<R: Abort + RandomSource>(
    rt: &R,
    alloc: Global,
    case: &Grown,
) -> Result<BookList, JoinFault> {
    let setup = small_setup().expect(rt, "a setup");
    let list = list_of(rt, alloc, &setup, &[(7, 5)]).expect(rt, "a list");
    let (rows, cols) = case.dims;
    let old = Setup::new(rows, cols, case.cuts, case.shards, case.limit, case.most).expect(
        rt,
        "another setup",
    );
    let (first, total, link) = SEVEN;
    let head = LogHead {
        setup: old,
        first,
        total,
        link,
        identity: book(0),
    };
    let batches = [one_cell(alloc, &old, case.log.0, case.log.1).expect(rt, "a batch")];
    join_log(alloc, &setup, &book(0), list, &head, &batches)
}

#[test]
fn logs_of_smaller_setups_join(rt: HostRuntime) {
    for (i, case) in GROWN.iter().enumerate() {
        match beside_small(&rt, rt.alloc(), case) {
            Ok(list) => {
                let rows = rows_of(&rt, rt.alloc(), &list);
                assert!(rt; same_at(&rt, &i, &&rows[..], &&[(7, 5), case.log][..]));
                let logged = list.batches.get(1).expect(&rt, "the log's batch");
                let dims = logged.matrix.dims();
                assert!(rt; same_at(&rt, &i, &Ok(dims), &case.list));
            }
            Err(fault) => assert!(rt; same_at(&rt, &i, &Err(fault), &case.list)),
        }
    }
}
