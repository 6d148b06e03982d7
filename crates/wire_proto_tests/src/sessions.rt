//! Whole sessions of puts and queries, each over a new engine of three rows, three columns, a limit of 100 and at most
//! 10 batches: what is answered and what is refused.

use crate::asks::{Ask, Session, check_sessions, served_anew};
use batch_store::Setup;
use test_batches::{setup_up_to, small_setup};
use test_support::same;
use wire_proto::Ended;

const FIVE: &str = "3 3 1\n1 1 5\n";

const THREE: &str = "3 3 1\n1 1 3\n";

const CLOSED: Ended = Ended::Closed { rest: 0 };

static TEXTS: &[Session] = &[
    // A repeat gets the reply of then, and counts no more; another total or another number of cells is refused. Without
    // a log what is stored is what was accepted.
    (
        &[
            Ask::Put(7, 1, FIVE),
            Ask::Put(8, 1, THREE),
            Ask::Put(7, 1, FIVE),
            Ask::Put(7, 1, THREE),
            Ask::Put(7, 1, "3 3 2\n1 1 5\n2 2 0\n"),
            Ask::Status,
            Ask::Stored,
            Ask::Export,
        ],
        "00000010 81 0000000000000000 0000000000000005
         00000010 81 0000000000000001 0000000000000008
         00000010 81 0000000000000000 0000000000000005
         0000000a ff 001e 0000000000000000
         0000000a ff 001e 0000000000000000
         00000010 84 0000000000000002 0000000000000008
         00000010 84 0000000000000002 0000000000000008
         0000003d 85
         25254d61747269784d61726b6574206d617472697820636f6f7264696e61746520696e74656765722067656e6572616c0a
         33203320310a 31203120380a",
        CLOSED,
        (2, 8),
    ),
    // A text with fewer rows and columns makes a batch of all rows and columns: the same as a text of these, and as its
    // cells.
    (
        &[
            Ask::Put(7, 1, "2 1 1\n2 1 5\n"),
            Ask::Put(7, 1, "2 1 1\n2 1 5\n"),
            Ask::Put(7, 1, "3 3 1\n2 1 5\n"),
            Ask::Cells(7, 1, &[(1, 0, 5)]),
            Ask::Put(8, 1, "3 1 1\n3 1 2\n"),
            Ask::Row(1),
            Ask::Export,
        ],
        "00000010 81 0000000000000000 0000000000000005
         00000010 81 0000000000000000 0000000000000005
         00000010 81 0000000000000000 0000000000000005
         00000010 81 0000000000000000 0000000000000005
         00000010 81 0000000000000001 0000000000000007
         00000010 83 0000000000000001 0000000000000005
         00000043 85
         25254d61747269784d61726b6574206d617472697820636f6f7264696e61746520696e74656765722067656e6572616c0a
         33203320320a 32203120350a 33203120320a",
        CLOSED,
        (2, 7),
    ),
    // Queries of stored zeros, of cells that aren't stored, of rows, and past the last row and column.
    (
        &[
            Ask::Put(1, 1, "3 3 3\n2 1 0\n2 3 4\n3 3 1\n"),
            Ask::Cell(1, 0),
            Ask::Cell(0, 0),
            Ask::Row(1),
            Ask::Row(0),
            Ask::Cell(3, 0),
            Ask::Cell(0, 3),
            Ask::Row(3),
        ],
        "00000010 81 0000000000000000 0000000000000005
         00000009 82 01 0000000000000000
         00000009 82 00 0000000000000000
         00000010 83 0000000000000002 0000000000000004
         00000010 83 0000000000000000 0000000000000000
         0000000a ff 0029 0000000000000000
         0000000a ff 0029 0000000000000000
         0000000a ff 0029 0000000000000000",
        CLOSED,
        (1, 5),
    ),
    // Totals at the limit and past it; the refusal has the accepted total.
    (
        &[
            Ask::Put(1, 1, "3 3 1\n1 1 90\n"),
            Ask::Put(1, 2, "3 3 1\n1 1 11\n"),
            Ask::Put(1, 3, "3 3 1\n1 1 10\n"),
        ],
        "00000010 81 0000000000000000 000000000000005a
         0000000a ff 001f 000000000000005a
         00000010 81 0000000000000001 0000000000000064",
        CLOSED,
        (2, 100),
    ),
    // Nothing to save to; then a Stop, after which nothing is answered.
    (
        &[Ask::Save, Ask::Stop, Ask::Put(7, 1, FIVE)],
        "0000000a ff 002b 0000000000000000 00000000 87",
        Ended::Stopped,
        (0, 0),
    ),
];

// Puts that are refused for their texts, each with a code and a detail. An entry outside of a text's own rows and
// columns is refused, also where it lies within the engine's.
static REFUSED_TEXTS: &[Session] = &[(
    &[
        Ask::Text(7, 1, "%%MatrixMarket matrix coordinate integer\n3 3 0\n"),
        Ask::Text(7, 1, "%%MatrixMarket matrix array integer general\n3 3 0\n"),
        Ask::Text(
            7,
            1,
            "%%MatrixMarket matrix coordinate integer symmetric\n3 2 0\n",
        ),
        Ask::Put(7, 1, "3 x 0\n"),
        Ask::Put(7, 1, "0 3 0\n"),
        Ask::Put(7, 1, "3 3 1048577\n"),
        Ask::Put(7, 1, "3 3 1\n1 1\n"),
        Ask::Put(7, 1, "3 3 1\n1 1 -4\n"),
        Ask::Put(7, 1, "3 3 1\n1 1 18446744073709551616\n"),
        Ask::Put(7, 1, "3 3 1\n4 1 1\n"),
        Ask::Put(7, 1, "3 3 2\n1 1 5\n"),
        Ask::Put(7, 1, "3 3 1\n1 1 5\n2 2 5\n"),
        Ask::Put(7, 1, "2 3 1\n3 1 1\n"),
        Ask::Put(7, 1, "3 2 1\n1 3 1\n"),
        Ask::Put(7, 1, "4 3 0\n"),
        Ask::Put(7, 1, "3 4 0\n"),
        Ask::Put(7, 1, "4 3 1\n5 1 1\n"),
        Ask::Put(7, 1, "3 3 2\n1 1 18446744073709551615\n1 2 1\n"),
        Ask::Put(7, 1, "3 3 1\n1 1 18446744073709551615\n"),
    ],
    "0000000a ff 0067 0000000000000001
     0000000a ff 0068 0000000000000001
     0000000a ff 006c 0000000000000002
     0000000a ff 006a 0000000000000002
     0000000a ff 006b 0000000000000002
     0000000a ff 006d 0000000000000002
     0000000a ff 006e 0000000000000003
     0000000a ff 006f 0000000000000003
     0000000a ff 0070 0000000000000003
     0000000a ff 0071 0000000000000003
     0000000a ff 0072 0000000000000004
     0000000a ff 0073 0000000000000004
     0000000a ff 0071 0000000000000003
     0000000a ff 0071 0000000000000003
     0000000a ff 0014 0000000000000000
     0000000a ff 0014 0000000000000000
     0000000a ff 0071 0000000000000003
     0000000a ff 0015 0000000000000000
     0000000a ff 001f 0000000000000000",
    CLOSED,
    (0, 0),
)];

static CELLS: &[Session] = &[
    // A text and then its cells; other cells under the same pair; no cells; a stored zero.
    (
        &[
            Ask::Put(7, 1, "3 3 2\n1 1 5\n3 2 1\n"),
            Ask::Cells(7, 1, &[(2, 1, 1), (0, 0, 2), (0, 0, 3)]),
            Ask::Cells(7, 1, &[(0, 0, 6)]),
            Ask::Cells(7, 2, &[]),
            Ask::Cells(7, 3, &[(1, 2, 0)]),
            Ask::Cell(1, 2),
        ],
        "00000010 81 0000000000000000 0000000000000006
         00000010 81 0000000000000000 0000000000000006
         0000000a ff 001e 0000000000000000
         00000010 81 0000000000000001 0000000000000006
         00000010 81 0000000000000002 0000000000000006
         00000009 82 01 0000000000000000",
        CLOSED,
        (3, 6),
    ),
    // Refusals, each of the first cell that has a fault, with the index of the cell in the list.
    (
        &[
            Ask::Cells(9, 2, &[(0, 3, 1)]),
            Ask::Cells(9, 2, &[(0, 0, 1), (2, 2, 1), (u64::MAX, 0, 1), (3, 3, 1)]),
            Ask::Cells(9, 2, &[(0, 0, u64::MAX), (1, 1, 1), (3, 0, 1)]),
            Ask::Cells(9, 2, &[(0, 0, u64::MAX), (3, 0, 1), (1, 1, 1)]),
            Ask::Cells(9, 2, &[(0, 0, 100), (1, 1, 1)]),
        ],
        "0000000a ff 0016 0000000000000000
         0000000a ff 0016 0000000000000002
         0000000a ff 0015 0000000000000000
         0000000a ff 0016 0000000000000001
         0000000a ff 001f 0000000000000000",
        CLOSED,
        (0, 0),
    ),
];

// Bad headers, judged by their length first and then by their kind; what comes before them is answered. And parts of a
// frame.
static BAD_FRAMES: &[Session] = &[
    (
        &[Ask::Status, Ask::Raw("04000001 0e"), Ask::Status],
        "00000010 84 0000000000000000 0000000000000000 0000000a ff 0032 0000000000000000",
        Ended::BadFrame,
        (0, 0),
    ),
    (
        &[Ask::Raw("00000000 0e"), Ask::Status],
        "0000000a ff 0033 0000000000000000",
        Ended::BadFrame,
        (0, 0),
    ),
    (
        &[Ask::Raw("00000011 08"), Ask::Status],
        "0000000a ff 0034 0000000000000000",
        Ended::BadFrame,
        (0, 0),
    ),
    (
        &[
            Ask::Status,
            Ask::Raw("00000010 02 0000000000000000 000000000000"),
        ],
        "00000010 84 0000000000000000 0000000000000000",
        Ended::Closed { rest: 19 },
        (0, 0),
    ),
];

#[test]
fn sessions_are_answered(rt: HostRuntime) {
    let setup = small_setup().expect(&rt, "a setup");
    check_sessions(&rt, rt.alloc(), setup, TEXTS);
    check_sessions(&rt, rt.alloc(), setup, CELLS);
}

#[test]
fn puts_and_frames_are_refused(rt: HostRuntime) {
    let setup = small_setup().expect(&rt, "a setup");
    check_sessions(&rt, rt.alloc(), setup, REFUSED_TEXTS);
    check_sessions(&rt, rt.alloc(), setup, BAD_FRAMES);
}

static ONE_BATCH: &[Session] = &[(
    &[
        Ask::Put(7, 1, FIVE),
        Ask::Put(8, 1, THREE),
        Ask::Put(8, 1, "3 3 1\n1 1 96\n"),
        Ask::Put(7, 1, FIVE),
        Ask::Put(7, 1, "3 3 1\n1 1 101\n"),
    ],
    "00000010 81 0000000000000000 0000000000000005
     0000000a ff 0020 0000000000000000
     0000000a ff 001f 0000000000000005
     00000010 81 0000000000000000 0000000000000005
     0000000a ff 001e 0000000000000000",
    CLOSED,
    (1, 5),
)];

// A book that holds one batch.
#[test]
fn a_full_book_is_judged_last(rt: HostRuntime) {
    let setup = setup_up_to(100, 1).expect(&rt, "a setup");
    check_sessions(&rt, rt.alloc(), setup, ONE_BATCH);
}

static FOUR_BYTES: Session = (&[Ask::Raw("00000000")], "", Ended::TooManyTurns, (0, 0));

#[test]
fn turns_are_counted(rt: HostRuntime) {
    let setup: Setup = small_setup().expect(&rt, "a setup");
    let found = served_anew(&rt, rt.alloc(), setup, &FOUR_BYTES, 1, 3);
    assert!(rt; same(&rt, &found, &(Ended::TooManyTurns, true, (0, 0))));
}
