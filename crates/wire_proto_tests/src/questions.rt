//! Ranges of cells, rows that lead, what an engine reports of itself, and folds, of an engine of three rows and
//! columns: what is asked, and what comes back.

use crate::asks::{Ask, Session, check_sessions};
use test_batches::small_setup;
use wire_proto::Ended;

const CLOSED: Ended = Ended::Closed { rest: 0 };

// 5 at row 0, column 0; 3 at row 0, column 2; 8 at row 1, column 1; and a stored zero at row 2, column 1.
const CELLS: Ask = Ask::Cells(7, 1, &[(0, 0, 5), (0, 2, 3), (1, 1, 8), (2, 1, 0)]);

const ALL: (u64, u64) = (0, 2);

const FIRST: (u64, u64) = (0, 0);

static RANGES: &[Session] = &[
    // Two pages; one row from within it; all cells, of which there are just as many.
    (
        &[
            CELLS,
            Ask::Range([ALL, (1, 2), FIRST], 2),
            Ask::Range([ALL, (1, 2), (1, 2)], 2),
            Ask::Range([(0, 0), ALL, (0, 1)], 9),
            Ask::Range([ALL, ALL, FIRST], 4),
        ],
        "00000010 81 0000000000000000 0000000000000010
         00000031 88 01 0000000000000000 0000000000000002 0000000000000003
         0000000000000001 0000000000000001 0000000000000008
         00000019 88 00 0000000000000002 0000000000000001 0000000000000000
         00000019 88 00 0000000000000000 0000000000000002 0000000000000003
         00000061 88 00 0000000000000000 0000000000000000 0000000000000005
         0000000000000000 0000000000000002 0000000000000003
         0000000000000001 0000000000000001 0000000000000008
         0000000000000002 0000000000000001 0000000000000000",
        CLOSED,
        (1, 16),
    ),
    // Bounds that aren't, and then numbers of cells that aren't; the session goes on.
    (
        &[
            Ask::Range([(0, 3), ALL, FIRST], 1),
            Ask::Range([ALL, (2, 1), FIRST], 0),
            Ask::Range([ALL, ALL, FIRST], 0),
            Ask::Range([ALL, ALL, FIRST], 1_000_001),
            Ask::Top(0, 0),
            Ask::Top(1, 1_000_001),
            Ask::Top(2, 1),
            Ask::Status,
        ],
        "0000000a ff 0029 0000000000000000
         0000000a ff 0029 0000000000000000
         0000000a ff 002c 0000000000000000
         0000000a ff 002c 0000000000000000
         0000000a ff 002c 0000000000000000
         0000000a ff 002c 0000000000000000
         0000000a ff 002c 0000000000000000
         00000010 84 0000000000000000 0000000000000000",
        CLOSED,
        (0, 0),
    ),
    // The row with a stored zero is one; equal rows come by their numbers; more are asked for than there are.
    (
        &[
            CELLS,
            Ask::Top(0, 1_000_000),
            Ask::Cells(7, 2, &[(2, 2, 8), (1, 1, 1)]),
            Ask::Top(1, 9),
        ],
        "00000010 81 0000000000000000 0000000000000010
         00000048 89 0000000000000000 0000000000000002 0000000000000008
         0000000000000001 0000000000000001 0000000000000008
         0000000000000002 0000000000000001 0000000000000000
         00000010 81 0000000000000001 0000000000000019
         00000048 89 0000000000000000 0000000000000002 0000000000000008
         0000000000000002 0000000000000002 0000000000000008
         0000000000000001 0000000000000001 0000000000000009",
        CLOSED,
        (2, 25),
    ),
];

static GROUPS: &[Session] = &[
    // Rows 0 and 1 are a group, row 2 another one; of the rows 1 and 2 the first group; groups of one row each.
    (
        &[
            CELLS,
            Ask::Groups(0, 1, 10, (0, 2)),
            Ask::Groups(0, 1, 1, (1, 2)),
            Ask::Groups(1, 0, 9, (0, 2)),
            Ask::Groups(0, 63, 2, (2, 2)),
        ],
        "00000010 81 0000000000000000 0000000000000010
         00000030 89 0000000000000000 0000000000000003 0000000000000010
         0000000000000001 0000000000000001 0000000000000000
         00000018 89 0000000000000000 0000000000000001 0000000000000008
         00000048 89 0000000000000000 0000000000000002 0000000000000008
         0000000000000001 0000000000000001 0000000000000008
         0000000000000002 0000000000000001 0000000000000000
         00000018 89 0000000000000000 0000000000000001 0000000000000000",
        CLOSED,
        (1, 16),
    ),
    // Rows that aren't, also with another fault; and then each other fault; the session goes on.
    (
        &[
            Ask::Groups(0, 0, 1, (0, 3)),
            Ask::Groups(2, 0, 1, (2, 1)),
            Ask::Groups(2, 0, 1, (0, 2)),
            Ask::Groups(0, 64, 1, (0, 2)),
            Ask::Groups(0, 0, 0, (0, 2)),
            Ask::Groups(1, 1, 1_000_001, (0, 2)),
            Ask::Groups(1, 1, 1_000_000, (0, 2)),
        ],
        "0000000a ff 0029 0000000000000000
         0000000a ff 0029 0000000000000000
         0000000a ff 002c 0000000000000000
         0000000a ff 002c 0000000000000000
         0000000a ff 002c 0000000000000000
         0000000a ff 002c 0000000000000000
         00000000 89",
        CLOSED,
        (0, 0),
    ),
];

const ONE: Ask = Ask::Cells(7, 1, &[(0, 0, 5)]);

static FOLDS: &[Session] = &[
    // A batch, a fold, and what is asked of it then; a second batch and two folds. No answer changes by them.
    (
        &[
            ONE,
            Ask::Fold,
            Ask::Status,
            Ask::Cell(0, 0),
            ONE,
            Ask::Cells(7, 1, &[(0, 0, 6)]),
            Ask::Cells(8, 1, &[(1, 2, 3), (0, 0, 1)]),
            Ask::Fold,
            Ask::Fold,
            Ask::Row(0),
            Ask::Stored,
        ],
        "00000010 81 0000000000000000 0000000000000005
         00000008 86 0000000000000001
         00000010 84 0000000000000001 0000000000000005
         00000009 82 01 0000000000000005
         00000010 81 0000000000000000 0000000000000005
         0000000a ff 001e 0000000000000000
         00000010 81 0000000000000001 0000000000000009
         00000008 86 0000000000000002
         00000008 86 0000000000000002
         00000010 83 0000000000000001 0000000000000006
         00000010 84 0000000000000002 0000000000000009",
        CLOSED,
        (2, 9),
    ),
    // What is reported: `rows 3`, `cols 3`, `cuts 2`, `layer_cut_entries{layer="1"} 2`,
    // `layer_cut_entries{layer="2"} 4`, `shards 2`, `limit 100`, `max_batches 10`, `batches 1`, `folded 1`, `total 5`.
    (
        &[Ask::Fold, ONE, Ask::Fold, Ask::Stats],
        "00000008 86 0000000000000000
         00000010 81 0000000000000000 0000000000000005
         00000008 86 0000000000000001
         00000090 8a
         726f777320330a
         636f6c7320330a
         6375747320320a
         6c617965725f6375745f656e74726965737b6c617965723d2231227d20320a
         6c617965725f6375745f656e74726965737b6c617965723d2232227d20340a
         73686172647320320a
         6c696d6974203130300a
         6d61785f626174636865732031300a
         6261746368657320310a
         666f6c64656420310a
         746f74616c20350a",
        CLOSED,
        (1, 5),
    ),
];

#[test]
fn questions_are_answered(rt: HostRuntime) {
    check_sessions(
        &rt,
        rt.alloc(),
        small_setup().expect(&rt, "a setup"),
        RANGES,
    );
}

#[test]
fn groups_are_answered(rt: HostRuntime) {
    check_sessions(
        &rt,
        rt.alloc(),
        small_setup().expect(&rt, "a setup"),
        GROUPS,
    );
}

#[test]
fn folds_change_no_answer(rt: HostRuntime) {
    check_sessions(&rt, rt.alloc(), small_setup().expect(&rt, "a setup"), FOLDS);
}
