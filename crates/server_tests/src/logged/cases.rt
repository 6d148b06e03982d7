//! What is asked of a session over a log, and what comes back.

use crate::logged::frames::Ask::{self, Fold, Put, Save, Status, Stored};
use crate::logged::log::{NO_ROOM, NOT_BEGUN, NOT_NAMED, NOT_SYNCED, WELL};
use crate::logged::sessions::{Case, Found, play};
use log_desk::FailAt;
use std::test::Fail;
use test_support::same_at;

const SIXTEEN: &[Ask] = &[
    Put(7, 1, 5),
    Put(7, 2, 5),
    Put(7, 3, 5),
    Put(7, 4, 5),
    Put(7, 5, 5),
    Put(7, 6, 5),
    Put(7, 7, 5),
    Put(7, 8, 5),
    Put(7, 9, 5),
    Put(7, 10, 5),
    Put(7, 11, 5),
    Put(7, 12, 5),
    Put(7, 13, 5),
    Put(7, 14, 5),
    Put(7, 15, 5),
    Put(7, 16, 5),
];

const PLAIN: Case = Case {
    name: "sixteen puts in one piece share a sync",
    pieces: &[SIXTEEN],
    pages: 100,
    fail_at: FailAt::Never,
    path: WELL,
    replies: b"\0\0\0\x10\x81\0\0\0\0\0\0\0\0\0\0\0\0\0\0\0\x05\
            \0\0\0\x10\x81\0\0\0\0\0\0\0\x01\0\0\0\0\0\0\0\x0a\
            \0\0\0\x10\x81\0\0\0\0\0\0\0\x02\0\0\0\0\0\0\0\x0f\
            \0\0\0\x10\x81\0\0\0\0\0\0\0\x03\0\0\0\0\0\0\0\x14\
            \0\0\0\x10\x81\0\0\0\0\0\0\0\x04\0\0\0\0\0\0\0\x19\
            \0\0\0\x10\x81\0\0\0\0\0\0\0\x05\0\0\0\0\0\0\0\x1e\
            \0\0\0\x10\x81\0\0\0\0\0\0\0\x06\0\0\0\0\0\0\0\x23\
            \0\0\0\x10\x81\0\0\0\0\0\0\0\x07\0\0\0\0\0\0\0\x28\
            \0\0\0\x10\x81\0\0\0\0\0\0\0\x08\0\0\0\0\0\0\0\x2d\
            \0\0\0\x10\x81\0\0\0\0\0\0\0\x09\0\0\0\0\0\0\0\x32\
            \0\0\0\x10\x81\0\0\0\0\0\0\0\x0a\0\0\0\0\0\0\0\x37\
            \0\0\0\x10\x81\0\0\0\0\0\0\0\x0b\0\0\0\0\0\0\0\x3c\
            \0\0\0\x10\x81\0\0\0\0\0\0\0\x0c\0\0\0\0\0\0\0\x41\
            \0\0\0\x10\x81\0\0\0\0\0\0\0\x0d\0\0\0\0\0\0\0\x46\
            \0\0\0\x10\x81\0\0\0\0\0\0\0\x0e\0\0\0\0\0\0\0\x4b\
            \0\0\0\x10\x81\0\0\0\0\0\0\0\x0f\0\0\0\0\0\0\0\x50",
    found: Found {
        is_answered: true,
        syncs: 1,
        durable: 16,
        has_failed: false,
    },
};

// What a log has done of whose puts none was durable.
const NOTHING: Found = Found {
    is_answered: true,
    syncs: 0,
    durable: 0,
    has_failed: false,
};

static CASES: &[Case] = &[
    PLAIN,
    Case {
        name: "without room nothing is accepted",
        pieces: &[&[Put(7, 1, 5), Status, Stored]],
        pages: 0,
        replies: b"\0\0\0\x0a\xff\0\x22\0\0\0\0\0\0\0\0\
            \0\0\0\x10\x84\0\0\0\0\0\0\0\0\0\0\0\0\0\0\0\0\
            \0\0\0\x10\x84\0\0\0\0\0\0\0\0\0\0\0\0\0\0\0\0",
        found: NOTHING,
        ..PLAIN
    },
    // Of three pages each is used once: what a repeat and a refused put were promised went back.
    Case {
        name: "promises are given back",
        pieces: &[
            &[Put(7, 1, 5)],
            &[Put(7, 1, 5), Put(7, 1, 6)],
            &[Put(7, 2, 5), Put(7, 2, 5)],
            &[Put(7, 3, 5)],
            &[Put(7, 4, 5), Stored],
        ],
        pages: 3,
        replies: b"\0\0\0\x10\x81\0\0\0\0\0\0\0\0\0\0\0\0\0\0\0\x05\
            \0\0\0\x10\x81\0\0\0\0\0\0\0\0\0\0\0\0\0\0\0\x05\
            \0\0\0\x0a\xff\0\x1e\0\0\0\0\0\0\0\0\
            \0\0\0\x10\x81\0\0\0\0\0\0\0\x01\0\0\0\0\0\0\0\x0a\
            \0\0\0\x10\x81\0\0\0\0\0\0\0\x01\0\0\0\0\0\0\0\x0a\
            \0\0\0\x10\x81\0\0\0\0\0\0\0\x02\0\0\0\0\0\0\0\x0f\
            \0\0\0\x0a\xff\0\x22\0\0\0\0\0\0\0\0\
            \0\0\0\x10\x84\0\0\0\0\0\0\0\x03\0\0\0\0\0\0\0\x0f",
        found: Found {
            syncs: 3,
            durable: 3,
            ..NOTHING
        },
        ..PLAIN
    },
    // A put that isn't settled keeps its page, so there is none for a third one of the piece.
    Case {
        name: "promises are kept until puts are settled",
        pieces: &[&[Put(7, 1, 5), Put(7, 2, 5), Put(7, 3, 5), Stored]],
        pages: 2,
        replies: b"\0\0\0\x10\x81\0\0\0\0\0\0\0\0\0\0\0\0\0\0\0\x05\
            \0\0\0\x10\x81\0\0\0\0\0\0\0\x01\0\0\0\0\0\0\0\x0a\
            \0\0\0\x0a\xff\0\x22\0\0\0\0\0\0\0\0\
            \0\0\0\x10\x84\0\0\0\0\0\0\0\x02\0\0\0\0\0\0\0\x0a",
        found: Found {
            syncs: 1,
            durable: 2,
            ..NOTHING
        },
        ..PLAIN
    },
    // The second append fails: what was durable is repeated all the same.
    Case {
        name: "a failed append",
        pieces: &[
            &[Put(7, 1, 5)],
            &[Put(8, 1, 3)],
            &[Put(7, 1, 5), Status, Stored],
        ],
        fail_at: FailAt::Append(1),
        replies: b"\0\0\0\x10\x81\0\0\0\0\0\0\0\0\0\0\0\0\0\0\0\x05\
            \0\0\0\x0a\xff\0\x23\0\0\0\0\0\0\0\0\
            \0\0\0\x10\x81\0\0\0\0\0\0\0\0\0\0\0\0\0\0\0\x05\
            \0\0\0\x10\x84\0\0\0\0\0\0\0\x02\0\0\0\0\0\0\0\x08\
            \0\0\0\x10\x84\0\0\0\0\0\0\0\x01\0\0\0\0\0\0\0\x05",
        found: Found {
            syncs: 2,
            durable: 1,
            has_failed: true,
            ..NOTHING
        },
        ..PLAIN
    },
    Case {
        name: "a save is the way out of a failed log",
        pieces: &[
            &[Put(7, 1, 5)],
            &[Put(8, 1, 3)],
            &[Save, Put(8, 1, 3), Stored],
            &[Put(9, 1, 1)],
        ],
        fail_at: FailAt::Append(1),
        replies: b"\0\0\0\x10\x81\0\0\0\0\0\0\0\0\0\0\0\0\0\0\0\x05\
            \0\0\0\x0a\xff\0\x23\0\0\0\0\0\0\0\0\
            \0\0\0\x08\x86\0\0\0\0\0\0\0\x02\
            \0\0\0\x10\x81\0\0\0\0\0\0\0\x01\0\0\0\0\0\0\0\x08\
            \0\0\0\x10\x84\0\0\0\0\0\0\0\x02\0\0\0\0\0\0\0\x08\
            \0\0\0\x10\x81\0\0\0\0\0\0\0\x02\0\0\0\0\0\0\0\x09",
        found: Found {
            syncs: 1,
            durable: 3,
            ..NOTHING
        },
        ..PLAIN
    },
    Case {
        name: "folds of what is durable",
        pieces: &[&[
            Put(7, 1, 5),
            Fold,
            Put(8, 1, 3),
            Put(7, 1, 5),
            Fold,
            Fold,
            Stored,
        ]],
        replies: b"\0\0\0\x10\x81\0\0\0\0\0\0\0\0\0\0\0\0\0\0\0\x05\
            \0\0\0\x08\x86\0\0\0\0\0\0\0\x01\
            \0\0\0\x10\x81\0\0\0\0\0\0\0\x01\0\0\0\0\0\0\0\x08\
            \0\0\0\x10\x81\0\0\0\0\0\0\0\0\0\0\0\0\0\0\0\x05\
            \0\0\0\x08\x86\0\0\0\0\0\0\0\x02\
            \0\0\0\x08\x86\0\0\0\0\0\0\0\x02\
            \0\0\0\x10\x84\0\0\0\0\0\0\0\x02\0\0\0\0\0\0\0\x08",
        found: Found {
            syncs: 2,
            durable: 2,
            ..NOTHING
        },
        ..PLAIN
    },
    // What couldn't be folded is folded after the save.
    Case {
        name: "a fold where the log has failed",
        pieces: &[
            &[Put(7, 1, 5)],
            &[Put(8, 1, 3)],
            &[Fold, Save, Fold, Stored],
            &[Put(9, 1, 1), Fold],
        ],
        fail_at: FailAt::Append(1),
        replies: b"\0\0\0\x10\x81\0\0\0\0\0\0\0\0\0\0\0\0\0\0\0\x05\
            \0\0\0\x0a\xff\0\x23\0\0\0\0\0\0\0\0\
            \0\0\0\x0a\xff\0\x23\0\0\0\0\0\0\0\0\
            \0\0\0\x08\x86\0\0\0\0\0\0\0\x02\
            \0\0\0\x08\x86\0\0\0\0\0\0\0\x02\
            \0\0\0\x10\x84\0\0\0\0\0\0\0\x02\0\0\0\0\0\0\0\x08\
            \0\0\0\x10\x81\0\0\0\0\0\0\0\x02\0\0\0\0\0\0\0\x09\
            \0\0\0\x08\x86\0\0\0\0\0\0\0\x03",
        found: Found {
            syncs: 1,
            durable: 3,
            ..NOTHING
        },
        ..PLAIN
    },
    // The log in use goes on.
    Case {
        name: "a log that can't be begun anew",
        pieces: &[&[Put(7, 1, 5), Save, Put(8, 1, 3), Stored]],
        path: NOT_BEGUN,
        replies: b"\0\0\0\x10\x81\0\0\0\0\0\0\0\0\0\0\0\0\0\0\0\x05\
            \0\0\0\x0a\xff\0\x2a\0\0\0\0\0\0\0\0\
            \0\0\0\x10\x81\0\0\0\0\0\0\0\x01\0\0\0\0\0\0\0\x08\
            \0\0\0\x10\x84\0\0\0\0\0\0\0\x02\0\0\0\0\0\0\0\x08",
        found: Found {
            syncs: 2,
            durable: 2,
            ..NOTHING
        },
        ..PLAIN
    },
    // Which of the two a loss of power leaves is unknown.
    Case {
        name: "a new log without a name",
        pieces: &[&[Put(7, 1, 5), Save, Put(8, 1, 3), Put(7, 1, 5), Stored]],
        path: NOT_NAMED,
        replies: b"\0\0\0\x10\x81\0\0\0\0\0\0\0\0\0\0\0\0\0\0\0\x05\
            \0\0\0\x0a\xff\0\x2a\0\0\0\0\0\0\0\0\
            \0\0\0\x0a\xff\0\x23\0\0\0\0\0\0\0\0\
            \0\0\0\x10\x81\0\0\0\0\0\0\0\0\0\0\0\0\0\0\0\x05\
            \0\0\0\x10\x84\0\0\0\0\0\0\0\x01\0\0\0\0\0\0\0\x05",
        found: Found {
            syncs: 1,
            durable: 1,
            has_failed: true,
            ..NOTHING
        },
        ..PLAIN
    },
    Case {
        name: "a new log without room",
        pieces: &[&[Put(7, 1, 5), Save, Put(8, 1, 3), Put(7, 1, 5), Status]],
        path: NO_ROOM,
        replies: b"\0\0\0\x10\x81\0\0\0\0\0\0\0\0\0\0\0\0\0\0\0\x05\
            \0\0\0\x08\x86\0\0\0\0\0\0\0\x01\
            \0\0\0\x0a\xff\0\x22\0\0\0\0\0\0\0\0\
            \0\0\0\x10\x81\0\0\0\0\0\0\0\0\0\0\0\0\0\0\0\x05\
            \0\0\0\x10\x84\0\0\0\0\0\0\0\x01\0\0\0\0\0\0\0\x05",
        found: Found {
            durable: 1,
            ..NOTHING
        },
        ..PLAIN
    },
    // After a save nothing is to be written to the new log, so that its first sync is that of the next put.
    Case {
        name: "a new log that fails later",
        pieces: &[&[Put(7, 1, 5), Save, Put(8, 1, 3), Save, Put(8, 1, 3), Stored]],
        path: NOT_SYNCED,
        replies: b"\0\0\0\x10\x81\0\0\0\0\0\0\0\0\0\0\0\0\0\0\0\x05\
            \0\0\0\x08\x86\0\0\0\0\0\0\0\x01\
            \0\0\0\x0a\xff\0\x23\0\0\0\0\0\0\0\0\
            \0\0\0\x08\x86\0\0\0\0\0\0\0\x02\
            \0\0\0\x10\x81\0\0\0\0\0\0\0\x01\0\0\0\0\0\0\0\x08\
            \0\0\0\x10\x84\0\0\0\0\0\0\0\x02\0\0\0\0\0\0\0\x08",
        found: Found {
            durable: 2,
            ..NOTHING
        },
        ..PLAIN
    },
];

#[test]
fn sessions_are_answered_over_a_log(rt: HostRuntime) -> Result<(), Fail> {
    for case in CASES {
        let found = play(&rt, rt.alloc(), case);
        assert!(&rt; same_at(&rt, &case.name, &found, &case.found));
    }
    std::fs::remove_file(&rt, "session_log_test.snapshot")?;
    Ok(())
}
