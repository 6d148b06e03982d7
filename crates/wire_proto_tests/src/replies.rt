//! Replies: each row of their layout is read, and whatever is no reply isn't.

use crate::hex::bytes_of;
use batch_store::Kept;
use hyper_matrix::RowSum;
use plain_engine::Status;
use std::alloc::Global;
use std::process::Abort;
use test_support::holds_at;
use wire_proto::{Reply, decode_reply};

static REPLIES: &[(&str, Reply<'static>)] = &[
    (
        "00000010 81 0000000000000001 0000000000000008",
        Reply::Accepted(Kept {
            index: 1,
            total_after: 8,
        }),
    ),
    ("00000009 82 01 0000000000000000", Reply::Value(Some(0))),
    ("00000009 82 00 0000000000000000", Reply::Value(None)),
    (
        "00000010 83 0000000000000002 0000000000000004",
        Reply::RowSum(RowSum {
            entries: 2,
            total: 4,
        }),
    ),
    (
        "00000010 84 0000000000000003 0000000000000064",
        Reply::Counts(Status {
            batches: 3,
            total: 100,
        }),
    ),
    ("00000003 85 61620a", Reply::Text(b"ab\n")),
    ("00000008 86 000000000000000a", Reply::Saved(10)),
    ("00000000 87", Reply::Stopping),
    (
        "00000019 88 01 3131313131313131 3232323232323232 3333333333333333",
        Reply::Cells {
            more: true,
            cells: b"111111112222222233333333",
        },
    ),
    (
        "00000018 89 3131313131313131 3232323232323232 3333333333333333",
        Reply::Rows(b"111111112222222233333333"),
    ),
    ("00000005 8a 726f777320", Reply::Stats(b"rows ")),
    (
        "0000000a ff ffff 000000000000005a",
        Reply::Refused {
            code: 65535,
            detail: 90,
        },
    ),
];

static NONE: &[&str] = &[
    "",
    "00000010 01 0000000000000001 0000000000000008",
    "0000000f 81 0000000000000001 00000000000008",
    "00000011 81 0000000000000001 0000000000000008",
    "00000009 82 02 0000000000000000",
    "00000009 82 00 0000000000000001",
    "00000004 85 61620a",
    "00000002 85 61620a",
    "00000001 87 00",
    "00000010 88 0000000000000001 0000000000000008",
    "0000000a fe 0029 0000000000000000",
    "00000009 ff 29 0000000000000000",
];

// Whether the bytes that these digits spell are read as this.
fn is_read(rt: &impl Abort, alloc: Global, digits: &str, expected: Option<Reply>) -> bool {
    let bytes = bytes_of(rt, alloc, digits);
    let is_it = decode_reply(bytes.as_slice()) == expected;
    drop(bytes);
    is_it
}

#[test]
fn replies_are_read(rt: HostRuntime) {
    for (digits, expected) in REPLIES {
        let read = is_read(&rt, rt.alloc(), digits, Some(*expected));
        assert!(rt; holds_at(&rt, digits, read));
    }
}

#[test]
fn other_bytes_are_no_reply(rt: HostRuntime) {
    for digits in NONE {
        assert!(rt; holds_at(&rt, digits, is_read(&rt, rt.alloc(), digits, None)));
    }
}
