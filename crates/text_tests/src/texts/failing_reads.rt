//! Sources that fail in mid-stream.
use crate::texts::cases::Expected::{Fault, File};
use crate::texts::cases::{Expected, GENERAL, WIDE, is_read_bytewise, joined};
use mm_text::MmKind::{IndexOutOfRange, Read};
use std::alloc::Global;
use std::process::Abort;
use test_support::holds_at;

/// A text of 61 bytes, whose lines end in bytes 49, 55 and 61.
const WHOLE: &str = "3 3 1\n1 1 5\n";

/// A text whose fault shows in byte 62, the last but one.
const FAULTY: &str = "3 3 1\n0 0 -1\n\n";

/// A text after the banner, the read of a byte that fails, counted from 0, and what reading the text must give.
static ROWS: &[(&str, u64, Expected)] = &[
    (WHOLE, 0, Fault(Read, 1)),
    (WHOLE, 48, Fault(Read, 1)),
    (WHOLE, 49, Fault(Read, 2)),
    (WHOLE, 54, Fault(Read, 2)),
    (WHOLE, 55, Fault(Read, 3)),
    (WHOLE, 60, Fault(Read, 3)),
    // The last read finds the end.
    (WHOLE, 61, Fault(Read, 4)),
    (WHOLE, 62, File(3, 3, &[(0, 0, 5)])),
    (FAULTY, 61, Fault(Read, 3)),
    (FAULTY, 62, Fault(IndexOutOfRange, 3)),
];

// Whether a row is met.
fn holds(rt: &impl Abort, alloc: Global, row: &(&str, u64, Expected)) -> bool {
    let text = joined(rt, alloc, GENERAL, &[(row.0, 1)]);
    let is_met = is_read_bytewise(rt, alloc, &text, WIDE, Some(row.1), row.2);
    drop(text);
    is_met
}

#[test]
fn reads_fail(rt: HostRuntime) {
    for row in ROWS {
        assert!(rt; holds_at(&rt, row, holds(&rt, rt.alloc(), row)));
    }
}
