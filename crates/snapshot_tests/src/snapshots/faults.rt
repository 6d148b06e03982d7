//! Each fault of a snapshot's bytes, and each field at its bounds: bytes in place of others in the worked examples.

use crate::snapshots::bytes::{
    BOTH, CHECKED_ONE, MAX_BYTES, NAMED_ONE, ONE, TWO, fault_changed, fault_within,
};
use snap_file::SnapFault;
use std::alloc::Global;
use std::io::Eprint;
use std::process::Abort;
use test_support::{same, same_at};

/// Where bytes are changed, to what, and the fault.
type Rows = &'static [(usize, &'static [u8], Option<SnapFault>)];

/// Of `ONE`.
static IN_VERSION_ONE: Rows = &[
    (0, b"h", Some(SnapFault::BadMark)),
    (11, b"\0", Some(SnapFault::BadVersion)),
    (11, b"\x05", Some(SnapFault::BadVersion)),
    // In version 2 its first batch would be the folded batches, in version 3 the front of its client the checksum, and in
    // version 4 the checksum would come after 25 bytes more.
    (11, b"\x02", Some(SnapFault::Truncated)),
    (11, b"\x03", Some(SnapFault::BadCheck)),
    (11, b"\x04", Some(SnapFault::BadCheck)),
    // Rows: at least 1 and at most 2^60. The one cell is in row 0.
    (19, b"\0", Some(SnapFault::BadHead)),
    (19, b"\x01", None),
    (12, b"\x10\0\0\0\0\0\0\0", None),
    (12, b"\x10\0\0\0\0\0\0\x01", Some(SnapFault::BadHead)),
    // Cuts: at most 7, rising, and at most 2^40.
    (28, b"\x08", Some(SnapFault::BadHead)),
    (36, b"\x04", Some(SnapFault::BadHead)),
    (37, b"\0\0\x01\0\0\0\0\0", None),
    (37, b"\0\0\x01\0\0\0\0\x01", Some(SnapFault::BadHead)),
    // Shards: 1 to 64.
    (45, b"\0", Some(SnapFault::BadHead)),
    (45, b"\x40", None),
    (45, b"\x41", Some(SnapFault::BadHead)),
    // The limit: no less than the total, 5.
    (53, b"\x04", Some(SnapFault::BadHead)),
    (53, b"\x05", None),
    // The most batches: at least 1 and, before version 4, at most 1,000,000.
    (61, b"\0", Some(SnapFault::BadHead)),
    (54, b"\0\0\0\0\0\x0f\x42\x40", None),
    (54, b"\0\0\0\0\0\x0f\x42\x41", Some(SnapFault::BadHead)),
    // The batches: at most 10, and as many as follow.
    (69, b"\x02", Some(SnapFault::Truncated)),
    (69, b"\x0b", Some(SnapFault::BadHead)),
    // The total: at most the limit, 100, and what the counts add up to.
    (77, b"\x04", Some(SnapFault::TotalDiffers)),
    (77, b"\x65", Some(SnapFault::BadHead)),
    // The entries: as many as follow. No memory is reserved for 2^63.
    (94, b"\x80\0\0\0\0\0\0\0", Some(SnapFault::Truncated)),
    // The cell's row and column, at the number of rows and of columns, and its count.
    (109, b"\x03", Some(SnapFault::BadBatch)),
    (117, b"\x03", Some(SnapFault::BadBatch)),
    (125, b"\x06", Some(SnapFault::TotalDiffers)),
    // A byte after the end.
    (126, b"\0", Some(SnapFault::ExtraBytes)),
];

/// Of `TWO`: the place of a batch's second cell, and a second batch's client and number.
static REPEATS: Rows = &[
    (
        126,
        b"\0\0\0\0\0\0\0\0\0\0\0\0\0\0\0\0",
        Some(SnapFault::OutOfOrder),
    ),
    (
        150,
        b"\0\0\0\0\0\0\0\x07\0\0\0\0\0\0\0\x01",
        Some(SnapFault::RepeatedNumber),
    ),
];

/// Of `BOTH`: the folded batch's total, the base's count, and the client and number of the batch that isn't folded.
static FOLDED: Rows = &[
    (117, b"\x06", Some(SnapFault::TotalDiffers)),
    (149, b"\x04", Some(SnapFault::TotalDiffers)),
    (
        150,
        b"\0\0\0\0\0\0\0\x07\0\0\0\0\0\0\0\x01",
        Some(SnapFault::RepeatedNumber),
    ),
];

/// Of `CHECKED_ONE`: 1,000,000 batches, which the setup may allow, and one more, which it may not; each checksum, a client
/// that may be another but for its checksum, and a row that is judged first.
static CHECKED: Rows = &[
    (54, b"\0\0\0\0\0\x0f\x42\x40", Some(SnapFault::BadCheck)),
    (54, b"\0\0\0\0\0\x0f\x42\x41", Some(SnapFault::BadHead)),
    (81, b"\xf7", Some(SnapFault::BadCheck)),
    (101, b"\x0c", Some(SnapFault::BadCheck)),
    (153, b"\x59", Some(SnapFault::BadCheck)),
    (109, b"\x08", Some(SnapFault::BadCheck)),
    (133, b"\x03", Some(SnapFault::BadBatch)),
];

/// Of `NAMED_ONE`: 2^30 batches, which the setup may allow from version 4 on, and one more, which it may not; a byte of the
/// book, the byte that says whether there is a log, and the head's checksum.
static NAMED: Rows = &[
    (54, b"\0\0\0\0\x40\0\0\0", Some(SnapFault::BadCheck)),
    (54, b"\0\0\0\0\x40\0\0\x01", Some(SnapFault::BadHead)),
    (78, b"\x01", Some(SnapFault::BadCheck)),
    (102, b"\0", Some(SnapFault::BadCheck)),
    (102, b"\x02", Some(SnapFault::BadHead)),
    (106, b"\0", Some(SnapFault::BadCheck)),
];

// Compares the faults of the bytes with each of the changes.
fn expect_faults(rt: &(impl Abort + Eprint), alloc: Global, bytes: &[u8], rows: Rows) {
    for (at, with, expected) in rows {
        let found = fault_changed(rt, alloc, bytes, *at, with);
        assert!(rt; same_at(rt, &(*at, *with), &found, expected));
    }
}

#[test]
fn changes_are_faults(rt: HostRuntime) {
    expect_faults(&rt, rt.alloc(), ONE, IN_VERSION_ONE);
    expect_faults(&rt, rt.alloc(), TWO, REPEATS);
    expect_faults(&rt, rt.alloc(), BOTH, FOLDED);
    expect_faults(&rt, rt.alloc(), CHECKED_ONE, CHECKED);
    expect_faults(&rt, rt.alloc(), NAMED_ONE, NAMED);
}

#[test]
fn bytes_are_limited(rt: HostRuntime) {
    let over = fault_within(&rt, rt.alloc(), ONE, 1, 125);
    let within = fault_within(&rt, rt.alloc(), ONE, 126, 126);
    let front = ONE.get(..125).unwrap_or(&[]);
    let lacks = fault_within(&rt, rt.alloc(), front, 1, MAX_BYTES);
    let wanted = [Some(SnapFault::TooLong), None, Some(SnapFault::Truncated)];
    assert!(rt; same(&rt, &[over, within, lacks], &wanted));
}
