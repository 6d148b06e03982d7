//! Bytes of examples, as sources give them.
use crate::sources::source;
use snap_file::{SnapFault, Snapshot, read_snapshot};
use std::alloc::Global;
use std::process::Abort;

/// In version 1: the head of 3 rows, 3 columns, cuts 2 and 4, 2 shards, limit 100, at most 10 batches; 1 batch, total
/// 5. Then client 7, number 1, 1 cell: row 0, column 0, count 5.
pub static ONE: &[u8] = b"HHMSNAP\n\0\0\0\x01\
\0\0\0\0\0\0\0\x03\0\0\0\0\0\0\0\x03\
\x02\0\0\0\0\0\0\0\x02\0\0\0\0\0\0\0\x04\
\x02\0\0\0\0\0\0\0\x64\0\0\0\0\0\0\0\x0a\
\0\0\0\0\0\0\0\x01\0\0\0\0\0\0\0\x05\
\0\0\0\0\0\0\0\x07\0\0\0\0\0\0\0\x01\0\0\0\0\0\0\0\x01\
\0\0\0\0\0\0\0\0\0\0\0\0\0\0\0\0\0\0\0\0\0\0\0\x05";

/// The same setup with 2 batches, total 8: client 7, number 1, 2 cells, row 0, column 0, count 5 and row 2, column 1,
/// count 0; client 8, number 1, 1 cell, row 0, column 0, count 3.
pub static TWO: &[u8] = b"HHMSNAP\n\0\0\0\x01\
\0\0\0\0\0\0\0\x03\0\0\0\0\0\0\0\x03\
\x02\0\0\0\0\0\0\0\x02\0\0\0\0\0\0\0\x04\
\x02\0\0\0\0\0\0\0\x64\0\0\0\0\0\0\0\x0a\
\0\0\0\0\0\0\0\x02\0\0\0\0\0\0\0\x08\
\0\0\0\0\0\0\0\x07\0\0\0\0\0\0\0\x01\0\0\0\0\0\0\0\x02\
\0\0\0\0\0\0\0\0\0\0\0\0\0\0\0\0\0\0\0\0\0\0\0\x05\
\0\0\0\0\0\0\0\x02\0\0\0\0\0\0\0\x01\0\0\0\0\0\0\0\0\
\0\0\0\0\0\0\0\x08\0\0\0\0\0\0\0\x01\0\0\0\0\0\0\0\x01\
\0\0\0\0\0\0\0\0\0\0\0\0\0\0\0\0\0\0\0\0\0\0\0\x03";

/// In version 2, with the batch of `ONE` folded and total 8: after the head 1 folded batch, client 7, number 1, 1 cell,
/// total 5; the base of 1 cell, row 0, column 0, count 5; and client 8, number 1, 1 cell, row 0, column 0, count 3.
pub static BOTH: &[u8] = b"HHMSNAP\n\0\0\0\x02\
\0\0\0\0\0\0\0\x03\0\0\0\0\0\0\0\x03\
\x02\0\0\0\0\0\0\0\x02\0\0\0\0\0\0\0\x04\
\x02\0\0\0\0\0\0\0\x64\0\0\0\0\0\0\0\x0a\
\0\0\0\0\0\0\0\x01\0\0\0\0\0\0\0\x08\
\0\0\0\0\0\0\0\x01\
\0\0\0\0\0\0\0\x07\0\0\0\0\0\0\0\x01\0\0\0\0\0\0\0\x01\0\0\0\0\0\0\0\x05\
\0\0\0\0\0\0\0\x01\
\0\0\0\0\0\0\0\0\0\0\0\0\0\0\0\0\0\0\0\0\0\0\0\x05\
\0\0\0\0\0\0\0\x08\0\0\0\0\0\0\0\x01\0\0\0\0\0\0\0\x01\
\0\0\0\0\0\0\0\0\0\0\0\0\0\0\0\0\0\0\0\0\0\0\0\x03";

/// `ONE` in version 3. After the head, what is folded and the batch come the checksums 163ee4f6,
/// d0540e0d and 5ed02458, which another program made.
pub static CHECKED_ONE: &[u8] = b"HHMSNAP\n\0\0\0\x03\
\0\0\0\0\0\0\0\x03\0\0\0\0\0\0\0\x03\
\x02\0\0\0\0\0\0\0\x02\0\0\0\0\0\0\0\x04\
\x02\0\0\0\0\0\0\0\x64\0\0\0\0\0\0\0\x0a\
\0\0\0\0\0\0\0\x01\0\0\0\0\0\0\0\x05\
\x16\x3e\xe4\xf6\
\0\0\0\0\0\0\0\0\0\0\0\0\0\0\0\0\
\xd0\x54\x0e\x0d\
\0\0\0\0\0\0\0\x07\0\0\0\0\0\0\0\x01\0\0\0\0\0\0\0\x01\
\0\0\0\0\0\0\0\0\0\0\0\0\0\0\0\0\0\0\0\0\0\0\0\x05\
\x5e\xd0\x24\x58";

/// `BOTH` in version 3, likewise.
pub static CHECKED_BOTH: &[u8] = b"HHMSNAP\n\0\0\0\x03\
\0\0\0\0\0\0\0\x03\0\0\0\0\0\0\0\x03\
\x02\0\0\0\0\0\0\0\x02\0\0\0\0\0\0\0\x04\
\x02\0\0\0\0\0\0\0\x64\0\0\0\0\0\0\0\x0a\
\0\0\0\0\0\0\0\x01\0\0\0\0\0\0\0\x08\
\xa9\x16\xa8\x25\
\0\0\0\0\0\0\0\x01\
\0\0\0\0\0\0\0\x07\0\0\0\0\0\0\0\x01\0\0\0\0\0\0\0\x01\0\0\0\0\0\0\0\x05\
\0\0\0\0\0\0\0\x01\
\0\0\0\0\0\0\0\0\0\0\0\0\0\0\0\0\0\0\0\0\0\0\0\x05\
\x2e\xc5\xf0\x45\
\0\0\0\0\0\0\0\x08\0\0\0\0\0\0\0\x01\0\0\0\0\0\0\0\x01\
\0\0\0\0\0\0\0\0\0\0\0\0\0\0\0\0\0\0\0\0\0\0\0\x03\
\xca\xc2\x29\x80";

/// `ONE` in version 4, as it is written where its book isn't known: the head ends by 16 bytes 00, no window, and no log.
/// Another program made the checksums.
pub static WRITTEN_ONE: &[u8] = b"HHMSNAP\n\0\0\0\x04\
\0\0\0\0\0\0\0\x03\0\0\0\0\0\0\0\x03\
\x02\0\0\0\0\0\0\0\x02\0\0\0\0\0\0\0\x04\
\x02\0\0\0\0\0\0\0\x64\0\0\0\0\0\0\0\x0a\
\0\0\0\0\0\0\0\x01\0\0\0\0\0\0\0\x05\
\0\0\0\0\0\0\0\0\0\0\0\0\0\0\0\0\
\xff\xff\xff\xff\xff\xff\xff\xff\x00\
\xd3\x87\x76\xcd\
\0\0\0\0\0\0\0\0\0\0\0\0\0\0\0\0\
\x51\x4e\x02\x00\
\0\0\0\0\0\0\0\x07\0\0\0\0\0\0\0\x01\0\0\0\0\0\0\0\x01\
\0\0\0\0\0\0\0\0\0\0\0\0\0\0\0\0\0\0\0\0\0\0\0\x05\
\xbe\x3b\xb4\x96";

/// The same of the book 00112233445566778899aabbccddeeff, with a log.
pub static NAMED_ONE: &[u8] = b"HHMSNAP\n\0\0\0\x04\
\0\0\0\0\0\0\0\x03\0\0\0\0\0\0\0\x03\
\x02\0\0\0\0\0\0\0\x02\0\0\0\0\0\0\0\x04\
\x02\0\0\0\0\0\0\0\x64\0\0\0\0\0\0\0\x0a\
\0\0\0\0\0\0\0\x01\0\0\0\0\0\0\0\x05\
\0\x11\x22\x33\x44\x55\x66\x77\x88\x99\xaa\xbb\xcc\xdd\xee\xff\
\xff\xff\xff\xff\xff\xff\xff\xff\x01\
\xca\x0f\x41\x53\
\0\0\0\0\0\0\0\0\0\0\0\0\0\0\0\0\
\xa1\x2c\x3b\x5e\
\0\0\0\0\0\0\0\x07\0\0\0\0\0\0\0\x01\0\0\0\0\0\0\0\x01\
\0\0\0\0\0\0\0\0\0\0\0\0\0\0\0\0\0\0\0\0\0\0\0\x05\
\x79\xb4\x08\x2c";

/// `BOTH` in version 4, likewise without a known book.
pub static WRITTEN_BOTH: &[u8] = b"HHMSNAP\n\0\0\0\x04\
\0\0\0\0\0\0\0\x03\0\0\0\0\0\0\0\x03\
\x02\0\0\0\0\0\0\0\x02\0\0\0\0\0\0\0\x04\
\x02\0\0\0\0\0\0\0\x64\0\0\0\0\0\0\0\x0a\
\0\0\0\0\0\0\0\x01\0\0\0\0\0\0\0\x08\
\0\0\0\0\0\0\0\0\0\0\0\0\0\0\0\0\
\xff\xff\xff\xff\xff\xff\xff\xff\x00\
\x20\x0b\xb4\x77\
\0\0\0\0\0\0\0\x01\
\0\0\0\0\0\0\0\x07\0\0\0\0\0\0\0\x01\0\0\0\0\0\0\0\x01\0\0\0\0\0\0\0\x05\
\0\0\0\0\0\0\0\x01\
\0\0\0\0\0\0\0\0\0\0\0\0\0\0\0\0\0\0\0\0\0\0\0\x05\
\x08\xac\x6b\xc8\
\0\0\0\0\0\0\0\x08\0\0\0\0\0\0\0\x01\0\0\0\0\0\0\0\x01\
\0\0\0\0\0\0\0\0\0\0\0\0\0\0\0\0\0\0\0\0\0\0\0\x03\
\x12\x31\xda\x64";

/// Limit of the bytes that the tests read.
pub const MAX_BYTES: u64 = 1 << 40;

/// The bytes with others in place of those from `at` on.
pub fn changed(rt: &impl Abort, alloc: Global, bytes: &[u8], at: usize, with: &[u8]) -> Vec<u8> {
    let mut copy = Vec::new(alloc);
    let rest = at.saturating_add(with.len()).min(bytes.len());
    for part in [&bytes[..at.min(bytes.len())], with, &bytes[rest..]] {
        copy.extend_from_slice(part).expect(rt, "memory");
    }
    copy
}

/// What these bytes are read as, in pieces of `size`.
pub fn read(rt: &impl Abort, alloc: Global, bytes: &[u8], size: usize) -> Snapshot {
    let mut script = source(rt, alloc, bytes, size, None);
    let snapshot = read_snapshot(alloc, &mut script, MAX_BYTES).expect(rt, "a snapshot");
    drop(script);
    snapshot
}

/// The fault of these bytes, in pieces of `size`.
pub fn fault_within(
    rt: &impl Abort,
    alloc: Global,
    bytes: &[u8],
    size: usize,
    max_bytes: u64,
) -> Option<SnapFault> {
    let mut script = source(rt, alloc, bytes, size, None);
    let found = read_snapshot(alloc, &mut script, max_bytes).err();
    drop(script);
    found
}

/// The fault of the bytes with others in place of those from `at` on.
pub fn fault_changed(
    rt: &impl Abort,
    alloc: Global,
    bytes: &[u8],
    at: usize,
    with: &[u8],
) -> Option<SnapFault> {
    let copy = changed(rt, alloc, bytes, at, with);
    let found = fault_within(rt, alloc, &copy, 7, MAX_BYTES);
    drop(copy);
    found
}
