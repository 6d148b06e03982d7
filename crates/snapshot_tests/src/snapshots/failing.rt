//! Reads and writes that fail in mid-stream.

use crate::snapshots::bytes::{MAX_BYTES, WRITTEN_BOTH, read};
use crate::sources::source;
use byte_io::{Script, Source, WriteFault};
use snap_file::{SnapFault, Snapshot, read_snapshot, write_snapshot};
use std::alloc::Global;
use std::process::Abort;
use test_support::{holds_at, same, same_at};

// The fault of these bytes, one byte a read, of which that number `failing` fails, and how often one failed.
fn fault_failing(
    rt: &impl Abort,
    alloc: Global,
    bytes: &[u8],
    failing: u64,
) -> (Option<SnapFault>, u64) {
    let mut script = source(rt, alloc, bytes, 1, Some(failing));
    let fault = read_snapshot(alloc, &mut script, MAX_BYTES).err();
    let failures = script.failures();
    drop(script);
    (fault, failures)
}

// One byte a read, one read more at the end, and no read after that.
#[test]
fn each_read_fails_in_turn(rt: HostRuntime) {
    let len = WRITTEN_BOTH.len() as u64;
    for failing in 0..=len {
        let found = fault_failing(&rt, rt.alloc(), WRITTEN_BOTH, failing);
        assert!(rt; same_at(&rt, &failing, &found, &(Some(SnapFault::Read), 1)));
    }
    let found = fault_failing(&rt, rt.alloc(), WRITTEN_BOTH, len + 1);
    assert!(rt; same(&rt, &found, &(None, 0)));
}

// Whether the writing of a snapshot whose file these bytes are stops where the sink takes no more than `room`.
fn stops_at(alloc: Global, snapshot: &Snapshot, bytes: &[u8], room: usize) -> bool {
    let mut script = Script::new(alloc, Vec::new(alloc), None, Some(room as u64));
    // Any use of it gives the facts that it keeps.
    let list = &snapshot.list;
    let answer = write_snapshot(&mut script, snapshot.origin, &snapshot.setup, list);
    let fault = WriteFault {
        written: room as u128,
    };
    let stops = answer == Err(fault) && script.written() == &bytes[..room.min(bytes.len())];
    drop(script);
    stops
}

#[test]
fn each_write_fails_in_turn(rt: HostRuntime) {
    let snapshot = read(&rt, rt.alloc(), WRITTEN_BOTH, 64);
    for room in 0..WRITTEN_BOTH.len() {
        assert!(rt;
            holds_at(
                &rt,
                &room,
                stops_at(rt.alloc(), &snapshot, WRITTEN_BOTH, room)
            )
        );
    }
    drop(snapshot);
}
