//! Which sessions wake the threads that compact beside a pool's workers.

use crate::pool::engines::{Accepted, sessions_in_turn};
use crate::pool::frames::TWO_PUTS_AND_A_CELL;
use byte_io::Script;
use crossbeam_channel::bounded;
use server_counters::Machine;
use session_pool::{Disk, LogPlace};
use socket_server::FileLog;
use std::alloc::Global;
use std::process::Abort;
use std::random::RandomSource;
use std::sync::Wait;
use test_support::{pieces, same_at};

// A Cell at row 0 and column 0.
const CELL: &[u8] = b"\0\0\0\x10\x02\0\0\0\0\0\0\0\0\0\0\0\0\0\0\0\0";

// A Put of client 7, number 1, with one count of 1,001, which is more than the limit.
const TOO_MUCH: &[u8] = b"\0\0\0\x50\x01\0\0\0\0\0\0\0\x07\0\0\0\0\0\0\0\x01\
%%MatrixMarket matrix coordinate integer general\n3 3 1\n1 1 1001\n";

// The frames of a session, what is accepted then, and whether a message waits for whoever compacts, and a second one.
static WAKES: &[(&[u8], Accepted, [bool; 2])] = &[
    // The channel has one place.
    (TWO_PUTS_AND_A_CELL, (2, 8), [true, false]),
    (CELL, (0, 0), [false, false]),
    (TOO_MUCH, (0, 0), [false, false]),
    (b"", (0, 0), [false, false]),
];

// Serves a session of these frames.
fn waking<R: Wait + Disk + Machine + LogPlace<FileLog> + RandomSource + Abort>(
    rt: &R,
    alloc: Global,
    frames: &[u8],
) -> (Accepted, [bool; 2]) {
    let (compactor, woken) = bounded(alloc, 1).expect(rt, "channel");
    let pieces = pieces(alloc, frames, 1_000).expect(rt, "memory");
    let mut link = Script::new(alloc, pieces, None, None);
    let served = sessions_in_turn(rt, alloc, 1, &mut link, None, Some(&compactor));
    drop(link);
    drop(compactor);
    let messages = [woken.try_recv(rt).is_ok(), woken.try_recv(rt).is_ok()];
    drop(woken);
    (served.2, messages)
}

#[test]
fn accepted_puts_wake_whoever_compacts(rt: HostRuntime) {
    for (i, (frames, accepted, messages)) in WAKES.iter().enumerate() {
        let found = waking(&rt, rt.alloc(), frames);
        assert!(rt; same_at(&rt, &i, &found, &(*accepted, *messages)));
    }
}
