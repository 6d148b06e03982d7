//! A session of a dozen frames over the keeper of a seat, and over a link that moves at most eight bytes a call and of
//! which each call fails in turn.

use crate::pool::engines::{Accepted, InTurn, sessions_in_turn};
use byte_io::{Once, Script, Source, Trickle};
use server_counters::Machine;
use session_pool::{Disk, LogPlace};
use socket_server::FileLog;
use std::alloc::Global;
use std::process::Abort;
use std::random::RandomSource;
use std::sync::Wait;
use test_support::{pieces, same_at};
use wire_proto::Ended;

// A Put of client 7, number 1, with one count of 5 at row 0 and column 0, and what it is answered.
const FIVE: &[u8] = b"\0\0\0\x4d\x01\0\0\0\0\0\0\0\x07\0\0\0\0\0\0\0\x01\
%%MatrixMarket matrix coordinate integer general\n3 3 1\n1 1 5\n";

const FIRST: &[u8] = b"\0\0\0\x10\x81\0\0\0\0\0\0\0\0\0\0\0\0\0\0\0\x05";

// A Put of the same pair with a count of 6.
const SIX: &[u8] = b"\0\0\0\x4d\x01\0\0\0\0\0\0\0\x07\0\0\0\0\0\0\0\x01\
%%MatrixMarket matrix coordinate integer general\n3 3 1\n1 1 6\n";

// A Put of client 8, number 1, with one count of 3 at the same place.
const THREE: &[u8] = b"\0\0\0\x4d\x01\0\0\0\0\0\0\0\x08\0\0\0\0\0\0\0\x01\
%%MatrixMarket matrix coordinate integer general\n3 3 1\n1 1 3\n";

// A PutCells of client 9, number 1, with a count of 2 at row 1 and column 2, which is in the other shard.
const TWO: &[u8] = b"\0\0\0\x28\x08\0\0\0\0\0\0\0\x09\0\0\0\0\0\0\0\x01\
\0\0\0\0\0\0\0\x01\0\0\0\0\0\0\0\x02\0\0\0\0\0\0\0\x02";

// The text of the sum of these three.
const SUM: &[u8] = b"%%MatrixMarket matrix coordinate integer general\n3 3 2\n1 1 8\n2 3 2\n";

// A frame, its reply, and how many batches are accepted then and their total. A later session gets the same replies.
type Turn = (&'static [u8], &'static [u8], Accepted);

static TURNS: &[Turn] = &[
    (FIVE, FIRST, (1, 5)),
    // Index 1, total 8.
    (
        THREE,
        b"\0\0\0\x10\x81\0\0\0\0\0\0\0\x01\0\0\0\0\0\0\0\x08",
        (2, 8),
    ),
    // Index 2, total 10.
    (
        TWO,
        b"\0\0\0\x10\x81\0\0\0\0\0\0\0\x02\0\0\0\0\0\0\0\x0a",
        (3, 10),
    ),
    // The first again, and then another total under its pair, code 30.
    (FIVE, FIRST, (3, 10)),
    (SIX, b"\0\0\0\x0a\xff\0\x1e\0\0\0\0\0\0\0\0", (3, 10)),
    // The cells (0, 0) and (1, 2).
    (
        b"\0\0\0\x10\x02\0\0\0\0\0\0\0\0\0\0\0\0\0\0\0\0",
        b"\0\0\0\x09\x82\x01\0\0\0\0\0\0\0\x08",
        (3, 10),
    ),
    (
        b"\0\0\0\x10\x02\0\0\0\0\0\0\0\x01\0\0\0\0\0\0\0\x02",
        b"\0\0\0\x09\x82\x01\0\0\0\0\0\0\0\x02",
        (3, 10),
    ),
    // The rows 0 and 1, of one entry each.
    (
        b"\0\0\0\x08\x03\0\0\0\0\0\0\0\0",
        b"\0\0\0\x10\x83\0\0\0\0\0\0\0\x01\0\0\0\0\0\0\0\x08",
        (3, 10),
    ),
    (
        b"\0\0\0\x08\x03\0\0\0\0\0\0\0\x01",
        b"\0\0\0\x10\x83\0\0\0\0\0\0\0\x01\0\0\0\0\0\0\0\x02",
        (3, 10),
    ),
    // The status; a Save without a path, code 43; an Export.
    (
        b"\0\0\0\0\x04",
        b"\0\0\0\x10\x84\0\0\0\0\0\0\0\x03\0\0\0\0\0\0\0\x0a",
        (3, 10),
    ),
    (
        b"\0\0\0\0\x06",
        b"\0\0\0\x0a\xff\0\x2b\0\0\0\0\0\0\0\0",
        (3, 10),
    ),
    // Its reply is written in two parts, the header and the text.
    (b"\0\0\0\0\x05", b"\0\0\0\x43\x85", (3, 10)),
    (b"", SUM, (3, 10)),
];

// How a session ends, how many bytes of the replies are taken, and what is accepted then.
type End = (Ended, u64, Accepted);

// The most bytes that the link moves in a call.
const STEP: u64 = 8;

// The frames have 456 bytes, which are 57 reads, and the replies are 39 writes: this call is the read that gives none.
const LAST: u64 = 96;

// How the session ends whose call with this number fails. A frame is answered once it was read to its end, whatever
// came after it, and its reply is written before more is read.
fn end_at(call: u64) -> End {
    let mut left = call;
    let (mut read, mut needed) = (0u64, 0u64);
    let mut taken = 0u64;
    let mut accepted = (0, 0);
    for (frame, reply, after) in TURNS {
        needed = needed.saturating_add(frame.len() as u64);
        let asked = needed.div_ceil(STEP).saturating_sub(read);
        if left < asked {
            return (Ended::ReadFault, taken, accepted);
        }
        left -= asked;
        read = read.saturating_add(asked);
        accepted = *after;
        let replied = (reply.len() as u64).div_ceil(STEP);
        if left < replied {
            let taken = taken.saturating_add(left.saturating_mul(STEP));
            let written = u128::from(taken);
            return (Ended::WriteFault { written }, taken, accepted);
        }
        left -= replied;
        taken = taken.saturating_add(reply.len() as u64);
    }
    if left == 0 {
        return (Ended::ReadFault, taken, accepted);
    }
    (Ended::Closed { rest: 0 }, taken, accepted)
}

// All frames, or all replies.
fn joined(rt: &impl Abort, alloc: Global, replies: bool) -> Vec<u8> {
    let mut all = Vec::new(alloc);
    for (frame, reply, _) in TURNS {
        let bytes = if replies { *reply } else { *frame };
        all.extend_from_slice(bytes).expect(rt, "memory");
    }
    all
}

// A link that gives all frames in one piece.
fn link(rt: &impl Abort, alloc: Global) -> Script {
    let frames = joined(rt, alloc, false);
    let list = pieces(alloc, &frames, 1_000).expect(rt, "memory");
    drop(frames);
    Script::new(alloc, list, None, None)
}

// How many bytes a link took, where they are the first of the replies.
fn taken_of(rt: &impl Abort, alloc: Global, link: &Script) -> Option<u64> {
    let replies = joined(rt, alloc, true);
    let begins = replies.as_slice().starts_with(link.written());
    drop(replies);
    begins.then_some(link.written().len() as u64)
}

// What became of the session and of the one after it, how many calls the link of the first had and how many of them
// failed, and how many bytes of the replies each link took.
type Found = (InTurn, (u64, u64), [Option<u64>; 2]);

// The session whose call with this number fails, and after it, where asked for, the session without a failure.
fn found_at<R: Wait + Disk + Machine + LogPlace<FileLog> + RandomSource + Abort>(
    rt: &R,
    alloc: Global,
    call: u32,
    again: bool,
) -> Found {
    let mut once = Once::new(
        Trickle::new(link(rt, alloc), STEP as usize),
        u64::from(call),
    );
    let mut whole = link(rt, alloc);
    let second = if again { Some(&mut whole) } else { None };
    let sessions = sessions_in_turn(rt, alloc, 2, &mut once, second, None);
    let calls = (once.calls(), Source::failures(&once));
    let taken = taken_of(rt, alloc, once.inner().inner());
    let taken = [taken, taken_of(rt, alloc, &whole)];
    drop(once);
    drop(whole);
    (sessions, calls, taken)
}

// The session ends at the call that fails, and makes no further call. One after it gets all 277 bytes of the replies.
fn wanted(call: u32, again: bool) -> Found {
    let (ended, taken, accepted) = end_at(u64::from(call));
    let calls = (
        u64::from(call).min(LAST) + 1,
        u64::from(u64::from(call) <= LAST),
    );
    let first = (ended, accepted);
    if again {
        let second = (Ended::Closed { rest: 0 }, (3, 10));
        let sessions = (first, Some(second), (3, 10), Some(10));
        (sessions, calls, [Some(taken), Some(277)])
    } else {
        let sessions = (first, None, accepted, Some(accepted.1));
        (sessions, calls, [Some(taken), Some(0)])
    }
}

#[test]
fn each_call_fails_in_turn(rt: HostRuntime) {
    for again in [false, true] {
        for call in 0..=97u32 {
            let found = found_at(&rt, rt.alloc(), call, again);
            assert!(rt; same_at(&rt, &(call, again), &found, &wanted(call, again)));
        }
    }
}
