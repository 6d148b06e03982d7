//! What a server counts: the frames in streams that come in any pieces, and what each call adds.
ghost use Rattle.std.specs.Prelude.{◌≤◌};

use server_counters::{CODES, Counters, FrameScan, KINDS, LastSave, Seen, SessionCounts, Way};
use test_support::{same, same_at};

/// A cell, a status, a row, a put of one cell, a Stats, and a Fold.
static REQUESTS: &[u8] = b"\0\0\0\x10\x02................\
\0\0\0\0\x04\
\0\0\0\x08\x03........\
\0\0\0\x28\x08........................................\
\0\0\0\0\x0c\
\0\0\0\0\x0d";

static ASKED: &[Seen] = &[
    Seen::Kind(2),
    Seen::Kind(4),
    Seen::Kind(3),
    Seen::Kind(8),
    Seen::Kind(12),
    Seen::Kind(13),
];

/// A status, a refusal with code 31 and the detail 7, a save of 258 batches, a text, and a refusal with code 1.
static REPLIES: &[u8] = b"\0\0\0\x10\x84................\
\0\0\0\x0a\xff\0\x1f\0\0\0\0\0\0\0\x07\
\0\0\0\x08\x86\0\0\0\0\0\0\x01\x02\
\0\0\0\x03\x85ab\n\
\0\0\0\x0a\xff\0\x01\0\0\0\0\0\0\0\0";

static ANSWERED: &[Seen] = &[
    Seen::Kind(0x84),
    Seen::Refused(31),
    Seen::Saved(258),
    Seen::Kind(0x85),
    Seen::Refused(1),
];

// How many of the frames that are wanted have been seen once these bytes went by, where so many had before; None where
// another one is seen.
fn seen_on(scan: &mut FrameScan, bytes: &[u8], wanted: &[Seen], before: usize) -> Option<usize> {
    let mut count = before;
    let mut rest = bytes;
    for _ in 0..bytes.len() {
        let (seen, after) = scan.next(rest);
        rest = after;
        let Some(seen) = seen else {
            break;
        };
        if wanted.get(count) != Some(&seen) {
            return None;
        }
        count = count.saturating_add(1);
    }
    Some(count)
}

// The same of bytes that come in pieces of this size.
fn seen_in_pieces(way: Way, bytes: &[u8], wanted: &[Seen], size: usize) -> Option<usize>
    requires { 1 ≤ size }
{
    let mut scan = FrameScan::new(way);
    let mut count = 0usize;
    for piece in bytes.chunks(size) {
        count = seen_on(&mut scan, piece, wanted, count)?;
    }
    Some(count)
}

#[test]
fn frames_are_seen_in_any_pieces(rt: HostRuntime) {
    for (way, bytes, wanted) in [(Way::In, REQUESTS, ASKED), (Way::Out, REPLIES, ANSWERED)] {
        for more in 0..bytes.len() {
            let found = seen_in_pieces(way, bytes, wanted, 1 + more);
            assert!(rt; same_at(&rt, &more, &found, &Some(wanted.len())));
        }
    }
}

#[test]
fn each_call_adds_to_its_number(rt: HostRuntime) {
    let counters = Counters::new(&rt, rt.alloc(), 3).expect(&rt, "memory");
    assert!(rt; same(&rt, &(counters.workers(), counters.accepted(7)), &(3, 7)));
    counters.note_start(5);
    assert!(rt; same(&rt, &(counters.accepted(7), counters.accepted(3)), &(2, 0)));
    counters.note_batch(10);
    counters.note_batch(4);
    counters.note_repeat();
    counters.note_received(100);
    counters.note_sent(30);
    let found = (
        counters.cells(),
        counters.repeats(),
        counters.received(),
        counters.sent(),
    );
    assert!(rt; same(&rt, &found, &(14, 1, 100, 30)));
    for _ in 0..3u8 {
        counters.sessions.note_connection();
    }
    counters.sessions.note_worker();
    counters.sessions.note_worker();
    counters.sessions.note_end();
    let wanted = SessionCounts {
        served: 2,
        open: 1,
        waiting: 1,
    };
    assert!(rt; same(&rt, &counters.sessions.counts(), &wanted));
}

#[test]
fn requests_and_replies_are_counted_by_what_they_are(rt: HostRuntime) {
    let counters = Counters::new(&rt, rt.alloc(), 3).expect(&rt, "memory");
    counters.note_requests(KINDS[1].kind, 3);
    counters.note_requests(99, 5);
    let requests = (counters.requests(0), counters.requests(1));
    assert!(rt; same(&rt, &requests, &(0, 3)));
    for reply in ANSWERED {
        counters.note_reply(&rt, *reply);
    }
    counters.note_reply(&rt, Seen::Refused(42));
    counters.note_reply(&rt, Seen::Refused(999));
    for (place, code) in CODES.iter().enumerate() {
        let wanted = match *code {
            1 | 31 | 42 => 1,
            _ => 0,
        };
        assert!(rt; same_at(&rt, &place, &counters.refusals(place), &wanted));
    }
    let LastSave { batches, age } = counters.last_save(&rt).expect(&rt, "a save");
    let found = (
        counters.saves(),
        counters.failed_saves(),
        batches,
        age.is_some(),
    );
    assert!(rt; same(&rt, &found, &(1, 1, 258, true)));
}
