//! A session over a link that moves one byte a call, and of which each call fails in turn; and the same session again.
ghost use Rattle.std.specs.Prelude.{◌≡◌, ◌+◌, ◌-◌, ◌<◌, ◌≤◌, ◌^◌};

use crate::asks::{Ask, Outcome, Session, link_of, served};
use crate::hex::bytes_of;
use byte_io::{Link, Once, Sink, Source, Trickle};
use plain_engine::PlainEngine;
use std::alloc::Global;
use std::process::Abort;
use std::random::RandomSource;
use test_batches::small_setup;
use test_support::same_at;
use wire_proto::{Ended, serve_engine};

// More reads than the session has.
const TURNS: u64 = 1_000_000;

/// Two puts and a query: their frames have 82, 82 and 21 bytes, and their replies 21, 21 and 14.
static TWO_PUTS: Session = (
    &[
        Ask::Put(7, 1, "3 3 1\n1 1 5\n"),
        Ask::Put(8, 1, "3 3 1\n1 1 3\n"),
        Ask::Cell(0, 0),
    ],
    "00000010 81 0000000000000000 0000000000000005
     00000010 81 0000000000000001 0000000000000008
     00000009 82 01 0000000000000008",
    Ended::Closed { rest: 0 },
    (2, 8),
);

/// A link that hasn't failed yet.
pub fn expect_new<L: Link>(rt: &impl Abort, link: &L)
    ensures { L.Sink.failure_count link.now ≡ 0 }
{
    assert!(rt; Sink::failures(link) == 0);
}

// How a session ended, how many calls its link had and how many of them failed, and how many bytes were written and
// whether they are the first of the replies.
type Slow = (Ended, (u64, u64), (u64, bool));

// Serves the session over a link whose call fails.
fn served_slowly(rt: &impl Abort, alloc: Global, engine: &mut PlainEngine, call: u32) -> Slow {
    let replies = bytes_of(rt, alloc, TWO_PUTS.1);
    let slow = Trickle::new(link_of(rt, alloc, TWO_PUTS.0, 1_000), 1);
    let mut once = Once::new(slow, u64::from(call));
    expect_new(rt, &once);
    let ended = serve_engine(alloc, &mut once, engine, TURNS);
    let calls = (once.calls(), Source::failures(&once));
    let written = once.inner().inner().written();
    let begins = replies.as_slice().starts_with(written);
    let len = written.len() as u64;
    drop(once);
    drop(replies);
    (ended, calls, (len, begins))
}

// What became of the session, what was accepted then, and what became of one after it over a link that doesn't fail.
type Found = (Slow, (u64, u64), Outcome);

// Serves both over a new engine.
fn served_twice<R: RandomSource + Abort>(rt: &R, alloc: Global, call: u32) -> Found {
    let mut engine = PlainEngine::new(rt, alloc, small_setup().expect(rt, "a setup")).expect(
        rt, "memory",
    );
    let slow = served_slowly(rt, alloc, &mut engine, call);
    let status = engine.status();
    let after = served(rt, alloc, &mut engine, &TWO_PUTS, 100, TURNS);
    drop(engine);
    (slow, (status.batches, status.total), after)
}

// How a session ends after so many bytes.
fn write_fault(written: u64) -> Ended {
    Ended::WriteFault {
        written: u128::from(written),
    }
}

/// How a session ends whose call with this number fails, how many bytes are written, and what is accepted.
///
/// Each reply is written before more is read; the last read gives none.
fn failing(call: u64) -> (Ended, u64, (u64, u64)) {
    match call {
        0..=81 => (Ended::ReadFault, 0, (0, 0)),
        82..=102 => (write_fault(call - 82), call - 82, (1, 5)),
        103..=184 => (Ended::ReadFault, 21, (1, 5)),
        185..=205 => (write_fault(call - 164), call - 164, (2, 8)),
        206..=226 => (Ended::ReadFault, 42, (2, 8)),
        227..=240 => (write_fault(call - 185), call - 185, (2, 8)),
        241 => (Ended::ReadFault, 56, (2, 8)),
        _ => (Ended::Closed { rest: 0 }, 56, (2, 8)),
    }
}

// A session whose call with this number fails ends at that call, and makes no further one. Whatever failed, the batches
// of the session after it are repeats or fresh, and its replies are the same.
fn ends_at(call: u32) -> Found {
    let call = u64::from(call);
    let end = failing(call);
    let calls = (call.min(241) + 1, u64::from(call < 242));
    let after = (TWO_PUTS.2, true, TWO_PUTS.3);
    ((end.0, calls, (end.1, true)), end.2, after)
}

#[test]
fn each_call_fails_in_turn(rt: HostRuntime) {
    for call in 0..=242u32 {
        let found = served_twice(&rt, rt.alloc(), call);
        assert!(rt; same_at(&rt, &call, &found, &ends_at(call)));
    }
}
