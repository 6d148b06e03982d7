//! Puts that come at once are answered together.
ghost use Rattle.std.specs.Prelude.{◌≡◌, ◌+◌, ◌<◌, ◌^◌};

use crate::asks::{Ask, frame};
use crate::hex::bytes_of;
use crate::wrapped::expect_new;
use byte_io::{Once, Script};
use plain_engine::PlainEngine;
use std::alloc::Global;
use std::process::Abort;
use test_batches::small_setup;
use test_support::{pieces, same_at};
use wire_proto::{Ended, serve_engine};

const FIVE: Ask = Ask::Put(7, 1, "3 3 1\n1 1 5\n");

const ACCEPTED: &str = "00000010 81 0000000000000000 0000000000000005";

// These bytes so many times.
fn repeated(rt: &impl Abort, alloc: Global, bytes: &[u8], times: u64) -> Vec<u8> {
    let mut all = Vec::new(alloc);
    for _ in 0..times {
        all.extend_from_slice(bytes).expect(rt, "memory");
    }
    all
}

// One put so many times, in one piece.
fn link_of_puts(rt: &impl Abort, alloc: Global, puts: u64) -> Once<Script> {
    let one = frame(rt, alloc, FIVE);
    let sent = repeated(rt, alloc, one.as_slice(), puts);
    let list = pieces(alloc, sent.as_slice(), 1_000_000).expect(rt, "memory");
    drop(one);
    drop(sent);
    Once::new(Script::new(alloc, list, None, None), 1_000_000)
}

// How a session of so many puts ends, how many calls its link had, and whether it took just their replies.
fn answered(
    rt: &impl Abort,
    alloc: Global,
    engine: &mut PlainEngine,
    puts: u64,
) -> (Ended, u64, bool) {
    let reply = bytes_of(rt, alloc, ACCEPTED);
    let replies = repeated(rt, alloc, reply.as_slice(), puts);
    let mut link = link_of_puts(rt, alloc, puts);
    expect_new(rt, &link);
    let ended = serve_engine(alloc, &mut link, engine, 1_000_000);
    let calls = link.calls();
    let is_it = link.inner().written() == replies.as_slice();
    drop(reply);
    drop(replies);
    drop(link);
    (ended, calls, is_it)
}

// One read gives all, 64 replies go in one write, and the last read gives none.
#[test]
fn replies_to_puts_that_came_at_once_are_sent_together(rt: HostRuntime) {
    for (puts, writes) in [(1u64, 1u64), (2, 1), (64, 1), (65, 2), (130, 3)] {
        let setup = small_setup().expect(&rt, "a setup");
        let mut engine = PlainEngine::new(&rt, rt.alloc(), setup).expect(&rt, "memory");
        let found = answered(&rt, rt.alloc(), &mut engine, puts);
        drop(engine);
        let whole = (Ended::Closed { rest: 0 }, writes + 2, true);
        assert!(rt; same_at(&rt, &puts, &found, &whole));
    }
}
