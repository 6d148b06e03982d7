//! `write_all` into sinks that take less than they are offered, or fail.
ghost use Rattle.std.specs.Prelude.{◌≤◌};

use byte_io::{Script, Sink, WriteFault, write_all};
use std::alloc::Global;
use test_support::{Full, OneByte, same, same_at};

// The end of a write, a byte a call, that has room for so many bytes, whether they are the front of the text, and the
// failures.
fn written_to(alloc: Global, room: u64) -> (Result<(), WriteFault>, bool, u64)
    requires { room ≤ 9 }
{
    let mut slow = OneByte {
        inner: Script::new(alloc, Vec::new(alloc), None, Some(room)),
    };
    let outcome = write_all(&mut slow, b"some text");
    let is_front = slow.inner.written() == &b"some text"[..room as usize];
    let failures = slow.failures();
    drop(slow);
    (outcome, is_front, failures)
}

#[test]
fn texts_are_written_up_to_a_failure(rt: HostRuntime) {
    for room in 0..9u64 {
        let written = u128::from(room);
        let wanted = (Err(WriteFault { written }), true, 1);
        assert!(rt; same_at(&rt, &room, &written_to(rt.alloc(), room), &wanted));
    }
    assert!(rt; same(&rt, &written_to(rt.alloc(), 9), &(Ok(()), true, 0)));
}

#[test]
fn full_sinks(rt: HostRuntime) {
    let outcomes = [write_all(&mut Full, b""), write_all(&mut Full, b"a")];
    let wanted = [Ok(()), Err(WriteFault { written: 0 })];
    assert!(rt; same(&rt, &outcomes, &wanted));
}
