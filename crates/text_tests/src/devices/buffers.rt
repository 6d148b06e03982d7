//! Buffers in front of a source and of a sink.
ghost use Rattle.std.specs.Prelude.{◌≤◌};

use crate::devices::scripts::script;
use byte_io::{
    DeviceFault, READ_CAPACITY, ReadBuffer, Script, Sink, Source, WRITE_CAPACITY, WriteBuffer,
    WriteFault,
};
use std::alloc::Global;
use test_support::{same, same_at};

// One read of at most so many bytes, and whether just these are pending then.
fn fill_leaves(
    buffer: &mut ReadBuffer,
    script: &mut Script,
    most: usize,
    pending: &str,
) -> (Result<usize, DeviceFault>, bool) {
    if buffer.pending().len() >= READ_CAPACITY || Source::failures(script) > 9 {
        return (Ok(0), false);
    }
    let came = buffer.fill(script, most);
    (came, buffer.pending() == pending.as_bytes())
}

// Keeps the first bytes of those that are pending, uses some of them, and returns whether just these are left.
fn use_leaves(buffer: &mut ReadBuffer, kept: usize, used: usize, left: &str) -> bool {
    if used > kept || kept > buffer.pending().len() {
        return false;
    }
    buffer.truncate(kept);
    buffer.consume(used);
    buffer.pending() == left.as_bytes()
}

// Bytes that are pending stay in front of those that come, also where a read fails.
#[test]
fn reads_wait_in_front(rt: HostRuntime) {
    let mut script = script(&rt, rt.alloc(), &["abcd", "efg"], Some(2), None);
    let mut buffer = ReadBuffer::new(rt.alloc()).expect(&rt, "memory");
    let first = fill_leaves(&mut buffer, &mut script, 3, "abc");
    let used = use_leaves(&mut buffer, 3, 2, "c");
    let second = fill_leaves(&mut buffer, &mut script, 9, "cd");
    let third = fill_leaves(&mut buffer, &mut script, 9, "cd");
    let cut = use_leaves(&mut buffer, 1, 0, "c");
    drop(buffer);
    drop(script);
    let reads = [(Ok(3), true), (Ok(1), true), (Err(DeviceFault), true)];
    assert!(rt;
        same(
            &rt,
            &([first, second, third], used, cut),
            &(reads, true, true)
        )
    );
}

// A text pushed in two parts to a sink that takes so many bytes: the end, and what the sink has.
fn written_by_parts(alloc: Global, limit: Option<u64>) -> (Result<(), WriteFault>, usize, bool) {
    let mut script = Script::new(alloc, Vec::new(alloc), None, limit);
    let mut buffer = WriteBuffer::new();
    buffer.push(b"some ");
    buffer.push(b"text");
    let outcome = buffer.flush(&mut script);
    let taken = script.written();
    let (count, is_front) = (taken.len(), b"some text".starts_with(taken));
    drop(script);
    (outcome, count, is_front)
}

#[test]
fn parts_are_one_text(rt: HostRuntime) {
    let whole = written_by_parts(rt.alloc(), None);
    assert!(rt; same(&rt, &whole, &(Ok(()), 9, true)));
    for limit in 0..9u64 {
        let written = u128::from(limit);
        let wanted = (Err(WriteFault { written }), limit as usize, true);
        let found = written_by_parts(rt.alloc(), Some(limit));
        assert!(rt; same_at(&rt, &limit, &found, &wanted));
    }
}

// How many bytes the sink has before room is made for so many more after two, and then.
fn room_made(alloc: Global, len: usize) -> (usize, Result<(), WriteFault>, usize)
    requires { len ≤ WRITE_CAPACITY }
{
    let mut script = Script::new(alloc, Vec::new(alloc), None, None);
    let mut buffer = WriteBuffer::new();
    buffer.push(b"ab");
    let before = script.written().len();
    let outcome = buffer.make_room(&mut script, len);
    let after = script.written().len();
    drop(script);
    (before, outcome, after)
}

#[test]
fn room_is_made_where_it_lacks(rt: HostRuntime) {
    let fits = room_made(rt.alloc(), WRITE_CAPACITY - 2);
    let lacks = room_made(rt.alloc(), WRITE_CAPACITY - 1);
    assert!(rt; same(&rt, &[fits, lacks], &[(0, Ok(()), 0), (0, Ok(()), 2)]));
}
