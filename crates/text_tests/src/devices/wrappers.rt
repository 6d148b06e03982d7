//! Devices around scripts: one call of a script fails, or each call moves few bytes.
ghost use Rattle.std.specs.Prelude.{◌≡◌, ℕ, ◌+◌, ◌<◌, ◌^◌};

use crate::devices::scripts::{Reads, four_reads, script};
use byte_io::{DeviceFault, Once, Sink, Source, Trickle};
use std::alloc::Global;
use std::process::Abort;
use test_support::{same, same_at};

/// What a read, a write and a read answer, the failures and the calls that are counted, and the bytes that the script
/// inside took.
type Calls = ([Result<usize, DeviceFault>; 3], u64, u64, usize);

// A read, a write and a read, of which calls one fails.
fn three_calls(rt: &impl Abort, alloc: Global, fail_at: u32) -> Calls {
    let inner = script(rt, alloc, &["a", "b"], None, None);
    let mut once = Once::new(inner, u64::from(fail_at));
    let mut byte = [0u8; 1];
    let answers = [once.read(&mut byte), once.write(b"x"), once.read(&mut byte)];
    let failures = Sink::failures(&once);
    let calls = once.calls();
    let taken = once.inner().written().len();
    drop(once);
    (answers, failures, calls, taken)
}

const FAILS: Result<usize, DeviceFault> = Err(DeviceFault);

// Reads and writes have one count.
#[test]
fn one_call_fails(rt: HostRuntime) {
    for (fail_at, answers, failures, taken) in [
        (0, [FAILS, Ok(1), Ok(1)], 1, 1),
        (1, [Ok(1), FAILS, Ok(1)], 1, 0),
        (2, [Ok(1), Ok(1), FAILS], 1, 1),
        (3, [Ok(1), Ok(1), Ok(1)], 0, 1),
    ] {
        let found = three_calls(&rt, rt.alloc(), fail_at);
        assert!(rt; same_at(&rt, &fail_at, &found, &(answers, failures, 3, taken)));
    }
}

// What a write in steps of two bytes takes, whether it is the front of what was offered, and what four reads give.
fn few_bytes(rt: &impl Abort, alloc: Global) -> (Result<usize, DeviceFault>, bool, Reads) {
    let mut slow = Trickle::new(script(rt, alloc, &["abc", "de"], None, None), 2);
    let taken = slow.write(b"some text");
    let is_front = slow.inner().written() == b"so".as_slice();
    let reads = four_reads(&mut slow);
    drop(slow);
    (taken, is_front, reads)
}

#[test]
fn calls_move_few_bytes(rt: HostRuntime) {
    let answers = [Ok(2), Ok(1), Ok(2), Ok(0)];
    let buffers = [*b"ab\0\0", *b"c\0\0\0", *b"de\0\0", [0; 4]];
    let found = few_bytes(&rt, rt.alloc());
    assert!(rt; same(&rt, &found, &(Ok(2), true, (answers, buffers))));
}
