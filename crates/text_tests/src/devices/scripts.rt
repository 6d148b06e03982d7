//! Scripts: what their reads give and their writes take, and which of them fail.
ghost use Rattle.std.specs.Prelude.{◌≡◌, ℕ, ◌+◌, ◌<◌, ◌^◌};

use byte_io::{DeviceFault, Script, Sink, Source};
use std::alloc::Global;
use std::process::Abort;
use test_support::{push_piece, same};

/// A script that gives these pieces, one of whose reads fails, and which takes so many bytes.
pub fn script(
    rt: &impl Abort,
    alloc: Global,
    given: &[&str],
    fail_read: Option<u64>,
    room: Option<u64>,
) -> Script
    ensures { result.failures ≡ 0 }
{
    let mut pieces = Vec::new(alloc);
    for piece in given {
        push_piece(&mut pieces, alloc, piece.as_bytes()).expect(rt, "memory");
    }
    Script::new(alloc, pieces, fail_read, room)
}

/// What four reads into four bytes answer, and the buffers after them, which had zeros before.
pub type Reads = ([Result<usize, DeviceFault>; 4], [[u8; 4]; 4]);

/// Four reads of a source.
pub fn four_reads<R: Source>(r: &mut R) -> Reads
    requires { R.failure_count r.old + 4 < 2 ^ 64 }
{
    let (mut first, mut second) = ([0u8; 4], [0u8; 4]);
    let (mut third, mut fourth) = ([0u8; 4], [0u8; 4]);
    let answers = [
        r.read(&mut first),
        r.read(&mut second),
        r.read(&mut third),
        r.read(&mut fourth),
    ];
    (answers, [first, second, third, fourth])
}

const FAILS: Result<usize, DeviceFault> = Err(DeviceFault);

const NONE: [u8; 4] = [0; 4];

// What four reads of a script give, and how many of them failed.
fn read(rt: &impl Abort, alloc: Global, given: &[&str], fail_read: Option<u64>) -> (Reads, u64) {
    let mut script = script(rt, alloc, given, fail_read, None);
    let reads = four_reads(&mut script);
    let failures = Source::failures(&script);
    drop(script);
    (reads, failures)
}

#[test]
fn a_script_gives_its_pieces(rt: HostRuntime) {
    let nothing = ([Ok(0); 4], [NONE; 4]);
    assert!(rt; same(&rt, &read(&rt, rt.alloc(), &[""], None), &(nothing, 0)));
    let buffers = [*b"abcd", *b"e\0\0\0", *b"fg\0\0", NONE];
    let found = read(&rt, rt.alloc(), &["", "abcde", "", "fg", ""], None);
    let wanted = ([Ok(4), Ok(1), Ok(2), Ok(0)], buffers);
    assert!(rt; same(&rt, &found, &(wanted, 0)));
}

#[test]
fn a_script_fails_on(rt: HostRuntime) {
    let found = read(&rt, rt.alloc(), &["ab", "c"], Some(1));
    let wanted = ([Ok(2), FAILS, FAILS, FAILS], [*b"ab\0\0", NONE, NONE, NONE]);
    assert!(rt; same(&rt, &found, &(wanted, 3)));
}

#[test]
fn a_script_takes_what_it_has_room_for(rt: HostRuntime) {
    let mut script = script(&rt, rt.alloc(), &[], None, Some(2));
    let answers = [
        script.write(b"x"),
        script.write(b""),
        script.write(b"yz"),
        script.write(b""),
        script.write(b"z"),
    ];
    let failures = Sink::failures(&script);
    let is_written = script.written() == b"xy".as_slice();
    drop(script);
    let wanted = [Ok(1), Ok(0), Ok(1), Ok(0), FAILS];
    assert!(rt; same(&rt, &(answers, failures, is_written), &(wanted, 1, true)));
}
