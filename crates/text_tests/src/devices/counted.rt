//! Readers and writers of std that are counted: what they move, and how often each is called where a call fails.
ghost use Rattle.std.specs.Prelude.{◌≡◌, ℕ, ◌+◌, ◌<◌, ◌≤◌, ◌^◌, length, IfOk};

use crate::devices::scripts::four_reads;
use byte_io::{Counted, DeviceFault, Sink, Source};
use std::alloc::Global;
use std::io;
use std::io::{Error, ErrorKind, Read, Write};
use test_support::{same, same_at};

/// A reader and writer whose first call fails with an error of this kind. Later ones move nothing.
#[derive(Drop)]
struct FailsOnce {
    kind: ErrorKind,
    calls: u64,
}

impl FailsOnce {
    fn answer(&mut self) -> io::Result<usize>
        ensures { IfOk result (λ n. n ≡ 0) }
    {
        self.calls = self.calls.saturating_add(1);
        if self.calls == 1 {
            return Err(Error::from(self.kind));
        }
        Ok(0)
    }
}

impl Read for FailsOnce {
    fn read(&mut self, _buf: &mut [u8]) -> io::Result<usize> {
        self.answer()
    }
}

impl Write for FailsOnce {
    fn write(&mut self, _buf: &[u8]) -> io::Result<usize> {
        self.answer()
    }

    fn flush(&mut self) -> io::Result<()> {
        Ok(())
    }
}

static KINDS: &[ErrorKind] = &[
    ErrorKind::Interrupted,
    ErrorKind::WouldBlock,
    ErrorKind::TimedOut,
    ErrorKind::BrokenPipe,
    ErrorKind::ConnectionReset,
    ErrorKind::Other,
];

/// What two calls answer, the failures after the first, and how often the device inside was called.
type Ends = ([Result<usize, DeviceFault>; 2], u64, u64);

const FAILED_ONCE: Ends = ([Err(DeviceFault), Ok(0)], 1, 2);

// A read that fails, and a write that takes nothing.
fn read_and_write(kind: ErrorKind) -> Ends {
    let mut device = Counted::new(FailsOnce { kind, calls: 0 });
    let first = device.read(&mut [0u8; 4]);
    let failures = Sink::failures(&device);
    let second = device.write(b"ab");
    ([first, second], failures, device.into_inner().calls)
}

// A write that fails, and a read that gives nothing.
fn write_and_read(kind: ErrorKind) -> Ends {
    let mut device = Counted::new(FailsOnce { kind, calls: 0 });
    let first = device.write(b"ab");
    let failures = Source::failures(&device);
    let second = device.read(&mut [0u8; 4]);
    ([first, second], failures, device.into_inner().calls)
}

#[test]
fn errors_are_failures(rt: HostRuntime) {
    for kind in KINDS {
        let found = [read_and_write(*kind), write_and_read(*kind)];
        assert!(rt; same_at(&rt, kind, &found, &[FAILED_ONCE, FAILED_ONCE]));
    }
}

// What a list takes, its failures, and whether it has these bytes.
fn list_takes(alloc: Global, bytes: &[u8]) -> (Result<usize, DeviceFault>, u64, bool) {
    let mut writer = Counted::new(Vec::new(alloc));
    let taken = writer.write(bytes);
    let failures = Sink::failures(&writer);
    let list = writer.into_inner();
    let is_whole = list.as_slice() == bytes;
    drop(list);
    (taken, failures, is_whole)
}

#[test]
fn readers_and_writers_are_devices(rt: HostRuntime) {
    let reads = four_reads(&mut Counted::new(b"abcde".as_slice()));
    let found = (reads, list_takes(rt.alloc(), b"abc"));
    let buffers = [*b"abcd", *b"e\0\0\0", [0; 4], [0; 4]];
    let wanted = ([Ok(4), Ok(1), Ok(0), Ok(0)], buffers);
    assert!(rt; same(&rt, &found, &(wanted, (Ok(3), 0, true))));
}
