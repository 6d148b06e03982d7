//! A log's file as a source of bytes, from its first to its last.
ghost use Rattle.std.specs.Prelude.{◌≡◌, ℕ, ◌+◌, ◌<◌, ◌≤◌, ◌^◌, List, length, slice_index, OnOk, OnErr, false};
ghost use Rattle.byte_io.specs.Streams.{answer_of};
ghost use Rattle.log_source.specs.Sources.{GivesFrom, IsUntouched};

use byte_io::{DeviceFault, Source};
use log_disk::LogDisk;

/// The bytes of a log's file, for a reader. Where the file tells them, each read gives those that stand behind the ones
/// before, and leaves the file as it was.
#[derive(Drop)]
pub struct LogSource<'a, D: LogDisk> {
    disk: &'a mut D,
    at: u64,
    end: u64,
    ghost sound: { D.in_doubt disk.now ≡ false },
    ghost within: { at ≤ end },
}

/// The lesser of the two.
fn count_of(room: usize, left: u64) -> usize
    ensures room { result ≤ room }
    ensures left { result ≤ left }
    ensures none { result ≡ 0 → 0 < room → left ≡ 0 }
{
    if (room as u64) < left {
        room
    } else {
        left as usize
    }
}

/// Reads so many bytes of a file into the front of a buffer.
fn read_front<D: LogDisk>(
    disk: &mut D,
    at: u64,
    buf: &mut [u8],
    count: usize,
) -> Result<(), DeviceFault>
    requires working { D.in_doubt disk.old ≡ false }
    requires failures { D.failure_count disk.old + 1 < 2 ^ 64 }
    requires count { count ≤ length buf.old }
    ensures read { D.tells disk.old → OnOk result ((j : ℕ) → j < count →
        slice_index buf.new j ≡ slice_index (D.written disk.old) (at + j)) }
    ensures long { length buf.new ≡ length buf.old }
    ensures same { D.tells disk.old → IsUntouched D.tells D.written D.may_leave D.moment D.left_since
        disk.old disk.new }
    ensures sound { D.in_doubt disk.new ≡ false }
    ensures ok { OnOk result (D.failure_count disk.new ≡ D.failure_count disk.old) }
    ensures err { OnErr result (D.failure_count disk.new ≡ D.failure_count disk.old + 1) }
{
    disk.read_at(at, &mut buf[..count])
}

impl<'a, D: LogDisk> LogSource<'a, D> {
    /// The bytes of a file that has so many.
    pub fn new(disk: &'a mut D, length: u64) -> LogSource<'a, D>
        requires { D.in_doubt disk.old ≡ false }
        ensures same_reference { result.disk.ghost_name ≡ disk.entry.ghost_name }
        ensures disk { result.disk.now ≡ disk.old }
        ensures at { result.at ≡ 0 }
        ensures end { result.end ≡ length }
    {
        LogSource {
            disk,
            at: 0,
            end: length,
        }
    }
}

impl<'a, D: LogDisk> Source for LogSource<'a, D> {
    ghost read_gives = { λ s answer t. (t.disk.ghost_name ≡ s.disk.ghost_name) × (t.end ≡ s.end)
        × (D.tells s.disk.now → IsUntouched D.tells D.written D.may_leave D.moment D.left_since s.disk.now t.disk.now
        × GivesFrom (D.written s.disk.now) s.at answer t.at) };

    ghost at_end = { λ s. s.at ≡ s.end };

    ghost failure_count = { λ s. D.failure_count s.disk.now };

    fn read(&mut self, buf: &mut [u8]) -> Result<usize, DeviceFault> {
        let count = count_of(buf.len(), self.end - self.at);
        read_front(self.disk, self.at, buf, count)?;
        self.at += count as u64;
        Ok(count)
    }

    fn failures(&self) -> u64 {
        self.disk.failures()
    }
}
