//! The calls of the system by which a log's file is read and written.
ghost use Rattle.std.specs.Prelude.{◌≡◌, ℕ, ◌+◌, ◌<◌, ◌≤◌, List, [], length, slice_index, OnOk, OnErr};
ghost use Rattle.log_disk.specs.Disk.{Holds, HoldsSome, IsCut, MayBeCut, Follows, Elapses};

use crate::size_limit::{too_large, within_limit};
use std::fs::File;
use std::io::{self, ErrorKind};
use std::os::fd::AsRawFd;
use std::os::unix::fs::FileExt;

/// An open file, by the calls that a log makes of it. What each does, and what a loss of power leaves between two of
/// them, is trusted of a file of the system, whose impl has one line for each; what is made of them is proved over every
/// such file, as over one that tells its bytes.
///
/// The words are those of `LogDisk`.
pub trait SystemFile {
    // Whether files of this type tell what they hold, where whoever made one says that it does.
    ghost telling: { Type 0 };

    // Whether the file tells what it holds. A file that tells goes on so.
    ghost tells: { Self → Type 0 };

    // The bytes that a read gives.
    ghost written: { Self → List ℕ };

    // What a loss of power at this moment may leave.
    ghost may_leave: { Self → List ℕ → Type 0 };

    // The byte was written since the file was opened or last synced, so that a sync makes it durable.
    ghost is_fresh: { Self → ℕ → Type 0 };

    // The moment, as a number that doesn't fall.
    ghost moment: { Self → ℕ };

    // What a loss of power at some moment from that one on might have left, during a call or between two.
    ghost left_since: { Self → ℕ → List ℕ → Type 0 };

    /// Reads into the whole of `buf`, 00 behind the end of the file.
    fn read_padded(&mut self, at: u64, buf: &mut [u8]) -> io::Result<()>
        ensures read { tells self.old → OnOk result ((j : ℕ) → j < length buf.new →
            slice_index buf.new j ≡ slice_index (written self.old) (at + j)) }
        ensures tells { tells self.old → tells self.new }
        ensures same { tells self.old → written self.new ≡ written self.old }
        ensures still { tells self.old → (i : ℕ) → is_fresh self.old i → is_fresh self.new i }
        ensures crash { tells self.old → (left : List ℕ) → may_leave self.new left → may_leave self.old left }
        ensures time { tells self.old → Elapses (moment self.old) (moment self.new)
            (left_since self.old) (left_since self.new) (may_leave self.new) };

    /// Writes all of the bytes, in as many calls as the system takes.
    fn write_whole(&mut self, at: u64, bytes: &[u8]) -> io::Result<()>
        ensures written { tells self.old → OnOk result (Holds at bytes.now (written self.old) (written self.new)) }
        ensures part { tells self.old → OnErr result (HoldsSome at bytes.now (written self.old) (written self.new)) }
        ensures tells { tells self.old → tells self.new }
        ensures fresh { tells self.old → OnOk result ((j : ℕ) → j < length bytes.now → is_fresh self.new (at + j)) }
        ensures still { tells self.old → OnOk result ((i : ℕ) → is_fresh self.old i → is_fresh self.new i) }
        ensures crash { tells self.old → Follows (HoldsSome at bytes.now) (may_leave self.old) (may_leave self.new) }
        ensures time { tells self.old → Elapses (moment self.old) (moment self.new)
            (left_since self.old) (left_since self.new) (may_leave self.new) };

    /// Cuts the file to a length, if it is longer.
    fn cut_to(&mut self, len: u64) -> io::Result<()>
        ensures cut { tells self.old → OnOk result (IsCut len (written self.old) (written self.new)) }
        ensures part { tells self.old → OnErr result (MayBeCut len (written self.old) (written self.new)) }
        ensures tells { tells self.old → tells self.new }
        ensures fresh { tells self.old → OnOk result ((i : ℕ) → len ≤ i → is_fresh self.new i) }
        ensures still { tells self.old → OnOk result ((i : ℕ) → is_fresh self.old i → is_fresh self.new i) }
        ensures crash { tells self.old → Follows (MayBeCut len) (may_leave self.old) (may_leave self.new) }
        ensures time { tells self.old → Elapses (moment self.old) (moment self.new)
            (left_since self.old) (left_since self.new) (may_leave self.new) };

    /// Makes durable what was written, and the length; where `whole`, what else the system keeps of the file too.
    fn sync_now(&mut self, whole: bool) -> io::Result<()>
        ensures same { tells self.old → written self.new ≡ written self.old }
        ensures durable { tells self.old → OnOk result ((left : List ℕ) → may_leave self.new left →
            (i : ℕ) → is_fresh self.old i → slice_index left i ≡ slice_index (written self.old) i) }
        ensures long { tells self.old → OnOk result ((left : List ℕ) → may_leave self.new left →
            length (written self.old) ≤ length left) }
        ensures tells { tells self.old → tells self.new }
        ensures crash { tells self.old → (left : List ℕ) → may_leave self.new left → may_leave self.old left }
        ensures time { tells self.old → Elapses (moment self.old) (moment self.new)
            (left_since self.old) (left_since self.new) (may_leave self.new) };

    /// How many bytes it has.
    fn byte_length(&self) -> io::Result<u64>;

    // This moment is one of those since an earlier one.
    ghost counts_now: { (file : Self) (t : ℕ) (left : List ℕ) → t ≤ moment file → may_leave file left →
        left_since file t left };

    // Since this moment there is no other.
    ghost only_now: { (file : Self) (left : List ℕ) → left_since file (moment file) left → may_leave file left };
}

/// Reads into the whole of `buf`, 00 behind the end of the file.
fn read_padded(file: &File, at: u64, buf: &mut [u8]) -> io::Result<()> {
    buf.fill(0);
    match file.read_exact_at(buf, at) {
        Err(error) if error.kind() == ErrorKind::UnexpectedEof => Ok(()),
        answer => answer,
    }
}

/// Writes all of the bytes, or as many as the system's limit of the size of files allows, and then fails.
fn write_within_limit(file: &File, at: u64, bytes: &[u8]) -> io::Result<()> {
    let within = within_limit(at, bytes)?;
    file.write_all_at(within, at)?;
    if within.len() < bytes.len() {
        return Err(too_large());
    }
    Ok(())
}

/// Cuts a file to a length, if it is longer.
fn cut_longer(file: &File, len: u64) -> io::Result<()> {
    if file.metadata()?.len() <= len {
        return Ok(());
    }
    file.set_len(len)
}

/// What Linux's lseek counts an offset from: the end of the file.
const SEEK_END: i32 = 2;

/// How many bytes a file has. Each read and write of it names its offset, so its position serves nobody else.
fn length_of(file: &File) -> io::Result<u64> {
    match u64::try_from(libc::lseek(file.as_raw_fd(), 0, SEEK_END)) {
        Ok(length) => Ok(length),
        Err(_) => Err(io::Error::from_raw_os_error(os::errno())),
    }
}

/// A file of the system doesn't tell what it holds.
impl SystemFile for File {
    ghost telling = { ⊥ };

    ghost tells = { λ s. ⊥ };

    ghost written = { λ s. [] };

    ghost may_leave = { λ s left. ⊥ };

    ghost is_fresh = { λ s i. ⊥ };

    ghost moment = { λ s. 0 };

    ghost left_since = { λ s t left. ⊥ };

    ghost counts_now = { λ file t left later may. may };

    ghost only_now = { λ file left since. since };

    fn read_padded(&mut self, at: u64, buf: &mut [u8]) -> io::Result<()> {
        read_padded(self, at, buf)
    }

    fn write_whole(&mut self, at: u64, bytes: &[u8]) -> io::Result<()> {
        write_within_limit(self, at, bytes)
    }

    fn cut_to(&mut self, len: u64) -> io::Result<()> {
        cut_longer(self, len)
    }

    fn sync_now(&mut self, whole: bool) -> io::Result<()> {
        if whole {
            self.sync_all()
        } else {
            self.sync_data()
        }
    }

    fn byte_length(&self) -> io::Result<u64> {
        length_of(self)
    }
}
