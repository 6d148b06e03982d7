//! How much of the file of a log is to be read.
//!
//! A file may have holes: stretches that were never written, for which the system keeps no blocks. They read as 00. A log
//! reads the same with fewer pages of 00 behind it, so a hole at its end needn't be read.
#![tactic(auto)]

ghost use Rattle.std.specs.Prelude.{◌≤◌};

use std::fs::File;
use std::os::fd::AsRawFd;

/// The bytes of a page of a log. Those of the first one are told from a log that is cut short.
const PAGE: u64 = 4096;

/// The most bytes that a log may have. A longer file is told as such.
const MOST_BYTES: u64 = 1 << 40;

/// What Linux's lseek looks for from an offset on: the next byte that isn't in a hole, or the next hole, which the end of
/// the file is too.
const SEEK_DATA: i32 = 3;

const SEEK_HOLE: i32 = 4;

/// The number of the error where only a hole follows.
const ENXIO: i32 = 6;

/// How many stretches of data are looked at. In a file of more of them all is read.
const MOST_STRETCHES: usize = 65_536;

/// What a question of the system has found.
#[derive(Clone, Copy, Debug, PartialEq, Eq)]
enum Found {
    At(u64),
    Nothing,
    Unknown,
}

/// Looks for data or a hole from an offset on.
fn seek(file: &File, at: u64, whence: i32) -> Found {
    let Ok(at) = i64::try_from(at) else {
        return Found::Unknown;
    };
    let found = libc::lseek(file.as_raw_fd(), at, whence);
    if found < 0 && os::errno() == ENXIO {
        return Found::Nothing;
    }
    match u64::try_from(found) {
        Ok(at) => Found::At(at),
        Err(_) => Found::Unknown,
    }
}

/// Where the stretch of data ends that follows an offset, None where only a hole follows.
fn next_end(file: &File, at: u64, length: u64) -> Option<u64> {
    match seek(file, at, SEEK_DATA) {
        Found::Nothing => None,
        Found::Unknown => Some(length),
        Found::At(data) => match seek(file, data, SEEK_HOLE) {
            Found::At(hole) if at < hole => Some(hole),
            _ => Some(length),
        },
    }
}

/// Where the data of a file ends that has so many bytes: behind it stands a hole. Where the system doesn't tell, the
/// file's end.
fn end_of_data(file: &File, length: u64) -> u64 {
    let mut at = 0;
    for _ in 0..MOST_STRETCHES {
        match next_end(file, at, length) {
            None => return at,
            Some(end) if end >= length => return length,
            Some(end) => at = end,
        }
    }
    length
}

/// How many bytes of the file of a log are to be read, of the so many that it has: all up to the hole at its end, if it
/// has one. The log of these bytes is that of all, and so is each fault of it.
///
/// The position of the file is no longer known then.
pub fn bytes_to_read(file: &File, length: u64) -> u64
    ensures { result ≤ length }
{
    if length > MOST_BYTES {
        return length;
    }
    end_of_data(file, length).max(PAGE).min(length)
}
