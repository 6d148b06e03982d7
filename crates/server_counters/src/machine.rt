//! What the system tells of the process.

use std::fs::File;
use std::io::Read;
use std::rt::Files;
use std::time::Clock;

/// The most bytes that are read of such a file.
const MOST: usize = 4096;

/// How many milliseconds a tick of the system's clock of processors has: a hundred of them are a second on Linux.
const TICK_MILLIS: u64 = 10;

/// Tells what the process uses. Code under the bound `Files` can't be sent to threads, so workers know this trait, and
/// every runtime with files has it.
pub trait Machine: Clock {
    /// How many bytes of its memory are in the machine's, if that can be told.
    fn resident_bytes(&self) -> Option<u64>;

    /// How many milliseconds of processors it has used, in all its threads, if that can be told.
    fn processor_millis(&self) -> Option<u64>;
}

// The front of a file, as one read gives it, and how long it is.
fn front_of<R: Files<File = File>>(rt: &R, path: &str, buf: &mut [u8]) -> Option<usize> {
    let mut file = File::open(rt, path).ok()?;
    file.read(buf).ok()
}

// The number that digits spell, up to the first byte that is none.
fn number_in(bytes: &[u8]) -> Option<u64> {
    let mut number = None;
    for byte in bytes {
        if !byte.is_ascii_digit() {
            break;
        }
        let digit = (*byte - b'0') as u64;
        number = Some(
            number
                .unwrap_or(0u64)
                .saturating_mul(10)
                .saturating_add(digit),
        );
    }
    number
}

// What stands behind so many more words, which are apart by one space each.
fn behind_words(text: &[u8], words: usize) -> &[u8] {
    let mut rest = text;
    for _ in 0..words {
        let Some(at) = rest.iter().position(|byte| *byte == b' ') else {
            return &[];
        };
        rest = &rest[at + 1..];
    }
    rest
}

// What stands behind the last bracket that closes, and the space behind that.
fn behind_name(text: &[u8]) -> &[u8] {
    match text.iter().rposition(|byte| *byte == b')') {
        Some(at) => behind_words(&text[at..], 1),
        None => &[],
    }
}

// What stands in the line of this key behind the blanks.
fn line_value<'t>(text: &'t [u8], key: &[u8]) -> Option<&'t [u8]> {
    let line = text
        .split(|byte| *byte == b'\n')
        .find(|line| line.starts_with(key))?;
    let value = &line[key.len()..];
    let at = value.iter().position(|byte| byte.is_ascii_digit())?;
    Some(&value[at..])
}

impl<R: Files<File = File> + Clock> Machine for R {
    fn resident_bytes(&self) -> Option<u64> {
        let mut buf = [0u8; MOST];
        let count = front_of(self, "/proc/self/status", &mut buf)?;
        let kilobytes = number_in(line_value(buf.get(..count)?, b"VmRSS:")?)?;
        Some(kilobytes.saturating_mul(1024))
    }

    fn processor_millis(&self) -> Option<u64> {
        let mut buf = [0u8; MOST];
        let count = front_of(self, "/proc/self/stat", &mut buf)?;
        // Behind the name stand the state and ten numbers, and then the ticks of the program and of the system.
        let rest = behind_words(behind_name(buf.get(..count)?), 11);
        let user = number_in(rest)?;
        let system = number_in(behind_words(rest, 1))?;
        Some(user.saturating_add(system).saturating_mul(TICK_MILLIS))
    }
}
