//! What a server says, for a client in another thread to read.

use std::alloc::{AllocError, Global};
use std::io::Write;
use std::sync::{Mutex, Wait};
use std::time::{Clock, Duration};
use std::{io, thread};

/// A writer whose bytes can be read meanwhile.
#[derive(Drop)]
pub struct Said<'a, R> {
    pub rt: &'a R,
    pub bytes: &'a Mutex<Vec<u8>>,
}

impl<'a, R: Wait> Write for Said<'a, R> {
    fn write(&mut self, buf: &[u8]) -> io::Result<usize> {
        let mut guard = self.bytes.lock(self.rt);
        let grown = guard.extend_from_slice(buf);
        drop(guard);
        grown?;
        Ok(buf.len())
    }

    fn flush(&mut self) -> io::Result<()> {
        Ok(())
    }
}

// What is between these words and the end of their line, once that is there.
fn line_after(alloc: Global, text: &str, words: &str) -> Result<Option<String>, AllocError> {
    let Some((_, rest)) = text.split_once(words) else {
        return Ok(None);
    };
    let Some((line, _)) = rest.split_once("\n") else {
        return Ok(None);
    };
    Ok(Some(line.to_string(alloc)?))
}

// The same of the bytes that were said until now.
fn said_until_now<R: Wait>(
    rt: &R,
    alloc: Global,
    bytes: &Mutex<Vec<u8>>,
    words: &str,
) -> Result<Option<String>, AllocError> {
    let guard = bytes.lock(rt);
    let found = match std::str::from_utf8(guard.as_slice()) {
        Ok(text) => line_after(alloc, text, words),
        Err(_) => Ok(None),
    };
    drop(guard);
    found
}

/// Waits until a line was said that begins with these words, for at most ten seconds, and gives what follows them.
pub fn await_line<R: Wait + Clock>(
    rt: &R,
    alloc: Global,
    bytes: &Mutex<Vec<u8>>,
    words: &str,
) -> Option<String> {
    for _ in 0..10_000 {
        match said_until_now(rt, alloc, bytes, words) {
            Ok(Some(line)) => return Some(line),
            other => drop(other),
        }
        thread::sleep(rt, Duration::from_millis(1));
    }
    None
}
