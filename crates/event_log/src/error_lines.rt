//! Lines on standard error, which nobody has to read.

use crate::stamp::{Stamp, since};
use arrayvec::ArrayString;
use libc::net;
use libc::types::pollfd;
use std::fmt::{Display, Write};
use std::io::Eprint;
use std::time::{Clock, Duration, Instant};
use std::{fmt, mem};

/// The most bytes that are written at once. A pipe that is ready takes so many without a wait.
const PIECE: usize = 1024;

/// For how many milliseconds lines that are begun together wait in all.
const PATIENCE: u64 = 1000;

/// Whether a write to standard error returns at once, now or within this time. Where standard error is closed, or its
/// reader is gone, it does: it fails.
fn is_ready(limit: Duration) -> bool {
    let mut asked = [pollfd {
        fd: libc::STDERR_FILENO,
        events: net::POLLOUT,
        revents: 0,
    }];
    let millis = i32::try_from(limit.as_millis()).unwrap_or(0);
    net::poll(&mut asked, millis) > 0
}

// A line that is written in pieces, each once standard error is ready for it.
#[derive(Drop)]
struct Pieces<'a, R: Eprint + Clock> {
    rt: &'a R,
    begun: Option<Instant>,
    piece: ArrayString<PIECE>,
    // Whether a piece was written.
    is_begun: bool,
}

impl<'a, R: Eprint + Clock> Pieces<'a, R> {
    // Writes the piece, unless standard error isn't ready in time.
    fn flush(&mut self) -> fmt::Result {
        let patience = Duration::from_millis(PATIENCE);
        let left = patience.saturating_sub(since(self.rt, self.begun));
        let is_taken = is_ready(left) && self.rt.eprint(self.piece.as_str()).is_ok();
        self.piece.clear();
        if !is_taken {
            return Err(fmt::Error);
        }
        self.is_begun = true;
        Ok(())
    }
}

impl<R: Eprint + Clock> Write for Pieces<'_, R> {
    fn write_str(&mut self, text: &str) -> fmt::Result {
        for c in text.chars() {
            if self.piece.try_push(c).is_err() {
                self.flush()?;
                let _ = self.piece.try_push(c);
            }
        }
        Ok(())
    }
}

/// Lines on standard error. What it doesn't take within a second is dropped and counted.
#[derive(Drop)]
pub struct ErrorLines<'a, R: Eprint + Clock> {
    rt: &'a R,
    begun: Option<Instant>,
    // How many lines were dropped since that was reported.
    lost: u64,
    // Whether the last line was taken in part.
    is_cut: bool,
}

impl<'a, R: Eprint + Clock> ErrorLines<'a, R> {
    /// Lines that wait for a second in all from now on.
    pub fn new(rt: &'a R) -> ErrorLines<'a, R> {
        ErrorLines {
            rt,
            begun: Instant::now(rt).ok(),
            lost: 0,
            is_cut: false,
        }
    }

    /// Begins the second anew.
    pub fn begin(&mut self) {
        self.begun = Instant::now(self.rt).ok();
    }

    /// Writes a line, and before it how many were dropped, if any were.
    pub fn say<D: Display + Drop>(&mut self, line: D) {
        self.say_lost();
        if !self.write(line) {
            self.note_lost(1);
        }
    }

    /// Counts lines that were dropped before they came here.
    pub fn note_lost(&mut self, count: u64) {
        self.lost = self.lost.saturating_add(count);
    }

    /// Writes how many were dropped, if any were. Where that isn't taken they count on.
    pub fn say_lost(&mut self) {
        let lost = self.lost;
        if lost > 0 {
            let now = Stamp::now(self.rt);
            if self.write(format_args!("{now} lost events={lost}")) {
                self.lost = 0;
            }
        }
    }

    // Writes a line, and answers whether it was taken. Behind one that was cut it begins with an end of that.
    fn write<D: Display + Drop>(&mut self, line: D) -> bool {
        let mut pieces = Pieces {
            rt: self.rt,
            begun: self.begun,
            piece: ArrayString::new(),
            is_begun: false,
        };
        let was_cut = mem::replace(&mut self.is_cut, false);
        let end = if was_cut { "\n" } else { "" };
        let is_taken = pieces.write_fmt(format_args!("{end}{line}\n")).is_ok()
            && pieces.flush().is_ok();
        self.is_cut = !is_taken && (was_cut || pieces.is_begun);
        is_taken
    }
}
