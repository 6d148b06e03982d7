//! A line that says how far the reading has come.

use crate::watch::Watch;
use std::io::Eprint;
use std::time::{Clock, Duration, Instant};

/// The least seconds between two lines, and before the first.
const EVERY_SECONDS: u64 = 1;

/// The bytes of a cell of a snapshot.
const CELL_BYTES: u64 = 24;

/// What an entry is, of which a line tells about how many were read.
#[derive(Clone, Copy, Debug, PartialEq, Eq)]
pub enum Entries {
    /// A line of a text.
    Lines,
    /// A cell of a snapshot.
    Cells,
}

/// A line on standard error: written once a second has passed, then over the one before each second, and cleared at the
/// end of what is read.
#[derive(Drop)]
pub struct ProgressLine<'a, R: Clock + Eprint> {
    rt: &'a R,
    entries: Entries,
    begun: Option<Instant>,
    // When the next line is due, since it began.
    due: Duration,
    bytes: u64,
    lines: u64,
    is_shown: bool,
}

// How many lines end in these bytes.
fn line_ends(bytes: &[u8]) -> u64 {
    let mut ends = 0u64;
    for byte in bytes {
        ends = ends.wrapping_add(u64::from(*byte == b'\n'));
    }
    ends
}

impl<'a, R: Clock + Eprint> ProgressLine<'a, R> {
    /// A line of what is read from now on. Where the clock can't be read it is never written.
    pub fn new(rt: &'a R, entries: Entries) -> ProgressLine<'a, R> {
        ProgressLine {
            rt,
            entries,
            begun: Instant::now(rt).ok(),
            due: Duration::from_secs(EVERY_SECONDS),
            bytes: 0,
            lines: 0,
            is_shown: false,
        }
    }

    /// Takes the line away, if it is there.
    pub fn clear(&mut self) {
        if self.is_shown {
            let _ = eprint!(self.rt; "\r\u{1b}[K");
            self.is_shown = false;
        }
    }

    // How many entries were read, about.
    fn entries(&self) -> u64 {
        match self.entries {
            Entries::Lines => self.lines,
            Entries::Cells => self.bytes / CELL_BYTES,
        }
    }

    fn show(&mut self, passed: Duration) {
        let megabytes = self.bytes / 1_000_000;
        let entries = self.entries();
        let rate = entries / passed.as_secs().max(1);
        let _ = eprint!(self.rt;
            "\rhhm: {megabytes} MB read, about {entries} entries, {rate} a second\u{1b}[K"
        );
        self.is_shown = true;
    }
}

impl<'a, R: Clock + Eprint> Watch for ProgressLine<'a, R> {
    fn saw(&mut self, bytes: &[u8]) {
        if bytes.is_empty() {
            self.clear();
            return;
        }
        self.bytes = self.bytes.saturating_add(bytes.len() as u64);
        if self.entries == Entries::Lines {
            self.lines = self.lines.saturating_add(line_ends(bytes));
        }
        let Some(begun) = self.begun else {
            return;
        };
        let passed = begun.elapsed(self.rt).unwrap_or(Duration::ZERO);
        if passed >= self.due {
            self.show(passed);
            self.due = passed.saturating_add(Duration::from_secs(EVERY_SECONDS));
        }
    }
}
