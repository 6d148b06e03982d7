//! Counts what goes over a connection.

use server_counters::{Counters, FrameScan, Seen, Way};
use std::time::Clock;

/// The kind of a request to fold.
const FOLD: u8 = 13;

/// The kind of the reply to a put that was accepted.
const ACCEPTED: u8 = 0x81;

/// How many words of 64 bits there are for requests that aren't answered yet. All that stand whole in what was read are
/// answered before more is read, which is at most 65,536 bytes: some 13,000 requests, of five bytes at least.
const WORDS: u64 = 256;

/// The requests of one connection, of which the last 16,384 are known to be a Fold or not. The answer to a Fold looks
/// as that to a save does.
#[derive(Drop)]
struct Asked {
    count: u64,
    folds: [u64; WORDS as usize],
}

impl Asked {
    // No request.
    fn new() -> Asked {
        Asked {
            count: 0,
            folds: [0; WORDS as usize],
        }
    }

    // The next request has this kind.
    fn note(&mut self, kind: u8) {
        let place = (self.count / 64 % WORDS) as usize;
        let bit = 1u64 << (self.count % 64);
        let others = self.folds[place] & !bit;
        self.folds[place] = if kind == FOLD { others | bit } else { others };
        self.count = self.count.wrapping_add(1);
    }

    // Whether the request of this number, counted from 0, is a Fold.
    fn is_fold(&self, number: u64) -> bool {
        let word = self.folds[(number / 64 % WORDS) as usize];
        word >> (number % 64) & 1 == 1
    }
}

/// The streams of requests and replies of one connection.
#[derive(Drop)]
pub struct Traffic {
    requests: FrameScan,
    replies: FrameScan,
    asked: Asked,
    // How many requests are answered.
    answered: u64,
}

// Requests of one kind that have come one behind the other.
#[derive(Clone, Copy)]
struct Run {
    kind: u8,
    count: u64,
}

impl Run {
    // Takes one more in; where it is of another kind the run ends, and is counted.
    fn with(self, counters: &Counters, kind: u8) -> Run {
        if self.kind == kind {
            let count = self.count.saturating_add(1);
            return Run { kind, count };
        }
        self.end(counters);
        Run { kind, count: 1 }
    }

    fn end(self, counters: &Counters) {
        if self.count > 0 {
            counters.note_requests(self.kind, self.count);
        }
    }
}

impl Traffic {
    /// A connection over which nothing has gone.
    pub fn new() -> Traffic {
        Traffic {
            requests: FrameScan::new(Way::In),
            replies: FrameScan::new(Way::Out),
            asked: Asked::new(),
            answered: 0,
        }
    }

    /// Counts bytes that were read, and the requests that begin among them: an addition for the bytes, and one for all
    /// requests of a kind that stand together.
    pub fn note_read(&mut self, counters: &Counters, bytes: &[u8]) {
        counters.note_received(bytes.len() as u64);
        let mut run = Run { kind: 0, count: 0 };
        let mut rest = bytes;
        for _ in 0..bytes.len() {
            let (seen, behind) = self.requests.next(rest);
            rest = behind;
            let Some(Seen::Kind(kind)) = seen else {
                break;
            };
            self.asked.note(kind);
            run = run.with(counters, kind);
        }
        run.end(counters);
    }

    /// Whether a reply answers a Fold that comes behind those that were counted and so many more.
    pub fn is_fold(&self, ahead: u64) -> bool {
        self.asked.is_fold(self.answered.wrapping_add(ahead))
    }

    /// Counts bytes that were written, and the refusals and saves that begin among them. How many of the replies that
    /// begin there accept a put.
    pub fn note_written(&mut self, clock: &impl Clock, counters: &Counters, bytes: &[u8]) -> u64 {
        counters.note_sent(bytes.len() as u64);
        let mut accepted = 0u64;
        let mut rest = bytes;
        for _ in 0..bytes.len() {
            let (seen, behind) = self.replies.next(rest);
            rest = behind;
            let Some(seen) = seen else {
                break;
            };
            let is_fold = self.is_fold(0);
            self.answered = self.answered.wrapping_add(1);
            if !is_fold || !matches!(seen, Seen::Saved(_)) {
                counters.note_reply(clock, seen);
            }
            if seen == Seen::Kind(ACCEPTED) {
                accepted = accepted.saturating_add(1);
            }
        }
        accepted
    }
}
