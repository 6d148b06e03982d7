//! Saves that nobody asks for.

use crate::disk::Disk;
use crate::saver::Saver;
use locked_engine::{Named, Version};
use log_desk::{Log, LogDesk};
use std::sync::Wait;
use std::time::{Clock, Duration, Instant};
use wire_proto::SaveRefusal;

/// So many seconds a thread waits for a message before it looks whether a save is due.
const LOOK_SECONDS: u64 = 1;

/// Over so many tries in a row the pause before the next one grows: up to 64 seconds.
const MOST_DOUBLINGS: u32 = 6;

/// When what was accepted is saved though nobody asks for it.
#[derive(Clone, Copy)]
pub struct OwnSaves {
    /// Once the log has more bytes than that, and more than the file under the snapshot's path; 0: never.
    pub log_above: u64,
    /// So long after the last such save, where anything was accepted since.
    pub every: Option<Duration>,
}

impl OwnSaves {
    /// Nothing is saved unasked.
    pub(crate) fn none() -> OwnSaves {
        OwnSaves {
            log_above: 0,
            every: None,
        }
    }

    /// Whether anything is.
    pub(crate) fn is_on(self) -> bool {
        self.log_above > 0 || self.every.is_some()
    }
}

/// Why a save is due.
#[derive(Clone, Copy, PartialEq, Eq)]
pub(crate) enum Reason {
    /// The log has failed: a save begins it anew.
    LogFailed,
    /// The log is long.
    LongLog,
    /// The time is over.
    Time,
}

/// What the thread that saves unasked knows: what it was shown of the book, when it tried last, and how often in a row
/// it tried without success, or since the log had failed.
#[derive(Drop)]
pub(crate) struct OwnSaver<N: Named> {
    seen: Version<N>,
    last: Option<Instant>,
    tries: u32,
}

/// How long such a thread waits for a message at most.
pub(crate) fn look_time() -> Duration {
    Duration::from_secs(LOOK_SECONDS)
}

impl<N: Named> OwnSaver<N> {
    /// One that was shown this version, and begins now.
    pub(crate) fn new(clock: &impl Clock, seen: Version<N>) -> OwnSaver<N> {
        OwnSaver {
            seen,
            last: Instant::now(clock).ok(),
            tries: 0,
        }
    }

    /// What it was shown.
    pub(crate) fn seen(&mut self) -> &mut Version<N> {
        &mut self.seen
    }

    // Whether so much time has passed since the last try. Where the clock can't be read, it hasn't.
    fn has_passed(&self, clock: &impl Clock, time: Duration) -> bool {
        let Some(last) = self.last else {
            return false;
        };
        match last.elapsed(clock) {
            Ok(passed) => passed >= time,
            Err(_) => false,
        }
    }

    // The pause after the last try: none at first, then two seconds, and twice as much each time.
    fn pause(&self) -> Duration {
        match self.tries {
            0 => Duration::ZERO,
            tries => Duration::from_secs(1 << tries.min(MOST_DOUBLINGS)),
        }
    }

    /// Why a save is due now, if one is.
    pub(crate) fn reason<L: Log, R: Wait + Disk + Clock>(
        &mut self,
        rt: &R,
        saver: &Saver,
        desk: Option<&LogDesk<N, L>>,
    ) -> Option<Reason> {
        if self.tries > 0 && !self.has_passed(rt, self.pause()) {
            return None;
        }
        if desk.is_some_and(|desk| desk.is_failed(rt)) {
            return Some(Reason::LogFailed);
        }
        if saver.is_log_long(rt) {
            return Some(Reason::LongLog);
        }
        self.tries = 0;
        match saver.own().every {
            Some(time) if self.has_passed(rt, time) => Some(Reason::Time),
            _ => None,
        }
    }

    /// A save that was due for this reason has ended now.
    pub(crate) fn note(
        &mut self,
        clock: &impl Clock,
        reason: Reason,
        outcome: &Result<Option<u64>, SaveRefusal>,
    ) {
        self.last = Instant::now(clock).ok();
        self.tries = if outcome.is_err() || reason == Reason::LogFailed {
            self.tries.saturating_add(1)
        } else {
            0
        };
    }
}
