//! Whether connections wait for a worker, seen once a second.

use crate::stamp::since;
use std::time::{Clock, Duration, Instant};

/// How many seconds apart it is told again that connections wait.
const TOLD_EVERY: u64 = 60;

/// What there is to tell of connections that wait.
#[derive(Clone, Copy, Debug, PartialEq, Eq)]
pub enum Waits {
    /// Nothing.
    Nothing,
    /// So many wait, and for so long there were such that had waited for more than a second.
    Waiting { connections: u64, passed: Duration },
    /// None waits any more, after so long.
    Over { passed: Duration },
}

/// What was seen of the connections that wait.
///
/// They are served in the order in which they came. So where not all are served now that had come when it was looked
/// last, one has waited since then.
#[derive(Clone, Copy)]
pub struct Waiting {
    came: u64,
    since: Option<Instant>,
    told: Option<Instant>,
}

impl Waiting {
    pub fn new() -> Waiting {
        Waiting {
            came: 0,
            since: None,
            told: None,
        }
    }

    /// Takes in how many have come by now and how many are served, and when it was looked last, and says what there is
    /// to tell.
    pub fn look(
        &mut self,
        clock: &impl Clock,
        looked: Option<Instant>,
        came: u64,
        served: u64,
    ) -> Waits {
        let had_come = self.came;
        self.came = came;
        if served >= had_come {
            return self.none_waits(clock);
        }
        if self.since.is_none() {
            self.since = looked;
        } else if since(clock, self.told) < Duration::from_secs(TOLD_EVERY) {
            return Waits::Nothing;
        }
        self.told = Instant::now(clock).ok();
        Waits::Waiting {
            connections: came.saturating_sub(served),
            passed: since(clock, self.since),
        }
    }

    fn none_waits(&mut self, clock: &impl Clock) -> Waits {
        if self.since.is_none() {
            return Waits::Nothing;
        }
        let passed = since(clock, self.since);
        self.since = None;
        Waits::Over { passed }
    }
}
