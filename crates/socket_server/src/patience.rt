//! How long a start waits for a lock that another process has.

use crate::host::Host;
use crate::settings::time_limit;
use std::num::NonZeroU64;
use std::thread;
use std::time::{Clock, Duration, Instant};

/// How many milliseconds to wait before a lock is asked for again.
const PAUSE: u64 = 50;

/// After how many seconds a wait is said.
const SAID_AFTER: u64 = 1;

/// A time that a start may spend in waiting for locks.
#[derive(Drop)]
pub struct Patience {
    // None where it doesn't wait.
    begun: Option<Instant>,
    limit: Duration,
    is_said: bool,
}

impl Patience {
    /// So many seconds from now on.
    pub fn new<R: Clock>(rt: &R, seconds: Option<NonZeroU64>) -> Patience {
        let limit = time_limit(seconds).unwrap_or(Duration::ZERO);
        let begun = if limit.is_zero() {
            None
        } else {
            Instant::now(rt).ok()
        };
        Patience {
            begun,
            limit,
            is_said: false,
        }
    }

    /// Waits for a moment. False, and at once, where the time is over. After a second it says which lock it waits for.
    pub fn wait_for<R: Clock + Host>(&mut self, rt: &R, path: &str) -> bool {
        let Some(begun) = &self.begun else {
            return false;
        };
        let Ok(passed) = begun.elapsed(rt) else {
            return false;
        };
        if passed >= self.limit {
            return false;
        }
        if passed.as_secs() >= SAID_AFTER && !self.is_said {
            self.is_said = true;
            rt.say_waiting(path);
        }
        thread::sleep(rt, Duration::from_millis(PAUSE));
        true
    }
}
