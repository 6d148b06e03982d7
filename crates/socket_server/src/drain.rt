//! How long sessions go on after a Stop.

use std::sync::OnceLock;
use std::time::{Clock, Duration, Instant};

/// For how many milliseconds after their time is over sessions may still write replies that are due.
const REPLY_MILLIS: u64 = 2000;

/// How long sessions go on after a Stop, and when that came.
#[derive(Drop)]
pub struct Drain {
    limit: Duration,
    stopped: OnceLock<Instant>,
}

impl Drain {
    pub fn new(limit: Duration) -> Drain {
        Drain {
            limit,
            stopped: OnceLock::new(),
        }
    }

    /// Begins the time, unless it has begun. Where the clock can't be read it is over as soon as it can.
    pub fn begin(&self, clock: &impl Clock) {
        if let Ok(now) = Instant::now(clock) {
            let _ = self.stopped.try_set(now);
        }
    }

    /// Whether no session may read any more.
    pub fn ends_reads(&self, clock: &impl Clock) -> bool {
        self.is_past(clock, self.limit)
    }

    /// Whether no session may write any more.
    pub fn ends_writes(&self, clock: &impl Clock) -> bool {
        let replies = Duration::from_millis(REPLY_MILLIS);
        self.is_past(clock, self.limit.saturating_add(replies))
    }

    // Whether the time has begun, and so much of it is over.
    fn is_past(&self, clock: &impl Clock, limit: Duration) -> bool {
        let Some(stopped) = self.stopped.get() else {
            return false;
        };
        match stopped.elapsed(clock) {
            Ok(passed) => passed >= limit,
            Err(_) => true,
        }
    }
}
