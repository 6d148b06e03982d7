//! How many connections have come, are served and were served.

use std::sync::atomic::{AtomicU64, Ordering};

/// How many connections there were at a moment.
#[derive(Clone, Copy, Debug, PartialEq, Eq)]
pub struct SessionCounts {
    /// Those that got a worker, the open ones among them.
    pub served: u64,
    /// Those that have a worker now.
    pub open: u64,
    /// Those that wait for one.
    pub waiting: u64,
}

/// Counts connections.
#[derive(Drop)]
pub struct SessionCounters {
    came: AtomicU64,
    entered: AtomicU64,
    left: AtomicU64,
}

impl SessionCounters {
    /// None has come.
    pub fn new() -> SessionCounters {
        SessionCounters {
            came: AtomicU64::new(0),
            entered: AtomicU64::new(0),
            left: AtomicU64::new(0),
        }
    }

    /// A connection was accepted.
    pub fn note_connection(&self) {
        self.came.fetch_add(1, Ordering::SeqCst);
    }

    /// A connection has got a worker.
    pub fn note_worker(&self) {
        self.entered.fetch_add(1, Ordering::SeqCst);
    }

    /// Its session has ended.
    pub fn note_end(&self) {
        self.left.fetch_add(1, Ordering::SeqCst);
    }

    /// How many there are now.
    pub fn counts(&self) -> SessionCounts {
        // What comes last is read first, so that none is below what is taken away from it.
        let left = self.left.load(Ordering::SeqCst);
        let served = self.entered.load(Ordering::SeqCst);
        let came = self.came.load(Ordering::SeqCst);
        SessionCounts {
            served,
            open: served.saturating_sub(left),
            waiting: came.saturating_sub(served),
        }
    }
}
