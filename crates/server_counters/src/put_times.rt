//! How long puts took.

use crate::counters::{add_at, number_at, zeros};
use std::alloc::{AllocError, Global};
use std::sync::atomic::{AtomicU64, Ordering};
use std::time::Duration;

/// The longest time of a group of puts.
pub struct Bound {
    pub micros: u64,
    /// The same in seconds, as it is written.
    pub seconds: &'static str,
}

/// The bounds, rising. The puts that took longer than the last one are a group too.
pub static BOUNDS: &[Bound] = &[
    Bound {
        micros: 100,
        seconds: "0.0001",
    },
    Bound {
        micros: 300,
        seconds: "0.0003",
    },
    Bound {
        micros: 1_000,
        seconds: "0.001",
    },
    Bound {
        micros: 3_000,
        seconds: "0.003",
    },
    Bound {
        micros: 10_000,
        seconds: "0.01",
    },
    Bound {
        micros: 30_000,
        seconds: "0.03",
    },
    Bound {
        micros: 100_000,
        seconds: "0.1",
    },
    Bound {
        micros: 300_000,
        seconds: "0.3",
    },
    Bound {
        micros: 1_000_000,
        seconds: "1",
    },
];

/// How long the puts took that were answered Accepted, from the read that brought the end of the request to the write of
/// the answer.
#[derive(Drop)]
pub struct PutTimes {
    // The puts of each group: one group for each bound, and one for those that took longer.
    groups: Vec<AtomicU64>,
    micros: AtomicU64,
}

// How many whole microseconds a time has.
fn whole_micros(time: Duration) -> u64 {
    time.as_secs()
        .saturating_mul(1_000_000)
        .saturating_add(time.subsec_micros() as u64)
}

impl PutTimes {
    // No put was answered yet.
    pub(crate) fn new(alloc: Global) -> Result<PutTimes, AllocError> {
        Ok(PutTimes {
            groups: zeros(alloc, BOUNDS.len() + 1)?,
            micros: AtomicU64::new(0),
        })
    }

    /// So many puts took so long, each of them. Two atomic additions.
    pub fn note(&self, took: Duration, count: u64) {
        let micros = whole_micros(took);
        let longer = BOUNDS.len();
        let group = BOUNDS.iter().position(|one| micros <= one.micros);
        add_at(&self.groups, Some(group.unwrap_or(longer)), count);
        self.micros
            .fetch_add(micros.saturating_mul(count), Ordering::SeqCst);
    }

    /// How many puts took at most as long as the bound at an index of `BOUNDS` and longer than the one before; for the
    /// number of bounds, how many took longer than the last one.
    pub fn group(&self, index: usize) -> u64 {
        number_at(&self.groups, index)
    }

    /// How many milliseconds all puts took together.
    pub fn millis(&self) -> u64 {
        self.micros.load(Ordering::SeqCst) / 1_000
    }
}
