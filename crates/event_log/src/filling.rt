//! How full what has a bound is, as far as it is reported.

use std::sync::atomic::{AtomicU64, Ordering};

/// The levels of fullness that are reported, in percent, rising.
const LEVELS: [u64; 2] = [80, 95];

/// No level comes next.
const NEVER: u64 = u64::MAX;

/// What of a bound a level is. It is rounded up.
fn share_of(most: u64, percent: u64) -> u64 {
    let share = (most as u128 * percent as u128).div_ceil(100);
    u64::try_from(share).unwrap_or(u64::MAX)
}

/// What fills up, how many of how many it has, and the level that it has passed.
#[derive(Clone, Copy, Debug, PartialEq, Eq)]
pub struct Filled {
    pub what: &'static str,
    pub percent: u64,
    pub used: u64,
    pub most: u64,
}

/// Something that fills up. Threads look at it, and wait for nobody. Each level that is passed is reported to one of
/// them, once.
#[derive(Drop)]
pub(crate) struct Filling {
    what: &'static str,
    most: AtomicU64,
    // From how much on the next level is passed.
    next: AtomicU64,
}

impl Filling {
    /// Something whose bound isn't known: it passes no level.
    pub(crate) fn new(what: &'static str) -> Filling {
        Filling {
            what,
            most: AtomicU64::new(NEVER),
            next: AtomicU64::new(NEVER),
        }
    }

    /// Its bound is known from now on.
    pub(crate) fn begin(&self, most: u64) {
        self.most.store(most, Ordering::SeqCst);
        self.begin_anew();
    }

    /// No level is reported yet, as where it is emptied.
    pub(crate) fn begin_anew(&self) {
        let most = self.most.load(Ordering::SeqCst);
        self.next.store(share_of(most, LEVELS[0]), Ordering::SeqCst);
    }

    /// It has so much by now. The highest level that it has passed since the last one was reported, if there is one.
    pub(crate) fn look(&self, used: u64) -> Option<Filled> {
        let next = self.next.load(Ordering::SeqCst);
        if used < next || next == NEVER {
            return None;
        }
        let most = self.most.load(Ordering::SeqCst);
        let (percent, later) = level_of(most, used)?;
        // Who changes it reports it.
        let change = self
            .next
            .compare_exchange(next, later, Ordering::SeqCst, Ordering::SeqCst);
        if change.is_err() {
            return None;
        }
        Some(Filled {
            what: self.what,
            percent,
            used,
            most,
        })
    }
}

// The highest level that so much has passed, if it has any, and from how much on the next one is.
fn level_of(most: u64, used: u64) -> Option<(u64, u64)> {
    let mut passed = None;
    for percent in LEVELS {
        let share = share_of(most, percent);
        if used < share {
            return Some((passed?, share));
        }
        passed = Some(percent);
    }
    Some((passed?, NEVER))
}
