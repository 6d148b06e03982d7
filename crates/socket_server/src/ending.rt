//! How a server ends, for a thread that waits for it and is not to wait for a sync that hangs.

use crate::shared::Shared;
use locked_engine::Named;
use log_desk::{Log, LogDesk};
use std::sync::{Condvar, Mutex, Wait};
use std::time::{Clock, Duration, Instant};

/// How many milliseconds apart it is looked whether a sync hangs.
const LOOK_MILLIS: u64 = 250;

/// A sync hangs that takes so many seconds more once the time of sessions is over.
const HANG_SECONDS: u64 = 10;

// How far a server has come.
#[derive(Clone, Copy)]
enum Stage {
    /// It has sessions, or begins.
    Serves,
    /// All sessions have ended.
    Closes,
    Ended,
    /// A sync of its log hangs, in which so many batches are durable.
    Hangs { durable: u64 },
}

/// How a server ends, for a thread that waits for it.
#[derive(Drop)]
pub struct Ending {
    stage: Mutex<Stage>,
    is_news: Condvar,
}

impl Ending {
    /// That of a server that begins.
    pub fn new() -> Ending {
        Ending {
            stage: Mutex::new(Stage::Serves),
            is_news: Condvar::new(),
        }
    }

    // It comes to this stage, unless a sync hangs.
    fn come_to<R: Wait>(&self, rt: &R, next: Stage) {
        let mut stage = self.stage.lock(rt);
        if !matches!(*stage, Stage::Hangs { durable: _ }) {
            *stage = next;
        }
        drop(stage);
        self.is_news.notify_all();
    }

    /// All sessions have ended.
    pub fn close<R: Wait>(&self, rt: &R) {
        self.come_to(rt, Stage::Closes);
    }

    /// The server has ended.
    pub fn end<R: Wait>(&self, rt: &R) {
        self.come_to(rt, Stage::Ended);
    }

    // Whether its sessions have ended, now or within this time.
    fn are_over<R: Wait + Clock>(&self, rt: &R, limit: Duration) -> bool {
        let mut stage = self.stage.lock(rt);
        if matches!(*stage, Stage::Serves) {
            stage = self.is_news.wait_timeout(rt, stage, limit).0;
        }
        !matches!(*stage, Stage::Serves)
    }

    /// Waits until the server has ended, and answers None; or until a sync of its log hangs, and answers how many
    /// batches are durable there.
    pub fn wait<R: Wait>(&self, rt: &R) -> Option<u64> {
        let stage = self.is_news.wait_while(rt, self.stage.lock(rt), |stage| {
            matches!(*stage, Stage::Serves | Stage::Closes)
        });
        match *stage {
            Stage::Hangs { durable } => Some(durable),
            _ => None,
        }
    }
}

/// Looks until all sessions have ended whether they can't, since a sync of the log hangs once their time is over.
pub fn watch_syncs<N: Named, L: Log, R: Wait + Clock>(
    rt: &R,
    shared: &Shared,
    desk: &LogDesk<N, L>,
) {
    let (Some(drain), Some(ending)) = (shared.gate.drain(), &shared.ending) else {
        return;
    };
    let news = shared.failure.news();
    let (mut seen, mut since) = (None, None);
    for _ in rt.forever() {
        if ending.are_over(rt, Duration::from_millis(LOOK_MILLIS)) {
            break;
        }
        let running = news.running_sync();
        if running.is_none() || running != seen || !drain.ends_writes(rt) {
            seen = running;
            since = Instant::now(rt).ok();
        } else if has_passed(rt, since) {
            let durable = desk.known(rt).count();
            ending.come_to(rt, Stage::Hangs { durable });
            break;
        }
    }
}

// Whether a sync hangs that was seen then.
fn has_passed(clock: &impl Clock, since: Option<Instant>) -> bool {
    let Some(since) = since else {
        return false;
    };
    matches!(since.elapsed(clock), Ok(passed) if passed.as_secs() >= HANG_SECONDS)
}
