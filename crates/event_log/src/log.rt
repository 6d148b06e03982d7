//! What has happened and isn't told yet.

use crate::event::{Event, FailedCall, Unsaved};
use crate::filling::{Filled, Filling};
use crate::stamp::since;
use std::alloc::Global;
use std::mem;
use std::sync::{Condvar, Mutex, Wait};
use std::time::{Clock, Duration, Instant};

/// The most events that wait to be told.
const MAX_EVENTS: usize = 256;

/// Codes of refusals are below this.
pub(crate) const CODES: usize = 128;

/// What has happened since it was taken out.
#[derive(Drop)]
pub(crate) struct News {
    pub(crate) events: Vec<Event>,
    /// How many events there was no room for.
    pub(crate) lost: u64,
    /// How many connections have come, and how many of these have got a worker, since the log was made.
    pub(crate) came: u64,
    pub(crate) served: u64,
    /// Nothing more will happen.
    pub(crate) is_ended: bool,
}

impl News {
    fn new(alloc: Global) -> News {
        News {
            events: Vec::new(alloc),
            lost: 0,
            came: 0,
            served: 0,
            is_ended: false,
        }
    }

    fn add(&mut self, event: Event) {
        if self.events.len() >= MAX_EVENTS || self.events.push(event).is_err() {
            self.lost = self.lost.saturating_add(1);
        }
    }

    // What there is, of which the events are taken away.
    fn taken(&mut self, alloc: Global) -> News {
        News {
            events: mem::replace(&mut self.events, Vec::new(alloc)),
            lost: mem::replace(&mut self.lost, 0),
            came: self.came,
            served: self.served,
            is_ended: self.is_ended,
        }
    }
}

// What was told of a server's log that failed, or is full, and is told once.
#[derive(Clone, Copy)]
struct Told {
    has_failed: bool,
    is_full: bool,
}

const UNTOLD: Told = Told {
    has_failed: false,
    is_full: false,
};

/// The paths of a server's files, where it has such.
#[derive(Drop)]
pub struct Paths {
    pub snapshot: Option<String>,
    pub log: Option<String>,
}

/// How many batches a book takes, how high its total may get, and how many bytes the log may have, if there is one.
#[derive(Clone, Copy, Debug, PartialEq, Eq)]
pub struct Bounds {
    pub batches: u64,
    pub total: u64,
    pub log_bytes: Option<u64>,
}

/// What has happened to a server and isn't told yet. Several threads note it.
#[derive(Drop)]
pub struct EventLog {
    alloc: Global,
    paths: Paths,
    news: Mutex<News>,
    refusals: Mutex<[u64; CODES]>,
    told: Mutex<Told>,
    batches: Filling,
    total: Filling,
    log_bytes: Filling,
    is_news: Condvar,
}

impl EventLog {
    /// A log of a server with these files.
    pub fn new(alloc: Global, paths: Paths) -> EventLog {
        EventLog {
            alloc,
            paths,
            news: Mutex::new(News::new(alloc)),
            refusals: Mutex::new([0; CODES]),
            told: Mutex::new(UNTOLD),
            batches: Filling::new("batches"),
            total: Filling::new("total"),
            log_bytes: Filling::new("log_bytes"),
            is_news: Condvar::new(),
        }
    }

    /// The path of the snapshot, empty where there is none.
    pub(crate) fn snapshot_path(&self) -> &str {
        self.paths.snapshot.as_deref().unwrap_or("")
    }

    /// That of the log.
    pub(crate) fn log_path(&self) -> &str {
        self.paths.log.as_deref().unwrap_or("")
    }

    /// This happens now.
    pub fn note<R: Wait>(&self, rt: &R, event: Event) {
        let mut news = self.news.lock(rt);
        news.add(event);
        drop(news);
        self.is_news.notify_one();
    }

    /// A save ends now, with so many batches, that was asked for then. A log is a fresh one from then on.
    pub fn note_saved<R: Wait + Clock>(&self, rt: &R, batches: u64, asked: Option<Instant>) {
        let took = since(rt, asked);
        self.note(rt, Event::Saved { batches, took });
        *self.told.lock(rt) = UNTOLD;
        self.log_bytes.begin_anew();
    }

    /// What fills up has these bounds from now on.
    pub fn note_bounds(&self, bounds: Bounds) {
        self.batches.begin(bounds.batches);
        self.total.begin(bounds.total);
        if let Some(most) = bounds.log_bytes {
            self.log_bytes.begin(most);
        }
    }

    /// So much is accepted by now. Each level that it passes is told once.
    pub fn note_accepted<R: Wait>(&self, rt: &R, batches: u64, total: u64) {
        self.note_filled(rt, self.batches.look(batches));
        self.note_filled(rt, self.total.look(total));
    }

    /// The log has so many bytes by now. Each level that it passes is told once until a save.
    pub fn note_log_bytes<R: Wait>(&self, rt: &R, bytes: u64) {
        self.note_filled(rt, self.log_bytes.look(bytes));
    }

    // This level is passed, if one is.
    fn note_filled<R: Wait>(&self, rt: &R, passed: Option<Filled>) {
        if let Some(filled) = passed {
            self.note(rt, Event::Filling(filled));
        }
    }

    /// A save fails now that was asked for then, for this reason where it is known.
    pub fn note_unsaved<R: Wait + Clock>(
        &self,
        rt: &R,
        why: Option<Unsaved>,
        asked: Option<Instant>,
    ) {
        let took = since(rt, asked);
        self.note(rt, Event::NotSaved { why, took });
    }

    /// A put is refused since the log has failed, by this call where it is known. It is told once until a save.
    pub fn note_log_failed<R: Wait>(&self, rt: &R, by: Option<FailedCall>) {
        let mut told = self.told.lock(rt);
        let is_news = !mem::replace(&mut told.has_failed, true);
        drop(told);
        if is_news {
            self.note(rt, Event::LogFailed { by });
        }
    }

    /// A put is refused since the log has no room for it, as this call has failed where it is known. It is told once
    /// between two times at which refusals are told.
    pub fn note_log_full<R: Wait>(&self, rt: &R, by: Option<FailedCall>) {
        let mut told = self.told.lock(rt);
        let is_news = !mem::replace(&mut told.is_full, true);
        drop(told);
        if is_news {
            self.note(rt, Event::LogFull { by });
        }
    }

    /// A request is refused with this code.
    pub fn note_refusal<R: Wait>(&self, rt: &R, code: u16) {
        let mut refusals = self.refusals.lock(rt);
        if let Some(count) = refusals.get_mut(code as usize) {
            *count = count.saturating_add(1);
        }
    }

    /// A connection has come, and is to be served.
    pub fn note_connection<R: Wait>(&self, rt: &R) {
        let mut news = self.news.lock(rt);
        news.came = news.came.saturating_add(1);
    }

    /// A connection has got a worker.
    pub fn note_worker<R: Wait>(&self, rt: &R) {
        let mut news = self.news.lock(rt);
        news.served = news.served.saturating_add(1);
    }

    /// Nothing more will happen: `tell_events` tells what is there, and returns.
    pub fn end<R: Wait>(&self, rt: &R) {
        let mut news = self.news.lock(rt);
        news.is_ended = true;
        drop(news);
        self.is_news.notify_one();
    }

    // What has happened. It waits for so long where nothing has.
    pub(crate) fn take<R: Wait + Clock>(&self, rt: &R, limit: Duration) -> News {
        let mut news = self.news.lock(rt);
        if news.events.is_empty() && !news.is_ended {
            news = self.is_news.wait_timeout(rt, news, limit).0;
        }
        news.taken(self.alloc)
    }

    // How many requests were refused, by codes, since this was called last.
    pub(crate) fn take_refusals<R: Wait>(&self, rt: &R) -> [u64; CODES] {
        self.told.lock(rt).is_full = false;
        let mut refusals = self.refusals.lock(rt);
        mem::replace(&mut *refusals, [0; CODES])
    }
}
