//! The counters.

use crate::codes::{CODES, KINDS};
use crate::frame_scan::Seen;
use crate::put_times::PutTimes;
use crate::sessions::SessionCounters;
use std::alloc::{AllocError, Global};
use std::sync::atomic::{AtomicBool, AtomicU64, Ordering};
use std::time::{Clock, Duration, Instant};

/// The last save that was answered: how many batches it has, and how long ago that was, if the clock tells it.
#[derive(Clone, Copy, Debug, PartialEq, Eq)]
pub struct LastSave {
    pub batches: u64,
    pub age: Option<Duration>,
}

/// What a server has done since it began.
#[derive(Drop)]
pub struct Counters {
    begun: Option<Instant>,
    workers: u64,
    // How many batches were there at the start.
    started: AtomicU64,
    pub sessions: SessionCounters,
    pub put_times: PutTimes,
    cells: AtomicU64,
    repeats: AtomicU64,
    // One for each of `KINDS` and of `CODES`, in their order.
    kinds: Vec<AtomicU64>,
    codes: Vec<AtomicU64>,
    received: AtomicU64,
    sent: AtomicU64,
    saves: AtomicU64,
    failed_saves: AtomicU64,
    // Whether the last save failed.
    is_unsaved: AtomicBool,
    // Of the last save: how many batches, and how many milliseconds after the beginning, plus 1; 0 where that isn't
    // known.
    saved_batches: AtomicU64,
    saved_at: AtomicU64,
}

/// The code of a save that failed.
const SAVE_FAILED: u16 = 42;

// How many whole milliseconds a time has.
fn millis(time: Duration) -> u64 {
    time.as_secs()
        .saturating_mul(1000)
        .saturating_add(time.subsec_millis() as u64)
}

// So many counters.
pub(crate) fn zeros(alloc: Global, count: usize) -> Result<Vec<AtomicU64>, AllocError> {
    let mut zeros = Vec::with_capacity(alloc, count)?;
    for _ in 0..count {
        zeros.push(AtomicU64::new(0))?;
    }
    Ok(zeros)
}

// Adds to the counter at a place, if there is one.
pub(crate) fn add_at(counters: &[AtomicU64], place: Option<usize>, count: u64) {
    let Some(place) = place else {
        return;
    };
    if let Some(counter) = counters.get(place) {
        counter.fetch_add(count, Ordering::SeqCst);
    }
}

// The number at a place.
pub(crate) fn number_at(counters: &[AtomicU64], place: usize) -> u64 {
    match counters.get(place) {
        Some(counter) => counter.load(Ordering::SeqCst),
        None => 0,
    }
}

impl Counters {
    /// A server begins now, with so many workers.
    ///
    /// # Errors
    ///
    /// A growth was refused.
    pub fn new(clock: &impl Clock, alloc: Global, workers: u64) -> Result<Counters, AllocError> {
        Ok(Counters {
            begun: Instant::now(clock).ok(),
            workers,
            started: AtomicU64::new(0),
            sessions: SessionCounters::new(),
            put_times: PutTimes::new(alloc)?,
            cells: AtomicU64::new(0),
            repeats: AtomicU64::new(0),
            kinds: zeros(alloc, KINDS.len())?,
            codes: zeros(alloc, CODES.len())?,
            received: AtomicU64::new(0),
            sent: AtomicU64::new(0),
            saves: AtomicU64::new(0),
            failed_saves: AtomicU64::new(0),
            is_unsaved: AtomicBool::new(false),
            saved_batches: AtomicU64::new(0),
            saved_at: AtomicU64::new(0),
        })
    }

    /// The server starts from so many batches.
    pub fn note_start(&self, batches: u64) {
        self.started.store(batches, Ordering::SeqCst);
    }

    /// How many batches were accepted since, where there are so many now.
    pub fn accepted(&self, batches: u64) -> u64 {
        batches.saturating_sub(self.started.load(Ordering::SeqCst))
    }

    /// How many workers there are.
    pub fn workers(&self) -> u64 {
        self.workers
    }

    /// How long ago the server began, if the clock tells it.
    pub fn age(&self, clock: &impl Clock) -> Option<Duration> {
        self.begun?.elapsed(clock).ok()
    }

    /// A batch of so many cells was accepted for the first time.
    pub fn note_batch(&self, cells: u64) {
        self.cells.fetch_add(cells, Ordering::SeqCst);
    }

    /// A batch was put again that had been accepted.
    pub fn note_repeat(&self) {
        self.repeats.fetch_add(1, Ordering::SeqCst);
    }

    /// So many bytes were read.
    pub fn note_received(&self, bytes: u64) {
        self.received.fetch_add(bytes, Ordering::SeqCst);
    }

    /// So many were written.
    pub fn note_sent(&self, bytes: u64) {
        self.sent.fetch_add(bytes, Ordering::SeqCst);
    }

    /// So many requests of a kind have come. A kind that isn't known isn't counted.
    pub fn note_requests(&self, kind: u8, count: u64) {
        add_at(
            &self.kinds,
            KINDS.iter().position(|one| one.kind == kind),
            count,
        );
    }

    /// A reply is sent.
    pub fn note_reply(&self, clock: &impl Clock, reply: Seen) {
        match reply {
            Seen::Kind(_) => {}
            Seen::Refused(code) => self.note_refusal(code),
            Seen::Saved(batches) => self.note_save(clock, batches),
        }
    }

    // A request is refused.
    fn note_refusal(&self, code: u16) {
        add_at(&self.codes, CODES.iter().position(|one| *one == code), 1);
        if code == SAVE_FAILED {
            self.note_failed_save();
        }
    }

    /// A save that nobody asked for was refused before it wrote anything.
    pub fn note_refused_save(&self) {
        self.failed_saves.fetch_add(1, Ordering::SeqCst);
    }

    // A save has failed.
    fn note_failed_save(&self) {
        self.failed_saves.fetch_add(1, Ordering::SeqCst);
        self.is_unsaved.store(true, Ordering::SeqCst);
    }

    /// A save that nobody asked for has ended, with so many batches, or has failed.
    pub fn note_own_save(&self, clock: &impl Clock, saved: Option<u64>) {
        match saved {
            Some(batches) => self.note_save(clock, batches),
            None => self.note_failed_save(),
        }
    }

    // A save has ended.
    fn note_save(&self, clock: &impl Clock, batches: u64) {
        let at = match self.age(clock) {
            Some(age) => millis(age).saturating_add(1),
            None => 0,
        };
        self.saved_batches.store(batches, Ordering::SeqCst);
        self.saved_at.store(at, Ordering::SeqCst);
        self.saves.fetch_add(1, Ordering::SeqCst);
        self.is_unsaved.store(false, Ordering::SeqCst);
    }

    /// The cells of all batches that were accepted.
    pub fn cells(&self) -> u64 {
        self.cells.load(Ordering::SeqCst)
    }

    /// How many puts were of batches that had been accepted.
    pub fn repeats(&self) -> u64 {
        self.repeats.load(Ordering::SeqCst)
    }

    /// How many bytes were read.
    pub fn received(&self) -> u64 {
        self.received.load(Ordering::SeqCst)
    }

    /// How many were written.
    pub fn sent(&self) -> u64 {
        self.sent.load(Ordering::SeqCst)
    }

    /// How many requests have come of the kind at a place of `KINDS`.
    pub fn requests(&self, place: usize) -> u64 {
        number_at(&self.kinds, place)
    }

    /// How many were refused with the code at a place of `CODES`.
    pub fn refusals(&self, place: usize) -> u64 {
        number_at(&self.codes, place)
    }

    /// Whether any request was refused with this code.
    pub fn has_refused(&self, code: u16) -> bool {
        match CODES.iter().position(|one| *one == code) {
            Some(place) => self.refusals(place) > 0,
            None => false,
        }
    }

    /// Whether the last save failed.
    pub fn has_failed_to_save(&self) -> bool {
        self.is_unsaved.load(Ordering::SeqCst)
    }

    /// How many saves were made.
    pub fn saves(&self) -> u64 {
        self.saves.load(Ordering::SeqCst)
    }

    /// How many failed.
    pub fn failed_saves(&self) -> u64 {
        self.failed_saves.load(Ordering::SeqCst)
    }

    /// The last save that was answered, if there was one.
    pub fn last_save(&self, clock: &impl Clock) -> Option<LastSave> {
        if self.saves() == 0 {
            return None;
        }
        Some(LastSave {
            batches: self.saved_batches.load(Ordering::SeqCst),
            age: self.age_of(clock, self.saved_at.load(Ordering::SeqCst)),
        })
    }

    // How long ago something was that was so many milliseconds after the beginning, plus 1.
    fn age_of(&self, clock: &impl Clock, at: u64) -> Option<Duration> {
        let then = at.checked_sub(1)?;
        Some(self.age(clock)?.saturating_sub(Duration::from_millis(then)))
    }
}
