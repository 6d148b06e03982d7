//! What has happened to a log, for whoever tells it.

use std::io;
use std::sync::Mutex;
use std::sync::atomic::{AtomicU64, Ordering};

/// The bytes of a page of a log.
const PAGE: u64 = 4096;

/// A call on the file or the folder of a log.
#[derive(Clone, Copy, Debug, PartialEq, Eq)]
pub enum FileCall {
    Open,
    Read,
    Write,
    /// A write of zeros, for blocks that come later.
    MakeRoom,
    Cut,
    Sync,
    Create,
    Rename,
    /// A sync of the folder.
    SyncFolder,
    /// A look after a sync: the file was moved, removed or cut.
    Look,
    /// A look before a log is begun anew: the log of another book is under the path.
    OtherBook,
}

impl FileCall {
    /// Its name, as lines have it.
    pub fn name(self) -> &'static str {
        match self {
            FileCall::Open => "Open",
            FileCall::Read => "Read",
            FileCall::Write => "Write",
            FileCall::MakeRoom => "MakeRoom",
            FileCall::Cut => "Cut",
            FileCall::Sync => "Sync",
            FileCall::Create => "Create",
            FileCall::Rename => "Rename",
            FileCall::SyncFolder => "SyncFolder",
            FileCall::Look => "Look",
            FileCall::OtherBook => "OtherBook",
        }
    }
}

/// A call that failed, and the system's number of the error, if it had one.
#[derive(Clone, Copy, Debug, PartialEq, Eq)]
pub struct FailedCall {
    pub call: FileCall,
    pub error: Option<i32>,
}

/// The log that a start has found, or begun.
#[derive(Clone, Copy, Debug, PartialEq, Eq)]
pub struct StartedLog {
    /// How many batches and whole pages it has, the head's among them.
    pub batches: u64,
    pub pages: u64,
    /// Whether it was begun.
    pub is_new: bool,
}

/// What has happened to a log: what a start found, how many syncs were made, how many pages the log has, which call
/// failed last, and which one has left the log failed. A folder and its files note it, and threads share it. Nobody
/// waits here: a note that meets another one is lost, but for the numbers.
#[derive(Drop)]
pub struct LogNews {
    started: Mutex<Option<StartedLog>>,
    failed: Mutex<Option<FailedCall>>,
    broken: Mutex<Option<FailedCall>>,
    // How many syncs have begun, and how many of these have ended.
    begun_syncs: AtomicU64,
    ended_syncs: AtomicU64,
    syncs: AtomicU64,
    pages: AtomicU64,
}

// Puts a note in the place of the one before.
fn note<T: Copy + Drop>(place: &Mutex<Option<T>>, note: Option<T>) {
    if let Some(mut held) = place.try_lock() {
        *held = note;
    }
}

// The last note.
fn last<T: Copy + Drop>(place: &Mutex<Option<T>>) -> Option<T> {
    match place.try_lock() {
        Some(held) => *held,
        None => None,
    }
}

impl LogNews {
    /// Nothing has happened.
    pub fn new() -> LogNews {
        LogNews {
            started: Mutex::new(None),
            failed: Mutex::new(None),
            broken: Mutex::new(None),
            begun_syncs: AtomicU64::new(0),
            ended_syncs: AtomicU64::new(0),
            syncs: AtomicU64::new(0),
            pages: AtomicU64::new(0),
        }
    }

    /// A start has found this log, or begun it.
    pub fn note_start(&self, log: StartedLog) {
        self.pages.store(log.pages, Ordering::SeqCst);
        note(&self.started, Some(log));
    }

    /// A sync of a file of the log begins.
    pub(crate) fn note_sync_begun(&self) {
        self.begun_syncs.fetch_add(1, Ordering::SeqCst);
    }

    /// It has ended.
    pub(crate) fn note_sync_ended(&self) {
        self.ended_syncs.fetch_add(1, Ordering::SeqCst);
    }

    /// A number of the sync that is made now, if one is: as long as it stays, none has ended.
    pub fn running_sync(&self) -> Option<u64> {
        let ended = self.ended_syncs.load(Ordering::SeqCst);
        if self.begun_syncs.load(Ordering::SeqCst) > ended {
            Some(ended)
        } else {
            None
        }
    }

    /// A file of the log was synced.
    pub(crate) fn note_sync(&self) {
        self.syncs.fetch_add(1, Ordering::SeqCst);
    }

    /// A page or a block was written up to this byte of the log's file.
    pub(crate) fn note_end(&self, end: u64) {
        self.pages.store(end.div_ceil(PAGE), Ordering::SeqCst);
    }

    /// How many syncs were made of the log's files, since this was made.
    pub fn syncs(&self) -> u64 {
        self.syncs.load(Ordering::SeqCst)
    }

    /// How many pages the log has, that of its head among them: those up to the last that was written. While the log is
    /// begun anew, those of the new file, once more of that is written.
    pub fn pages(&self) -> u64 {
        self.pages.load(Ordering::SeqCst)
    }

    /// This call has failed.
    pub(crate) fn note_failure(&self, call: FileCall, error: &io::Error) {
        let error = error.raw_os_error();
        note(&self.failed, Some(FailedCall { call, error }));
    }

    /// The log of another book is under the path, so none is begun anew there.
    pub fn note_other_book(&self) {
        let call = FileCall::OtherBook;
        note(&self.failed, Some(FailedCall { call, error: None }));
    }

    /// This call has failed, and the log with it.
    pub(crate) fn note_break(&self, call: FileCall, error: &io::Error) {
        self.note_failure(call, error);
        let error = error.raw_os_error();
        note(&self.broken, Some(FailedCall { call, error }));
    }

    /// Nothing has failed since, as where other calls begin.
    pub fn forget_failure(&self) {
        note(&self.failed, None);
    }

    /// The log that the start has found or begun.
    pub fn started(&self) -> Option<StartedLog> {
        last(&self.started)
    }

    /// The call that failed last.
    pub fn failure(&self) -> Option<FailedCall> {
        last(&self.failed)
    }

    /// The call that left the log failed last.
    pub fn broken_by(&self) -> Option<FailedCall> {
        last(&self.broken)
    }
}
