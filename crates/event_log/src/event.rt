//! What happens to a server.

use crate::filling::Filled;
use std::time::Duration;

/// Why a save failed: the file that it was about to write, the step, and the system's number of the error, if it had
/// one.
#[derive(Clone, Copy, Debug, PartialEq, Eq)]
pub struct Unsaved {
    pub file: &'static str,
    pub step: &'static str,
    pub error: Option<i32>,
}

/// A call that failed, and the system's number of the error, if it had one.
#[derive(Clone, Copy, Debug, PartialEq, Eq)]
pub struct FailedCall {
    pub call: &'static str,
    pub error: Option<i32>,
}

/// What happens to a server.
#[derive(Clone, Copy, Debug, PartialEq, Eq)]
pub enum Event {
    /// A snapshot is about to be loaded.
    Loading,
    /// There was no file to load.
    NoSnapshot,
    /// A log is about to be read.
    ReadingLog,
    /// It was read, with so many batches and pages.
    LogRead {
        batches: u64,
        pages: u64,
    },
    /// In its place one was begun without batches.
    LogBegun,
    /// The engine is there, with so much accepted.
    Started {
        batches: u64,
        total: u64,
    },
    /// A save has ended, with so many batches, so long after it was asked for.
    Saved {
        batches: u64,
        took: Duration,
    },
    /// A save has failed, for this reason where it is known, so long after it was asked for.
    NotSaved {
        why: Option<Unsaved>,
        took: Duration,
    },
    /// The log has failed, by this call where it is known.
    LogFailed {
        by: Option<FailedCall>,
    },
    /// The log has no room for a batch, since this call failed where it is known.
    LogFull {
        by: Option<FailedCall>,
    },
    /// Something has passed a level of its bound.
    Filling(Filled),
    /// No further connection is accepted.
    Stopping,
    /// The server has ended well, with so much accepted.
    Stopped {
        batches: u64,
        total: u64,
    },
}
