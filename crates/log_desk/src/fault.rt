//! What can go wrong at a log and at its desk.

use locked_engine::NoneShared;
use thiserror::Error;

/// A write or a sync of a log has failed. What of the block is on the device is unknown.
#[derive(Clone, Copy, Debug, PartialEq, Eq, Error)]
#[error("a write or a sync of the log has failed")]
pub struct LogFailed;

/// Why a log has no more room than before.
#[derive(Clone, Copy, Debug, PartialEq, Eq, Error)]
pub enum RoomFault {
    /// There is no more to be had. The log is as it was, and all of it can be used.
    #[error("no room for the log")]
    Full,
    /// A sync has failed. The log is failed from then on.
    #[error("a sync of the log has failed")]
    Failed,
}

/// Why a put isn't begun, or a place isn't told as durable.
#[derive(Clone, Copy, Debug, PartialEq, Eq, Error)]
pub enum DeskFault {
    /// There is no room for the batch. Nothing was accepted, unless its room was given back before it was written.
    #[error("no room in the log")]
    LogFull,
    /// A call on the log has failed. It stays so until a fresh log is put in its place.
    #[error("the log has failed")]
    LogFailed,
    /// The book and the log don't belong together: the book had no batch after the end of the log, and this is its answer.
    /// No put meets it whose index is one of the log's own book.
    #[error("the book and its log differ")]
    HistoriesDiffer(NoneShared),
}
