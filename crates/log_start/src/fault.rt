//! Why a start with a log is refused.

use log_blocks::{LogFault, LogKind};
use std::fmt;
use thiserror::Error;

/// Why a server doesn't start from a snapshot and a log. The refusals of the log's contents are judged in this order,
/// and places count from 0 over all batches.
#[derive(Clone, Copy, Debug, PartialEq, Eq, Error)]
pub enum StartFault {
    /// The file under the log's name isn't a log.
    #[error(fmt = write_log_fault)]
    Log(LogFault),
    /// No file is under the log's name, where one must be there.
    #[error("log: NotFound")]
    NotFound,
    /// The log is of another book than the snapshot, or of another window of it.
    #[error("log: OtherBook")]
    OtherBook,
    /// The log's setup has more rows or more columns.
    #[error("settings: LogDiffers")]
    SetupDiffers,
    /// The log begins at this place, behind the snapshot's end.
    #[error("log: Gap at batch {first}")]
    Gap { first: u64 },
    /// The batches before the log aren't those that the snapshot has there.
    #[error("log: LinkDiffers")]
    LinkDiffers,
    /// The log and the snapshot have other batches at this place.
    #[error("log: EntryDiffers at batch {at}")]
    EntryDiffers { at: u64 },
    /// The log's batch at this place isn't fresh behind those before it.
    #[error("log: NotFresh at batch {at}")]
    NotFresh { at: u64 },
    /// Memory was refused.
    #[error("memory")]
    Memory,
    /// The log's file can't be opened or made.
    #[error("log: Create")]
    Create,
    /// A write to the log's file has failed.
    #[error("log: Write")]
    Write,
    /// The log's file, or a folder, couldn't be synced.
    #[error("log: Sync")]
    Sync,
    /// The new log couldn't be given its name.
    #[error("log: Rename")]
    Rename,
    /// Another program has the log.
    #[error("log: Busy")]
    Busy,
}

// What is told of a file that isn't a log: want of memory as such, and else the fault with its page.
fn write_log_fault<W: fmt::Write>(fault: &LogFault, f: &mut fmt::Formatter<W>) -> fmt::Result {
    match fault.kind {
        LogKind::Memory => f.write_str("memory"),
        kind => write!(f, "log: {kind} at page {}", fault.page),
    }
}
