//! What can be wrong with a log.

use std::fmt;
use thiserror::Error;

/// What is wrong with a log, or with the reading of it.
#[derive(Clone, Copy, Debug, PartialEq, Eq, Error)]
pub enum LogKind {
    /// A read failed.
    #[error("Read")]
    Read,
    /// Memory was refused.
    #[error("Memory")]
    Memory,
    /// There are fewer bytes than the head page has.
    #[error("Truncated")]
    Truncated,
    /// The head page doesn't begin as that of a log does.
    #[error("BadMark")]
    BadMark,
    /// The log has another version.
    #[error("BadVersion")]
    BadVersion,
    /// A number of the head page is out of its range.
    #[error("BadHead")]
    BadHead,
    /// The checksum of the head page is wrong.
    #[error("HeadCheck")]
    HeadCheck,
    /// The page was changed, or doesn't belong where it stands, and that is no loss of bytes by a cut of power.
    #[error("Damaged")]
    Damaged,
    /// All pages of the block that begins at this page are whole, and it doesn't spell batches.
    #[error("BadBlock")]
    BadBlock,
    /// There are more bytes than a log may have.
    #[error("TooLong")]
    TooLong,
}

/// What is wrong, and with which page of the file; the head is page 0.
#[derive(Clone, Copy, Debug, PartialEq, Eq)]
pub struct LogFault {
    pub kind: LogKind,
    pub page: u64,
}
