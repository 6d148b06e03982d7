//! What can be wrong with a text.

use thiserror::Error;

/// What is wrong with a text, or with the reading of it.
#[derive(Clone, Copy, Debug, PartialEq, Eq, Error)]
pub enum MmKind {
    #[error("Read")]
    Read,
    #[error("Memory")]
    Memory,
    #[error("BadBanner")]
    BadBanner,
    #[error("Unsupported")]
    Unsupported,
    #[error("LineTooLong")]
    LineTooLong,
    #[error("BadSize")]
    BadSize,
    #[error("BadDimension")]
    BadDimension,
    #[error("NotSquare")]
    NotSquare,
    #[error("TooManyEntries")]
    TooManyEntries,
    #[error("BadEntry")]
    BadEntry,
    #[error("Negative")]
    Negative,
    #[error("NumberTooLarge")]
    NumberTooLarge,
    #[error("IndexOutOfRange")]
    IndexOutOfRange,
    #[error("TooFewEntries")]
    TooFewEntries,
    #[error("ExtraText")]
    ExtraText,
    #[error("TooLong")]
    TooLong,
}

/// A fault, and the line on which it stands. Lines count from 1.
#[derive(Clone, Copy, Debug, PartialEq, Eq, Error)]
#[error("{kind} at line {line}")]
pub struct MmFault {
    pub kind: MmKind,
    pub line: u64,
}
