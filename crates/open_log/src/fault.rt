//! Why a log isn't found.

use thiserror::Error;

/// Why nobody knows which file stands under a log's name, or what it has.
#[derive(Clone, Copy, Debug, PartialEq, Eq, Error)]
pub enum FindFault {
    /// The names couldn't be synced.
    #[error("log: Sync")]
    Sync,
    /// The file can't be opened.
    #[error("log: Open")]
    Open,
}
