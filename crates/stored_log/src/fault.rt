//! Why a log wasn't begun.

use log_folder::RotateFault;
use thiserror::Error;

/// Why a new log wasn't begun. The log in use is as it was.
#[derive(Clone, Copy, Debug, PartialEq, Eq, Error)]
pub enum StoredFault {
    /// There was no memory for a block.
    #[error("log: Memory")]
    Memory,
    /// Its file could not be made, written or synced.
    #[error("{0}")]
    File(RotateFault),
}
