//! How much a server that has ended leaves.

use plain_engine::Status;

/// What the snapshot or the log of a server has at its end, and how many accepted batches neither has. Without a log
/// and without a snapshot's path, it is what was accepted.
#[derive(Clone, Copy, Debug, PartialEq, Eq)]
pub struct Stopped {
    pub status: Status,
    pub missing: u64,
}
