//! How much an engine has accepted.

/// The number of accepted batches, and their total.
#[derive(Clone, Copy, Debug, PartialEq, Eq)]
pub struct Status {
    pub batches: u64,
    pub total: u64,
}
