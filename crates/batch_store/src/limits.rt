//! What a store takes at most, each with its unit.

/// Shards.
pub const MAX_SHARDS: u64 = 64;

/// Batches: the most that a limit on them may allow.
pub const MAX_BATCHES: u64 = 1_073_741_824;

/// Cells: the most of a list that a batch is made of.
pub const MAX_CELLS: usize = 1_048_576;
