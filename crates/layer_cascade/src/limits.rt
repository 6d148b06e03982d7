//! What layers may have.

/// The most cuts. With the last layer, which has none, there are at most 8 layers.
pub const MAX_CUTS: usize = 7;

/// The greatest cut, in entries.
pub const MAX_CUT: u64 = 1 << 40;
