//! What the program takes at most.

/// The most digits that a number of an option has.
pub const MAX_DIGITS: usize = 20;

/// Bytes: the allocation that `keep_freed_memory` makes and frees, the longest that counts, 32 MiB with its page of
/// bookkeeping.
pub const KEPT_BYTES: usize = (32 << 20) - 8_192;
