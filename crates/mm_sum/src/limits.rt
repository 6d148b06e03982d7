//! What a text may take, and how it is read.

use mm_text::TextLimits;

/// What a text may take: 2^40 bytes, and as many declared entries.
pub const TEXT_LIMITS: TextLimits = TextLimits {
    max_bytes: 1 << 40,
    max_entries: 1 << 40,
};

/// The most cells of a text's list that are read and added to those that wait at once.
pub const BLOCK_CELLS: usize = 4_096;
