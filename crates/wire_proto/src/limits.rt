//! Every limit of sessions, with its unit.

/// The bytes of the longest reply but a text.
pub const SHORT: usize = 21;

/// The most entry lines that the text of a Put may declare.
pub const MAX_ENTRIES: u64 = 1_048_576;

/// The most cells that a Range may ask for, and the most rows that a Top may.
pub const MOST: u64 = 1_000_000;

/// Their bytes.
pub const MOST_BYTES: usize = 24_000_000;

/// The most puts that are held back before they are settled and their replies sent.
pub const HELD: usize = 64;

/// The bytes of that many short replies.
pub const HELD_BYTES: usize = HELD * SHORT;
