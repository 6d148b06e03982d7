//! The limits of a matrix, each with its unit.

/// Parts of an even share: a part of a matrix that has fewer of the cells gets a list of its own. Else a few cells would
/// keep the list of all parts in memory.
pub const SMALL_SHARE: usize = 8;
