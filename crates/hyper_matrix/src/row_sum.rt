//! What a look-up in one row answers.

/// The entries of one row, summed up.
#[derive(Clone, Copy, Debug, PartialEq, Eq)]
pub struct RowSum {
    /// How many entries the row has, stored zeros included.
    pub entries: u64,
    /// The sum of their counts.
    pub total: u64,
}

/// An entry of a row that the caller knows: its column, from 0, and its count.
#[derive(Clone, Copy, Debug, PartialEq, Eq)]
pub struct Entry {
    pub col: u64,
    pub count: u64,
}
