//! Counted cells.

/// A cell of a matrix and its count. Rows and columns count from 0.
#[derive(Clone, Copy, Debug, PartialEq, Eq)]
pub struct Cell {
    pub row: u64,
    pub col: u64,
    pub count: u64,
}
