//! The sum of several matrices, cell by cell, without a matrix or a list of it: their cells merged side by side.
//!
//! The cells of each matrix come by row and then by column, so of all that are left the least stands at the front of
//! one of them. The fronts lie in a heap (Knuth, The Art of Computer Programming, volume 3, section 5.4.1): a cell
//! costs the logarithm of the number of matrices, less where one matrix has several cells in a row, and no memory.
#![tactic(auto)]

mod front;
mod merged;

pub use merged::{MergedCells, Sources};
