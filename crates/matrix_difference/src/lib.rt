//! What one matrix has more than another: the least matrix that gives the later one when it is added to the earlier one.
//!
//! `specs/Difference` says what that is, at each place, and laws say what follows.
#![tactic(auto)]

mod difference;
mod laws;
mod walk;

pub use difference::{MinusFault, minus_cells};
pub use laws::{difference_adds_back, difference_is_least, where_counts_fall_nothing_adds_back};
