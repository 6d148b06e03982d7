//! Counted cells, and a sort of them by row and then by column: lists of some thousand cells, as a text brings them, in
//! any order.
//!
//! Such a list is distributed to buckets in its own memory, by the leading bits of the places, and then put in order by
//! exchanges of neighbours. Where the places are spread evenly that is one exchange for every four cells, and the whole
//! takes about two thirds of the time of a sort by comparison. Places that crowd in few buckets would take too many
//! exchanges: these lists, and those that are too short for the buckets, are sorted by `sort_unstable_by_key` of std.
#![tactic(auto)]

mod add_up;
mod buckets;
mod cell;
mod distribute;
mod limits;
mod order;
mod sort;
mod total;

pub use add_up::{added_up, into_summed, summed};
pub use cell::Cell;
pub use limits::MAX_DIMENSION;
pub use order::{is_in_order, rises};
pub use sort::{into_sorted, sorted};
pub use total::{checked_total, total_of};
