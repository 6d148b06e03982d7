//! Hypersparse matrices of counts: sums of counted cells, exactly, in dimensions of up to 2^60 by 2^60.
//!
//! The operations are those of GraphBLAS C API 2.0 over UINT64 with plus. Only the entries take memory: a matrix is a
//! list of its cells by row and then by column, or a piece of such a list that several matrices share. So a copy is a
//! pointer, a look-up a bisection, a sum a merge of two lists, and the parts of a matrix are pieces of one list.
#![tactic(auto)]

mod bisection;
mod cell_iter;
mod hyper;
mod judge;
mod laws;
mod limits;
mod list_sum;
mod merge;
mod piece;
mod refusal_laws;
mod rising;
mod row_laws;
mod row_sum;
mod search;
mod shard;

pub use bisection::{is_before, partition_point};
pub use cell_iter::Cells;
pub use hyper::Hyper;
pub use judge::BuildFault;
pub use laws::{
    built_lists_add, built_names_places, built_sums_counts, built_total, empty_is_identity,
    parts_make_the_whole, sums_at_places, sums_commute, sums_regroup, totals_add,
};
pub use list_sum::sum_of_lists;
pub use merge::push_merged;
pub use refusal_laws::{indices_are_refused, other_lists_are_taken, sums_are_refused};
pub use rising::push_merged_neighbours;
pub use row_laws::{
    row_totals_add, rows_have_no_others, rows_keep_their_entries, rows_of_sums_add,
};
pub use row_sum::{Entry, RowSum};
pub use search::count_before;
pub use shard::shard_of;
