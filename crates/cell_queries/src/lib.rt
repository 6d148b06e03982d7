//! Questions about cells in order: the cells of a range of rows and columns, page by page, the rows that lead by their
//! total or by their number of entries, also in groups, and how many rows have how many entries.
//!
//! Each takes the cells one after the other from a source, as a matrix or a merge of matrices gives them, and makes a
//! list. Nothing is taken for a cell that the answer doesn't have.
#![tactic(auto)]

mod degrees;
mod groups;
mod laws;
mod listed;
mod range;
mod source;
mod tally;
mod top;

pub use degrees::{Degree, degrees_of};
pub use groups::{RowGroups, top_of_groups};
pub use laws::{
    every_row_is_told, groups_have_their_cells, groups_stand_once, rows_apart_join,
    rows_of_shards_join, rows_stand_once, rows_tell_entries_and_totals, tops_are_one,
    tops_have_rows_alone, tops_lead, tops_leave_nothing_out,
};
pub use listed::ListedCells;
pub use range::{CellRange, RangePage, Span, range_of};
pub use source::CellSource;
pub use tally::RowTally;
pub use top::{Leaders, TopBy, top_of};
