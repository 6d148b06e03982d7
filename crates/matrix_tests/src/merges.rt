//! Tests of cells that are merged: worked lists as tables, skips, the pages of ranges, and the rows that lead of
//! several sources.
//!
//! What comes of the tables was worked out by hand, as `GrB_eWiseAdd` of GraphBLAS C API 2.0 with plus has it.

mod leaders;
mod matrices;
mod ranges;
mod refusals;
mod worked_lists;
