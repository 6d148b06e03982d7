//! Questions that snapshots are asked, several together: of their sum. `run_top_of` writes the rows or columns that
//! lead, `run_list_of` the cells of a range as a text, `run_degrees_of` how many rows or columns have how many entries,
//! and `run_check_of` one line of the numbers of all.
//!
//! Each reads the files whole and adds their batches up before it writes. What is written is said by `specs/Spans` of
//! the snapshots that the files have, and its lines by `specs/Queries`.
#![tactic(auto)]

mod check_several;
mod counting;
mod degrees;
mod lines;
mod list;
mod several;
mod side;
mod top;
mod words;

pub use check_several::run_check_of;
pub use several::{run_degrees_of, run_list_of, run_top_of};
pub use side::Side;
pub use top::TopQuery;
