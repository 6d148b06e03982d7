//! What the tests of the crates above `batch_store` begin with: small setups, batches of known cells, lists of accepted
//! batches, and pages of a log whose bytes are known.
#![tactic(auto)]

mod batches;
mod lists;
mod pages;

pub use batches::{Cells, batch, cells_of, one_cell, setup_up_to, small_setup};
pub use lists::list_of;
pub use pages::{b1, b2, b12, head, head_after, page_of, put_numbers};
