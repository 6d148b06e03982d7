//! The sum of a Matrix Market text: `run_sum` reads the text of a source, adds its cells up, and writes the canonical
//! text of the sum to a sink. `run_sum_of` does so with several texts of the same dimensions.
//!
//! What a sum is, and that it is what is written, stands in `specs/Sum` and on `run_sum`; in `specs/Several` and on
//! `run_sum_of` of several texts. A fault in a text, a total that passes 2^64 - 1 and want of memory are told before
//! anything is written.
#![tactic(auto)]

mod fault;
mod limits;
mod reading;
mod running_sum;
mod sum;
mod texts;

pub use fault::{OpenFault, SumFault, TextsFault};
pub use sum::run_sum;
pub use texts::{Texts, run_sum_of};
