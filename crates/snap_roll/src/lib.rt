//! Batches by their names in snapshots: `run_has` says whether a snapshot has the batch of a client with a number, and
//! `run_roll` takes closed windows into a coarser snapshot, each once.
//!
//! What is written is said by `specs/Has`, and what a roll makes by `specs/Rolls`.
#![tactic(auto)]

mod entries;
mod has;
mod roll;
mod roll_fault;
mod roll_laws;
mod rolling;
mod window;
mod words;

pub use has::{Found, run_has};
pub use roll::run_roll;
pub use roll_fault::{Refusal, RollFault};
pub use roll_laws::{
    a_roll_may_be_repeated, rolled_windows_are_taken_in, rolls_may_come_in_parts,
    the_sum_is_what_the_entries_say,
};
