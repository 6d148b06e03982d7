//! Starts a log: finds it, reads it, joins it with a snapshot's list, and settles it, or begins it anew.
#![tactic(auto)]

mod fault;
mod head;
mod join;
mod owner;
mod read;
mod restart;
mod settle;
mod start;
mod told;

pub use fault::StartFault;
pub use head::head_of;
pub use owner::LogOwner;
pub use restart::{
    NextBlock, PowerLoss, StartInput, append_and_start, rotate_and_start, start_and_start,
};
pub use start::{Started, start_log};
