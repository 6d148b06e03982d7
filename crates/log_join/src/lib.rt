//! What a start makes of a snapshot's list and a log, without any file.
//!
//! A log has the batches from a place on, and a snapshot all up to a place. Where both were written by one server, they
//! have the same batches at the places that both have, and the log goes on behind the snapshot. Where they don't, they
//! don't belong together, and the first reason is told.
#![tactic(auto)]

mod fault;
mod join;
mod known;
mod laws;
mod seen;

pub use fault::JoinFault;
pub use join::join_log;
pub use laws::{a_join_has_one_outcome, joined_lists_go_on};
