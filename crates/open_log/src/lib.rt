//! Opens a log to write to it: finds it at a start, and begins it anew, behind a snapshot that was saved. The new one
//! takes the place of the one in use once it is whole.
//!
//! `begin_rotation` makes the new log beside the name, while the old one is in use; what the old one has behind the
//! snapshot is appended to the new one, as to any log; and `finish_rotation`, while nobody writes to the old one, gives
//! the new one the name.
#![tactic(auto)]

mod fault;
mod log;
mod rotation;
mod start;

pub use fault::FindFault;
pub use log::OpenLog;
pub use rotation::{abandon_rotation, begin_rotation, finish_rotation};
pub use start::{begin_log, find_log};
