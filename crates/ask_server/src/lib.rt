//! Asks a server over a link, as a client does: how much it has accepted, and that it ends.
//!
//! A request is sent as its frame, and one reply is read. `run_status` writes what the server has; `ask_save` and
//! `ask_stop` ask for a save, and for the end.
#![tactic(auto)]

mod fault;
mod frames;
mod words;

pub use fault::AskFault;
pub use frames::exchange;
pub use words::{Save, ask_save, ask_stop, run_status};
