//! The writer of a log: it appends blocks, makes room for them, and settles a file that was left in any way.
//!
//! The file of a log is a head page and the pages of its blocks, with 00 behind them. A block is durable once a sync
//! has answered Ok after its bytes were written; each loss of power from then on leaves it. Whatever happens during a
//! call, a loss of power leaves the log as it was before, or as it is after it.
#![tactic(auto)]

mod laws;
mod room;
mod settle;
mod writer;

pub use laws::{settled_logs_are_read, torn_crashes_are_read, torn_logs_are_read};
pub use room::RoomFault;
pub use writer::{LogEnd, LogMark, LogWriter};
