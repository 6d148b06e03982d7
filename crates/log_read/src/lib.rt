//! Reads a log from a source, from its head to its end.
//!
//! The file is read page by page, and no more of it is held than one block's chunks and the batches that were read.
#![tactic(auto)]

mod file;
mod flat;
mod laws;
mod read;
mod scan;
mod source;
mod stop;

pub use file::{Block, LogFile};
pub use flat::all_batches;
pub use laws::{bytes_are_one_log, bytes_have_one_fault};
pub use read::read_log;
pub use scan::LogScan;
