//! Blocks of a log, and what is read of its pages.
//!
//! A log is a head page and blocks, each of which begins on a page of its own. What follows the last block may be a
//! block in the making, which a loss of power left in part; it is told from damage, and cut off. Each other page that
//! isn't as it was written is a fault, with its number.
#![tactic(auto)]

mod count;
mod fault;
mod file;
mod laws;
mod scan;

pub use fault::{LogFault, LogKind};
pub use file::find_blocks;
pub use laws::{blocks_read_are_written, faults_are_first, logs_are_read, torn_files_are_read};
pub use scan::{BlockScan, Step};
