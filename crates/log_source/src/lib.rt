//! A log's file as a source of bytes, so that it is read as any other.
#![tactic(auto)]

mod laws;
mod source;

pub use laws::reads_give_the_file;
pub use source::LogSource;
