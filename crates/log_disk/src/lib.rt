//! A log's file on a disk that may lose what it was not synced.
//!
//! `LogDisk` is one file, as its calls and a loss of power change it. A `MemoryDisk` is one in memory, for tests: it
//! tells what it holds, fails where it is told to, and can lose what `Picks` pick. A loss of power may leave of it each
//! byte as it is durable or as it is written.
#![tactic(auto)]

mod bytes;
mod calls;
mod content;
mod disk;
mod memory;
mod picks;

pub use disk::LogDisk;
pub use memory::MemoryDisk;
pub use picks::Picks;
