//! Folders in which a file is made beside another and takes its place, and one in memory that fails where it is told
//! to.
#![tactic(auto)]

mod calls;
mod memory;

pub use calls::Folder;
pub use memory::MemoryFolder;
