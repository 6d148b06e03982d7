//! The folder of a log: its file under its name, and the new file that takes the name.
//!
//! A log is begun anew in a file beside the one in use, which takes the name once it is durable. `make_with_head` makes
//! it, and `give_name` gives it the name; between the two it is appended to as any log. A `FileLogFolder` is the real
//! folder, whose files are `FileDisk`s; a `MemoryLogFolder` is one in memory, for tests. Why a call of a real folder or
//! file has failed is in its `LogNews`, where it was given some.
#![tactic(auto)]

mod calls;
mod fault;
mod file_disk;
mod memory;
mod naming;
mod news;
mod place;
mod real;
mod size_limit;
mod system_file;

pub use calls::{FoundFile, LogFolder, NumberedFile};
pub use fault::{FolderFault, RotateFault};
pub use file_disk::FileDisk;
pub use memory::MemoryLogFolder;
pub use naming::{begin_named, give_name, make_with_head};
pub use news::{FailedCall, FileCall, LogNews, StartedLog};
pub use real::{FileLogFolder, Refusal};
pub use size_limit::within_limit;
pub use system_file::SystemFile;
