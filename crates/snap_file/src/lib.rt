//! Snapshot files: a setup and what a book of it accepted as bytes, and back.
//!
//! The parts that read numbers and cells are public, for other files that have batches in them.
#![tactic(auto)]

mod access;
mod batch;
mod beside;
mod entries;
mod fault;
mod file;
mod head;
mod kept_file;
mod laws;
mod limits;
mod new_file;
mod origin;
mod past;
mod path_lock;
mod read;
mod reader;
mod saving;
mod snapshot;
mod system;
mod tally;
mod write;
mod writer;

pub use access::{Access, access_under, clear, make_file};
pub use batch::push_batch;
pub use beside::{folder_of, try_save};
pub use entries::read_entries;
pub use fault::{FileFault, SaveFault, SnapFault};
pub use file::{load, load_watched, save, save_by, save_telling};
pub use file_folder::{Folder, MemoryFolder};
pub use head::Head;
pub use kept_file::{LockedFile, NamedFile, SnapshotFile};
pub use laws::{
    every_file_is_a_snapshot_or_has_a_fault, no_snapshot_begins_another, one_first_fault,
    one_snapshot_spelled, refused_memory_hides_no_early_fault, shown_fault_stays,
    snapshot_or_faulty,
};
pub use limits::OLD_MAX_BATCHES;
pub use origin::{Identity, NO_WINDOW, Origin};
pub use path_lock::{PathLock, lock, lock_existing};
pub use read::read_snapshot;
pub use reader::{ByteReader, refuse};
pub use saving::{UNFINISHED, save_in};
pub use snapshot::Snapshot;
pub use system::{FileSystem, RealFiles};
pub use tally::CellTally;
pub use write::write_snapshot;
