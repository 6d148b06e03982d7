//! What is made of whole snapshots for those who read on: `run_export_of` writes the canonical text of the sum of
//! several, and `run_compact` saves it in a folder as a matrix without empty rows and columns, beside the numbers of
//! those that it has. `run_export_minus` writes what a snapshot has more than an earlier one of the same book, and
//! `run_compact_minus` saves it. `load_sum` gives the sum of several to those who ask it. `BesideLogs` loads snapshots
//! and the logs beside them for all of these.
//!
//! `specs/Several` says what the sum is, `specs/Compact` how rows and columns are numbered again, and `specs/Minus` when
//! one snapshot goes on from another. A fault in a file, a total that passes 2^64 - 1 and want of memory are told
//! before anything is written.
#![tactic(auto)]

mod axis;
mod begun;
mod beside_logs;
mod compact;
mod content;
mod fault;
mod label_lines;
mod laws;
mod minus;
mod minus_compact;
mod minus_fault;
mod minus_laws;
mod named_folder;
mod new_file;
mod relabel;
mod saving;
mod several;

pub use begun::count_of;
pub use beside_logs::{BesideLogs, LogFiles};
pub use compact::run_compact;
pub use fault::ExportFault;
pub use laws::{compact_matrix_reads_back, several_snapshots_add_up};
pub use minus::run_export_minus;
pub use minus_compact::run_compact_minus;
pub use minus_fault::DifferenceFault;
pub use minus_laws::batches_between_are_the_difference;
pub use named_folder::NamedFolder;
pub use several::{SnapshotFiles, load_sum, run_export_of};
