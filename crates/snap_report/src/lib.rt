//! What is told of a snapshot's file: `run_check` writes one line of its numbers. `run_check_with_log` tells what it
//! and a log hold together, and `join_beside` gives it. `run_fold` folds its batches into one matrix and saves it
//! again; `run_fold_to` and `run_fold_with_log` make another file of the fold, `run_fork` and `run_fork_with_log` one
//! of another book.
//!
//! All read the files whole and add the batches up before they write. The line is said by `specs/Checks`, of the setup
//! and the list of batches that the file holds, and the line of a log by `specs/Logged`.
#![tactic(auto)]

mod check;
mod check_log;
mod fault;
mod fold;
mod fold_made;
mod fork;
mod kept_log;
mod limits;
mod making;
mod new_file;
mod pair;
mod refit;
mod sum;

pub use check::run_check;
pub use check_log::run_check_with_log;
pub use fault::{CheckFault, FoldFault};
pub use fold::run_fold;
pub use fold_made::{run_fold_to, run_fold_with_log};
pub use fork::{run_fork, run_fork_with_log};
pub use kept_log::{KeptLog, LogFileFault, NamedLog};
pub use limits::{LOG_BYTES, SNAPSHOT_BYTES};
pub use making::{MakeFault, NewSnapshot};
pub use new_file::{NewFile, ReplacedFile};
pub use pair::join_beside;
pub use sum::total_of_list;
