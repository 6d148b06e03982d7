//! `salvage`: makes a new snapshot of what a snapshot has, and the front of a log that a start may refuse.
//!
//! The front of a log is what its pages before the first one with a fault hold: the batches of all whole blocks before
//! it. A log that reads whole is its own front. What is after the front is counted and not kept, since nobody knows
//! what is missing before it.
#![tactic(auto)]

mod count;
mod front;
mod joining;
mod laws;
mod left;
mod line;
mod no_snapshot;
mod salvage;
mod salvage_end;
mod torn_log;

pub use count::count_pages;
pub use front::Front;
pub use laws::{fronts_end_at_faults, pages_before_faults_have_none, whole_logs_are_fronts};
pub use left::Left;
pub use no_snapshot::NoSnapshot;
pub use salvage::run_salvage;
pub use salvage_end::SalvageEnd;
pub use torn_log::{NamedTornLog, TornLog};
