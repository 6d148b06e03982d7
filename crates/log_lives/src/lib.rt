//! What stays over all lives of a server that keeps a snapshot and a log.
//!
//! A life runs from a start to a kill or a loss of power. The world of specs/Lives.antt has the book, the files under
//! the names of the snapshot and of the log, what else a loss of power may put under each, and the answers that any
//! life gave. Its events are the calls that a server makes of its files, in the order that a save, an append and a
//! start make them, their failures, kills and losses of power. No code runs them: what `log_file` does is a run of such
//! events.
#![tactic(auto)]

mod lives;

pub use lives::{an_acknowledged_batch_outlives_a_loss_of_power, stays_one_list};
