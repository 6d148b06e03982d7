//! How far the reading of a file has come, in a line on a terminal.
//!
//! A `Watched` source gives what its source gives, byte for byte, and tells a `Watch` of it: nobody, or a
//! `ProgressLine`, which writes a line to standard error once a second, over the one before, and clears it at the end.
#![tactic(auto)]

mod line;
mod watch;
mod watched;

pub use line::{Entries, ProgressLine};
pub use watch::{Unwatched, Watch};
pub use watched::Watched;
