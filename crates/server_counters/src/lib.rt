//! What a server counts, for whoever asks what it does.
//!
//! Threads count by atomic additions, and wait for nobody. Each number is exact once those who count it rest; numbers
//! that are read while they are counted may be of moments that lie side by side.
#![tactic(auto)]

mod codes;
mod counters;
mod file_size;
mod frame_scan;
mod machine;
mod put_times;
mod reasons;
mod sessions;

pub use codes::{CODES, KINDS, KindName, VERSION};
pub use counters::{Counters, LastSave};
pub use file_size::most_file_bytes;
pub use frame_scan::{FrameScan, Seen, Way};
pub use machine::Machine;
pub use put_times::{BOUNDS, Bound, PutTimes};
pub use reasons::word_of_error;
pub use sessions::{SessionCounters, SessionCounts};
