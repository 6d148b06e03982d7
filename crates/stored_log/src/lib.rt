//! A log on a disk, as threads share it.
//!
//! A `StoredLog` is a `log_desk::Log`: it keeps a file of blocks and the writer that belongs to it, and a buffer for
//! the largest block that a group can have, so that an append takes no memory. `begin_stored` makes one beside the one
//! in use, behind all that a list tells, and `name_stored` gives it the name.
#![tactic(auto)]

mod block;
mod calls;
mod entries;
mod fault;
mod laws;
mod log;
mod room;
mod rotation;
mod stored;

pub use entries::Told;
pub use fault::StoredFault;
pub use laws::promised_pages_hold_groups;
pub use rotation::{abandon_stored, begin_stored, name_stored};
pub use stored::StoredLog;
