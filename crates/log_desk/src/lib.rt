//! Group commit: threads wait until what a book has accepted is durable in a log, and share its syncs.
//!
//! The book is the queue. Whoever waits for a place that isn't durable takes the log out of the desk's lock, where no
//! other thread has it, and so becomes the leader of a group: it gives the lock back, reads from the book what was
//! accepted behind the log's end, appends all of it by one sync, puts the log back and wakes the others, its followers.
//! No lock is held over a sync, and the log's order is the book's.
//!
//! Room for a batch is promised before the book is asked to accept it (`LogDesk::enter`), so a full disk refuses a put
//! of which nothing was accepted. What a batch was promised is given back once it is durable or was refused
//! (`LogDesk::leave`).
#![tactic(auto)]

mod desk;
mod durable;
mod fault;
mod group;
mod log;
mod memory;
mod room;
mod state;
mod turn;
mod work;

pub use desk::LogDesk;
pub use durable::Durable;
pub use fault::{DeskFault, LogFailed, RoomFault};
pub use group::Group;
pub use log::Log;
pub use memory::{FailAt, MemoryLog, NoPause, Pause};
pub use room::make_stretch;
pub use state::{DeskFigures, Ticket};
pub use work::TurnWork;
