//! Devices that give and take bytes and may fail, and what a run of calls gave and took.
//!
//! `Source` and `Sink` are readers and writers that count their failures; `Counted` makes them of those of std, and a
//! `Script` is both in memory. `Once` and `Trickle` stand around a device for both ways: one call of it fails, or each
//! moves few bytes. An `Endless` is a source without an end. `write_all` writes a text to a sink, in as many calls as
//! it takes. A `ReadBuffer` and a `WriteBuffer` stand between a device and those who use its bytes in small pieces.
#![tactic(auto)]

mod device_laws;
mod devices;
mod endless;
mod fault;
mod limits;
mod link;
mod once;
mod read_buffer;
mod script;
mod trickle;
mod wrapper_laws;
mod write;
mod write_buffer;

pub use device_laws::{
    calls_are_bounded_by_bytes, known_bytes_are_moved, script_gives_its_pieces,
    script_keeps_what_it_takes, script_read_is_determined, script_write_is_determined,
};
pub use devices::{Counted, Sink, Source};
pub use endless::Endless;
pub use fault::{DeviceFault, WriteFault};
pub use limits::{READ_CAPACITY, WRITE_CAPACITY};
pub use link::Link;
pub use once::Once;
pub use read_buffer::ReadBuffer;
pub use script::Script;
pub use trickle::Trickle;
pub use wrapper_laws::{
    endless_gives_one_sequence, once_leaves_out_one_call, trickle_calls_are_its_links,
};
pub use write::write_all;
pub use write_buffer::WriteBuffer;
