//! The head page of a log, both ways, and the link of a log to the batches before it.
//!
//! A log begins with a page that says of which setup it is, how many batches stand before it, their total, and the
//! checksum of their entries. By these a start finds that a log and a snapshot belong together.
#![tactic(auto)]

mod decode;
mod encode;
mod head;
mod laws;
mod link;

pub use decode::decode_head;
pub use encode::encode_head;
pub use head::LogHead;
pub use laws::{a_page_has_one_fault, a_page_has_one_head};
pub use link::{Link, link_of};
