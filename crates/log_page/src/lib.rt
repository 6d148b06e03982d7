//! Pages of a log: what one is made of, and what the loss of bytes makes of it.
//!
//! A log is written in pages of 4,096 bytes. Each has a checksum, and the number of its bytes that are 00. A loss of
//! power leaves of a page that was being written some of its bytes, and 00 where the others would be: such a page has
//! more bytes of 00 than it says, so it is told from a whole page for certain, and not only unless a checksum fits by
//! chance. A page with any other damage is told by the checksum, CRC-32C.
#![tactic(auto)]

mod fields;
mod laws;
mod page;
mod seal;

pub use fields::{batches_told, is_left_page, is_next_page, pages_bytes, pages_told};
pub use laws::losses_are_seen;
pub use page::{CHUNK, PAGE, PageKind, page_kind};
pub use seal::seal_page;
