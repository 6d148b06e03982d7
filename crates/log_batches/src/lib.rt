//! The batches of a block of a log as bytes, and back.
//!
//! A block's bytes are the number of its batches, and each batch as a snapshot has it. They are cut into the chunks of
//! its pages, the last of which is filled with 00, and no page more is taken than they need. Every field has eight
//! bytes, as a page's chunk is a multiple of eight, so that no field lies on two pages.
#![tactic(auto)]

mod block;
mod bytes;
mod laws;
mod list;
mod pages;
mod payload;
mod size;

pub use block::BlockReader;
pub use laws::{
    blocks_have_one_list, blocks_of_batches_are_blocks, blocks_of_groups_are_no_longer,
};
pub use pages::encode_block;
pub use size::block_pages;
