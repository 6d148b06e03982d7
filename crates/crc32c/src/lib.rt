//! CRC-32C, the checksum of RFC 3720, eight bytes at a time.
#![tactic(auto)]

mod checksum;
mod laws;
mod tables;

pub use checksum::{Crc, crc32c};
pub use laws::{
    bursts_are_found, checksums_are_remainders, odd_changes_are_found, pairs_are_found,
};
