//! Which damage of a page of a log is found for certain: what the checksum finds in bytes, told of pages, whose checksum
//! stands in front of the bytes that it is of.
#![tactic(auto)]

mod laws;

pub use laws::{
    bursts_in_pages_are_found, odd_changes_of_pages_are_found, pairs_of_changes_in_pages_are_found,
};
