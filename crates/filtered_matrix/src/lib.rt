//! A matrix beside a filter of its places, so that a look-up at a place where it has no entry mostly reads one word.
//!
//! The filter is a Bloom filter (Bloom 1970, "Space/Time Trade-offs in Hash Coding with Allowable Errors"), blocked as
//! in Putze, Sanders and Singler 2007, "Cache-, Hash- and Space-Efficient Bloom Filters". Its blocks are words of 64
//! bits: a place has three bits in one word, all named by one hash. What is proved is that each place with an entry
//! passes. How many others do isn't: were the hash's bits drawn at random, it would be 8 in 1,000 at four entries a
//! word and 38 in 1,000 at eight, between which a matrix of eight entries or more lies. Places at random, full rows,
//! columns and blocks, strides and diagonals of 1,000 to 2 million entries were tried, with at most 43 in 1,000. Past
//! 2^35 entries there are more words than the hash tells apart.
//!
//! A filter takes 1 to 2 bytes for each entry, and 8 bytes at least, in one allocation of just that size. To make it
//! takes a hash and a write of one word for each entry, to ask it a hash and a read of one word.
#![tactic(auto)]

mod filter;
mod filtered;

pub use filtered::FilteredMatrix;
