//! Under what a batch is found again.

/// A client and a number of its own: the key of the book and of a shard's record. Both are what the client chose.
#[derive(Clone, Copy, Debug, PartialEq, Eq, Hash)]
pub struct Pair {
    pub client: u64,
    pub number: u64,
}
