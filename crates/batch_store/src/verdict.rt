//! What the book says of a batch, in plain numbers.

/// What a verdict reads of a batch: whose it is, and its size. No cell is compared.
#[derive(Clone, Copy, Debug, PartialEq, Eq)]
pub struct Entry {
    /// Who sent it.
    pub client: u64,
    /// The client's number of it.
    pub number: u64,
    /// How many cells its matrix has, stored zeros included: the places of its text, each once.
    pub cells: u64,
    /// The sum of its counts.
    pub total: u64,
}

/// The reply to an accepted batch. It is kept, and a repeat is answered by it.
#[derive(Clone, Copy, Debug, PartialEq, Eq)]
pub struct Kept {
    /// The place in the book, counted from 0.
    pub index: u64,
    /// The accepted total up to and with this batch.
    pub total_after: u64,
}

/// What the book says of a batch.
#[derive(Clone, Copy, Debug, PartialEq, Eq)]
pub enum Verdict {
    /// Its client and number are new, and both limits hold with it: it may be accepted.
    Fresh,
    /// It was accepted before, as a batch with as many cells and the same total, and got this reply.
    Known(Kept),
    /// Its client and number stand in the book, with another number of cells or another total.
    NumberReused,
    /// Its client and number are new, and with it the accepted total, told here, would pass the limit.
    OverTotal { accepted: u64 },
    /// Its client and number are new and its total fits, but the book has as many batches as it may.
    BookFull,
}
