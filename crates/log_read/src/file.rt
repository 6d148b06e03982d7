//! What a log holds.

use batch_store::Batch;
use log_head::LogHead;
use std::sync::Arc;

/// A block of a log: the page where it begins, and its batches.
#[derive(Drop)]
pub struct Block {
    /// The number of its first page; the head is page 0.
    pub page: u64,
    /// At least one.
    pub batches: Vec<Arc<Batch>>,
}

/// A log as it was read.
#[derive(Drop)]
pub struct LogFile {
    pub head: LogHead,
    /// The blocks, in their order. Each begins on the page behind the one before it, the first on page 1.
    pub blocks: Vec<Block>,
    /// How many of the pages behind the blocks aren't empty: those of a block that was being written.
    pub rest: u64,
}
