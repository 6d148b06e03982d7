//! Why the program goes no further.

use log_start::StartFault;
use std::alloc::AllocError;
use thiserror::Error;

/// What is wrong with a life, or with the program.
#[derive(Clone, Copy, Debug, PartialEq, Eq, Error)]
pub enum Stop {
    #[error("there was no memory")]
    Memory,
    #[error("the argument is no number")]
    NoNumber,
    /// A start was refused though no call had failed, or one that no call leads to.
    #[error("a start was refused: {0}")]
    Refused(StartFault),
    /// The list of a start has a batch that wasn't put there.
    #[error("the batch at place {0} is another")]
    Differs(usize),
    /// The list of a start has too few batches, or more than were put.
    #[error("{found} batches where {least} to {most} are due")]
    Lost {
        found: usize,
        least: usize,
        most: usize,
    },
    /// A call failed once, and puts were never taken again.
    #[error("no put is taken")]
    NotTaken,
}

impl From<AllocError> for Stop {
    fn from(_error: AllocError) -> Stop {
        Stop::Memory
    }
}
