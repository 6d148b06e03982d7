//! Why a put or a list of batches is refused.

use std::alloc::AllocError;
use thiserror::Error;

/// Why a put accepted nothing and gave no kept reply.
#[derive(Clone, Copy, Debug, PartialEq, Eq, Error)]
pub enum PutFault {
    /// A growth was refused. Only of a batch that the book called fresh.
    #[error("no memory for a batch")]
    Memory,
    /// The client's number stands in the book with other cells or another total.
    #[error("the number stands for another batch")]
    NumberReused,
    /// With the batch the accepted total would pass the limit.
    #[error("the total passes the limit: {accepted} is accepted")]
    OverTotal { accepted: u64 },
    /// The book has as many batches as it may.
    #[error("the book is full")]
    BookFull,
    /// The shards' records and the book don't belong together. `PlainEngine` never answers it.
    #[error("records differ")]
    RecordsDiffer,
}

/// Why a list of batches made no engine. `at` counts from 0.
#[derive(Clone, Copy, Debug, PartialEq, Eq, Error)]
pub enum LoadFault {
    /// A growth was refused: at a batch that is fresh, as are all before it, or before the first.
    #[error("no memory for the batches")]
    Memory,
    /// The client's number of this batch stands before it in the list.
    #[error("batch {at}, counted from 0, has the client and number of one before it")]
    RepeatedNumber { at: u64 },
    /// With this batch the total passes the limit.
    #[error("with batch {at}, counted from 0, the total passes the limit")]
    OverTotal { at: u64 },
    /// There are as many batches before this one as there may be.
    #[error("the book is full before batch {at}, counted from 0")]
    BookFull { at: u64 },
}

impl From<AllocError> for PutFault {
    ghost use Rattle.std.specs.Prelude.{◌≡◌};
    ghost use Rattle.plain_engine.specs.declared.fault.PutFault.TheVariants.{Memory};

    ghost from_gives = { λ _ fault. fault ≡ Memory };

    fn from(_error: AllocError) -> PutFault {
        PutFault::Memory
    }
}

impl From<AllocError> for LoadFault {
    ghost use Rattle.std.specs.Prelude.{◌≡◌};
    ghost use Rattle.plain_engine.specs.declared.fault.LoadFault.TheVariants.{Memory};

    ghost from_gives = { λ _ fault. fault ≡ Memory };

    fn from(_error: AllocError) -> LoadFault {
        LoadFault::Memory
    }
}
