//! Why a snapshot and a log don't belong together.

use thiserror::Error;

/// Why a start refuses a log beside a snapshot. The refusals are judged in this order, and places count from 0 over all
/// batches. `Memory` may hide `NotFresh`, and no other.
#[derive(Clone, Copy, Debug, PartialEq, Eq, Error)]
pub enum JoinFault {
    /// The log is of another book, or of another window of it.
    #[error("OtherBook")]
    OtherBook,
    /// The log's setup has more rows or more columns.
    #[error("SetupDiffers")]
    SetupDiffers,
    /// The log begins at this place, behind the snapshot's end.
    #[error("Gap at batch {first}")]
    Gap { first: u64 },
    /// The batches before the log aren't those that the snapshot has there.
    #[error("LinkDiffers")]
    LinkDiffers,
    /// The log and the snapshot have other batches at this place.
    #[error("EntryDiffers at batch {at}")]
    EntryDiffers { at: u64 },
    /// The log's batch at this place isn't fresh behind those before it.
    #[error("NotFresh at batch {at}")]
    NotFresh { at: u64 },
    /// Memory was refused.
    #[error("Memory")]
    Memory,
}
