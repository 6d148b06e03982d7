//! Why what a snapshot has more than an earlier one is not written.

use byte_io::WriteFault;
use matrix_difference::MinusFault;
use snap_file::SaveFault;
use snap_report::CheckFault;
use std::alloc::AllocError;
use thiserror::Error;

/// Why the difference of two snapshots was not written.
#[derive(Clone, Copy, Debug, PartialEq, Eq, Error)]
pub enum DifferenceFault {
    /// The later file could not be opened or read, or is no snapshot, or the log beside it could not be read, or the
    /// two don't belong together. The fault is neither want of memory nor of the output.
    #[error("{0}")]
    New(CheckFault),
    /// The same of the earlier file. The later one was read.
    #[error("{0}")]
    Old(CheckFault),
    /// Both are snapshots, of known books, and the books or their windows differ.
    #[error("snapshot: OtherBook")]
    OtherBook,
    /// Their dimensions differ.
    #[error("snapshot: DimensionsDiffer")]
    DimensionsDiffer,
    /// The batches of the earlier one are not the first of the later one: at this index, counted from 0, the later one
    /// has another batch, or none.
    #[error("snapshot: NotBefore at batch {0}")]
    NotBefore(u64),
    /// At this place, counted from 0, the later one has a lower count than the earlier one, or none where that has one.
    /// It is the first such place by row and then by column.
    #[error("snapshot: Falls at row {0} col {1}")]
    Falls(u64, u64),
    /// There was no memory. Where both files were loaded, none of the faults above is there but maybe the last.
    #[error("memory")]
    Memory,
    /// The sink failed, or took nothing of what it was offered. What it took before is the front of the text.
    #[error(transparent)]
    Output(WriteFault),
    /// A file of the folder could not be made, written, synced or named. The fault is never want of memory.
    #[error(transparent)]
    Save(SaveFault),
}

impl From<AllocError> for DifferenceFault {
    ghost use Rattle.std.specs.Prelude.{◌≡◌};
    ghost use Rattle.snap_export.specs.declared.minus_fault.DifferenceFault.TheVariants.{Memory};

    ghost from_gives = { λ _ fault. fault ≡ Memory };

    fn from(_error: AllocError) -> DifferenceFault {
        DifferenceFault::Memory
    }
}

impl From<MinusFault> for DifferenceFault {
    ghost use Rattle.std.specs.Prelude.{◌≡◌};
    ghost use Rattle.snap_export.specs.Minus.{fault_of};

    ghost from_gives = { λ cause fault. fault ≡ fault_of cause };

    fn from(cause: MinusFault) -> DifferenceFault {
        match cause {
            MinusFault::Falls(row, col) => DifferenceFault::Falls(row, col),
            MinusFault::Memory => DifferenceFault::Memory,
        }
    }
}
