//! Why the sum of several snapshots is not written.

use byte_io::WriteFault;
use snap_file::SaveFault;
use snap_report::CheckFault;
use std::alloc::AllocError;
use thiserror::Error;

/// Why the sum of several snapshots was not written. Files are counted from 0.
#[derive(Clone, Copy, Debug, PartialEq, Eq, Error)]
pub enum ExportFault {
    /// This file could not be opened or read, or is no snapshot, or the log beside it could not be read, or the two
    /// don't belong together. The fault is neither want of memory nor of the output.
    #[error("{1}")]
    File(u64, CheckFault),
    /// This file is a snapshot, and has other dimensions than the first.
    #[error("snapshot: DimensionsDiffer")]
    DimensionsDiffer(u64),
    /// The counts of all snapshots add up to more than 2^64 - 1.
    #[error("sum: SumTooLarge")]
    SumTooLarge,
    /// There was no memory: for a snapshot, for its cells or for the sum. No fault of a file stands before, and the
    /// counts of what was loaded fit 64 bits, unless it was the loading that was refused it.
    #[error("memory")]
    Memory,
    /// The sink failed, or took nothing of what it was offered. What it took before is the front of the sum's text.
    #[error(transparent)]
    Output(WriteFault),
    /// A file of the folder could not be made, written, synced or named. The fault is never want of memory.
    #[error(transparent)]
    Save(SaveFault),
}

impl From<AllocError> for ExportFault {
    ghost use Rattle.std.specs.Prelude.{◌≡◌};
    ghost use Rattle.snap_export.specs.declared.fault.ExportFault.TheVariants.{Memory};

    ghost from_gives = { λ _ fault. fault ≡ Memory };

    fn from(_error: AllocError) -> ExportFault {
        ExportFault::Memory
    }
}
