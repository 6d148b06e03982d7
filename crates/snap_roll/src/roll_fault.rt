//! Why windows are not rolled into a coarser file, or that is not reported.

use byte_io::WriteFault;
use snap_file::{FileFault, SaveFault};
use snap_report::CheckFault;
use std::alloc::AllocError;
use thiserror::Error;

/// Why the file of a window is not taken into a coarser one.
#[derive(Clone, Copy, Debug, PartialEq, Eq, Error)]
pub enum Refusal {
    /// It says no window, and no number was given.
    #[error("NoWindow")]
    NoWindow,
    /// A log goes with it: that may have more batches.
    #[error("NotClosed")]
    NotClosed,
    /// It is of another window than was given, or of another book than a window before it.
    #[error("OtherBook")]
    OtherBook,
    /// Its numbers of rows and columns aren't those of the coarser file.
    #[error("DimensionsDiffer")]
    DimensionsDiffer,
    /// The coarser file has another window under this number.
    #[error("NumberReused")]
    NumberReused,
    /// With it the total would pass the limit of the coarser file.
    #[error("OverTotal")]
    OverTotal,
    /// The coarser file has as many batches as it may.
    #[error("BookFull")]
    BookFull,
}

/// Why a file is not taken in.
#[derive(Clone, Copy, Debug, PartialEq, Eq)]
pub enum Untaken {
    Refused(Refusal),
    Memory,
}

impl From<Refusal> for Untaken {
    ghost use Rattle.std.specs.Prelude.{◌≡◌};
    ghost use Rattle.snap_roll.specs.declared.roll_fault.Untaken.TheVariants.{Refused};

    ghost from_gives = { λ why fault. fault ≡ Refused why };

    fn from(why: Refusal) -> Untaken {
        Untaken::Refused(why)
    }
}

impl From<AllocError> for Untaken {
    ghost use Rattle.std.specs.Prelude.{◌≡◌};
    ghost use Rattle.snap_roll.specs.declared.roll_fault.Untaken.TheVariants.{Memory};

    ghost from_gives = { λ _ fault. fault ≡ Memory };

    fn from(_error: AllocError) -> Untaken {
        Untaken::Memory
    }
}

/// Why windows were not rolled into a coarser file, or that was not reported.
#[derive(Clone, Copy, Debug, PartialEq, Eq, Error)]
pub enum RollFault {
    /// The coarser file could not be opened or read, or is no snapshot. The fault is never want of memory.
    #[error("{0}")]
    To(FileFault),
    /// The coarser file is that of a window, which never changes.
    #[error("snapshot: HasWindow")]
    ToHasWindow,
    /// A log goes with the coarser file: that may have more batches.
    #[error("snapshot: NotClosed")]
    ToNotClosed,
    /// The file of this number, from 0, could not be opened or read, or is no snapshot, or the log beside it could not
    /// be read, or the two don't belong together. The fault is neither want of memory nor of the output.
    #[error("{1}")]
    File(u64, CheckFault),
    /// The file of this number is not taken in.
    #[error("snapshot: {1}")]
    Refused(u64, Refusal),
    /// There was no memory.
    #[error("memory")]
    Memory,
    /// The coarser file could not be saved. The fault is never want of memory.
    #[error(transparent)]
    Save(SaveFault),
    /// The line was not written whole. The coarser file is saved.
    #[error(transparent)]
    Output(WriteFault),
}

impl From<AllocError> for RollFault {
    ghost use Rattle.std.specs.Prelude.{◌≡◌};
    ghost use Rattle.snap_roll.specs.declared.roll_fault.RollFault.TheVariants.{Memory};

    ghost from_gives = { λ _ fault. fault ≡ Memory };

    fn from(_error: AllocError) -> RollFault {
        RollFault::Memory
    }
}

impl From<FileFault> for RollFault {
    ghost use Rattle.std.specs.Prelude.{◌≡◌};
    ghost use Rattle.snap_roll.specs.Rolls.{fault_of_to};

    ghost from_gives = { λ fault e. e ≡ fault_of_to fault };

    fn from(fault: FileFault) -> RollFault {
        match fault {
            FileFault::Memory => RollFault::Memory,
            fault => RollFault::To(fault),
        }
    }
}
