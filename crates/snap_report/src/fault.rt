//! Why no line, and no text, is written of a snapshot, or why it isn't folded.

use crate::kept_log::LogFileFault;
use batch_store::{GrowthFault, Misfit};
use byte_io::WriteFault;
use log_blocks::{LogFault, LogKind};
use log_join::JoinFault;
use snap_file::{FileFault, SaveFault};
use std::alloc::AllocError;
use thiserror::Error;

/// Why the line of a snapshot, or the text of its sum, was not written.
#[derive(Clone, Copy, Debug, PartialEq, Eq, Error)]
pub enum CheckFault {
    /// The file could not be opened or read, or is no snapshot. The fault is never want of memory.
    #[error(transparent)]
    File(FileFault),
    /// There was no memory: for the batches, or for their sum.
    #[error("memory")]
    Memory,
    /// The sink failed, or took nothing of what it was offered.
    #[error(transparent)]
    Output(WriteFault),
    /// The log's file could not be opened or read, or is no log. The fault is never want of memory.
    #[error("log: {0}")]
    Log(LogFileFault),
    /// The log's setup has more rows or columns than the snapshot's.
    #[error("settings: LogDiffers")]
    LogDiffers,
    /// The snapshot and the log don't belong together. The fault is neither `SetupDiffers` nor want of memory.
    #[error("log: {0}")]
    Join(JoinFault),
}

impl From<FileFault> for CheckFault {
    ghost use Rattle.std.specs.Prelude.{◌≡◌};
    ghost use Rattle.snap_report.specs.Checks.{fault_of_file};

    ghost from_gives = { λ fault e. e ≡ fault_of_file fault };

    fn from(fault: FileFault) -> CheckFault {
        match fault {
            FileFault::Memory => CheckFault::Memory,
            fault => CheckFault::File(fault),
        }
    }
}

impl From<LogFileFault> for CheckFault {
    ghost use Rattle.std.specs.Prelude.{◌≡◌};
    ghost use Rattle.snap_report.specs.Checks.{fault_of_log};

    ghost from_gives = { λ fault e. e ≡ fault_of_log fault };

    fn from(fault: LogFileFault) -> CheckFault {
        match fault {
            LogFileFault::Log(
                LogFault {
                    kind: LogKind::Memory,
                    ..
                },
            ) => CheckFault::Memory,
            fault => CheckFault::Log(fault),
        }
    }
}

impl From<JoinFault> for CheckFault {
    ghost use Rattle.std.specs.Prelude.{◌≡◌};
    ghost use Rattle.snap_report.specs.Checks.{fault_of_join};

    ghost from_gives = { λ fault e. e ≡ fault_of_join fault };

    fn from(fault: JoinFault) -> CheckFault {
        match fault {
            JoinFault::Memory => CheckFault::Memory,
            JoinFault::SetupDiffers => CheckFault::LogDiffers,
            fault => CheckFault::Join(fault),
        }
    }
}

impl From<AllocError> for CheckFault {
    ghost use Rattle.std.specs.Prelude.{◌≡◌};
    ghost use Rattle.snap_report.specs.declared.fault.CheckFault.TheVariants.{Memory};

    ghost from_gives = { λ _ fault. fault ≡ Memory };

    fn from(_error: AllocError) -> CheckFault {
        CheckFault::Memory
    }
}

/// Why a snapshot was not folded, or that not told.
#[derive(Clone, Copy, Debug, PartialEq, Eq, Error)]
pub enum FoldFault {
    /// The file could not be opened or read, or is no snapshot, or another may save there. The fault is never want of
    /// memory.
    #[error(transparent)]
    File(FileFault),
    /// There was no memory: for the batches, for their sum, or for the name of the lock or of the new file.
    #[error("memory")]
    Memory,
    /// A number that was given is too small for what the file has.
    #[error("settings: SnapshotDiffers ({0})")]
    TooSmall(Misfit),
    /// Other numbers than the file's were given without the log that goes with it: that may have more batches.
    #[error("settings: NeedsLog (PATH: a log goes with it)")]
    NeedsLog,
    /// The file could not be saved, as `SaveFault` says, or its lock not be had (`Create`). The fault is never want of
    /// memory.
    #[error(transparent)]
    Save(SaveFault),
    /// The sink failed, or took nothing of what it was offered. The file is saved.
    #[error(transparent)]
    Output(WriteFault),
}

impl From<FileFault> for FoldFault {
    ghost use Rattle.std.specs.Prelude.{◌≡◌};
    ghost use Rattle.snap_report.specs.Folds.{fold_fault_of_file};

    ghost from_gives = { λ fault e. e ≡ fold_fault_of_file fault };

    fn from(fault: FileFault) -> FoldFault {
        match fault {
            FileFault::Memory => FoldFault::Memory,
            fault => FoldFault::File(fault),
        }
    }
}

impl From<SaveFault> for FoldFault {
    ghost use Rattle.std.specs.Prelude.{◌≡◌};
    ghost use Rattle.snap_report.specs.Folds.{fold_fault_of_save};

    ghost from_gives = { λ fault e. e ≡ fold_fault_of_save fault };

    fn from(fault: SaveFault) -> FoldFault {
        match fault {
            SaveFault::Memory => FoldFault::Memory,
            fault => FoldFault::Save(fault),
        }
    }
}

impl From<GrowthFault> for FoldFault {
    ghost use Rattle.std.specs.Prelude.{◌≡◌};
    ghost use Rattle.snap_report.specs.Folds.{fold_fault_of_growth};

    ghost from_gives = { λ fault e. e ≡ fold_fault_of_growth fault };

    fn from(fault: GrowthFault) -> FoldFault {
        match fault {
            GrowthFault::TooSmall(misfit) => FoldFault::TooSmall(misfit),
            GrowthFault::Memory => FoldFault::Memory,
        }
    }
}

impl From<AllocError> for FoldFault {
    ghost use Rattle.std.specs.Prelude.{◌≡◌};
    ghost use Rattle.snap_report.specs.declared.fault.FoldFault.TheVariants.{Memory};

    ghost from_gives = { λ _ fault. fault ≡ Memory };

    fn from(_error: AllocError) -> FoldFault {
        FoldFault::Memory
    }
}
