//! Why a save or a log failed, as events tell it.

use event_log::{FailedCall, Unsaved};
use log_folder::FileCall;
use session_pool::{FailedSave, LastFailure, SavedFile};
use snap_file::SaveFault;
use std::sync::Wait;

// The step that failed, as a fault at the end names it.
fn step_of(fault: SaveFault) -> &'static str {
    match fault {
        SaveFault::Memory => "Memory",
        SaveFault::Create => "Create",
        SaveFault::Write(_) => "Write",
        SaveFault::Sync => "Sync",
        SaveFault::Rename => "Rename",
    }
}

// The file of a save.
fn name_of(file: SavedFile) -> &'static str {
    match file {
        SavedFile::Snapshot => "snapshot",
        SavedFile::Log => "log",
    }
}

// A call on a log, as events tell it.
fn told_call(failed: log_folder::FailedCall) -> FailedCall {
    FailedCall {
        call: failed.call.name(),
        error: failed.error,
    }
}

/// The call by which the log has failed, where it is known.
pub fn broken_by(failure: &LastFailure) -> Option<FailedCall> {
    Some(told_call(failure.news().broken_by()?))
}

/// The call that has failed to make room in the log, where it is known.
pub fn full_by(failure: &LastFailure) -> Option<FailedCall> {
    let failed = failure.news().failure()?;
    if failed.call != FileCall::MakeRoom {
        return None;
    }
    Some(told_call(failed))
}

/// Why the save that failed last did, if one has.
pub fn last_unsaved<R: Wait>(rt: &R, failure: &LastFailure) -> Option<Unsaved> {
    let FailedSave { file, fault, error } = failure.last(rt)?;
    let step = match (file, failure.news().failure()) {
        (SavedFile::Log, Some(failed)) if failed.call == FileCall::OtherBook => failed.call.name(),
        _ => step_of(fault),
    };
    Some(Unsaved {
        file: name_of(file),
        step,
        error,
    })
}
