//! Snapshots and the logs beside them. Each pair is loaded as one snapshot, so that what is asked of snapshots is asked
//! of snapshots and logs too.
ghost use Rattle.std.specs.Prelude.{◌≡◌, ◌≢◌, ℕ, ◌<◌, ◌^◌, Result, Option, Err, IfOk, IfErr, IfSome};
ghost use Rattle.log_read.specs.declared.file.LogFile.{LogFile};
ghost use Rattle.snap_report.specs.Logged.{IsRead, IsReadFault};
ghost use Rattle.snap_report.specs.declared.kept_log.LogFileFault.{LogFileFault};
ghost use Rattle.snap_report.specs.declared.fault.CheckFault.{CheckFault};
ghost use Rattle.snap_export.specs.Pairs.{Finds, Gives, alone, no_file};

use crate::several::SnapshotFiles;
use log_read::LogFile;
use snap_file::{FileFault, Snapshot};
use snap_report::{CheckFault, LOG_BYTES, LogFileFault, join_beside};
use std::alloc::Global;

/// The logs beside snapshots, one after the other, in the order of the snapshots.
///
/// As of `KeptLog`, a reading is a relation between what is before it, its answer and what is after it.
pub trait LogFiles {
    // What a reading of at most so many bytes may answer, and what it leaves.
    ghost read_gives: { Self → ℕ → Result (Option LogFile) LogFileFault → Self → Type 0 };

    /// Reads the log beside the next snapshot, of at most `max_bytes` bytes, as `KeptLog` does. None where no log is
    /// given for it.
    fn read_next(&mut self, alloc: Global, max_bytes: u64) -> Result<Option<LogFile>, LogFileFault>
        requires { max_bytes < 2 ^ 50 }
        ensures answer { read_gives self.old max_bytes result self.new }
        // What was read is a log.
        ensures log { IfOk result (λ log. IfSome log (IsRead max_bytes)) };
}

// Loads the next snapshot, if its file is there.
fn load_if_any<F: SnapshotFiles>(
    alloc: Global,
    files: &mut F,
    max_bytes: u64,
) -> Result<Option<Snapshot>, CheckFault>
    ensures ok { IfOk result (Finds F.load_gives files.old files.new max_bytes) }
    ensures err { IfErr result (λ fault. (fault ≢ no_file) × F.load_gives files.old max_bytes (Err fault) files.new) }
    ensures read { IfErr result (λ fault. fault ≢ CheckFault.Memory → IsReadFault fault) }
{
    match files.load_next(alloc, max_bytes) {
        Ok(snapshot) => Ok(Some(snapshot)),
        Err(CheckFault::File(FileFault::NotFound)) => Ok(None),
        Err(fault) => Err(fault),
    }
}

// A snapshot without a log.
fn alone(found: Option<Snapshot>) -> Result<Snapshot, CheckFault>
    ensures { result ≡ alone found }
{
    found.ok_or(CheckFault::File(FileFault::NotFound))
}

// Loads the next snapshot and the log beside it, and gives what both have together.
fn load_pair<F: SnapshotFiles, L: LogFiles>(
    alloc: Global,
    files: &mut F,
    logs: &mut L,
    max_bytes: u64,
) -> Result<Snapshot, CheckFault>
    ensures answer { Gives F.load_gives L.read_gives files.old files.new logs.old logs.new max_bytes result }
    ensures read { IfErr result (λ fault. fault ≢ CheckFault.Memory → IsReadFault fault) }
{
    let found = load_if_any(alloc, files, max_bytes)?;
    match logs.read_next(alloc, LOG_BYTES)? {
        Some(log) => join_beside(alloc, found, &log),
        None => alone(found),
    }
}

/// Files of snapshots and the logs beside them, lent to one who loads from both. A load gives what a snapshot and its
/// log have together, as a start joins them (`join_beside`). Where no log is given for a snapshot that is the snapshot
/// as it is; where there is no file of the snapshot, what the log has.
#[derive(Drop)]
pub struct BesideLogs<'a, F: SnapshotFiles, L: LogFiles> {
    files: &'a mut F,
    logs: &'a mut L,
}

impl<'a, F: SnapshotFiles, L: LogFiles> BesideLogs<'a, F, L> {
    /// These files of snapshots, and the logs beside them.
    pub fn new(files: &'a mut F, logs: &'a mut L) -> BesideLogs<'a, F, L>
        ensures files { result.files.now ≡ files.old }
        ensures same_files { result.files.ghost_name ≡ files.entry.ghost_name }
        ensures logs { result.logs.now ≡ logs.old }
        ensures same_logs { result.logs.ghost_name ≡ logs.entry.ghost_name }
    {
        BesideLogs { files, logs }
    }
}

impl<'a, F: SnapshotFiles, L: LogFiles> SnapshotFiles for BesideLogs<'a, F, L> {
    ghost load_gives = { λ s max_bytes answer t. (t.files.ghost_name ≡ s.files.ghost_name)
        × (t.logs.ghost_name ≡ s.logs.ghost_name)
        × Gives F.load_gives L.read_gives s.files.now t.files.now s.logs.now t.logs.now max_bytes answer };

    fn load_next(&mut self, alloc: Global, max_bytes: u64) -> Result<Snapshot, CheckFault> {
        load_pair(alloc, self.files, self.logs, max_bytes)
    }
}
