//! The snapshots and the logs that a word is given by name.
ghost use Rattle.std.specs.Prelude.{◌≢◌, ◌<◌, ⊤, IfErr};
ghost use Rattle.snap_report.specs.Logged.{IsReadFault};
ghost use Rattle.snap_report.specs.declared.fault.CheckFault.{CheckFault};

use crate::report::Fault;
use crate::sum_files::Place;
use log_read::LogFile;
use progress::Watch;
use snap_export::{DifferenceFault, ExportFault, LogFiles, SnapshotFiles};
use snap_file::{FileFault, Snapshot, load_watched};
use snap_report::{CheckFault, KeptLog, LogFileFault, NamedLog};
use std::alloc::{AllocError, Global};
use std::fs::{self, File};
use std::os::unix::fs::MetadataExt;
use std::rt::Files;

/// The word that names no log.
const NO_LOG: &str = "-";

/// The files that a word reads: snapshots, and the logs beside them, none or one for each. Where there is a log and no
/// snapshot, that log alone.
#[derive(Clone, Copy, Debug)]
pub struct Inputs<'a> {
    pub names: &'a [&'a str],
    pub logs: &'a [&'a str],
}

/// What of a file shows that it was changed: its number, its length, and when it was changed last. None where there is
/// no file.
type Stamp = Option<(u64, u64, i64, i64)>;

impl<'a> Inputs<'a> {
    /// The snapshots of these names, and the logs beside them.
    pub fn new(names: &'a [&'a str], logs: &'a [&'a str]) -> Inputs<'a> {
        Inputs { names, logs }
    }

    /// Whether there is a log for each snapshot, or none at all.
    pub fn are_paired(&self) -> bool {
        match (self.names, self.logs) {
            ([], [log]) => *log != NO_LOG,
            (names, logs) => logs.is_empty() || logs.len() == names.len(),
        }
    }

    /// How many snapshots are loaded: a log alone counts as one.
    pub fn count(&self) -> u64
        ensures { 0 < result }
    {
        if self.names.is_empty() {
            return 1;
        }
        self.names.len() as u64
    }

    // The files as they are.
    fn stamps<R: Files>(&self, rt: &R, alloc: Global) -> Result<Vec<Stamp>, AllocError> {
        let mut stamps = Vec::new(alloc);
        for name in self.names {
            stamps.push(stamp_of(rt, *name))?;
        }
        for name in self.logs {
            stamps.push(stamp_of(rt, *name))?;
        }
        Ok(stamps)
    }
}

// A file as it is.
fn stamp_of<R: Files>(rt: &R, path: &str) -> Stamp {
    let found = fs::metadata(rt, path).ok()?;
    Some((found.ino(), found.len(), found.mtime(), found.mtime_nsec()))
}

/// The files of a word as they were before they were read.
#[derive(Drop)]
pub struct Before {
    stamps: Vec<Stamp>,
}

impl Before {
    /// The files as they are.
    pub fn note<R: Files>(rt: &R, alloc: Global, inputs: Inputs<'_>) -> Result<Before, AllocError> {
        let stamps = inputs.stamps(rt, alloc)?;
        Ok(Before { stamps })
    }

    /// Whether one of them was changed since.
    pub fn has_changed<R: Files>(
        &self,
        rt: &R,
        alloc: Global,
        inputs: Inputs<'_>,
    ) -> Result<bool, AllocError> {
        let stamps = inputs.stamps(rt, alloc)?;
        Ok(stamps != self.stamps)
    }
}

/// The snapshots in the files of these names, and who is told of what is read of them.
#[derive(Drop)]
pub struct NamedSnapshots<'a, R: Files, W: Watch> {
    rt: &'a R,
    inputs: Inputs<'a>,
    watch: &'a mut W,
    // How many were loaded, or tried.
    loaded: usize,
    // Those that go with a log, where none is given.
    lacking: Vec<&'a str>,
}

impl<'a, R: Files, W: Watch> NamedSnapshots<'a, R, W> {
    /// The snapshots in these files, of which none is loaded yet.
    pub fn new(
        rt: &'a R,
        alloc: Global,
        inputs: Inputs<'a>,
        watch: &'a mut W,
    ) -> NamedSnapshots<'a, R, W> {
        NamedSnapshots {
            rt,
            inputs,
            watch,
            loaded: 0,
            lacking: Vec::new(alloc),
        }
    }

    /// The names of those that were loaded and go with a log, where none is given.
    pub fn lacking(&self) -> &[&'a str] {
        self.lacking.as_slice()
    }
}

// Loads the snapshot under a path.
fn load_named<R: Files, W: Watch>(
    rt: &R,
    alloc: Global,
    name: &str,
    max_bytes: u64,
    watch: &mut W,
) -> Result<Snapshot, CheckFault>
    ensures { IfErr result (λ f. f ≢ CheckFault.Memory → IsReadFault f) }
{
    let snapshot = load_watched(rt, alloc, name, max_bytes, watch)?;
    Ok(snapshot)
}

impl<'a, R: Files, W: Watch> SnapshotFiles for NamedSnapshots<'a, R, W> {
    ghost load_gives = { λ s max_bytes answer t. ⊤ };

    fn load_next(&mut self, alloc: Global, max_bytes: u64) -> Result<Snapshot, CheckFault> {
        let Some(name) = self.inputs.names.get(self.loaded) else {
            return Err(CheckFault::File(FileFault::NotFound));
        };
        self.loaded += 1;
        let snapshot = load_named(self.rt, alloc, *name, max_bytes, self.watch)?;
        let lacks = snapshot.origin.has_log && self.inputs.logs.is_empty();
        if lacks && self.lacking.push(*name).is_err() {
            return Err(CheckFault::Memory);
        }
        Ok(snapshot)
    }
}

/// The logs in the files of these names, and who is told of what is read of them.
#[derive(Drop)]
pub struct NamedLogs<'a, R: Files, W: Watch> {
    rt: &'a R,
    names: &'a [&'a str],
    watch: &'a mut W,
    // How many were read, or tried.
    read: usize,
}

impl<'a, R: Files, W: Watch> NamedLogs<'a, R, W> {
    /// The logs in these files, of which none is read yet.
    pub fn new(rt: &'a R, names: &'a [&'a str], watch: &'a mut W) -> NamedLogs<'a, R, W> {
        NamedLogs {
            rt,
            names,
            watch,
            read: 0,
        }
    }
}

impl<'a, R: Files<File = File>, W: Watch> LogFiles for NamedLogs<'a, R, W> {
    ghost read_gives = { λ s max_bytes answer t. ⊤ };

    fn read_next(
        &mut self,
        alloc: Global,
        max_bytes: u64,
    ) -> Result<Option<LogFile>, LogFileFault> {
        let Some(name) = self.names.get(self.read) else {
            return Ok(None);
        };
        self.read += 1;
        if *name == NO_LOG {
            return Ok(None);
        }
        let mut log = NamedLog::new(self.rt, *name, self.watch);
        let found = log.read(alloc, max_bytes)?;
        Ok(Some(found))
    }
}

/// Whether a fault is of what was read, so that another reading may be without it where a file was changed meanwhile.
pub fn is_of_reading(fault: &Fault) -> bool {
    matches!(
        fault,
        Fault::Check(CheckFault::File(_) | CheckFault::Log(_) | CheckFault::Join(_))
            | Fault::Export(ExportFault::File(..))
            | Fault::Difference(DifferenceFault::New(_) | DifferenceFault::Old(_))
    )
}

/// The file that a fault is of, if these were read, and there are several snapshots.
pub fn place_of_input<'a>(fault: &Fault, inputs: &Inputs<'a>) -> Place<'a> {
    if inputs.names.len() < 2 {
        return Place::Nowhere;
    }
    let (at, is_log) = match fault {
        Fault::Export(ExportFault::File(at, fault)) => (*at, is_of_log(fault)),
        Fault::Export(ExportFault::DimensionsDiffer(at)) => (*at, false),
        Fault::Difference(DifferenceFault::New(fault)) => (0, is_of_log(fault)),
        Fault::Difference(DifferenceFault::Old(fault)) => (1, is_of_log(fault)),
        _ => return Place::Nowhere,
    };
    let names = if is_log { inputs.logs } else { inputs.names };
    match names.get(at as usize) {
        Some(name) => Place::In(*name),
        None => Place::Nowhere,
    }
}

/// Whether a fault is of the log beside a snapshot alone.
pub fn is_of_log(fault: &CheckFault) -> bool {
    matches!(fault, CheckFault::Log(_))
}
