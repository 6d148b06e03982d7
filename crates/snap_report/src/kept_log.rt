//! A file in which a log is kept, as one who reads it sees it.
ghost use Rattle.std.specs.Prelude.{◌≡◌, ℕ, Result, IfOk, ⊤, ◌+◌, ◌<◌, ◌≤◌, ◌^◌};
ghost use Rattle.log_read.specs.declared.file.LogFile.{LogFile};
ghost use Rattle.snap_report.specs.Logged.{IsRead};
ghost use Rattle.snap_report.specs.declared.kept_log.LogFileFault.{LogFileFault};

use byte_io::{Counted, Source};
use log_blocks::{LogFault, LogKind};
use log_read::{LogFile, read_log};
use progress::{Watch, Watched};
use sparse_log::bytes_to_read;
use std::alloc::Global;
use std::fs::{self, File, OpenFile};
use std::io::{self, Read, Seek, SeekFrom, Take};
use std::rt::Files;
use thiserror::Error;

/// Why the file of a log was not read.
#[derive(Clone, Copy, Debug, PartialEq, Eq, Error)]
pub enum LogFileFault {
    /// There is no such file.
    #[error("NotFound")]
    NotFound,
    /// It could not be opened, or is no file.
    #[error("OpenFailed")]
    OpenFailed,
    /// It is no log, a read of it failed, or memory was refused.
    #[error("{} at page {}", .0.kind, .0.page)]
    Log(LogFault),
}

/// A file in which a log is kept.
///
/// A reading is a relation between what stands before it, its answer and what stands after it. Of a real file no clause
/// can speak, so there it is any; but since callers are proved for every such file, what they tell of one is what it
/// has answered.
pub trait KeptLog {
    // What a reading of at most so many bytes may answer, and what it leaves.
    ghost read_gives: { Self → ℕ → Result LogFile LogFileFault → Self → Type 0 };

    /// Reads the log, of at most `max_bytes` bytes, as `read_log` does. Nothing is written.
    fn read(&mut self, alloc: Global, max_bytes: u64) -> Result<LogFile, LogFileFault>
        requires { max_bytes < 2 ^ 50 }
        ensures answer { read_gives self.old max_bytes result self.new }
        // What was read is a log.
        ensures log { IfOk result (IsRead max_bytes) };
}

/// The log's file under a path, and who is told of what is read of it. Its lock isn't taken.
#[derive(Drop)]
pub struct NamedLog<'a, R: Files, W: Watch> {
    rt: &'a R,
    path: &'a str,
    watch: &'a mut W,
}

impl<'a, R: Files, W: Watch> NamedLog<'a, R, W> {
    /// The file under this path, which may be there or not.
    pub fn new(rt: &'a R, path: &'a str, watch: &'a mut W) -> NamedLog<'a, R, W> {
        NamedLog { rt, path, watch }
    }
}

// Why a file wasn't opened.
fn opening_fault(kind: io::ErrorKind) -> LogFileFault {
    match kind {
        io::ErrorKind::NotFound => LogFileFault::NotFound,
        io::ErrorKind::OutOfMemory => LogFileFault::Log(LogFault {
            kind: LogKind::Memory,
            page: 0,
        }),
        _ => LogFileFault::OpenFailed,
    }
}

// Opens a file to read it. Nothing but a file is opened: the opening of a FIFO would wait for a writer.
fn open_whole<R: Files<File = File>>(rt: &R, path: &str) -> Result<File, LogFileFault> {
    match fs::metadata(rt, path) {
        Ok(found) if found.is_file() => {}
        Ok(_) => return Err(LogFileFault::OpenFailed),
        Err(error) => return Err(opening_fault(error.kind())),
    }
    match fs::open(rt, path) {
        Ok(file) => Ok(file),
        Err(error) => Err(opening_fault(error.kind())),
    }
}

// How many bytes of a file are to be read: all up to a hole at its end, and where it has none without a limit. The file is
// read from its first byte on then.
fn limit_of(file: &mut File) -> io::Result<u64> {
    let length = file.metadata()?.len();
    let to_read = bytes_to_read(file, length);
    file.seek(SeekFrom::Start(0))?;
    Ok(if to_read < length { to_read } else { u64::MAX })
}

// Opens a file to read it up to a hole at its end.
fn open_file<R: Files<File = File>>(rt: &R, path: &str) -> Result<Take<File>, LogFileFault> {
    let mut file = open_whole(rt, path)?;
    match limit_of(&mut file) {
        Ok(limit) => Ok(file.take(limit)),
        Err(error) => Err(opening_fault(error.kind())),
    }
}

// Reads a log from a source.
fn read_source<S: Source>(
    alloc: Global,
    source: &mut S,
    max_bytes: u64,
) -> Result<LogFile, LogFileFault>
    requires failures { S.failure_count source.old + 1 < 2 ^ 64 }
    requires limit { max_bytes < 2 ^ 50 }
    ensures { IfOk result (IsRead max_bytes) }
{
    match read_log(alloc, source, max_bytes) {
        Ok(file) => Ok(file),
        Err(fault) => Err(LogFileFault::Log(fault)),
    }
}

// Reads a log from a file, of which each read is watched.
fn read_watched<S: Source + Drop, W: Watch>(
    alloc: Global,
    file: S,
    watch: &mut W,
    max_bytes: u64,
) -> Result<LogFile, LogFileFault>
    requires failures { S.failure_count file + 1 < 2 ^ 64 }
    requires limit { max_bytes < 2 ^ 50 }
    ensures { IfOk result (IsRead max_bytes) }
{
    let mut source = Watched::new(file, watch);
    read_source(alloc, &mut source, max_bytes)
}

impl<'a, R: Files<File = File>, W: Watch> KeptLog for NamedLog<'a, R, W> {
    ghost read_gives = { λ s max_bytes answer t. ⊤ };

    fn read(&mut self, alloc: Global, max_bytes: u64) -> Result<LogFile, LogFileFault> {
        let file = open_file(self.rt, self.path)?;
        read_watched(alloc, Counted::new(file), self.watch, max_bytes)
    }
}
