//! The file of a log that a start may refuse, as one who looks for its front sees it.
ghost use Rattle.std.specs.Prelude.{ℕ, Result, IfOk, ⊤, ◌+◌, ◌*◌, ◌<◌, ◌≤◌, ◌^◌};
ghost use Rattle.log_read.specs.declared.file.LogFile.{LogFile};
ghost use Rattle.snap_report.specs.Logged.{IsRead};
ghost use Rattle.snap_report.specs.declared.kept_log.LogFileFault.{LogFileFault};
ghost use Rattle.snap_salvage.specs.LeftPages.{IsCounted};
ghost use Rattle.snap_salvage.specs.declared.left.Left.{Left};

use crate::count::count_pages;
use crate::left::Left;
use byte_io::{Counted, Source};
use log_blocks::{LogFault, LogKind};
use log_page::PAGE;
use log_read::{LogFile, read_log};
use progress::{Watch, Watched};
use snap_report::{KeptLog, LogFileFault, NamedLog};
use sparse_log::bytes_to_read;
use std::alloc::Global;
use std::fs::{self, File, OpenFile};
use std::io::{self, Read, Seek, SeekFrom, Take};
use std::rt::Files;

/// The file of a log that is read in parts.
///
/// As of a `KeptLog`, one call is a relation between what is before it, its answer and what is after it.
pub trait TornLog: KeptLog {
    // What a reading of the first so many pages may answer, and what it leaves.
    ghost front_gives: { Self → ℕ → Result LogFile LogFileFault → Self → Type 0 };

    // What a count of the pages from this one on may answer, and what it leaves.
    ghost left_gives: { Self → ℕ → Result Left LogFileFault → Self → Type 0 };

    /// Reads the first so many pages of the file as a log, the head's page among them. Nothing is written.
    fn read_front(&mut self, alloc: Global, pages: u64) -> Result<LogFile, LogFileFault>
        requires { pages ≤ 2 ^ 28 }
        ensures answer { front_gives self.old pages result self.new }
        // What was read is a log of so many pages at most.
        ensures log { IfOk result (IsRead (4096 * pages)) };

    /// Counts the pages from this one on.
    fn count_left(&mut self, alloc: Global, from: u64) -> Result<Left, LogFileFault>
        requires { from ≤ 2 ^ 50 }
        ensures answer { left_gives self.old from result self.new }
        ensures left { IfOk result IsCounted };
}

/// The log's file under a path, and who watches the reading of it. Its lock isn't taken.
#[derive(Drop)]
pub struct NamedTornLog<'a, R: Files, W: Watch> {
    rt: &'a R,
    path: &'a str,
    watch: &'a mut W,
}

impl<'a, R: Files, W: Watch> NamedTornLog<'a, R, W> {
    /// The file under this path, which may be there or not.
    pub fn new(rt: &'a R, path: &'a str, watch: &'a mut W) -> NamedTornLog<'a, R, W> {
        NamedTornLog { rt, path, watch }
    }
}

// A fault of a log that no page has.
fn of_no_page(kind: LogKind) -> LogFileFault {
    LogFileFault::Log(LogFault { kind, page: 0 })
}

// Why a file wasn't opened.
fn opening_fault(kind: io::ErrorKind) -> LogFileFault {
    match kind {
        io::ErrorKind::NotFound => LogFileFault::NotFound,
        io::ErrorKind::OutOfMemory => of_no_page(LogKind::Memory),
        _ => LogFileFault::OpenFailed,
    }
}

// Opens a file to read it from a byte on, up to a hole at its end.
fn open_from<R: Files<File = File>>(rt: &R, path: &str, at: u64) -> io::Result<Take<File>> {
    let mut file = fs::open(rt, path)?;
    let length = file.metadata()?.len();
    let to_read = bytes_to_read(&file, length);
    file.seek(SeekFrom::Start(at))?;
    Ok(file.take(to_read.saturating_sub(at)))
}

// So, where the path leads to a file. Nothing else is opened: the opening of a FIFO would wait for a writer.
fn open_part<R: Files<File = File>>(
    rt: &R,
    path: &str,
    at: u64,
) -> Result<Take<File>, LogFileFault> {
    match fs::metadata(rt, path) {
        Ok(found) if found.is_file() => {}
        Ok(_) => return Err(LogFileFault::OpenFailed),
        Err(error) => return Err(opening_fault(error.kind())),
    }
    match open_from(rt, path, at) {
        Ok(file) => Ok(file),
        Err(error) => Err(opening_fault(error.kind())),
    }
}

// Reads a log from a source that ends after so many bytes.
fn read_part<S: Source + Drop, W: Watch>(
    alloc: Global,
    source: S,
    watch: &mut W,
    max_bytes: u64,
) -> Result<LogFile, LogFileFault>
    requires failures { S.failure_count source + 1 < 2 ^ 64 }
    requires limit { max_bytes < 2 ^ 50 }
    ensures { IfOk result (IsRead max_bytes) }
{
    let mut watched = Watched::new(source, watch);
    match read_log(alloc, &mut watched, max_bytes) {
        Ok(file) => Ok(file),
        Err(fault) => Err(LogFileFault::Log(fault)),
    }
}

// Counts the pages of a source.
fn count_part<S: Source + Drop, W: Watch>(
    alloc: Global,
    source: S,
    watch: &mut W,
) -> Result<Left, LogFileFault>
    requires failures { S.failure_count source + 1 < 2 ^ 64 }
    ensures { IfOk result IsCounted }
{
    let mut watched = Watched::new(source, watch);
    match count_pages(alloc, &mut watched) {
        Ok(left) => Ok(left),
        Err(kind) => Err(of_no_page(kind)),
    }
}

impl<'a, R: Files<File = File>, W: Watch> KeptLog for NamedTornLog<'a, R, W> {
    ghost read_gives = { λ s max_bytes answer t. ⊤ };

    fn read(&mut self, alloc: Global, max_bytes: u64) -> Result<LogFile, LogFileFault> {
        let mut log = NamedLog::new(self.rt, self.path, self.watch);
        log.read(alloc, max_bytes)
    }
}

impl<'a, R: Files<File = File>, W: Watch> TornLog for NamedTornLog<'a, R, W> {
    ghost front_gives = { λ s pages answer t. ⊤ };

    ghost left_gives = { λ s from answer t. ⊤ };

    fn read_front(&mut self, alloc: Global, pages: u64) -> Result<LogFile, LogFileFault> {
        let max_bytes = pages * PAGE as u64;
        let file = open_part(self.rt, self.path, 0)?.take(max_bytes);
        read_part(alloc, Counted::new(file), self.watch, max_bytes)
    }

    fn count_left(&mut self, alloc: Global, from: u64) -> Result<Left, LogFileFault> {
        let file = open_part(self.rt, self.path, from * PAGE as u64)?;
        count_part(alloc, Counted::new(file), self.watch)
    }
}
