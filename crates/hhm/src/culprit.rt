//! What a fault is of, as it stands in brackets after the fault.

use crate::bad_words::{bad_number, bad_setup, word_given};
use crate::holder::holder_of;
use crate::report::Fault;
use ask_server::AskFault;
use clap::ArgMatches;
use event_log::SystemWords;
use log_start::StartFault;
use mm_sum::{SumFault, TextsFault};
use snap_export::{DifferenceFault, ExportFault};
use snap_file::{FileFault, SaveFault};
use snap_report::{CheckFault, FoldFault, LogFileFault, MakeFault};
use snap_roll::RollFault;
use socket_server::ServerFault;
use std::alloc::{Alloc, Global};
use std::fmt::{self, Display, Formatter, Write};
use std::fs::{self, File};
use std::rt::Files;

/// What a fault is of, as it stands in brackets after it.
#[derive(Clone, Copy)]
pub enum Culprit<'a> {
    /// Nothing that the line doesn't name.
    Nothing,
    /// A file or an address.
    Named(&'a str),
    /// A word of the command line, and what it is given for.
    Word { name: &'static str, word: &'a str },
    /// Two names of one file.
    Both(&'a str, &'a str),
    /// A file that another process uses, if it is known which.
    InUse { path: &'a str, process: Option<u64> },
    /// A file that the system doesn't open, and the number of its error.
    Refused { path: &'a str, error: i32 },
}

impl Display for Culprit<'_> {
    fn fmt<W: Write>(&self, f: &mut Formatter<W>) -> fmt::Result {
        match self {
            Culprit::Nothing => Ok(()),
            Culprit::Named(name) => write!(f, " ({name})"),
            Culprit::Word { name, word } => write!(f, " ({name} {word})"),
            Culprit::Both(one, other) => write!(f, " ({one} and {other})"),
            Culprit::InUse {
                path,
                process: Some(process),
            } => write!(f, " ({path} is in use by process {process})"),
            Culprit::InUse {
                path,
                process: None,
            } => write!(f, " ({path} is in use)"),
            Culprit::Refused { path, error } => write!(f, " ({path}: {})", SystemWords(*error)),
        }
    }
}

// A file, where one is named.
fn named(path: Option<&str>) -> Culprit<'_> {
    match path {
        Some(path) => Culprit::Named(path),
        None => Culprit::Nothing,
    }
}

// A file that is in use, where one is named.
fn in_use<'a, R: Files + Alloc>(rt: &R, path: Option<&'a str>) -> Culprit<'a> {
    match path {
        Some(path) => Culprit::InUse {
            path,
            process: holder_of(rt, path),
        },
        None => Culprit::Nothing,
    }
}

// What the system says of a file that it doesn't open, if it says so again. A pipe isn't opened: that could wait.
fn opening_error<R: Files<File = File>>(rt: &R, name: &str) -> Option<i32> {
    match fs::metadata(rt, name) {
        Ok(found) if found.is_file() => fs::open(rt, name).err()?.raw_os_error(),
        Ok(_) => None,
        Err(error) => error.raw_os_error(),
    }
}

// A file that wasn't opened, with what the system says of it.
fn unopened<'a, R: Files<File = File>>(rt: &R, path: Option<&'a str>) -> Culprit<'a> {
    let Some(name) = path else {
        return Culprit::Nothing;
    };
    match opening_error(rt, name) {
        Some(error) => Culprit::Refused { path: name, error },
        None => Culprit::Named(name),
    }
}

// What a fault of a snapshot's file is of.
fn of_file<'a, R: Files<File = File> + Alloc<A = Global>>(
    rt: &R,
    fault: FileFault,
    path: Option<&'a str>,
) -> Culprit<'a> {
    match fault {
        FileFault::Memory => Culprit::Nothing,
        FileFault::Busy => in_use(rt, path),
        FileFault::OpenFailed => unopened(rt, path),
        FileFault::NotFound | FileFault::Snap(_) => named(path),
    }
}

// What a fault of a save is of.
fn of_save(fault: SaveFault, path: Option<&str>) -> Culprit<'_> {
    match fault {
        SaveFault::Memory => Culprit::Nothing,
        _ => named(path),
    }
}

// What a fault of a reading of a snapshot and the log beside it is of.
fn of_check<'a, R: Files<File = File> + Alloc<A = Global>>(
    rt: &R,
    fault: CheckFault,
    path: Option<&'a str>,
    log: Option<&'a str>,
) -> Culprit<'a> {
    match fault {
        CheckFault::File(fault) => of_file(rt, fault, path),
        CheckFault::Log(LogFileFault::OpenFailed) => unopened(rt, log),
        CheckFault::Log(_) | CheckFault::LogDiffers | CheckFault::Join(_) => named(log),
        CheckFault::Memory | CheckFault::Output(_) => Culprit::Nothing,
    }
}

// What a fault of a file that is made is of: `made` is that file.
fn of_make<'a, R: Files<File = File> + Alloc<A = Global>>(
    rt: &R,
    fault: MakeFault,
    given: &ArgMatches<'a>,
    made: Option<&'a str>,
) -> Culprit<'a> {
    let path = given.get_str("path");
    match fault {
        MakeFault::Read(fault) => of_check(rt, fault, path, given.get_str("log")),
        MakeFault::HasWindow => named(path),
        MakeFault::Save(fault) => of_save(fault, made),
        _ => Culprit::Nothing,
    }
}

// What a fault of a fold in place is of.
fn of_fold<'a, R: Files<File = File> + Alloc<A = Global>>(
    rt: &R,
    fault: FoldFault,
    path: Option<&'a str>,
) -> Culprit<'a> {
    match fault {
        FoldFault::File(fault) => of_file(rt, fault, path),
        FoldFault::Save(fault) => of_save(fault, path),
        _ => Culprit::Nothing,
    }
}

// What a fault of one snapshot that is asked is of, or of the folder where a compact matrix is saved.
fn of_export<'a, R: Files<File = File> + Alloc<A = Global>>(
    rt: &R,
    fault: ExportFault,
    given: &ArgMatches<'a>,
) -> Culprit<'a> {
    match fault {
        ExportFault::File(_, fault) => {
            of_check(rt, fault, given.get_str("path"), given.get_str("log"))
        }
        ExportFault::Save(fault) => of_save(fault, given.get_str("compact")),
        _ => Culprit::Nothing,
    }
}

// What a fault of a roll is of where no file of it is named.
fn of_roll<'a, R: Files<File = File> + Alloc<A = Global>>(
    rt: &R,
    fault: RollFault,
    given: &ArgMatches<'a>,
) -> Culprit<'a> {
    let to = given.get_str("to");
    match fault {
        RollFault::To(FileFault::Busy) => in_use(rt, to),
        RollFault::Save(fault) => of_save(fault, to),
        _ => Culprit::Nothing,
    }
}

// The file that is made, or is written anew.
fn made_file<'a>(given: &ArgMatches<'a>) -> Option<&'a str> {
    given
        .get_str("out")
        .or(given.get_str("to"))
        .or(given.get_str("path"))
}

/// What a fault is of, of this word of the program and what was read behind it.
pub fn culprit_of<'a, R: Files<File = File> + Alloc<A = Global>>(
    rt: &R,
    fault: &Fault,
    word: &str,
    given: &ArgMatches<'a>,
) -> Culprit<'a> {
    let path = given.get_str("path");
    match *fault {
        Fault::BadNumber => bad_number(rt.alloc(), word, given),
        Fault::Setup(fault) => bad_setup(given, fault),
        Fault::SamePath if word == "roll" => named(given.get_str("to")),
        Fault::SamePath => of_both(given),
        Fault::LogBusy => in_use(rt, given.get_str("log")),
        Fault::Sum(SumFault::BadCuts) | Fault::Texts(TextsFault::BadCuts) => {
            word_given(given, "cuts", "--cuts")
        }
        Fault::Check(fault) => of_check(rt, fault, path, given.get_str("log")),
        Fault::Fold(fault) => of_fold(rt, fault, path),
        Fault::Make(fault) => of_make(rt, fault, given, made_file(given)),
        Fault::Export(fault) => of_export(rt, fault, given),
        Fault::Difference(DifferenceFault::Save(fault)) => {
            of_save(fault, given.get_str("compact"))
        }
        Fault::Roll(fault) => of_roll(rt, fault, given),
        Fault::NotReached | Fault::Ask(AskFault::NoAnswer | AskFault::BadReply) => {
            named(given.get_str("address"))
        }
        _ => Culprit::Nothing,
    }
}

// The paths of a server's snapshot and log.
fn of_both<'a>(given: &ArgMatches<'a>) -> Culprit<'a> {
    match (given.get_str("snapshot"), given.get_str("log")) {
        (Some(snapshot), Some(log)) => Culprit::Both(snapshot, log),
        _ => Culprit::Nothing,
    }
}

// What a fault of a server's log is of.
fn of_log<'a, R: Files + Alloc>(rt: &R, fault: &StartFault, log: Option<&'a str>) -> Culprit<'a> {
    match fault {
        StartFault::Memory => Culprit::Nothing,
        StartFault::Busy => in_use(rt, log),
        _ => named(log),
    }
}

/// What a server's fault is of, which was run by these words.
pub fn culprit_of_server<'a, R: Files<File = File> + Alloc<A = Global>>(
    rt: &R,
    fault: &ServerFault,
    given: &ArgMatches<'a>,
) -> Culprit<'a> {
    let (snapshot, log) = (given.get_str("snapshot"), given.get_str("log"));
    match fault {
        ServerFault::BadWorkers => word_given(given, "workers", "--workers"),
        ServerFault::BadCompactors => word_given(given, "compactors", "--compactors"),
        ServerFault::NoAddress => Culprit::Named("neither --tcp nor --unix is given"),
        ServerFault::SamePath => of_both(given),
        ServerFault::File(fault) => of_file(rt, *fault, snapshot),
        ServerFault::Log(fault) => of_log(rt, fault, log),
        ServerFault::Save(fault) => of_save(*fault, snapshot),
        ServerFault::LastLog(_) => named(log),
        _ => Culprit::Nothing,
    }
}
