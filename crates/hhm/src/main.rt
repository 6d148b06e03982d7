//! `hhm`: sums counted cells (row, column, count) into hypersparse matrices, exactly.
//!
//! The program reads the words of its command line, runs what they ask for over standard input and output, and says a
//! fault in one line on standard error: `mm_sum` writes sums, `snap_report` tells of snapshots, `snap_query` and
//! `snap_roll` ask them, `socket_server` serves.
#![tactic(auto)]

ghost use Rattle.std.specs.Prelude.{IfOk};
ghost use Rattle.hhm.specs.Asked.{IsAsked};

mod asking;
mod asking_cli;
mod bad_words;
mod cli;
mod culprit;
mod export_cli;
mod given;
mod holder;
mod inputs;
mod limits;
mod log_report;
mod memory;
mod numbers;
mod path_host;
mod query;
mod query_cli;
mod reading;
mod report;
mod roll_cli;
mod roll_word;
mod serve;
mod serve_cli;
mod streams;
mod sum_files;
mod told;

use crate::asking::ask_word;
use crate::culprit::{Culprit, culprit_of, culprit_of_server};
use crate::given::numbers_of;
use crate::memory::keep_freed_memory;
use crate::numbers::read_list;
use crate::path_host::PathHost;
use crate::query::number_of;
use crate::reading::run_word;
use crate::report::Fault;
use crate::roll_word::{file_of_roll, roll_words};
use crate::serve::{ServeOrder, order_of, status_of};
use crate::streams::ClosedStreams;
use crate::sum_files::{NamedTexts, has_input, is_input_alone, place_of};
use crate::told::{ServerEnd, run_apart};
use batch_store::GivenNumbers;
use byte_io::{Counted, write_all};
use clap::error::ErrorKind;
use clap::{ArgMatches, Error};
use event_log::ErrorLines;
use mm_sum::{run_sum, run_sum_of};
use progress::{Entries, ProgressLine, Watched};
use snap_file::{FileFault, Identity, LockedFile, NamedFile, PathLock, lock, lock_existing};
use snap_report::{
    CheckFault, MakeFault, NamedLog, NewFile, NewSnapshot, ReplacedFile, run_fold, run_fold_to,
    run_fold_with_log, run_fork, run_fork_with_log,
};
use snap_roll::run_has;
use snap_salvage::{NamedTornLog, NoSnapshot, run_salvage};
use socket_server::{ServerFault, is_reserved};
use std::alloc::AllocError;
use std::io::IsTerminal;
use std::process::ExitCode;
use std::{env, io};

/// A line on a terminal, where there is one.
type Shown<'a> = Option<ProgressLine<'a, HostRuntime>>;

/// What a command line has come to.
#[derive(Drop)]
enum Outcome {
    /// All of it was done.
    Ended(ExitCode),
    /// A server is to be run, and where events are asked for, they are told.
    Serve(ServeOrder),
}

fn main(rt: HostRuntime) -> ExitCode {
    let _streams = ClosedStreams::take(&rt);
    match run(&rt) {
        Ok(Outcome::Ended(code)) => code,
        Ok(Outcome::Serve(order)) => {
            match run_apart(rt, rt.alloc(), order, Counted::new(rt.stdout())) {
                ServerEnd::Ended(Ok(_)) => ExitCode::SUCCESS,
                ServerEnd::Ended(Err(fault)) => tell_server_fault(&rt, fault),
                ServerEnd::Hangs { durable } => tell_hang(&rt, durable),
            }
        }
        Err(fault) => {
            tell_fault(&rt, &fault);
            fault.exit_code()
        }
    }
}

/// The command line, as `clap` reads it; None where that can't be read again.
fn words_again(rt: &HostRuntime) -> Option<Vec<String>> {
    env::args(rt).ok()?.collect(rt.alloc()).ok()
}

/// Says a fault in one line on standard error, and what of the command line it is of.
fn tell_fault(rt: &HostRuntime, fault: &Fault) {
    let words = words_again(rt);
    let matches = matches_of(rt, &words);
    let culprit = match matches.as_ref().and_then(|matches| matches.subcommand()) {
        Some((word, given)) => culprit_of(rt, fault, word, given),
        None => Culprit::Nothing,
    };
    let _ = eprintln!(rt; "hhm: {fault}{culprit}");
}

/// Says a server's fault in one line on standard error, and what it is of, unless that takes nothing for a second.
fn tell_server_fault(rt: &HostRuntime, fault: ServerFault) -> ExitCode {
    let words = words_again(rt);
    let matches = matches_of(rt, &words);
    let culprit = match matches.as_ref().and_then(|matches| matches.subcommand()) {
        Some((_, given)) => culprit_of_server(rt, &fault, given),
        None => Culprit::Nothing,
    };
    ErrorLines::new(rt).say(format_args!("hhm: {fault}{culprit}"));
    ExitCode::from(status_of(&fault))
}

/// What `clap` makes of the words of a command line.
fn matches_of<'a>(rt: &HostRuntime, words: &'a Option<Vec<String>>) -> Option<ArgMatches<'a>> {
    let words = words.as_ref()?;
    let command = cli::command(rt.alloc()).ok()?;
    command.try_get_matches_from(words.as_slice()).ok()
}

/// Says that a sync of a server's log hangs, in which so many batches are durable.
fn tell_hang(rt: &HostRuntime, durable: u64) -> ExitCode {
    ErrorLines::new(rt).say(format_args!("hhm: log: Hangs ({durable} batches are durable)"));
    ExitCode::from(4)
}

/// Reads the command line, and does what it asks for, but for a server.
fn run(rt: &HostRuntime) -> Result<Outcome, Fault> {
    let alloc = rt.alloc();
    let args = match env::args(rt) {
        Ok(args) => args,
        Err(error) if error.kind() == io::ErrorKind::OutOfMemory => {
            return Err(Fault::from(AllocError));
        }
        Err(_) => {
            let _ = eprintln!(rt; "error: the command line is not UTF-8");
            return Ok(Outcome::Ended(ExitCode::from(2)));
        }
    };
    let words: Vec<String> = args.collect(alloc)?;
    let command = cli::command(alloc)?;
    match command.try_get_matches_from(words.as_slice()) {
        Ok(matches) => run_matches(rt, &matches),
        Err(error) => Ok(Outcome::Ended(tell(rt, &error)?)),
    }
}

/// Does what a command line that was read asks for, but for a server.
fn run_matches(rt: &HostRuntime, matches: &ArgMatches) -> Result<Outcome, Fault>
    ensures { IfOk result (IsAsked ⟦<HostRuntime as PathHost>⟧.leads rt.now matches.now) }
{
    match matches.subcommand() {
        Some(("serve", given)) => Ok(Outcome::Serve(order_of(rt, rt.alloc(), given)?)),
        Some(("sum", given)) => Ok(Outcome::Ended(run_sum_word(rt, given))),
        Some(("fold", given)) => {
            run_fold_word(rt, given)?;
            Ok(Outcome::Ended(ExitCode::SUCCESS))
        }
        Some(("fork", given)) => {
            run_fork_word(rt, given)?;
            Ok(Outcome::Ended(ExitCode::SUCCESS))
        }
        Some(("salvage", given)) => {
            run_salvage_word(rt, given)?;
            Ok(Outcome::Ended(ExitCode::SUCCESS))
        }
        Some(("has", given)) => Ok(Outcome::Ended(run_has_word(rt, given)?)),
        Some(("roll", given)) => Ok(Outcome::Ended(run_roll_word(rt, given))),
        Some((word @ ("status" | "end"), given)) => {
            ask_word(rt, word, given)?;
            Ok(Outcome::Ended(ExitCode::SUCCESS))
        }
        Some((word, given)) => Ok(Outcome::Ended(run_word(rt, word, given))),
        None => Ok(Outcome::Ended(ExitCode::SUCCESS)),
    }
}

/// Says whether the snapshot under a path has the batch of a client with a number: with status 1 where it hasn't.
fn run_has_word(rt: &HostRuntime, given: &ArgMatches) -> Result<ExitCode, Fault> {
    let client = number_of(given, "client")?;
    let number = number_of(given, "number")?;
    let path = given.get_str("path").unwrap_or("");
    let mut out = Counted::new(rt.stdout());
    let mut line = progress_line(rt, rt.stderr().is_terminal(), Entries::Cells);
    let mut file = NamedFile::new(rt, path, &mut line);
    let outcome = run_has(rt.alloc(), &mut file, &mut out, client, number);
    clear(&mut line);
    match outcome? {
        Some(_) => Ok(ExitCode::SUCCESS),
        None => Ok(ExitCode::from(1)),
    }
}

/// Takes the windows that are named into a coarser file, and says a fault in one line on standard error, with the file
/// that it is of. How far the reading of the windows has come is said on a terminal.
fn run_roll_word(rt: &HostRuntime, given: &ArgMatches) -> ExitCode {
    let to = given.get_str("to").unwrap_or("");
    let words = given.get_strs("file").unwrap_or(&[]);
    let logs = given.get_strs("log").unwrap_or(&[]);
    if !logs.is_empty() && logs.len() != words.len() {
        let _ = eprintln!(rt;
            "error: the argument '--log <LOG>' is given once for each FILE, '-' for none"
        );
        return ExitCode::from(2);
    }
    let mut line = progress_line(rt, rt.stderr().is_terminal(), Entries::Cells);
    let outcome = roll_words(rt, given, to, words, &mut line);
    clear(&mut line);
    match outcome {
        Ok(()) => ExitCode::SUCCESS,
        Err(fault) => {
            let place = file_of_roll(&fault, to, words, logs);
            let culprit = culprit_of(rt, &fault, "roll", given);
            let _ = eprintln!(rt; "hhm: {fault}{place}{culprit}");
            fault.exit_code()
        }
    }
}

/// A line that says how far the reading has come, where it is to be shown.
fn progress_line(rt: &HostRuntime, is_shown: bool, entries: Entries) -> Shown<'_> {
    if is_shown {
        Some(ProgressLine::new(rt, entries))
    } else {
        None
    }
}

/// Takes the line away, where the end of what is read hasn't done so.
fn clear(line: &mut Shown<'_>) {
    if let Some(line) = line {
        line.clear();
    }
}

/// Sums the texts that are named, or the one on standard input, and says a fault in one line on standard error, with
/// the text that it is of. How far the reading has come is said on a terminal, unless a text is typed there.
fn run_sum_word(rt: &HostRuntime, given: &ArgMatches) -> ExitCode {
    let cuts = given.get_str("cuts").unwrap_or(cli::DEFAULT_SUM_CUTS);
    let names = given.get_strs("file").unwrap_or(&[]);
    let is_typed = has_input(names) && rt.stdin().is_terminal();
    let mut line = progress_line(rt, rt.stderr().is_terminal() && !is_typed, Entries::Lines);
    let outcome = sum_texts(rt, cuts, names, &mut line);
    clear(&mut line);
    match outcome {
        Ok(()) => ExitCode::SUCCESS,
        Err(fault) => {
            let place = place_of(&fault, names);
            let culprit = culprit_of(rt, &fault, "sum", given);
            let _ = eprintln!(rt; "hhm: {fault}{place}{culprit}");
            fault.exit_code()
        }
    }
}

/// Writes the sum of the texts of these names to standard output.
fn sum_texts(
    rt: &HostRuntime,
    list: &str,
    names: &[&str],
    line: &mut Shown<'_>,
) -> Result<(), Fault> {
    let cuts = read_list(rt.alloc(), list)?;
    keep_freed_memory(rt.alloc());
    let mut output = Counted::new(rt.stdout());
    if is_input_alone(names) {
        let mut input = Watched::new(Counted::new(rt.stdin()), line);
        run_sum(rt.alloc(), &mut input, &mut output, &cuts)?;
    } else {
        let mut texts = NamedTexts::new(rt, rt.stdin(), names, line);
        let count = names.len() as u64;
        run_sum_of(rt.alloc(), &mut texts, count, &mut output, &cuts)?;
    }
    Ok(())
}

/// Folds the snapshot under a path, and the log beside it where one is named, into that file or a new one. How far the
/// reading of the snapshot has come is said on a terminal.
fn run_fold_word(rt: &HostRuntime, given: &ArgMatches) -> Result<(), Fault> {
    let numbers = numbers_of(rt.alloc(), given)?;
    let path = path_to_read(rt, given.get_str("path").unwrap_or(""), Fault::BadPath)?;
    let log = match given.get_str("log") {
        Some(log) => Some(path_to_read(rt, log, Fault::BadLog)?),
        None => None,
    };
    let log_path = log.as_ref().map(String::as_str);
    let mut line = progress_line(rt, rt.stderr().is_terminal(), Entries::Cells);
    let outcome = match (given.get_str("to"), log_path) {
        (Some(out_path), _) => fold_to(rt, path.as_str(), log_path, &numbers, out_path, &mut line),
        (None, Some(log_path)) => fold_with_log(rt, path.as_str(), log_path, &numbers, &mut line),
        (None, None) => fold(rt, path.as_str(), &numbers, &mut line),
    };
    clear(&mut line);
    outcome
}

/// The path of a file that is read where others are written, without links. None of its names may be one that hhm makes
/// beside a file: such a file would be replaced.
fn path_to_read(rt: &HostRuntime, path: &str, fault: Fault) -> Result<String, Fault> {
    let found = rt.resolved(rt.alloc(), path)?;
    if is_reserved(path) || is_reserved(found.as_str()) {
        return Err(fault);
    }
    Ok(found)
}

/// Folds the snapshot under a path in place.
fn fold(
    rt: &HostRuntime,
    path: &str,
    numbers: &GivenNumbers,
    line: &mut Shown<'_>,
) -> Result<(), Fault> {
    let mut out = Counted::new(rt.stdout());
    let mut file = LockedFile::new(rt, path, line);
    run_fold(rt.alloc(), &mut file, numbers, &mut out)?;
    Ok(())
}

/// Folds a snapshot and a log into the snapshot's file, of which the locks are held.
fn fold_with_log(
    rt: &HostRuntime,
    path: &str,
    log_path: &str,
    numbers: &GivenNumbers,
    line: &mut Shown<'_>,
) -> Result<(), Fault> {
    // Where there is no log nothing is made, and no lock's file either.
    let locks = match lock_log(rt, log_path)? {
        Some(log_lock) => lock_snapshot(rt, path)?.map(|lock| (lock, log_lock)),
        None => None,
    };
    let mut new = ReplacedFile::new(rt, path, locks);
    fold_into(rt, path, log_path, numbers, &mut new, line)
}

/// Folds a snapshot, and a log where one is named, into a new file.
fn fold_to(
    rt: &HostRuntime,
    path: &str,
    log_path: Option<&str>,
    numbers: &GivenNumbers,
    out_path: &str,
    line: &mut Shown<'_>,
) -> Result<(), Fault> {
    let mut new = free_file(rt, out_path)?;
    let Some(log_path) = log_path else {
        let mut out = Counted::new(rt.stdout());
        let mut file = NamedFile::new(rt, path, line);
        run_fold_to(rt.alloc(), &mut file, numbers, &mut new, &mut out)?;
        return Ok(());
    };
    fold_into(rt, path, log_path, numbers, &mut new, line)
}

/// Folds a snapshot and a log into a file.
fn fold_into<N: NewSnapshot>(
    rt: &HostRuntime,
    path: &str,
    log_path: &str,
    numbers: &GivenNumbers,
    new: &mut N,
    line: &mut Shown<'_>,
) -> Result<(), Fault> {
    let mut out = Counted::new(rt.stdout());
    let mut log_line = progress_line(rt, false, Entries::Cells);
    let mut file = NamedFile::new(rt, path, line);
    let mut log = NamedLog::new(rt, log_path, &mut log_line);
    run_fold_with_log(rt.alloc(), &mut file, &mut log, numbers, new, &mut out)?;
    Ok(())
}

/// The file that is to be made under a path, where nothing is yet.
fn free_file<'a>(rt: &'a HostRuntime, path: &'a str) -> Result<NewFile<'a, HostRuntime>, Fault> {
    if is_reserved(path) {
        return Err(Fault::BadOut);
    }
    let new = NewFile::new(rt, path);
    if new.is_taken() {
        return Err(Fault::Exists);
    }
    Ok(new)
}

/// The lock of a snapshot's path, where nothing may be yet, as far as it can be had.
fn lock_snapshot(rt: &HostRuntime, path: &str) -> Result<Option<PathLock>, Fault> {
    match lock(rt, rt.alloc(), path) {
        Ok(lock) => Ok(lock),
        Err(fault) => Err(Fault::Make(MakeFault::Read(CheckFault::from(fault)))),
    }
}

/// The lock of a log's path, as far as it can be had.
fn lock_log(rt: &HostRuntime, path: &str) -> Result<Option<PathLock>, Fault> {
    match lock_existing(rt, rt.alloc(), path) {
        Ok(lock) => Ok(lock),
        Err(FileFault::Busy) => Err(Fault::LogBusy),
        // What is wrong with it, a reading reports.
        Err(_) => Ok(None),
    }
}

/// Makes a snapshot of a new book of the one under a path, and of the log beside it where one is named. How far the
/// reading of the snapshot has come is said on a terminal.
fn run_fork_word(rt: &HostRuntime, given: &ArgMatches) -> Result<(), Fault> {
    let mut new = free_file(rt, given.get_str("out").unwrap_or(""))?;
    let Some(book) = Identity::draw(rt) else {
        return Err(Fault::NoRandom);
    };
    let mut line = progress_line(rt, rt.stderr().is_terminal(), Entries::Cells);
    let outcome = fork(rt, given, book, &mut new, &mut line);
    clear(&mut line);
    outcome
}

/// Makes it in a new file.
fn fork(
    rt: &HostRuntime,
    given: &ArgMatches,
    book: Identity,
    new: &mut NewFile<'_, HostRuntime>,
    line: &mut Shown<'_>,
) -> Result<(), Fault> {
    let path = given.get_str("path").unwrap_or("");
    let mut out = Counted::new(rt.stdout());
    let snapshot = path_to_read(rt, path, Fault::BadPath)?;
    let mut file = LockedFile::new(rt, snapshot.as_str(), line);
    let Some(given_log) = given.get_str("log") else {
        if run_fork(rt.alloc(), &mut file, book, new, &mut out)? {
            let _ = eprintln!(rt; "hhm: {path} goes with a log: batches after it may be missing");
        }
        return Ok(());
    };
    let log_path = path_to_read(rt, given_log, Fault::BadLog)?;
    let _lock = lock_log(rt, log_path.as_str())?;
    let mut log_line = progress_line(rt, false, Entries::Cells);
    let mut log = NamedLog::new(rt, log_path.as_str(), &mut log_line);
    run_fork_with_log(rt.alloc(), &mut file, &mut log, book, new, &mut out)?;
    Ok(())
}

/// Makes a snapshot of what can be read of the one under a path, where one is given, and of a log. How far the reading of
/// the snapshot has come is said on a terminal.
fn run_salvage_word(rt: &HostRuntime, given: &ArgMatches) -> Result<(), Fault> {
    let mut new = free_file(rt, given.get_str("out").unwrap_or(""))?;
    let Some(book) = Identity::draw(rt) else {
        return Err(Fault::NoRandom);
    };
    let mut line = progress_line(rt, rt.stderr().is_terminal(), Entries::Cells);
    let outcome = salvage(rt, given, book, &mut new, &mut line);
    clear(&mut line);
    outcome
}

/// Makes it in a new file.
fn salvage(
    rt: &HostRuntime,
    given: &ArgMatches,
    book: Identity,
    new: &mut NewFile<'_, HostRuntime>,
    line: &mut Shown<'_>,
) -> Result<(), Fault> {
    let path = match given.get_str("path") {
        Some(path) => Some(path_to_read(rt, path, Fault::BadPath)?),
        None => None,
    };
    let log_path = path_to_read(rt, given.get_str("log").unwrap_or(""), Fault::BadLog)?;
    let _lock = lock_log(rt, log_path.as_str())?;
    let mut out = Counted::new(rt.stdout());
    let mut log_line = progress_line(rt, false, Entries::Cells);
    let mut log = NamedTornLog::new(rt, log_path.as_str(), &mut log_line);
    match path {
        Some(path) => {
            let mut file = LockedFile::new(rt, path.as_str(), line);
            run_salvage(rt.alloc(), &mut file, &mut log, book, new, &mut out)?;
        }
        None => run_salvage(rt.alloc(), &mut NoSnapshot, &mut log, book, new, &mut out)?,
    }
    Ok(())
}

/// Prints what `clap` has to say: help and the version to standard output, a mistake to standard error.
fn tell(rt: &HostRuntime, error: &Error) -> Result<ExitCode, Fault> {
    if error.kind() == ErrorKind::OutOfMemory {
        return Err(Fault::from(AllocError));
    }
    if error.use_stderr() {
        let _ = rt.eprint(error);
        return Ok(ExitCode::from(2));
    }
    let text = error.to_string(rt.alloc())?;
    write_all(&mut Counted::new(rt.stdout()), text.as_bytes())?;
    Ok(ExitCode::SUCCESS)
}
