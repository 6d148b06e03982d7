//! The words that read snapshots and the logs beside them, and change no file: `check`, `export`, `top`, `list` and
//! `degrees`.
ghost use Rattle.std.specs.Prelude.{◌<◌};

use crate::culprit::{Culprit, culprit_of};
use crate::inputs::{Before, Inputs, NamedLogs, NamedSnapshots, is_of_reading, place_of_input};
use crate::query::{range_of, side_of, top_query_of};
use crate::report::Fault;
use crate::sum_files::Place;
use crate::{Shown, clear, progress_line};
use byte_io::Counted;
use clap::ArgMatches;
use progress::Entries;
use snap_export::{
    BesideLogs, NamedFolder, SnapshotFiles, run_compact, run_compact_minus, run_export_minus,
    run_export_of,
};
use snap_file::NamedFile;
use snap_query::{run_check_of, run_degrees_of, run_list_of, run_top_of};
use snap_report::{NamedLog, run_check, run_check_with_log};
use std::io::IsTerminal;
use std::process::ExitCode;

/// How often files are read at most where they are changed meanwhile.
const READINGS: u64 = 3;

/// Does what a word asks for that is given the paths of snapshots, and says a fault in one line on standard error.
pub fn run_word(rt: &HostRuntime, word: &str, given: &ArgMatches) -> ExitCode {
    let names = given.get_strs("path").unwrap_or(&[]);
    let logs = given.get_strs("log").unwrap_or(&[]);
    match (given.get_str("minus"), names) {
        (None, _) => run_on(rt, word, given, names, logs),
        (Some(old), [new]) => {
            let both = [*new, old];
            run_on(rt, word, given, &both, logs)
        }
        (Some(_), _) => {
            let _ = eprintln!(rt; "error: the argument '--minus <OLD>' takes one PATH beside it");
            ExitCode::from(2)
        }
    }
}

/// The same of these files.
fn run_on(
    rt: &HostRuntime,
    word: &str,
    given: &ArgMatches,
    names: &[&str],
    logs: &[&str],
) -> ExitCode {
    let inputs = Inputs::new(names, logs);
    if !inputs.are_paired() {
        let _ = eprintln!(rt;
            "error: the argument '--log <LOG>' is given once for each PATH, '-' for none"
        );
        return ExitCode::from(2);
    }
    match read_again(rt, word, given, &inputs) {
        Ok(()) => ExitCode::SUCCESS,
        Err(fault) => {
            let place = place_of_input(&fault, &inputs);
            let culprit = if matches!(place, Place::Nowhere) {
                culprit_of(rt, &fault, word, given)
            } else {
                Culprit::Nothing
            };
            let _ = eprintln!(rt; "hhm: {fault}{place}{culprit}");
            fault.exit_code()
        }
    }
}

/// Reads the files again where that found a fault and they were changed meanwhile: a server may write to them. Nothing
/// was written then.
fn read_again(
    rt: &HostRuntime,
    word: &str,
    given: &ArgMatches,
    inputs: &Inputs<'_>,
) -> Result<(), Fault> {
    'readings: for _ in 1..READINGS {
        let before = Before::note(rt, rt.alloc(), *inputs)?;
        let outcome = read(rt, word, given, inputs);
        let may_differ = matches!(&outcome, Err(fault) if is_of_reading(fault));
        if !may_differ || !before.has_changed(rt, rt.alloc(), *inputs)? {
            return outcome;
        }
    }
    read(rt, word, given, inputs)
}

/// Reads the files once. How far that has come is said on a terminal.
fn read(
    rt: &HostRuntime,
    word: &str,
    given: &ArgMatches,
    inputs: &Inputs<'_>,
) -> Result<(), Fault> {
    let mut line = progress_line(rt, rt.stderr().is_terminal(), Entries::Cells);
    let outcome = match (word, inputs.names, inputs.logs) {
        ("check", [path], []) => check(rt, *path, &mut line),
        ("check", [path], [log]) => check_with_log(rt, *path, *log, &mut line),
        // No file has this name.
        ("check", [], [log]) => check_with_log(rt, "", *log, &mut line),
        _ => read_pairs(rt, word, given, inputs, &mut line),
    };
    clear(&mut line);
    outcome
}

/// Says what the snapshot under a path has.
fn check(rt: &HostRuntime, path: &str, line: &mut Shown<'_>) -> Result<(), Fault> {
    let mut out = Counted::new(rt.stdout());
    run_check(rt.alloc(), &mut NamedFile::new(rt, path, line), &mut out)?;
    Ok(())
}

/// Says what the snapshot under a path and the log under another have together. How far the reading of the log has come
/// is said where that of the snapshot is.
fn check_with_log(
    rt: &HostRuntime,
    path: &str,
    log_path: &str,
    line: &mut Shown<'_>,
) -> Result<(), Fault> {
    let mut out = Counted::new(rt.stdout());
    let mut log_line = progress_line(rt, line.is_some(), Entries::Cells);
    let mut file = NamedFile::new(rt, path, line);
    let mut log = NamedLog::new(rt, log_path, &mut log_line);
    let outcome = run_check_with_log(rt.alloc(), &mut file, &mut log, &mut out);
    clear(&mut log_line);
    outcome?;
    Ok(())
}

/// Asks snapshots, each with the log beside it where logs are given. Where none is, a line says which goes with a log.
fn read_pairs(
    rt: &HostRuntime,
    word: &str,
    given: &ArgMatches,
    inputs: &Inputs<'_>,
    line: &mut Shown<'_>,
) -> Result<(), Fault> {
    let mut log_line = progress_line(rt, line.is_some(), Entries::Cells);
    let mut files = NamedSnapshots::new(rt, rt.alloc(), *inputs, line);
    let outcome = if inputs.logs.is_empty() {
        ask(rt, word, given, &mut files, inputs.count())
    } else {
        let mut logs = NamedLogs::new(rt, inputs.logs, &mut log_line);
        let mut pairs = BesideLogs::new(&mut files, &mut logs);
        ask(rt, word, given, &mut pairs, inputs.count())
    };
    clear(&mut log_line);
    if outcome.is_ok() {
        warn(rt, files.lacking());
    }
    outcome
}

/// Says which snapshots go with a log that isn't read.
fn warn(rt: &HostRuntime, names: &[&str]) {
    for name in names {
        let _ = eprintln!(rt; "hhm: {name} goes with a log: batches after it may be missing");
    }
}

/// Does what a word asks of the sum of so many snapshots, or of the difference of two.
fn ask<F: SnapshotFiles>(
    rt: &HostRuntime,
    word: &str,
    given: &ArgMatches,
    files: &mut F,
    count: u64,
) -> Result<(), Fault>
    requires { 0 < count }
{
    let alloc = rt.alloc();
    let mut out = Counted::new(rt.stdout());
    match word {
        "check" => run_check_of(alloc, files, count, &mut out)?,
        "top" => run_top_of(alloc, files, count, &mut out, &top_query_of(given)?)?,
        "list" => run_list_of(alloc, files, count, &mut out, &range_of(given)?)?,
        "degrees" => run_degrees_of(alloc, files, count, &mut out, side_of(given))?,
        _ => export(rt, given, files, count)?,
    }
    Ok(())
}

/// Exports the sum of so many snapshots, or what the first has more than the second, to standard output or to a folder.
fn export<F: SnapshotFiles>(
    rt: &HostRuntime,
    given: &ArgMatches,
    files: &mut F,
    count: u64,
) -> Result<(), Fault>
    requires { 0 < count }
{
    let mut out = Counted::new(rt.stdout());
    match (given.get_str("minus"), given.get_str("compact")) {
        (None, None) => run_export_of(rt.alloc(), files, count, &mut out)?,
        (Some(_), None) => run_export_minus(rt.alloc(), files, &mut out)?,
        (None, Some(folder)) => save_compact(rt, files, count, folder)?,
        (Some(_), Some(folder)) => save_compact_minus(rt, files, folder)?,
    }
    Ok(())
}

/// Saves the sum in a folder, without empty rows and columns.
fn save_compact<F: SnapshotFiles>(
    rt: &HostRuntime,
    files: &mut F,
    count: u64,
    path: &str,
) -> Result<(), Fault>
    requires { 0 < count }
{
    let mut folder = NamedFolder::new(rt, rt.alloc(), path)?;
    let outcome = run_compact(rt.alloc(), files, count, &mut folder);
    if outcome.is_err() {
        folder.remove_unfinished();
    }
    outcome?;
    Ok(())
}

/// Saves the difference in a folder, without empty rows and columns.
fn save_compact_minus<F: SnapshotFiles>(
    rt: &HostRuntime,
    files: &mut F,
    path: &str,
) -> Result<(), Fault> {
    let mut folder = NamedFolder::new(rt, rt.alloc(), path)?;
    let outcome = run_compact_minus(rt.alloc(), files, &mut folder);
    if outcome.is_err() {
        folder.remove_unfinished();
    }
    outcome?;
    Ok(())
}
