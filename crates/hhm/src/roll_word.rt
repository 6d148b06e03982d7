//! The word `roll`: the files of closed windows, and the coarser file that they are taken into.
ghost use Rattle.std.specs.Prelude.{◌<◌, length};

use crate::inputs::{Inputs, NamedLogs, NamedSnapshots, is_of_log};
use crate::numbers::read_number;
use crate::path_host::PathHost;
use crate::path_to_read;
use crate::query::number_of;
use crate::report::Fault;
use crate::sum_files::Place;
use byte_io::Counted;
use clap::ArgMatches;
use progress::{Unwatched, Watch};
use snap_export::BesideLogs;
use snap_file::{NO_WINDOW, NamedFile, PathLock, SaveFault, lock};
use snap_roll::{RollFault, run_roll};
use std::alloc::AllocError;

/// The number before a window's path, None where the word is a path alone, and the path.
pub fn window_of(word: &str) -> Result<(Option<u64>, &str), Fault> {
    let Some((digits, path)) = word.split_once('=') else {
        return Ok((None, word));
    };
    if digits.is_empty() || !digits.bytes().all(|byte| byte.is_ascii_digit()) {
        return Ok((None, word));
    }
    match read_number(digits.as_bytes()) {
        Some(number) if number != NO_WINDOW => Ok((Some(number), path)),
        _ => Err(Fault::BadNumber),
    }
}

/// The numbers before the windows' paths.
fn numbers_in(rt: &HostRuntime, words: &[&str]) -> Result<Vec<Option<u64>>, Fault> {
    let mut numbers = Vec::new(rt.alloc());
    for word in words {
        let (number, _) = window_of(*word)?;
        if numbers.push(number).is_err() {
            return Err(Fault::from(AllocError));
        }
    }
    Ok(numbers)
}

/// The windows' paths. None of their names may be one that hhm makes beside a file, and none leads to the coarser file,
/// which would be counted twice.
fn paths_in<'a>(rt: &HostRuntime, to: &str, words: &[&'a str]) -> Result<Vec<&'a str>, Fault> {
    let mut paths = Vec::new(rt.alloc());
    let to = rt.file_id(to);
    for word in words {
        let (_, path) = window_of(*word)?;
        let _found = path_to_read(rt, path, Fault::BadFile)?;
        if to.is_some() && rt.file_id(path) == to {
            return Err(Fault::SamePath);
        }
        if paths.push(path).is_err() {
            return Err(Fault::from(AllocError));
        }
    }
    Ok(paths)
}

/// The lock of the coarser file's path, which may not be there yet.
fn lock_to(rt: &HostRuntime, path: &str) -> Result<PathLock, Fault> {
    match lock(rt, rt.alloc(), path) {
        Ok(Some(lock)) => Ok(lock),
        Ok(None) => Err(Fault::Roll(RollFault::Save(SaveFault::Create))),
        Err(fault) => Err(Fault::Roll(RollFault::from(fault))),
    }
}

/// Takes the windows that these words name into the file under a path, whose lock is held.
pub fn roll_words<W: Watch>(
    rt: &HostRuntime,
    given: &ArgMatches,
    to: &str,
    words: &[&str],
    watch: &mut W,
) -> Result<(), Fault> {
    let client = number_of(given, "client")?;
    let numbers = numbers_in(rt, words)?;
    let path = path_to_read(rt, to, Fault::BadTo)?;
    let paths = paths_in(rt, path.as_str(), words)?;
    // The command line has one at least.
    if numbers.is_empty() {
        return Ok(());
    }
    let _lock = lock_to(rt, path.as_str())?;
    let logs = given.get_strs("log").unwrap_or(&[]);
    let inputs = Inputs::new(paths.as_slice(), logs);
    roll_inputs(rt, path.as_str(), client, inputs, numbers.as_slice(), watch)
}

/// Takes windows into the file under a path, each with the log beside it where logs are given.
fn roll_inputs<W: Watch>(
    rt: &HostRuntime,
    path: &str,
    client: u64,
    inputs: Inputs<'_>,
    numbers: &[Option<u64>],
    watch: &mut W,
) -> Result<(), Fault>
    requires { 0 < length numbers.now }
{
    let mut out = Counted::new(rt.stdout());
    let mut unwatched = Unwatched;
    let mut file = NamedFile::new(rt, path, &mut unwatched);
    let mut files = NamedSnapshots::new(rt, rt.alloc(), inputs, watch);
    if inputs.logs.is_empty() {
        run_roll(rt.alloc(), &mut file, &mut files, client, numbers, &mut out)?;
        return Ok(());
    }
    let mut log_watch = Unwatched;
    let mut logs = NamedLogs::new(rt, inputs.logs, &mut log_watch);
    let mut pairs = BesideLogs::new(&mut files, &mut logs);
    run_roll(rt.alloc(), &mut file, &mut pairs, client, numbers, &mut out)?;
    Ok(())
}

/// The file that a fault of a roll is of.
pub fn file_of_roll<'a>(
    fault: &Fault,
    to: &'a str,
    words: &[&'a str],
    logs: &[&'a str],
) -> Place<'a> {
    let at = match fault {
        Fault::Roll(RollFault::File(at, fault)) if is_of_log(fault) => {
            return match logs.get(*at as usize) {
                Some(log) => Place::In(*log),
                None => Place::Nowhere,
            };
        }
        Fault::Roll(RollFault::File(at, _)) => *at,
        Fault::Roll(RollFault::Refused(at, _)) => *at,
        Fault::Roll(RollFault::To(_) | RollFault::ToHasWindow | RollFault::ToNotClosed) => {
            return Place::In(to);
        }
        _ => return Place::Nowhere,
    };
    match words.get(at as usize) {
        Some(word) => match window_of(*word) {
            Ok((_, path)) => Place::In(path),
            Err(_) => Place::Nowhere,
        },
        None => Place::Nowhere,
    }
}
