//! The settings that the options of `serve` spell, and the numbers that those of `fold` do.
ghost use Rattle.std.specs.Prelude.{◌≡◌, ℕ, IfOk, codes, is_some};
ghost use Rattle.clap.specs.Words.{first_value, found_of};
ghost use Rattle.hhm.specs.Given.{AreGiven, AreNumbersGiven, IsFlag, IsGiven, IsLimit, IsNumber, IsNumberOr};
ghost use Rattle.hhm.specs.Given.{path_in};

use crate::numbers::{read_list, read_number};
use crate::report::Fault;
use batch_store::{GivenNumbers, Setup};
use clap::ArgMatches;
use event_log::{EventLog, Paths};
use socket_server::{Ending, Settings};
use std::alloc::{AllocError, Global};
use std::num::NonZeroU64;
use std::sync::Arc;

/// The cuts, the shards and the most batches of a server where neither an option nor a file says them.
const DEFAULT_CUTS: &str = "4096,65536,1048576";

const DEFAULT_SHARDS: u64 = 8;

const DEFAULT_BATCHES: u64 = 1_000_000;

// The number of an option.
fn number_of(matches: &ArgMatches, name: &str) -> Result<u64, Fault>
    ensures { IfOk result (λ n. IsNumber (found_of matches.now) name.now n) }
{
    let Some(word) = matches.get_str(name) else {
        return Err(Fault::BadNumber);
    };
    match read_number(word.as_bytes()) {
        Some(number) => Ok(number),
        None => Err(Fault::BadNumber),
    }
}

// The number of an option that is left out or 0 where there is to be no limit.
fn limit_of(matches: &ArgMatches, name: &str) -> Result<Option<NonZeroU64>, Fault>
    ensures { IfOk result (λ limit. IsLimit (found_of matches.now) name.now limit) }
{
    let Some(word) = matches.get_str(name) else {
        return Ok(None);
    };
    match read_number(word.as_bytes()) {
        Some(number) => Ok(NonZeroU64::new(number)),
        None => Err(Fault::BadNumber),
    }
}

// The word of an option, if it is given.
fn word_of(alloc: Global, matches: &ArgMatches, name: &str) -> Result<Option<String>, AllocError>
    ensures { IfOk result (λ word. path_in word ≡ first_value (found_of matches.now) name.now) }
{
    match matches.get_str(name) {
        Some(word) => Ok(Some(word.to_string(alloc)?)),
        None => Ok(None),
    }
}

// The number of an option, or where it is left out this one.
fn number_or(matches: &ArgMatches, name: &str, default: u64) -> Result<u64, Fault>
    ensures { IfOk result (λ n. IsNumberOr (found_of matches.now) name.now default n) }
{
    let Some(word) = matches.get_str(name) else {
        return Ok(default);
    };
    match read_number(word.as_bytes()) {
        Some(number) => Ok(number),
        None => Err(Fault::BadNumber),
    }
}

// Whether an option is given.
fn is_given(matches: &ArgMatches, name: &str) -> bool
    ensures { IsGiven (found_of matches.now) name.now result }
{
    matches.get_str(name).is_some()
}

// Whether a flag is given.
fn flag_of(matches: &ArgMatches, name: &str) -> bool
    ensures { IsFlag (found_of matches.now) name.now result }
{
    matches.get_flag(name)
}

/// The numbers of a setup that the options of `serve` or `fold` spell. Of rows and columns that aren't given nothing is
/// read.
pub fn numbers_of(alloc: Global, matches: &ArgMatches) -> Result<GivenNumbers, Fault>
    ensures { IfOk result (λ g. AreNumbersGiven (found_of matches.now) g) }
{
    let rows = number_or(matches, "rows", 1)?;
    let cols = number_or(matches, "cols", 1)?;
    let shards = number_or(matches, "shards", DEFAULT_SHARDS)?;
    let limit = number_or(matches, "limit", u64::MAX)?;
    let max_batches = number_or(matches, "max-batches", DEFAULT_BATCHES)?;
    let cuts = read_list(alloc, matches.get_str("cuts").unwrap_or(DEFAULT_CUTS))?;
    Ok(GivenNumbers {
        setup: Setup::new(rows, cols, &cuts, shards, limit, max_batches)?,
        rows: is_given(matches, "rows"),
        cols: is_given(matches, "cols"),
        cuts: is_given(matches, "cuts"),
        shards: is_given(matches, "shards"),
        limit: is_given(matches, "limit"),
        max_batches: is_given(matches, "max-batches"),
    })
}

// Where what happens is noted, if that is asked for.
fn events_of(alloc: Global, matches: &ArgMatches) -> Result<Option<Arc<EventLog>>, AllocError>
    ensures { IfOk result (λ events. IsFlag (found_of matches.now) (codes "events") (is_some events)) }
{
    if !flag_of(matches, "events") {
        return Ok(None);
    }
    let paths = Paths {
        snapshot: word_of(alloc, matches, "snapshot")?,
        log: word_of(alloc, matches, "log")?,
    };
    Ok(Some(Arc::new(alloc, EventLog::new(alloc, paths))?))
}

// Where it is noted how the server ends, if its sessions have a time after a Stop.
fn ending_of(alloc: Global, drain: Option<NonZeroU64>) -> Result<Option<Arc<Ending>>, AllocError> {
    if drain.is_none() {
        return Ok(None);
    }
    Ok(Some(Arc::new(alloc, Ending::new())?))
}

/// The settings that the options spell. All numbers are read before the setup is judged.
pub fn settings_of(alloc: Global, matches: &ArgMatches) -> Result<Settings, Fault>
    ensures { IfOk result (λ s. AreGiven (found_of matches.now) s) }
{
    let workers = number_of(matches, "workers")?;
    let compactors = number_of(matches, "compactors")?;
    let sessions = number_of(matches, "sessions")?;
    let fold_above = number_of(matches, "fold-above")?;
    let save_log_above = number_of(matches, "save-log-above")?;
    let save_every = limit_of(matches, "save-every")?;
    let idle = limit_of(matches, "idle")?;
    let drain = limit_of(matches, "drain")?;
    let lock_wait = limit_of(matches, "lock-wait")?;
    let numbers = numbers_of(alloc, matches)?;
    let snapshot = word_of(alloc, matches, "snapshot")?;
    let log = word_of(alloc, matches, "log")?;
    Ok(Settings {
        tcp: word_of(alloc, matches, "tcp")?,
        unix: word_of(alloc, matches, "unix")?,
        numbers,
        workers,
        compactors,
        snapshot,
        log,
        must_load: flag_of(matches, "must-load"),
        must_save: flag_of(matches, "must-save"),
        lock_wait,
        sessions,
        fold_above,
        save_log_above,
        save_every,
        idle,
        drain,
        events: events_of(alloc, matches)?,
        ending: ending_of(alloc, drain)?,
    })
}
