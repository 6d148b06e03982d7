//! `serve`: what a server is run by, and the status that its fault ends the program with.
ghost use Rattle.std.specs.Prelude.{◌≡◌, IfOk};
ghost use Rattle.clap.specs.Words.{found_of};
ghost use Rattle.hhm.specs.Given.{IsLed, IsOrdered, IsResolved};
ghost use Rattle.hhm.specs.Serving.{server_status};

use crate::given::settings_of;
use crate::log_report::status_of_log;
use crate::path_host::PathHost;
use crate::report::Fault;
use clap::ArgMatches;
use snap_file::{FileFault, SnapFault};
use socket_server::{Ending, ServerFault, Settings, is_reserved};
use std::alloc::{AllocError, Global};
use std::sync::Arc;

/// The status that a server's fault ends the program with: 2 for settings, 3 for what a snapshot or a log says, 4 for a
/// device, an address or a thread, 5 for memory, 6 for records that differ.
pub fn status_of(fault: &ServerFault) -> u8
    ensures { result ≡ server_status fault.now }
{
    match fault {
        ServerFault::BadWorkers => 2,
        ServerFault::NoAddress => 2,
        ServerFault::BadSnapshotPath => 2,
        ServerFault::BadLogPath => 2,
        ServerFault::SamePath => 2,
        ServerFault::BadCompactors => 2,
        ServerFault::SnapshotDiffers(_) => 2,
        ServerFault::LogDiffers(_) => 2,
        ServerFault::NeedsNumber(_) => 2,
        ServerFault::NeedsLog(_) => 2,
        ServerFault::File(FileFault::Snap(SnapFault::Read)) => 4,
        ServerFault::File(FileFault::Snap(_)) => 3,
        ServerFault::File(_) => 4,
        ServerFault::Log(fault) => status_of_log(fault),
        ServerFault::NoLog { .. } => 4,
        ServerFault::NoRandom => 4,
        ServerFault::Listen(_) => 4,
        ServerFault::NoWorker => 4,
        ServerFault::Save(_) => 4,
        ServerFault::LastLog(_) => 4,
        ServerFault::NotDurable { .. } => 4,
        ServerFault::Output(_) => 4,
        ServerFault::Memory => 5,
        ServerFault::RecordsDiffer => 6,
    }
}

// What follows the last slash of a path.
fn last_name(path: &str) -> &str {
    match path.rsplit_once('/') {
        Some((_, name)) => name,
        None => path,
    }
}

// Whether the snapshot and the log lead to one name in one folder, however their paths are spelled. Of a name that they
// may not have something else is told.
fn has_one_place<R: PathHost>(rt: &R, settings: &Settings) -> bool {
    let (Some(path), Some(log)) = (&settings.snapshot, &settings.log) else {
        return false;
    };
    let (path, log) = (path.as_str(), log.as_str());
    !is_reserved(path)
        && last_name(path) == last_name(log)
        && match (rt.folder_id(path), rt.folder_id(log)) {
            (Some(one), Some(other)) => one == other,
            _ => false,
        }
}

// A path, if there is one, without links.
fn led<R: PathHost>(
    rt: &R,
    alloc: Global,
    path: &Option<String>,
) -> Result<Option<String>, AllocError>
    ensures { IfOk result (λ target. IsLed R.leads rt.now path.now target) }
{
    match path {
        Some(path) => Ok(Some(rt.resolved(alloc, path.as_str())?)),
        None => Ok(None),
    }
}

// The settings with the paths of the files that links lead to. The names of files beside them are made of these, so
// that each who starts them by another link makes the same.
fn without_links<R: PathHost>(
    rt: &R,
    alloc: Global,
    settings: Settings,
) -> Result<Settings, AllocError>
    ensures { IfOk result (λ found. IsResolved R.leads rt.now settings found) }
{
    let snapshot = led(rt, alloc, &settings.snapshot)?;
    let log = led(rt, alloc, &settings.log)?;
    Ok(Settings {
        snapshot,
        log,
        ..settings
    })
}

/// What a server is run by: the settings that the words of `serve` spell, with the paths of the files that links lead
/// to. Only `order_of` makes one, and nothing changes it.
#[derive(Drop)]
pub struct ServeOrder {
    settings: Settings,
}

impl ServeOrder {
    /// Where it is noted how the server ends, if somebody is to wait for that.
    pub fn ending(&self) -> Option<Arc<Ending>> {
        Arc::try_clone(self.settings.ending.as_ref()?).ok()
    }

    /// Its settings, to serve by.
    pub fn into_settings(self) -> Settings
        ensures { result ≡ self.settings }
    {
        self.settings
    }
}

/// What a server is run by for these words of `serve`.
pub fn order_of<R: PathHost>(
    rt: &R,
    alloc: Global,
    matches: &ArgMatches,
) -> Result<ServeOrder, Fault>
    ensures { IfOk result (λ order. IsOrdered R.leads rt.now (found_of matches.now) order.settings) }
{
    let settings = without_links(rt, alloc, settings_of(alloc, matches)?)?;
    if has_one_place(rt, &settings) {
        return Err(Fault::SamePath);
    }
    Ok(ServeOrder { settings })
}
