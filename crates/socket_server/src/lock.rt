//! The locks that a server takes before it reads its files.
ghost use Rattle.std.specs.Prelude.{◌≡◌, ◌⊎◌, Bool, IfOk, IfErr, true};
ghost use Rattle.log_start.specs.declared.fault.StartFault.{StartFault};
ghost use Rattle.snap_file.specs.declared.fault.SaveFault.{SaveFault};
ghost use Rattle.socket_server.specs.Faults.{IsMet, IsLockFault, TellsNoLog, TellsNoFile};
ghost use Rattle.socket_server.specs.Starts.{IsLocked, IsLoadTold, IsLockTold, lock_answer};
ghost use Rattle.batch_store.specs.declared.given_numbers.GivenNumbers.{GivenNumbers};

use crate::fault::ServerFault;
use crate::host::Host;
use crate::patience::Patience;
use crate::settings::Settings;
use log_start::StartFault;
use snap_file::{FileFault, PathLock, SaveFault};
use std::alloc::Global;
use std::sync::Wait;
use std::time::Clock;

/// The locks that a server holds to its end: nobody else saves under its snapshot's path, or writes its log. Where the
/// snapshot's can't be had and it needn't, there is none.
#[derive(Drop)]
pub struct Locks {
    _snapshot: Option<PathLock>,
    _log: Option<PathLock>,
}

// Tries whether a snapshot can be saved under a path.
fn try_path<R: Host>(rt: &R, alloc: Global, path: &str) -> Result<(), ServerFault>
    ensures { IfErr result (λ f. (f ≡ ServerFault.Memory) ⊎ (f ≡ ServerFault.Save SaveFault.Create)) }
{
    match rt.try_save(alloc, path) {
        Ok(()) => Ok(()),
        Err(SaveFault::Memory) => Err(ServerFault::Memory),
        Err(fault) => Err(ServerFault::Save(fault)),
    }
}

// Takes the lock of a path, for which it may wait.
fn lock_patiently<R: Wait + Clock + Host>(
    rt: &R,
    alloc: Global,
    path: &str,
    must_be_there: bool,
    patience: &mut Patience,
) -> Result<Option<PathLock>, FileFault>
    ensures answer { R.locks rt.now path.now (lock_answer result) }
    ensures met { IfErr result (IsLockFault must_be_there) }
{
    for _ in rt.forever() {
        match rt.lock_path(alloc, path, must_be_there) {
            Err(FileFault::Busy) if patience.wait_for(rt, path) => {}
            answer => return answer,
        }
    }
    unreachable!()
}

// Takes the lock of a snapshot's path, if there is one, and sees that a snapshot can be saved there where it must.
// Where the lock can't be had and it needn't, there is none.
fn take_lock<R: Wait + Clock + Host>(
    rt: &R,
    alloc: Global,
    path: &Option<String>,
    patience: &mut Patience,
    must_be_there: bool,
    must_save: bool,
) -> Result<Option<PathLock>, ServerFault>
    ensures locked { IfOk result (λ _. IsLocked R.locks rt.now path.now must_save) }
    ensures met { IfErr result (λ f. IsMet must_be_there f) }
    ensures told { (g : GivenNumbers) → IfErr result (λ f. IsLoadTold R.loads R.locks rt.now path.now g f) }
    ensures no_log { IfErr result TellsNoLog }
{
    let Some(path) = path else {
        return Ok(None);
    };
    let lock = match lock_patiently(rt, alloc, path.as_str(), must_be_there, patience) {
        Ok(Some(lock)) => lock,
        Ok(None) if must_save => return Err(ServerFault::Save(SaveFault::Create)),
        Ok(None) => return Ok(None),
        Err(FileFault::Memory) => return Err(ServerFault::Memory),
        Err(fault) => return Err(ServerFault::File(fault)),
    };
    if must_save {
        try_path(rt, alloc, path.as_str())?;
    }
    Ok(Some(lock))
}

// Takes the lock of a log's path, if there is one. Two servers would write over each other's blocks, so none starts
// without it.
fn take_log_lock<R: Wait + Clock + Host>(
    rt: &R,
    alloc: Global,
    path: &Option<String>,
    patience: &mut Patience,
) -> Result<Option<PathLock>, ServerFault>
    ensures locked { IfOk result (λ _. IsLocked R.locks rt.now path.now true) }
    ensures met { IfErr result (λ f. (must_load : Bool) → IsMet must_load f) }
    ensures told { IfErr result (λ f. IsLockTold R.locks rt.now path.now f) }
    ensures no_file { IfErr result TellsNoFile }
{
    let Some(path) = path else {
        return Ok(None);
    };
    match lock_patiently(rt, alloc, path.as_str(), false, patience) {
        Ok(Some(lock)) => Ok(Some(lock)),
        Ok(None) => Err(ServerFault::Log(StartFault::Create)),
        Err(FileFault::Memory) => Err(ServerFault::Memory),
        Err(FileFault::Busy) => Err(ServerFault::Log(StartFault::Busy)),
        // Nothing is read, and no file need be there.
        Err(_) => unreachable!(),
    }
}

/// Takes the locks of the paths of the snapshot and the log, and sees that a snapshot can be saved where it must.
pub fn take_locks<R: Wait + Clock + Host>(
    rt: &R,
    alloc: Global,
    settings: &Settings,
) -> Result<Locks, ServerFault>
    ensures locked { IfOk result (λ _. IsLocked R.locks rt.now settings.now.snapshot settings.now.must_save) }
    ensures log_locked { IfOk result (λ _. IsLocked R.locks rt.now settings.now.log true) }
    ensures met { IfErr result (λ f. IsMet settings.now.must_load f) }
    ensures told { IfErr result (λ f.
        IsLoadTold R.loads R.locks rt.now settings.now.snapshot settings.now.numbers f) }
    ensures log_told { IfErr result (λ f. IsLockTold R.locks rt.now settings.now.log f) }
{
    let mut patience = Patience::new(rt, settings.lock_wait);
    let snapshot = take_lock(
        rt,
        alloc,
        &settings.snapshot,
        &mut patience,
        settings.needs_file(),
        settings.must_save,
    )?;
    let log = take_log_lock(rt, alloc, &settings.log, &mut patience)?;
    Ok(Locks {
        _snapshot: snapshot,
        _log: log,
    })
}
