//! Logs in files, for every runtime that has files.
ghost use Rattle.std.specs.Prelude.{◌≡◌, ℕ, ◌+◌, ◌<◌, ◌≤◌, ◌^◌, ⊤, List, Option, length, true, false, IfOk, IfSome};
ghost use Rattle.batch_store.specs.Accepted.{entries_in};
ghost use Rattle.batch_store.specs.Books.{AreAccepted, accepted_in};
ghost use Rattle.snap_file.specs.Snapshots.{HasBase};
ghost use Rattle.log_blocks.specs.Blocks.{Block};
ghost use Rattle.log_file.specs.Logs.{Log};
ghost use Rattle.log_start.specs.Starts.{MayGoOn};
ghost use Rattle.stored_log.specs.Kept.{WasSynced, is_failed};
ghost use Rattle.socket_server.specs.Ends.{GoesOn};
ghost use Rattle.socket_server.specs.Starts.{IsAnswer, IsUnderName, MakesList};

use crate::log_host::{LogHost, LogOrigin};
use batch_store::{BookList, Setup};
use log_blocks::{LogFault, LogKind};
use log_file::LogMark;
use log_folder::{FileLogFolder, FolderFault, LogFolder, LogNews, Refusal, StartedLog};
use log_start::{LogOwner, StartFault, Started};
use session_pool::{FileLog, HeadFault, log_head_at};
use snap_file::RealFiles;
use std::alloc::Global;
use std::fs::{self, File};
use std::rt::Files;
use std::sync::Arc;
use std::thread;
use std::time::{Clock, Duration};
use stored_log::StoredLog;

// Why there is no folder of a log.
fn folder_fault(fault: FolderFault) -> StartFault {
    match fault {
        FolderFault::Memory => StartFault::Memory,
        FolderFault::OpenFailed => StartFault::Create,
    }
}

/// How often it is looked whether another process has the log's file, and how many milliseconds there are between. Who was
/// killed gives its locks back one after another.
const LOOKS: usize = 20;

const PAUSE: u64 = 50;

// Waits a second at most, while another process has the log's file.
fn await_file<R: Files<File = File> + Clock>(
    rt: &R,
    folder: &FileLogFolder<'_, R, RealFiles<'_, R>>,
) {
    for _ in 0..LOOKS {
        if !folder.is_in_use() {
            break;
        }
        thread::sleep(rt, Duration::from_millis(PAUSE));
    }
}

// Why a log wasn't started whose folder may have refused a file.
fn start_fault(refusal: Option<Refusal>, fault: StartFault) -> StartFault {
    match refusal {
        Some(Refusal::Busy) => StartFault::Busy,
        Some(Refusal::Memory) => StartFault::Memory,
        None => fault,
    }
}

// Notes the log that was started, which ends there.
fn note_start(news: &LogNews, mark: Option<LogMark>, is_new: bool) {
    let Some(LogMark { first, next, page }) = mark else {
        return;
    };
    news.note_start(StartedLog {
        batches: next.saturating_sub(first),
        pages: page,
        is_new,
    });
}

// Starts the log of any folder, and reports where it ends. The list is made of what was found under the log's name, and
// a folder that tells its files tells that: whoever doesn't look there, or doesn't read it, can't know it.
fn start_in<F: LogFolder>(
    folder: &mut F,
    alloc: Global,
    setup: &Setup,
    owner: &LogOwner,
    known: BookList,
    mark: &mut Option<LogMark>,
) -> Result<(StoredLog<F::Disk>, BookList, LogOrigin), StartFault>
    // The log that a file under the name has, and the next block, of which it may have any part.
    ghost kept: { Log × Block }
    requires left { F.tells folder.old → (disk : F.Disk) → F.stored folder.old disk → F.Disk.tells disk
        × MayGoOn F.Disk.LogDisk disk kept.0 kept.1 }
    requires failures { F.failure_count folder.old + 1 < 2 ^ 64 }
    requires accepted { AreAccepted setup.now (accepted_in known) }
    requires based { HasBase setup.now known }
    ensures list { IfOk result (λ r. (found : Option (List ℕ)) × IsUnderName F.Disk.LogDisk (F.tells folder.old)
        (F.stored folder.old) (F.named folder.old) found × MakesList setup.now owner.now known found r.1 r.2) }
    // The log begins within what is known, so that the next start over that finds no gap.
    ensures within { IfOk result (λ r. IfSome r.0.in_use (λ log.
        log.writer.first ≤ length (entries_in (accepted_in known)))) }
    ensures accepted { IfOk result (λ r. AreAccepted setup.now (accepted_in r.1)) }
    ensures based { IfOk result (λ r. HasBase setup.now r.1) }
    ensures later { IfOk result (λ r. GoesOn (accepted_in known) (accepted_in r.1)) }
    ensures folded { IfOk result (λ r. r.1.folded ≡ known.folded) }
    ensures works { IfOk result (λ r. is_failed F.Disk.in_doubt r.0.in_use ≡ false) }
    ensures named { IfOk result (λ r. r.0.named ≡ true) }
    ensures entries { IfOk result (λ r. r.0.entries ≡ entries_in (accepted_in r.1)) }
    ensures synced { IfOk result (λ r. WasSynced F.Disk.telling F.Disk.tells F.Disk.written F.Disk.may_leave
        (entries_in (accepted_in r.1))) }
{
    let Started {
        log,
        list,
        identity,
        setup,
    } = match log_start::start_log(folder, alloc, setup, owner, known) {
        Ok(started) => started,
        Err(fault) => return Err(fault),
    };
    let head = LogOrigin { setup, identity };
    *mark = Some(log.writer.mark());
    match StoredLog::of_start(alloc, log, &list) {
        Ok(log) => Ok((log, list, head)),
        Err(_) => Err(StartFault::Memory),
    }
}

// The same of a folder that doesn't tell its files.
fn start_untold<F: LogFolder>(
    folder: &mut F,
    alloc: Global,
    setup: &Setup,
    owner: &LogOwner,
    known: BookList,
    mark: &mut Option<LogMark>,
) -> Result<(StoredLog<F::Disk>, BookList, LogOrigin), StartFault>
    requires untold { F.tells folder.old → ⊥ }
    requires failures { F.failure_count folder.old + 1 < 2 ^ 64 }
    requires accepted { AreAccepted setup.now (accepted_in known) }
    requires based { HasBase setup.now known }
    ensures answer { IsAnswer (λ answer. ⊤) setup.now owner.now known result }
    ensures accepted { IfOk result (λ r. AreAccepted setup.now (accepted_in r.1)) }
    ensures based { IfOk result (λ r. HasBase setup.now r.1) }
    ensures later { IfOk result (λ r. GoesOn (accepted_in known) (accepted_in r.1)) }
    ensures folded { IfOk result (λ r. r.1.folded ≡ known.folded) }
    ensures works { IfOk result (λ r. is_failed F.Disk.in_doubt r.0.in_use ≡ false) }
    ensures named { IfOk result (λ r. r.0.named ≡ true) }
    ensures entries { IfOk result (λ r. r.0.entries ≡ entries_in (accepted_in r.1)) }
    ensures synced { IfOk result (λ r. WasSynced F.Disk.telling F.Disk.tells F.Disk.written F.Disk.may_leave
        (entries_in (accepted_in r.1))) }
{
    start_in(folder, alloc, setup, owner, known, mark)
}

// Whether a file is under a path.
fn is_file<R: Files<File = File>>(rt: &R, path: &str) -> bool {
    match fs::metadata(rt, path) {
        Ok(found) => found.is_file(),
        Err(_) => false,
    }
}

impl<R: Files<File = File> + Clock> LogHost<FileLog> for R {
    ghost log_starts = { λ h path setup owner known answer. ⊤ };

    ghost log_heads = { λ h path answer. ⊤ };

    fn log_setup(&self, path: &str) -> Result<Option<Setup>, StartFault> {
        match log_head_at(self, path) {
            Ok(Some(head)) => Ok(Some(head.setup)),
            Ok(None) if is_file(self, path) => Err(StartFault::Log(LogFault {
                kind: LogKind::Truncated,
                page: 0,
            })),
            Ok(None) => Ok(None),
            Err(HeadFault::Open) => Err(StartFault::Create),
            Err(HeadFault::Read) => Err(StartFault::Log(LogFault {
                kind: LogKind::Read,
                page: 0,
            })),
            Err(HeadFault::NoLog(kind)) => Err(StartFault::Log(LogFault { kind, page: 0 })),
        }
    }

    fn start_log(
        &self,
        alloc: Global,
        path: &str,
        snapshot: Option<&str>,
        setup: &Setup,
        owner: &LogOwner,
        known: BookList,
        news: &Arc<LogNews>,
    ) -> Result<(FileLog, BookList, LogOrigin), StartFault> {
        let mut folder = match FileLogFolder::open(self, alloc, path, snapshot) {
            Ok(folder) => folder.telling(Some(news)),
            Err(fault) => return Err(folder_fault(fault)),
        };
        await_file(self, &folder);
        let mut mark = None;
        match start_untold(&mut folder, alloc, setup, owner, known, &mut mark) {
            Ok((stored, list, head)) => {
                note_start(news, mark, folder.has_made());
                Ok((FileLog::new(stored), list, head))
            }
            Err(fault) => Err(start_fault(folder.refusal(), fault)),
        }
    }
}
