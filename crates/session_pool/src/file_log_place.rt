//! Logs in files, for every runtime that has files.
ghost use Rattle.std.specs.Prelude.{⊤};

use crate::disk::Disk;
use crate::file_log::FileLog;
use crate::log_place::LogPlace;
use batch_store::{BookList, Setup};
use byte_io::WriteFault;
use log_blocks::LogKind;
use log_folder::{FileLogFolder, FolderFault, LogNews, Refusal, RotateFault};
use log_head::{LogHead, decode_head};
use log_page::PAGE;
use snap_file::{Identity, SaveFault};
use std::alloc::Global;
use std::fs::{self, File};
use std::os::unix::fs::FileExt;
use std::rt::Files;
use std::sync::Arc;
use stored_log::{StoredFault, abandon_stored, begin_stored, name_stored};

// Why there is no folder of a log, as a save tells it.
fn of_folder(fault: FolderFault) -> SaveFault {
    match fault {
        FolderFault::Memory => SaveFault::Memory,
        FolderFault::OpenFailed => SaveFault::Create,
    }
}

// Why a log wasn't begun anew, as a save tells it.
fn of_rotation(fault: RotateFault) -> SaveFault {
    match fault {
        RotateFault::Create => SaveFault::Create,
        RotateFault::Write => SaveFault::Write(WriteFault { written: 0 }),
        RotateFault::Sync => SaveFault::Sync,
        RotateFault::Rename => SaveFault::Rename,
    }
}

/// Why nobody knows the head of a log.
#[derive(Clone, Copy, Debug, PartialEq, Eq)]
pub enum HeadFault {
    /// The file can't be opened.
    Open,
    /// The read of its first page has failed.
    Read,
    /// Its first page isn't the head of a log.
    NoLog(LogKind),
}

// The first page of the file under a path; None where there is no file, or a shorter one.
fn first_page<R: Files<File = File>>(rt: &R, path: &str) -> Result<Option<[u8; PAGE]>, HeadFault> {
    match fs::metadata(rt, path) {
        Ok(found) if found.is_file() && found.len() >= PAGE as u64 => {}
        _ => return Ok(None),
    }
    let Ok(file) = File::open(rt, path) else {
        return Err(HeadFault::Open);
    };
    let mut page = [0; PAGE];
    match file.read_exact_at(&mut page, 0) {
        Ok(()) => Ok(Some(page)),
        Err(_) => Err(HeadFault::Read),
    }
}

/// The head of the log under a path; None where there is no file, or one of less than a page.
pub fn log_head_at<R: Files<File = File>>(
    rt: &R,
    path: &str,
) -> Result<Option<LogHead>, HeadFault> {
    match first_page(rt, path) {
        Ok(Some(page)) => match decode_head(&page) {
            Ok(head) => Ok(Some(head)),
            Err(kind) => Err(HeadFault::NoLog(kind)),
        },
        Ok(None) => Ok(None),
        Err(fault) => Err(fault),
    }
}

// Whether the file under a path is, or may be, the log of another book: such a one is never replaced.
fn is_of_other<R: Files<File = File>>(rt: &R, path: &str, identity: &Identity) -> bool {
    match log_head_at(rt, path) {
        Ok(Some(head)) => identity.is_other(&head.identity),
        Ok(None) | Err(HeadFault::NoLog(_)) => false,
        Err(HeadFault::Open | HeadFault::Read) => true,
    }
}

// Notes that the log of another book is under the path, which is why none is made in its place.
fn refuse_other(news: Option<&Arc<LogNews>>) -> SaveFault {
    if let Some(news) = news {
        news.note_other_book();
    }
    SaveFault::Create
}

/// Each call opens the log's folder and the snapshot's for itself.
impl<R: Files<File = File>> LogPlace<FileLog> for R {
    ghost names = { λ place path entries. ⊤ };

    ghost begins = { λ place path setup identity entries. ⊤ };

    fn begin_log<D: Disk>(
        &self,
        _disk: &D,
        alloc: Global,
        path: &str,
        snapshot: Option<&str>,
        identity: Identity,
        setup: &Setup,
        list: &BookList,
        news: Option<&Arc<LogNews>>,
    ) -> Result<FileLog, SaveFault> {
        if is_of_other(self, path, &identity) {
            return Err(refuse_other(news));
        }
        let mut folder = match FileLogFolder::open(self, alloc, path, snapshot) {
            Ok(folder) => folder.telling(news),
            Err(fault) => return Err(of_folder(fault)),
        };
        match begin_stored(&mut folder, alloc, setup, identity, list) {
            Ok(stored) => Ok(FileLog::new(stored)),
            Err(StoredFault::Memory) => Err(SaveFault::Memory),
            Err(StoredFault::File(_)) if folder.refusal() == Some(Refusal::Memory) => {
                Err(SaveFault::Memory)
            }
            Err(StoredFault::File(fault)) => Err(of_rotation(fault)),
        }
    }

    fn name_log(
        &self,
        alloc: Global,
        path: &str,
        snapshot: Option<&str>,
        identity: Identity,
        in_use: &mut FileLog,
        new: FileLog,
        news: Option<&Arc<LogNews>>,
    ) -> Result<(), SaveFault> {
        if is_of_other(self, path, &identity) {
            self.abandon_log(alloc, path, new);
            return Err(refuse_other(news));
        }
        let mut folder = match FileLogFolder::open(self, alloc, path, snapshot) {
            Ok(folder) => folder.telling(news),
            Err(fault) => return Err(of_folder(fault)),
        };
        match name_stored(&mut folder, &mut in_use.stored, new.stored) {
            Ok(()) => Ok(()),
            Err(fault) => Err(of_rotation(fault)),
        }
    }

    /// Where the folder can't be opened the file stays, under the name of the new one: the next log that is begun takes
    /// its place.
    fn abandon_log(&self, alloc: Global, path: &str, new: FileLog) {
        match FileLogFolder::open(self, alloc, path, None) {
            Ok(mut folder) => abandon_stored(&mut folder, new.stored),
            Err(_) => drop(new),
        }
    }
}
