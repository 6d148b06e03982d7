//! The real folder of a log.
ghost use Rattle.std.specs.Prelude.{◌≡◌, ◌+◌, ◌<◌, ◌^◌, None, IfOk, IfSome, OnOk, is_some, string_bytes, false};
ghost use Rattle.log_folder.specs.System.{CallOf, HasSyncedNames};
ghost use Rattle.snap_file.specs.System.{make};

use crate::calls::{FoundFile, LogFolder, NumberedFile};
use crate::fault::FolderFault;
use crate::file_disk::FileDisk;
use crate::news::{FileCall, LogNews};
use crate::place::Place;
use byte_io::DeviceFault;
use snap_file::{FileSystem, RealFiles, UNFINISHED, folder_of};
use sparse_log::bytes_to_read;
use std::alloc::Global;
use std::fs::{self, File, OpenFile, OpenOptions, TryLockError};
use std::io::{self, ErrorKind};
use std::os::unix::fs::MetadataExt;
use std::rt::Files;
use std::sync::Arc;

/// How often a log's file is opened while others take its name in turn.
const MOST_OPENS: usize = 5;

/// Why a folder has given no file, beside a failed call.
#[derive(Clone, Copy, Debug, PartialEq, Eq)]
pub enum Refusal {
    /// Another process has the lock of the log's file.
    Busy,
    /// A growth was refused.
    Memory,
}

/// The folder of the log under a path, which stays open for as long as this lives. It doesn't tell its files.
///
/// Two that write to the log of one path write over each other: whoever may meet another takes the path's lock first,
/// by `snap_file::lock`. A file that is found or made is locked too, as long as it is open: it may have several names.
#[derive(Drop)]
pub struct FileLogFolder<'a, R: Files<File = File>, S: FileSystem<File = File, Folder = File>> {
    // Files are looked at and opened by the one, and made, named and synced by the other.
    rt: &'a R,
    system: S,
    alloc: Global,
    path: &'a str,
    // The path with `UNFINISHED` behind it.
    new_name: String,
    folder: File,
    // The folder of the snapshot, if there is one.
    snapshot_folder: Option<File>,
    // How many files it has made and found.
    files: u64,
    // Whether it has made one.
    has_made: bool,
    // Why it gave no file last, where that is known.
    refusal: Option<Refusal>,
    failures: u64,
    // Where it is noted why a call failed, if anywhere.
    news: Option<Arc<LogNews>>,
}

/// Opens a folder, so that it can be synced.
fn open_folder<S: FileSystem>(system: &mut S, path: &str) -> Result<S::Folder, FolderFault> {
    match system.open_folder(folder_of(path)) {
        Ok(folder) => Ok(folder),
        Err(_) => Err(FolderFault::OpenFailed),
    }
}

/// Whether another open file has the lock. Where the system has no locks, none has.
fn is_locked(file: &File) -> bool {
    matches!(file.try_lock(), Err(TryLockError::WouldBlock))
}

/// Whether a path leads to an open file.
fn leads_to<R: Files<File = File>>(rt: &R, path: &str, file: &File) -> io::Result<bool> {
    let (named, open) = (fs::metadata(rt, path)?, file.metadata()?);
    Ok(named.dev() == open.dev() && named.ino() == open.ino())
}

/// Opens the file under a path and takes its lock. Where another file has taken the name meanwhile, that is opened.
fn open_locked<R: Files<File = File>>(rt: &R, path: &str) -> io::Result<File> {
    for _ in 0..MOST_OPENS {
        let file = OpenOptions::new().read(true).write(true).open(rt, path)?;
        if is_locked(&file) {
            break;
        }
        if leads_to(rt, path, &file)? {
            return Ok(file);
        }
    }
    Err(io::Error::from(ErrorKind::WouldBlock))
}

/// The path under which an open file of a folder is to stay.
fn place_of(alloc: Global, file: &File, folder: &File) -> io::Result<Option<Place>> {
    match Place::of(alloc, file, folder.try_clone()?) {
        Ok(place) => Ok(place),
        Err(_) => Err(io::Error::from(ErrorKind::OutOfMemory)),
    }
}

/// Opens the file under a path, and tells how many of its bytes are to be read; None where nothing stands there. Nothing
/// but a file is opened: the opening of a FIFO would wait for a writer.
fn open_log<R: Files<File = File>>(
    rt: &R,
    alloc: Global,
    path: &str,
    folder: &File,
) -> io::Result<Option<(FileDisk<File>, u64)>>
    ensures { IfOk result (λ found. IfSome found (λ f. (f.0.in_doubt ≡ false) × (f.0.failures ≡ 0))) }
{
    match fs::metadata(rt, path) {
        Ok(found) if found.is_file() => {}
        Ok(_) => return Err(io::Error::from(ErrorKind::Other)),
        Err(error) if error.kind() == ErrorKind::NotFound => return Ok(None),
        Err(error) => return Err(error),
    }
    let file = open_locked(rt, path)?;
    let place = place_of(alloc, &file, folder)?;
    let length = file.metadata()?.len();
    let to_read = bytes_to_read(&file, length);
    Ok(Some((FileDisk::new(file, length, place), to_read)))
}

/// Makes the new file of the log under a path, and takes its lock before it has that name.
fn make_beside<S: FileSystem<File = File>>(
    system: &mut S,
    alloc: Global,
    path: &str,
    name: &str,
    folder: &File,
) -> io::Result<FileDisk<File>>
    ensures sound { IfOk result (λ disk. (disk.in_doubt ≡ false) × (disk.failures ≡ 0)) }
    ensures made { OnOk result (S.did system.old (make name.now) system.new) }
{
    let file = system.make(path, name)?;
    if is_locked(&file) {
        return Err(io::Error::from(ErrorKind::WouldBlock));
    }
    let place = place_of(alloc, &file, folder)?;
    Ok(FileDisk::new(file, 0, place))
}

/// The same news in another hand, if there is one to be had.
fn again(news: Option<&Arc<LogNews>>) -> Option<Arc<LogNews>> {
    Arc::try_clone(news?).ok()
}

impl<'a, R: Files<File = File>> FileLogFolder<'a, R, RealFiles<'a, R>> {
    /// The folder of the log under `path`, and that of the snapshot beside which it stands.
    ///
    /// # Errors
    ///
    /// `Memory` for the name of the new file, and `OpenFailed` where a folder can't be opened.
    pub fn open(
        rt: &'a R,
        alloc: Global,
        path: &'a str,
        snapshot: Option<&str>,
    ) -> Result<FileLogFolder<'a, R, RealFiles<'a, R>>, FolderFault>
        ensures { IfOk result (λ folder. folder.failures ≡ 0) }
    {
        let Ok(new_name) = format!(in alloc; "{path}{UNFINISHED}") else {
            return Err(FolderFault::Memory);
        };
        let mut system = RealFiles::new(rt);
        let folder = open_folder(&mut system, path)?;
        let snapshot_folder = match snapshot {
            Some(beside) => Some(open_folder(&mut system, beside)?),
            None => None,
        };
        Ok(FileLogFolder {
            rt,
            system,
            alloc,
            path,
            new_name,
            folder,
            snapshot_folder,
            files: 0,
            has_made: false,
            refusal: None,
            failures: 0,
            news: None,
        })
    }
}

impl<'a, R: Files<File = File>, S: FileSystem<File = File, Folder = File>> FileLogFolder<'a, R, S> {
    /// The same, which notes there why a call of its own or of its files failed, if anywhere.
    pub fn telling(self, news: Option<&Arc<LogNews>>) -> FileLogFolder<'a, R, S>
        ensures { result.failures ≡ self.entry.failures }
    {
        FileLogFolder {
            news: again(news),
            ..self
        }
    }

    /// Whether it has made a new file.
    pub fn has_made(&self) -> bool {
        self.has_made
    }

    /// Whether another process has the lock of the file under the path, and so writes that log.
    pub fn is_in_use(&self) -> bool {
        match fs::metadata(self.rt, self.path) {
            Ok(found) if found.is_file() => {}
            _ => return false,
        }
        match OpenOptions::new().read(true).open(self.rt, self.path) {
            Ok(file) => is_locked(&file),
            Err(_) => false,
        }
    }

    /// Why it gave no file last, where that was no failed call.
    pub fn refusal(&self) -> Option<Refusal> {
        self.refusal
    }

    /// Counts a call by which a file was to be had, and that fails so.
    fn refuse(&mut self, call: FileCall, error: &io::Error) -> DeviceFault
        requires { self.old.failures + 1 < 2 ^ 64 }
        ensures { self.new.failures ≡ self.old.failures + 1 }
    {
        self.refusal = match error.kind() {
            ErrorKind::WouldBlock => Some(Refusal::Busy),
            ErrorKind::OutOfMemory => Some(Refusal::Memory),
            _ => None,
        };
        self.fail(call, error)
    }

    /// Gives a file its number.
    fn number(&mut self, disk: FileDisk<File>) -> NumberedFile<FileDisk<File>>
        ensures system { self.new.system ≡ self.old.system }
        ensures sound { result.disk.in_doubt ≡ disk.in_doubt }
        ensures none_failed { result.disk.failures ≡ disk.failures }
        ensures failures { self.new.failures ≡ self.old.failures }
    {
        let number = self.files;
        self.files = number.saturating_add(1);
        let disk = disk.telling(again(self.news.as_ref()));
        NumberedFile { disk, number }
    }

    /// Syncs the snapshot's folder and the log's.
    fn sync_folders(&mut self) -> io::Result<()>
        ensures synced { OnOk result (HasSyncedNames S.did self.old.system (is_some self.old.snapshot_folder)
            self.new.system) }
        ensures failures { self.new.failures ≡ self.old.failures }
    {
        if let Some(folder) = &self.snapshot_folder {
            self.system.sync_folder(folder)?;
        }
        self.system.sync_folder(&self.folder)
    }

    /// Counts a call that fails so.
    fn fail(&mut self, call: FileCall, error: &io::Error) -> DeviceFault
        requires { self.old.failures + 1 < 2 ^ 64 }
        ensures { self.new ≡ record self.old { failures = self.old.failures + 1 } }
    {
        if let Some(news) = &self.news {
            news.note_failure(call, error);
        }
        self.failures += 1;
        DeviceFault
    }

    /// Counts a call by which a log was to get the name, and that fails so.
    fn fail_to_name(&mut self, call: FileCall, error: &io::Error) -> DeviceFault
        requires { self.old.failures + 1 < 2 ^ 64 }
        ensures { self.new ≡ record self.old { failures = self.old.failures + 1 } }
    {
        if let Some(news) = &self.news {
            news.note_break(call, error);
        }
        self.failures += 1;
        DeviceFault
    }
}

impl<'a, R: Files<File = File>, S: FileSystem<File = File, Folder = File>> LogFolder
    for FileLogFolder<'a, R, S> {
    type Disk = FileDisk<File>;

    ghost tells = { λ s. ⊥ };

    ghost stored = { λ s disk. ⊥ };

    ghost named = { λ s. None };

    ghost made = { λ s. None };

    ghost may_name = { λ s x. ⊥ };

    ghost call_gives = { λ s call answer t. CallOf S.did s.system s.path.now (string_bytes s.new_name)
        (is_some s.snapshot_folder) call answer t.system };

    ghost failure_count = { λ s. s.failures };

    ghost files_tell = { λ folder. (λ told. told, λ told. told) };

    fn find(&mut self) -> Result<Option<FoundFile<FileDisk<File>>>, DeviceFault> {
        match open_log(self.rt, self.alloc, self.path, &self.folder) {
            Ok(Some((disk, length))) => {
                let file = self.number(disk);
                Ok(Some(FoundFile { file, length }))
            }
            Ok(None) => Ok(None),
            Err(error) => Err(self.refuse(FileCall::Open, &error)),
        }
    }

    /// Removes what stands under the new file's name, a folder excepted, and makes the file anew. What is neither a
    /// file nor a folder under the log's name isn't replaced.
    fn make_new(&mut self) -> Result<NumberedFile<FileDisk<File>>, DeviceFault> {
        match make_beside(
            &mut self.system,
            self.alloc,
            self.path,
            self.new_name.as_str(),
            &self.folder,
        ) {
            Ok(disk) => {
                self.has_made = true;
                Ok(self.number(disk))
            }
            Err(error) => Err(self.refuse(FileCall::Create, &error)),
        }
    }

    fn take_name(&mut self, _file: &NumberedFile<FileDisk<File>>) -> Result<(), DeviceFault> {
        match self.system.rename(self.new_name.as_str(), self.path) {
            Ok(()) => Ok(()),
            Err(error) => Err(self.fail_to_name(FileCall::Rename, &error)),
        }
    }

    fn sync_names(&mut self) -> Result<(), DeviceFault> {
        match self.sync_folders() {
            Ok(()) => Ok(()),
            Err(error) => Err(self.fail_to_name(FileCall::SyncFolder, &error)),
        }
    }

    fn remove_new(&mut self) {
        let _ = self.system.remove(self.new_name.as_str());
    }

    fn failures(&self) -> u64 {
        self.failures
    }
}
