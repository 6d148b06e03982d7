//! The calls by which a snapshot is saved, of which none passes the system's limit of the size of files.
ghost use Rattle.std.specs.Prelude.{⊤};

use log_folder::within_limit;
use snap_file::{FileSystem, RealFiles};
use std::io::{self, Seek, Write};
use std::rt::Files;

/// The file system of a runtime. A write beyond the limit fails; of `RealFiles` it ends the process.
#[derive(Drop)]
pub struct LimitedFiles<'a, R: Files> {
    files: RealFiles<'a, R>,
}

impl<'a, R: Files> LimitedFiles<'a, R> {
    /// That of this runtime.
    pub fn new(rt: &'a R) -> LimitedFiles<'a, R> {
        LimitedFiles {
            files: RealFiles::new(rt),
        }
    }
}

impl<'a, R: Files> FileSystem for LimitedFiles<'a, R> {
    type File = R::File;

    type Folder = R::File;

    ghost did = { λ s call t. ⊤ };

    fn make(&mut self, path: &str, name: &str) -> io::Result<R::File> {
        self.files.make(path, name)
    }

    fn write(&mut self, file: &mut R::File, buf: &[u8]) -> io::Result<usize> {
        let at = file.stream_position()?;
        file.write(within_limit(at, buf)?)
    }

    fn sync(&mut self, file: &R::File) -> io::Result<()> {
        self.files.sync(file)
    }

    fn open_folder(&mut self, name: &str) -> io::Result<R::File> {
        self.files.open_folder(name)
    }

    fn sync_folder(&mut self, folder: &R::File) -> io::Result<()> {
        self.files.sync_folder(folder)
    }

    fn rename(&mut self, from: &str, to: &str) -> io::Result<()> {
        self.files.rename(from, to)
    }

    fn remove(&mut self, name: &str) -> io::Result<()> {
        self.files.remove(name)
    }
}
