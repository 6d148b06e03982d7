//! The calls of the system by which a new file takes the place of another.
ghost use Rattle.std.specs.Prelude.{◌≤◌, length, take, IfOk, OnOk, ⊤};
ghost use Rattle.snap_file.specs.System.{SystemCall, make, write, sync, open_folder, sync_folder, rename};

use crate::access::{access_under, clear, make_file};
use std::fs::{self, OpenFile};
use std::io::{self, Write};
use std::rt::Files;

/// A file system, by the calls that are made of it one after another.
///
/// As of a device, one call is a relation between what stands before it and what stands after it. What a call does is
/// trusted of the system, whose impl has one line for each; which calls are made, and in which order, is proved over
/// every such file system.
pub trait FileSystem: Drop {
    /// A file that was made, open.
    type File: Drop;

    /// A folder, open.
    type Folder: Drop;

    // This call was made and has answered Ok, and it led from one state to the other.
    ghost did: { Self → SystemCall → Self → Type 0 };

    /// Makes a new file of this name, in the place of what stands under it, a folder excepted. It gets the owner, the
    /// group and the mode of the file under `path`, if there is one.
    fn make(&mut self, path: &str, name: &str) -> io::Result<Self::File>
        ensures { OnOk result (did self.old (make name.now) self.new) };

    /// Writes bytes from the front of `buf` behind what the file has, and answers how many.
    fn write(&mut self, file: &mut Self::File, buf: &[u8]) -> io::Result<usize>
        ensures bound { IfOk result (λ n. n ≤ length buf.now) }
        ensures wrote { IfOk result (λ n. did self.old (write (take n buf.now)) self.new) };

    /// Brings the file to where it outlasts a loss of power.
    fn sync(&mut self, file: &Self::File) -> io::Result<()>
        ensures { OnOk result (did self.old sync self.new) };

    /// Opens a folder.
    fn open_folder(&mut self, name: &str) -> io::Result<Self::Folder>
        ensures { OnOk result (did self.old (open_folder name.now) self.new) };

    /// Brings the names in the folder to where they outlast a loss of power.
    fn sync_folder(&mut self, folder: &Self::Folder) -> io::Result<()>
        ensures { OnOk result (did self.old sync_folder self.new) };

    /// Moves the file `from` over the name `to`.
    fn rename(&mut self, from: &str, to: &str) -> io::Result<()>
        ensures { OnOk result (did self.old (rename from.now to.now) self.new) };

    /// Removes what stands under the name, if anything does, a folder excepted.
    fn remove(&mut self, name: &str) -> io::Result<()>;
}

/// The file system of a runtime.
#[derive(Drop)]
pub struct RealFiles<'a, R: Files> {
    rt: &'a R,
}

impl<'a, R: Files> RealFiles<'a, R> {
    /// That of this runtime.
    pub fn new(rt: &'a R) -> RealFiles<'a, R> {
        RealFiles { rt }
    }
}

// Makes the file with the access of the one whose place it is to take.
fn make_beside<R: Files>(rt: &R, path: &str, name: &str) -> io::Result<R::File> {
    let Ok(access) = access_under(rt, path) else {
        return Err(io::Error::from(io::ErrorKind::Other));
    };
    make_file(rt, name, access)
}

impl<'a, R: Files> FileSystem for RealFiles<'a, R> {
    type File = R::File;

    type Folder = R::File;

    ghost did = { λ s call t. ⊤ };

    fn make(&mut self, path: &str, name: &str) -> io::Result<R::File> {
        make_beside(self.rt, path, name)
    }

    fn write(&mut self, file: &mut R::File, buf: &[u8]) -> io::Result<usize> {
        file.write(buf)
    }

    fn sync(&mut self, file: &R::File) -> io::Result<()> {
        file.sync_all()
    }

    fn open_folder(&mut self, name: &str) -> io::Result<R::File> {
        fs::open(self.rt, name)
    }

    fn sync_folder(&mut self, folder: &R::File) -> io::Result<()> {
        folder.sync_all()
    }

    fn rename(&mut self, from: &str, to: &str) -> io::Result<()> {
        fs::rename(self.rt, from, to)
    }

    fn remove(&mut self, name: &str) -> io::Result<()> {
        clear(self.rt, name)
    }
}
