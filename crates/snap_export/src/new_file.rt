//! The file that a folder last created, as a sink.
ghost use Rattle.std.specs.Prelude.{◌≡◌, IsTrue, is_some, ◌+◌, ◌<◌, ◌^◌, IsSome};

use byte_io::{DeviceFault, Sink};
use file_folder::Folder;

/// The file that a folder last created, lent to a writer.
#[derive(Drop)]
pub struct NewFile<'a, F: Folder> {
    folder: &'a mut F,
    ghost created: { IsTrue (is_some (F.last_created folder.now)) },
}

impl<'a, F: Folder> NewFile<'a, F> {
    /// The file that this folder last created.
    pub fn new(folder: &'a mut F) -> NewFile<'a, F>
        requires { IsSome (F.last_created folder.old) }
        ensures same_reference { result.folder.ghost_name ≡ folder.entry.ghost_name }
        ensures folder { result.folder.now ≡ folder.old }
    {
        NewFile { folder }
    }
}

impl<'a, F: Folder> Sink for NewFile<'a, F> {
    ghost write_takes = { λ s offered answer t. (t.folder.ghost_name ≡ s.folder.ghost_name)
        × F.write_takes s.folder.now offered answer t.folder.now };

    ghost failure_count = { λ s. F.failure_count s.folder.now };

    fn write(&mut self, buf: &[u8]) -> Result<usize, DeviceFault> {
        self.folder.write(buf)
    }

    fn failures(&self) -> u64 {
        self.folder.failures()
    }
}
