//! A real file as that of a log.
ghost use Rattle.std.specs.Prelude.{◌≡◌, ◌+◌, ◌<◌, ◌^◌, ⊤, true, false};

use crate::news::{FileCall, LogNews};
use crate::place::Place;
use crate::system_file::SystemFile;
use byte_io::DeviceFault;
use log_disk::LogDisk;
use std::io::{self, ErrorKind};
use std::sync::Arc;

/// A file of the system as that of a log. It tells what it holds where the system's file does.
#[derive(Drop)]
pub struct FileDisk<F> {
    file: F,
    // It has so many bytes at least.
    length: u64,
    // Whether it may have got longer or shorter since it was last synced.
    is_resized: bool,
    in_doubt: bool,
    failures: u64,
    // Under which path it is to stay, where that is known.
    place: Option<Place>,
    // Where it is noted why a call failed, if anywhere.
    news: Option<Arc<LogNews>>,
}

impl<F: SystemFile> FileDisk<F> {
    /// The file that was opened to read and to write, has so many bytes at least, and is to stay under this path. No call
    /// of it has failed.
    ///
    /// Its first sync brings its length too to where it outlasts a loss of power, since nobody knows what an earlier
    /// life left.
    pub(crate) fn new(file: F, length: u64, place: Option<Place>) -> FileDisk<F>
        ensures sound { result.in_doubt ≡ false }
        ensures failures { result.failures ≡ 0 }
    {
        FileDisk {
            file,
            length,
            is_resized: true,
            in_doubt: false,
            failures: 0,
            place,
            news: None,
        }
    }

    /// The same, which notes there why a call failed, if anywhere.
    pub fn telling(self, news: Option<Arc<LogNews>>) -> FileDisk<F>
        ensures sound { result.in_doubt ≡ self.in_doubt }
        ensures failures { result.failures ≡ self.failures }
    {
        FileDisk { news, ..self }
    }

    /// Whether the file is still the log's: under its path, and as long as it was made. It asks for no time of the file:
    /// whoever does has the next write note a finer one, which then costs a third of a put.
    fn look(&mut self) -> io::Result<()>
        ensures file { self.new.file ≡ self.old.file }
        ensures sound { self.new.in_doubt ≡ self.old.in_doubt }
        ensures failures { self.new.failures ≡ self.old.failures }
    {
        if let Some(place) = &mut self.place {
            if !place.is_kept() {
                return Err(io::Error::from(ErrorKind::NotFound));
            }
        }
        if self.file.byte_length()? < self.length {
            return Err(io::Error::from(ErrorKind::UnexpectedEof));
        }
        Ok(())
    }

    /// Notes up to where something was written.
    fn note_end(&self, end: u64) {
        if let Some(news) = &self.news {
            news.note_end(end);
        }
    }

    /// Notes that a sync begins.
    fn note_sync_begun(&self) {
        if let Some(news) = &self.news {
            news.note_sync_begun();
        }
    }

    /// Notes that it has ended.
    fn note_sync_ended(&self) {
        if let Some(news) = &self.news {
            news.note_sync_ended();
        }
    }

    /// Notes a sync.
    fn note_sync(&self) {
        if let Some(news) = &self.news {
            news.note_sync();
        }
    }

    /// Counts a call that fails so.
    fn fail(&mut self, call: FileCall, error: &io::Error) -> DeviceFault
        requires { self.old.failures + 1 < 2 ^ 64 }
        ensures { self.new ≡ record self.old { failures = self.old.failures + 1 } }
    {
        if let Some(news) = &self.news {
            news.note_failure(call, error);
        }
        self.failures += 1;
        DeviceFault
    }

    /// Counts a call that fails so and leaves the file in doubt.
    fn fail_in_doubt(&mut self, call: FileCall, error: &io::Error) -> DeviceFault
        requires { self.old.failures + 1 < 2 ^ 64 }
        ensures { self.new ≡ record self.old { failures = self.old.failures + 1; in_doubt = true } }
    {
        if let Some(news) = &self.news {
            news.note_break(call, error);
        }
        self.in_doubt = true;
        self.failures += 1;
        DeviceFault
    }
}

impl<F: SystemFile> LogDisk for FileDisk<F> {
    ghost telling = { F.telling };

    ghost tells = { λ s. F.tells s.file };

    ghost written = { λ s. F.written s.file };

    ghost may_leave = { λ s left. F.may_leave s.file left };

    ghost is_fresh = { λ s i. F.is_fresh s.file i };

    ghost moment = { λ s. F.moment s.file };

    ghost left_since = { λ s t left. F.left_since s.file t left };

    ghost failure_count = { λ s. s.failures };

    ghost in_doubt = { λ s. s.in_doubt };

    ghost lost_name = { ⊤ };

    ghost counts_now = { λ disk t left later may. F.counts_now disk.file t left later may };

    ghost only_now = { λ disk left since. F.only_now disk.file left since };

    fn read_at(&mut self, at: u64, buf: &mut [u8]) -> Result<(), DeviceFault> {
        match self.file.read_padded(at, buf) {
            Ok(()) => Ok(()),
            Err(error) => Err(self.fail(FileCall::Read, &error)),
        }
    }

    fn write_at(&mut self, at: u64, bytes: &[u8]) -> Result<(), DeviceFault> {
        let end = at.saturating_add(bytes.len() as u64);
        self.is_resized = self.is_resized || self.length < end;
        match self.file.write_whole(at, bytes) {
            Ok(()) => {
                self.length = self.length.max(end);
                self.note_end(end);
                Ok(())
            }
            Err(error) => Err(self.fail_in_doubt(FileCall::Write, &error)),
        }
    }

    fn fill(&mut self, at: u64, zeros: &[u8]) -> Result<(), DeviceFault> {
        let end = at.saturating_add(zeros.len() as u64);
        self.is_resized = self.is_resized || self.length < end;
        match self.file.write_whole(at, zeros) {
            Ok(()) => {
                self.length = self.length.max(end);
                Ok(())
            }
            Err(error) => Err(self.fail(FileCall::MakeRoom, &error)),
        }
    }

    fn cut(&mut self, len: u64) -> Result<(), DeviceFault> {
        self.is_resized = true;
        self.length = self.length.min(len);
        match self.file.cut_to(len) {
            Ok(()) => Ok(()),
            Err(error) => Err(self.fail_in_doubt(FileCall::Cut, &error)),
        }
    }

    /// Syncs the bytes and the length, and all else where the length may have changed. Then it looks after the file:
    /// whoever moves, removes, replaces or cuts the log of a server takes away what would be told as durable.
    fn sync(&mut self) -> Result<(), DeviceFault> {
        self.note_sync_begun();
        let synced = self.file.sync_now(self.is_resized);
        self.note_sync_ended();
        if let Err(error) = synced {
            return Err(self.fail_in_doubt(FileCall::Sync, &error));
        }
        self.is_resized = false;
        self.note_sync();
        match self.look() {
            Ok(()) => Ok(()),
            Err(error) => Err(self.fail_in_doubt(FileCall::Look, &error)),
        }
    }

    fn failures(&self) -> u64 {
        self.failures
    }

    fn is_in_doubt(&self) -> bool {
        self.in_doubt
    }
}
