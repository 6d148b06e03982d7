//! Under which path an open file is, as the system tells it.

use snap_file::UNFINISHED;
use std::alloc::{AllocError, Global};
use std::fs::File;
use std::os::fd::AsRawFd;
use std::os::unix::fs::MetadataExt;

/// For so many milliseconds after its folder has changed each look at a file is whole: the system may count a folder's
/// times in steps, and a further change within one doesn't show in them.
const STEP: u64 = 50;

/// For so many milliseconds a whole look is enough where the folder hasn't changed. A folder above it may be moved.
const ENOUGH: u64 = 1000;

/// When a folder was changed last: whenever a file in it is made, moved or removed, and where it is moved itself.
#[derive(Clone, Copy, PartialEq, Eq)]
struct Changed {
    seconds: i64,
    nanoseconds: i64,
}

/// The path under which a log's file is to stay. A new file takes it once it is renamed.
#[derive(Drop)]
pub(crate) struct Place {
    // The link by which the system tells the path of the open file.
    link: String,
    path: Vec<u8>,
    folder: File,
    // What the last look has found of the folder, if the system tells it.
    changed: Option<Changed>,
    // When that was found first, and when the last whole look was: in milliseconds of a clock that never goes back.
    since: u64,
    looked: u64,
}

/// What a link leads to. None where the system doesn't tell.
fn target<'b>(link: &str, buf: &'b mut [u8; libc::PATH_MAX]) -> Option<&'b [u8]> {
    let count = usize::try_from(os::readlink(link.as_bytes(), buf)).ok()?;
    if count >= buf.len() {
        return None;
    }
    Some(&buf[..count])
}

/// A path without `UNFINISHED` at its end.
fn finished(path: &[u8]) -> &[u8] {
    let end = UNFINISHED.as_bytes();
    if path.ends_with(end) {
        path.split_at(path.len() - end.len()).0
    } else {
        path
    }
}

/// The milliseconds of a clock that never goes back; 0 where there is none.
fn now() -> u64 {
    let mut time = libc::types::timespec {
        tv_sec: 0,
        tv_nsec: 0,
    };
    let _ = libc::clock_gettime(libc::CLOCK_MONOTONIC, &mut time);
    let seconds = u64::try_from(time.tv_sec).unwrap_or(0);
    let nanoseconds = u64::try_from(time.tv_nsec).unwrap_or(0);
    seconds
        .saturating_mul(1000)
        .saturating_add(nanoseconds / 1_000_000)
}

impl Place {
    /// The path under which an open file of this folder is, or which it is to take. None where the system doesn't tell:
    /// then nobody looks.
    pub fn of(alloc: Global, file: &File, folder: File) -> Result<Option<Place>, AllocError> {
        let link = format!(in alloc; "/proc/self/fd/{}", file.as_raw_fd())?;
        let mut buf = [0u8; libc::PATH_MAX];
        let Some(path) = target(link.as_str(), &mut buf) else {
            return Ok(None);
        };
        let path = finished(path).to_vec(alloc)?;
        Ok(Some(Place {
            link,
            path,
            folder,
            changed: None,
            since: 0,
            looked: 0,
        }))
    }

    /// When the folder was changed last. None where the system doesn't tell.
    fn folder_changed(&self) -> Option<Changed> {
        let found = self.folder.metadata().ok()?;
        Some(Changed {
            seconds: found.ctime(),
            nanoseconds: found.ctime_nsec(),
        })
    }

    /// Whether the system tells the same path as at first.
    fn is_there(&self) -> bool {
        let mut buf = [0u8; libc::PATH_MAX];
        match target(self.link.as_str(), &mut buf) {
            Some(path) => finished(path) == self.path.as_slice(),
            None => true,
        }
    }

    /// Whether the file is still there, or was never renamed. A file that was removed or replaced is nowhere.
    ///
    /// A whole look asks for the path, which takes some 12 us. Where the folder is as it was at the last one, that is
    /// enough for a second.
    pub fn is_kept(&mut self) -> bool {
        let (changed, now) = (self.folder_changed(), now());
        if changed.is_none() || changed != self.changed {
            self.changed = changed;
            self.since = now;
        }
        let is_settled = self.looked >= self.since.saturating_add(STEP);
        if is_settled && now < self.looked.saturating_add(ENOUGH) {
            return true;
        }
        self.looked = now;
        self.is_there()
    }
}
