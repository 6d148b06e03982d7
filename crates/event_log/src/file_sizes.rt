//! How large files are.

use std::fs;
use std::rt::Files;

/// Tells how large files are. Code under the bound `Files` can't be sent to threads, so the thread that tells events
/// knows this trait, and every runtime with files has it.
pub trait FileSizes {
    /// How many bytes the file under a path has, if that can be told.
    fn file_size(&self, path: &str) -> Option<u64>;
}

impl<R: Files> FileSizes for R {
    fn file_size(&self, path: &str) -> Option<u64> {
        Some(fs::metadata(self, path).ok()?.len())
    }
}
