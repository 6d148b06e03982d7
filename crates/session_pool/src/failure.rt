//! Why the last save that failed did.

use log_folder::LogNews;
use snap_file::SaveFault;
use std::sync::{Arc, Mutex, Wait};

/// Which file a save was about to write.
#[derive(Clone, Copy, Debug, PartialEq, Eq)]
pub enum SavedFile {
    /// The snapshot.
    Snapshot,
    /// The log that is begun anew behind it.
    Log,
}

/// A save that failed: at which file and step, and the system's number of the error, if it had one.
#[derive(Clone, Copy, Debug, PartialEq, Eq)]
pub struct FailedSave {
    pub file: SavedFile,
    pub fault: SaveFault,
    pub error: Option<i32>,
}

/// Which save failed last, if one did, and what has happened to the log. Saves that come to their end meanwhile change
/// it.
#[derive(Drop)]
pub struct LastFailure {
    failed: Mutex<Option<FailedSave>>,
    news: Arc<LogNews>,
}

impl LastFailure {
    /// None has failed. What happens to the log is noted there.
    pub fn new(news: Arc<LogNews>) -> LastFailure {
        LastFailure {
            failed: Mutex::new(None),
            news,
        }
    }

    /// This one has.
    pub(crate) fn note<R: Wait>(
        &self,
        rt: &R,
        file: SavedFile,
        fault: SaveFault,
        error: Option<i32>,
    ) {
        let mut failed = self.failed.lock(rt);
        *failed = Some(FailedSave { file, fault, error });
    }

    /// The one that failed last.
    pub fn last<R: Wait>(&self, rt: &R) -> Option<FailedSave> {
        let failed = self.failed.lock(rt);
        *failed
    }

    /// What has happened to the log.
    pub fn news(&self) -> &Arc<LogNews> {
        &self.news
    }
}
