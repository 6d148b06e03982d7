//! What a start asks about the paths that it is given.
ghost use Rattle.std.specs.Prelude.{ℕ, List, IfOk, string_bytes, ⊤};

use snap_file::folder_of;
use std::alloc::{AllocError, Global};
use std::fs::{self, File};
use std::os::unix::fs::MetadataExt;
use std::rt::Files;

/// Paths, and the files under them. Every runtime with files has this trait.
pub trait PathHost {
    // What it has answered to a question after the file under this path: the path that this has without links. Of a real
    // host's links no clause can speak, so there it is any; but callers are proved for every host, so the paths that
    // they go on with are its answers.
    ghost leads: { Self → List ℕ → List ℕ → Type 0 };

    /// A path, or where it is a link that of the file that it leads to.
    fn resolved(&self, alloc: Global, path: &str) -> Result<String, AllocError>
        ensures { IfOk result (λ target. leads self.now path.now (string_bytes target)) };

    /// Which folder a path is in: its device, and its number there. None where that can't be known.
    fn folder_id(&self, path: &str) -> Option<(u64, u64)>;

    /// Which file is under a path: its device, and its number there. None where that can't be known.
    fn file_id(&self, path: &str) -> Option<(u64, u64)>;
}

impl<R: Files<File = File> + Alloc> PathHost for R {
    ghost leads = { λ h path target. ⊤ };

    fn resolved(&self, alloc: Global, path: &str) -> Result<String, AllocError> {
        let is_link = matches!(fs::symlink_metadata(self, path), Ok(found) if found.is_symlink());
        if is_link {
            if let Ok(target) = fs::canonicalize(self, path) {
                return target.as_str().to_string(alloc);
            }
        }
        path.to_string(alloc)
    }

    fn folder_id(&self, path: &str) -> Option<(u64, u64)> {
        self.file_id(folder_of(path))
    }

    fn file_id(&self, path: &str) -> Option<(u64, u64)> {
        let found = fs::metadata(self, path).ok()?;
        Some((found.dev(), found.ino()))
    }
}
