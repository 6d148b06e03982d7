//! Why a log has no folder, and why it wasn't begun anew.

use thiserror::Error;

/// Why the folder of a log wasn't opened.
#[derive(Clone, Copy, Debug, PartialEq, Eq, Error)]
pub enum FolderFault {
    /// There was no memory for a name.
    #[error("memory")]
    Memory,
    /// It isn't there, or can't be opened.
    #[error("folder: OpenFailed")]
    OpenFailed,
}

/// Why a log wasn't begun anew.
///
/// After `Create`, `Write` and `Sync` the log in use is as it was. After `Rename` nobody knows which of the two a loss
/// of power leaves under the name, so neither may be written to.
#[derive(Clone, Copy, Debug, PartialEq, Eq, Error)]
pub enum RotateFault {
    /// The new file could not be made.
    #[error("log: Create")]
    Create,
    /// Not all of it was written.
    #[error("log: Write")]
    Write,
    /// It could not be synced.
    #[error("log: Sync")]
    Sync,
    /// It could not be given its name, or its folder could not be synced behind that.
    #[error("log: Rename")]
    Rename,
}
