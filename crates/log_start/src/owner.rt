//! Whose a log is to be that a start looks for.

use snap_file::Identity;

/// Whose a log is to be that a start looks for, and whether it must be there.
#[derive(Clone, Copy, Debug, PartialEq, Eq)]
pub struct LogOwner {
    /// What the snapshot says; unknown where there is none, or where it doesn't say whose it is.
    pub known: Identity,
    /// The identity of a log that is begun where neither the snapshot nor a log says one.
    pub drawn: Identity,
    /// Whether the start is refused where no log is there.
    pub must_be_there: bool,
}
