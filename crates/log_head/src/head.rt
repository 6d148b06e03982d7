//! The head of a log.

use batch_store::Setup;
use snap_file::Identity;

/// The first eight bytes of each log: HHM-LOG and LF.
pub(crate) const MARK: u64 = 0x4848_4d2d_4c4f_470a;

/// The version of logs that don't say whose they are. They are read, and none is written.
pub(crate) const OLD_VERSION: u32 = 1;

/// The version that is written.
pub(crate) const VERSION: u32 = 2;

/// Where the checksum of a head page stands, which is of all bytes before it.
pub(crate) const CHECK_AT: usize = 4092;

/// What a log says of itself: its setup, what was accepted before its first batch, and whose it is.
#[derive(Clone, Copy)]
pub struct LogHead {
    pub setup: Setup,
    /// How many batches stand before the log. In a head that was read it is at most `max_batches` of the setup.
    pub first: u64,
    /// The sum of their totals. In a head that was read it is at most the setup's limit.
    pub total: u64,
    /// The link of their entries (`link_of`).
    pub link: u32,
    /// Whose the log is. In a head of the old version that isn't known.
    pub identity: Identity,
}
