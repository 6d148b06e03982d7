//! Why the reading of a log stops.

use log_blocks::LogFault;

/// Why a log isn't read on.
#[derive(Clone, Copy)]
pub enum Stop {
    /// This is told: the source has ended or failed, or memory was refused.
    Told(LogFault),
    /// This is wrong with what came, of whatever follows. Bytes may be left.
    Judged(LogFault),
}
