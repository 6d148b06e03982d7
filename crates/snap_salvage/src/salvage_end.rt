//! What ends the batches that are salvaged.

use log_blocks::LogFault;

/// What ends the batches that are salvaged.
#[derive(Clone, Copy, Debug, PartialEq, Eq)]
pub enum SalvageEnd {
    /// The end of the log: nothing is wrong with it.
    Whole,
    /// A page of the log with this fault.
    Fault(LogFault),
    /// The end of the snapshot, after which the log begins at this batch.
    Gap(u64),
}
