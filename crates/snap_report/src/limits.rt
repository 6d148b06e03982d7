//! What of a snapshot is read, and how its batches are added up.

/// The most bytes of a snapshot that are read.
pub const SNAPSHOT_BYTES: u64 = 1 << 40;

/// The most bytes of a log that are read.
pub const LOG_BYTES: u64 = 1 << 40;

/// The cuts of the layers in which batches are added up, in entries.
pub const CHECK_CUTS: [u64; 3] = [4_096, 65_536, 1_048_576];
