//! The numbers of the format.

/// The first eight bytes of each file: HHMSNAP and LF.
pub const MARK: u64 = 0x4848_4d53_4e41_500a;

/// The version of files in which nothing is folded. They are read, and none is written.
pub const OLD_VERSION: u32 = 1;

/// The first version with checksums.
pub const CHECKED_VERSION: u32 = 3;

/// The version of the files that are written, and the first that says whose a file is.
pub const VERSION: u32 = 4;

/// Batches: the most that a setup may allow in a file of an older version.
pub const OLD_MAX_BATCHES: u64 = 1_000_000;

/// Cells: room for so many of a matrix is made at once, 96 KiB. A longer list grows with the cells that come, so that a
/// number in a file alone takes no memory.
pub const FIRST_CELLS: u64 = 4_096;

/// Bytes: those of a cell.
pub const CELL_BYTES: usize = 24;
