//! How many cells wait.

/// Cells: the most that `PendingLayers` lets wait, but for those of one addition that is larger by itself. Memory bounds
/// them, and not the cuts: at 24 bytes for each the list takes some 200 MB when it is full.
pub const MAX_PENDING: usize = 1 << 23;

/// Cells: so many wait at least before the list is added up. The first time tells whether places come again.
pub const FIRST_DUE: usize = 1 << 16;

/// Where at least one in so many cells of the list went when it was added up, places come again, and it is added up
/// early from then on: what it holds stays small then, and near the processor. Where fewer go, what is left would be
/// sorted again and again.
pub const SPARED_SHARE: usize = 2;
