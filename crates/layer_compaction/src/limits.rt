//! What a layer may have, and when its matrices are added up, counted and given filters.

/// The most matrices that a layer holds side by side. A look-up asks each, so there are few; a merge of so many at once
/// moves each of their cells five times at most.
pub const MAX_RUNS: usize = 32;

/// The fewest runs of layer 1 that `Layer::begun` gives together, unless the layer is about to pass its cut. With fewer
/// each of its cells is written more often. With more, whoever adds them up is more often too late for the addition
/// that passes the cut, which has to do it then.
pub const GATHERED_RUNS: usize = 16;

/// The most entries of a layer, as its bound tells them, whose runs are all added up before it passes its cut.
pub const MAX_COUNTED: u64 = 1 << 17;

/// The fewest entries of a matrix that gets a filter of its places, once it was added up. A bisection in fewer is
/// short, and so small a matrix is soon added up with others. Only time rests on it.
pub const FEWEST_FILTERED: u64 = 16_384;

/// The fewest runs of a layer that `Layer::begun` gives together, unless the layer is about to pass its cut. With fewer
/// each of its cells is written more often, and with more a look-up asks more of them.
pub const FEWEST_DUE: usize = 10;

/// Where the matrices before another have, for each of them, more than so many times its entries, each of its cells is
/// looked up in them, and else all are walked through, to tell how many places are new: a look-up takes as long as so
/// many steps.
pub const WALKED_RATIO: u64 = 16;

/// Entries of all matrices of a layer together: with no more, what may pass its cut becomes one matrix, which takes one
/// pass for its sum and its count. With more, a large first matrix stays beside the sum of the others, and the places
/// are counted without adding them up.
pub const MAX_LISTED: u64 = 16_384;

/// The most entries that an addition lists to count their places. The list and the sums of its parts take 24 bytes each
/// for an entry: some 100 MB.
pub const LONGEST_LIST: u64 = 1 << 21;
