//! A layer of a hierarchical hypersparse matrix: matrices side by side, and when they are compacted.
//!
//! A matrix that comes to a layer is put beside the others as a run, as a log-structured merge tree does with sorted
//! runs (O'Neil, Cheng, Gawlick and O'Neil, 1996, "The Log-Structured Merge-Tree"): that takes the time of a pointer.
//! Runs are compacted, that is added up into one, where there are many of them, where the later ones outgrow an earlier
//! one, or where it has to be known how many places they have together. Each may have a filter of its places beside it.
//!
//! That is done while an addition waits for it, or apart from all additions: `Layer::begun` gives the runs that are due
//! as a `Compaction`, which whoever has time runs without the lock that the layer is behind, and `Layer::compacted`
//! takes their sum over.
//!
//! Contracts see a layer as the sum of its runs alone: which of them are added up, counted or filtered, and when, is a
//! matter of time and memory (`limits`).
#![tactic(auto)]

mod due;
mod filters;
mod layer;
mod limits;
mod lists;
mod lookup;
mod pairs;
mod runs;
mod walk;

pub use due::Compaction;
pub use layer::{Layer, Step};
pub use lists::merged;
pub use lookup::plus;
