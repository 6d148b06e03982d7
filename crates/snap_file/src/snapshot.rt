//! A snapshot in memory.

use crate::origin::Origin;
use batch_store::{BookList, Setup};
use std::marker::Model;

/// A setup and a list of what a book of it accepted: no client and number stands twice, folded or not, each matrix has
/// the setup's dimensions, both limits hold, and the base is of the folded batches. So an engine is made of it unless
/// memory is refused.
///
/// Contracts see the origin, the setup and the list.
#[derive(Drop)]
pub struct Snapshot {
    /// Whose the file is that it was read from, or that it is written to.
    pub origin: Origin,
    /// Dimensions, cuts, shards and limits.
    pub setup: Setup,
    /// The folded batches and those after them, in order of acceptance.
    pub list: BookList,
}

impl Model for Snapshot {
    ghost use Rattle.snap_file.specs.Snapshots.{Saved, saved, coded_saved, IsSaved};

    ghost Value = { Saved };

    ghost coded = { coded_saved };

    ghost view = { λ a. saved a.origin a.setup a.list };

    ghost invariant = { λ a. IsSaved a.setup a.list };
}
