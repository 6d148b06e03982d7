//! Why a setup, a batch or the step of a shard is refused.

use crate::misfit::Misfit;
use thiserror::Error;

/// Why `Setup::new` made no setup. The faults are judged in this order.
#[derive(Clone, Copy, Debug, PartialEq, Eq, Error)]
pub enum SetupFault {
    /// The number of rows or of columns is outside 1 to 2^60.
    #[error("BadDimension")]
    BadDimension,
    /// There are more than 7 cuts, a cut is outside 1 to 2^40, or one isn't greater than the one before it.
    #[error("BadCuts")]
    BadCuts,
    /// The number of shards is outside 1 to 64.
    #[error("BadShards")]
    BadShards,
    /// The limit on the total is 0.
    #[error("BadLimit")]
    BadLimit,
    /// The most batches are outside 1 to 2^30.
    #[error("BadBatches")]
    BadBatches,
}

/// Why `Batch::make` made no batch. `Memory` is the last to be judged.
#[derive(Clone, Copy, Debug, PartialEq, Eq, Error)]
pub enum BatchFault {
    /// A growth was refused.
    #[error("no memory for a batch")]
    Memory,
    /// The file has more rows or more columns than the setup.
    #[error("more rows or columns than the setup")]
    DimensionsTooLarge,
    /// The counts of all cells together pass 2^64 - 1.
    #[error("the counts pass 2^64 - 1")]
    SumTooLarge,
}

/// Why `Batch::from_cells` or `Batch::from_cell_list` made no batch. `Memory` is the last to be judged.
#[derive(Clone, Copy, Debug, PartialEq, Eq, Error)]
pub enum CellsFault {
    /// A growth was refused. The list itself has no fault.
    #[error("no memory for a batch")]
    Memory,
    /// There are more than 1,048,576 cells.
    #[error("more than 1,048,576 cells")]
    TooManyCells,
    /// The cell at this place of the list, counted from 0, lies outside the setup's dimensions. Those before it bear no
    /// fault.
    #[error("cell {at}, counted from 0, lies outside the dimensions")]
    IndexOutOfRange { at: u64 },
    /// The counts up to a cell pass 2^64 - 1. It lies within the dimensions, and those before it bear no fault.
    #[error("the counts pass 2^64 - 1")]
    SumTooLarge,
}

/// Why `Shard::prepare` can't take a batch. `Memory` is the last to be judged.
#[derive(Clone, Copy, Debug, PartialEq, Eq, Error)]
pub enum ShardFault {
    /// A growth was refused.
    #[error("no memory for the part of a batch")]
    Memory,
    /// The client and number stand in the record already.
    #[error("the batch stands in the record")]
    AlreadyThere,
    /// The shard's total and that of the batch's part together pass the limit.
    #[error("the total passes the limit")]
    Over,
}

/// Why what was accepted under one setup isn't what another accepts. `Memory` is the last to be judged.
#[derive(Clone, Copy, Debug, PartialEq, Eq, Error)]
pub enum GrowthFault {
    /// The first number that is too small: rows, columns, the limit, the most batches.
    #[error("{0}")]
    TooSmall(Misfit),
    /// A growth was refused.
    #[error("no memory for the matrices")]
    Memory,
}

impl From<Misfit> for GrowthFault {
    ghost use Rattle.std.specs.Prelude.{◌≡◌};
    ghost use Rattle.batch_store.specs.declared.fault.GrowthFault.TheVariants.{TooSmall};

    ghost from_gives = { λ misfit fault. fault ≡ TooSmall misfit };

    fn from(misfit: Misfit) -> GrowthFault {
        GrowthFault::TooSmall(misfit)
    }
}
