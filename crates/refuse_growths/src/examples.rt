//! What the scenarios put and send.
ghost use Rattle.std.specs.Prelude.{◌≡◌, IfOk};
ghost use Rattle.std.specs.Arc.{arc_value};

use crate::stop::Stop;
use batch_store::{Batch, CellsFault, Setup, SetupFault};
use cells::Cell;
use std::alloc::Global;
use std::sync::Arc;

/// Three rows, three columns, two shards, a limit of 100 and at most 10 batches.
pub fn small_setup() -> Result<Setup, SetupFault> {
    Setup::new(3, 3, &[2, 4], 2, 100, 10)
}

/// A cell in each shard of the small setup.
static CELLS: [Cell; 2] = [
    Cell {
        row: 0,
        col: 0,
        count: 5,
    },
    Cell {
        row: 1,
        col: 0,
        count: 4,
    },
];

/// The batch that client 7 gives this number: 5 at row 0 and column 0, and 4 at row 1 and column 0.
pub fn batch(alloc: Global, setup: &Setup, number: u64) -> Result<Arc<Batch>, Stop>
    ensures rows { IfOk result (λ b. (arc_value b).matrix.rows ≡ setup.now.rows) }
    ensures cols { IfOk result (λ b. (arc_value b).matrix.cols ≡ setup.now.cols) }
{
    match Batch::from_cells(alloc, setup, 7, number, &CELLS) {
        Ok(batch) => Ok(batch),
        Err(CellsFault::Memory) => Err(Stop::SetUp),
        Err(_) => Err(Stop::Fault),
    }
}
