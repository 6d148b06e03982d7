//! Setups, and batches made of cells.
ghost use Rattle.std.specs.Prelude.{◌≡◌, IfOk, [], ◌∷◌};
ghost use Rattle.std.specs.Arc.{arc_value};
ghost use Rattle.batch_store.specs.Setups.{setting};

use batch_store::{Batch, CellsFault, Setup, SetupFault};
use cells::Cell;
use std::alloc::{AllocError, Global};
use std::sync::Arc;

/// Cells as a table spells them: row, column and count.
pub type Cells = &'static [(u64, u64, u64)];

/// Three rows, three columns, two shards, a limit of 100 and at most 10 batches.
pub fn small_setup() -> Result<Setup, SetupFault>
    ensures { IfOk result (λ setup. setup ≡ setting 3 3 (2 ∷ 4 ∷ []) 2 100 10) }
{
    setup_up_to(100, 10)
}

/// The small setup with another limit and another number of batches.
pub fn setup_up_to(limit: u64, max_batches: u64) -> Result<Setup, SetupFault>
    ensures { IfOk result (λ setup. setup ≡ setting 3 3 (2 ∷ 4 ∷ []) 2 limit max_batches) }
{
    Setup::new(3, 3, &[2, 4], 2, limit, max_batches)
}

/// The cells of a table, in its order.
pub fn cells_of(alloc: Global, table: &[(u64, u64, u64)]) -> Result<Vec<Cell>, AllocError> {
    let mut cells = Vec::new(alloc);
    for (row, col, count) in table {
        let cell = Cell {
            row: *row,
            col: *col,
            count: *count,
        };
        cells.push(cell)?;
    }
    Ok(cells)
}

/// The batch of these cells, of a client and a number, which are a pair.
pub fn batch(
    alloc: Global,
    setup: &Setup,
    pair: (u64, u64),
    table: &[(u64, u64, u64)],
) -> Result<Arc<Batch>, CellsFault>
    ensures rows { IfOk result (λ b. (arc_value b).matrix.rows ≡ setup.now.rows) }
    ensures cols { IfOk result (λ b. (arc_value b).matrix.cols ≡ setup.now.cols) }
{
    match cells_of(alloc, table) {
        Ok(cells) => Batch::from_cells(alloc, setup, pair.0, pair.1, &cells),
        Err(_) => Err(CellsFault::Memory),
    }
}

/// The batch number 1 of a client, with one cell at (0, 0).
pub fn one_cell(
    alloc: Global,
    setup: &Setup,
    client: u64,
    count: u64,
) -> Result<Arc<Batch>, CellsFault>
    ensures rows { IfOk result (λ b. (arc_value b).matrix.rows ≡ setup.now.rows) }
    ensures cols { IfOk result (λ b. (arc_value b).matrix.cols ≡ setup.now.cols) }
{
    let cell = Cell {
        row: 0,
        col: 0,
        count,
    };
    Batch::from_cells(alloc, setup, client, 1, &[cell])
}
