//! The sum of a matrix and of the matrices of batches.
ghost use Rattle.std.specs.Prelude.{◌≡◌, IfOk};
ghost use Rattle.hyper_matrix.specs.Cells.{built_of};
ghost use Rattle.hyper_matrix.specs.Counts.{ewise_add};
ghost use Rattle.batch_store.specs.Accepted.{list_sum};
ghost use Rattle.batch_store.specs.Batches.{values};
ghost use Rattle.batch_store.specs.Books.{HaveDims};

use crate::batch::Batch;
use cells::Cell;
use hyper_matrix::Hyper;
use std::alloc::{AllocError, Global};
use std::mem;
use std::sync::Arc;

// So many cells of batches are added up before they are added to the matrix, or a quarter of its entries where those are
// more: an addition writes all of it anew.
const PART_CELLS: u64 = 1 << 20;

// The sum of a matrix and a list of cells in any order, in which a place may stand more than once.
fn with_cells(alloc: Global, m: Hyper, cells: Vec<Cell>) -> Result<Hyper, AllocError>
    ensures { IfOk result (λ sum. sum ≡ record m { counts = ewise_add m.counts (built_of cells.items) }) }
{
    let (rows, cols) = m.dims();
    let Ok(part) = Hyper::build_list(alloc, rows, cols, cells) else {
        return Err(AllocError);
    };
    if m.total().checked_add(part.total()).is_none() {
        return Err(AllocError);
    }
    m.into_sum(alloc, part)
}

/// The sum of a matrix and of the matrices of batches.
///
/// The cells of batches are listed, sorted and added up in parts, each of which is added to the matrix. So a cell costs
/// a sort among a million others, and the matrix is gone over once for each part. Beside the sum it takes memory for one
/// part: some 24 MB, or a quarter of what a list of all of the matrix's cells would take.
///
/// # Errors
///
/// A growth was refused, or the sum passes 2^64 - 1. The matrix is gone then.
pub fn with_batches(alloc: Global, m: Hyper, batches: &[Arc<Batch>]) -> Result<Hyper, AllocError>
    requires { HaveDims m.rows m.cols (values batches.now) }
    ensures { IfOk result (λ sum.
        sum ≡ record m { counts = ewise_add m.counts (list_sum (values batches.now)) }) }
{
    let most = PART_CELLS.max(m.entries() / 4) as usize;
    let mut sum = m;
    let mut cells = Vec::new(alloc);
    'batches: for batch in batches {
        cells.reserve(batch.matrix.entries() as usize)?;
        batch.matrix.push_cells(&mut cells)?;
        if cells.len() >= most {
            let part = mem::replace(&mut cells, Vec::new(alloc));
            sum = with_cells(alloc, sum, part)?;
        }
    }
    with_cells(alloc, sum, cells)
}
