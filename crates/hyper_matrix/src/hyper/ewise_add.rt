//! `C(i,j) = A(i,j) + B(i,j)`: `GrB_eWiseAdd` with plus, of two matrices, and of a matrix and a list of cells.
//!
//! A merge of the two lists in one new list.
ghost use Rattle.std.specs.Prelude.{◌≡◌, ℕ, ◌+◌, ◌<◌, ◌^◌, [], IfOk};
ghost use Rattle.cells.specs.Bounds.{AreWithin};
ghost use Rattle.cells.specs.Order.{Rise};
ghost use Rattle.hyper_matrix.specs.Counts.{ewise_add, total};
ghost use Rattle.hyper_matrix.specs.Cells.{built_of, cell_total};
ghost use Rattle.hyper_matrix.specs.Merge.{AppendsSum};

use crate::hyper::Hyper;
use crate::merge::push_merged;
use cells::Cell;
use std::alloc::{AllocError, Global};

impl Hyper {
    /// The sum of two matrices, `GrB_eWiseAdd` with plus: it has the cells of both, a cell in both has the sum of
    /// its counts, a cell in one its count there.
    ///
    /// The time is that of a pass over both, and the memory that of a list of both. Where one is empty the sum shares
    /// the other's cells.
    ///
    /// # Errors
    ///
    /// Memory was refused. Both matrices are as before in any case.
    pub fn ewise_add(&self, alloc: Global, other: &Hyper) -> Result<Hyper, AllocError>
        requires rows { self.now.rows ≡ other.now.rows }
        requires cols { self.now.cols ≡ other.now.cols }
        requires fits { total self.now.counts + total other.now.counts < 2 ^ 64 }
        ensures { IfOk result (λ sum. sum ≡ record self.now { counts = ewise_add self.now.counts other.now.counts }) }
    {
        if self.piece.len() == 0 {
            let sum = other.copy(alloc)?;
            return Ok(sum);
        }
        let sum = with_cells(alloc, self, other.as_cells())?;
        Ok(sum)
    }

    /// The sum of two matrices, as `ewise_add`. Where one is empty the sum is the other.
    ///
    /// # Errors
    ///
    /// Memory was refused. Both matrices are gone then.
    pub fn into_sum(self, alloc: Global, other: Hyper) -> Result<Hyper, AllocError>
        requires rows { self.rows ≡ other.rows }
        requires cols { self.cols ≡ other.cols }
        requires fits { total self.counts + total other.counts < 2 ^ 64 }
        ensures { IfOk result (λ sum. sum ≡ record self { counts = ewise_add self.counts other.counts }) }
    {
        let sum = self.ewise_add(alloc, &other)?;
        Ok(sum)
    }

    /// The sum of this matrix and a list of cells in which each place stands once, by row and then by column: as
    /// `into_sum` with the matrix that the list builds, and that matrix isn't made.
    ///
    /// The time is that of a pass over both, and the memory that of a list of both. Where the list is empty the sum is
    /// the matrix.
    ///
    /// # Errors
    ///
    /// Memory was refused. The matrix is gone then.
    pub fn into_sum_with_cells(self, alloc: Global, cells: &[Cell]) -> Result<Hyper, AllocError>
        requires rises { Rise cells.now }
        requires within { AreWithin self.rows self.cols cells.now }
        requires fits { total self.counts + cell_total cells.now < 2 ^ 64 }
        ensures { IfOk result (λ sum. sum ≡ record self { counts = ewise_add self.counts (built_of cells.now) }) }
    {
        let sum = with_cells(alloc, &self, cells)?;
        Ok(sum)
    }
}

// The sum of two lists in order, as a list of its own.
fn merged(alloc: Global, left: &[Cell], right: &[Cell]) -> Result<Vec<Cell>, AllocError>
    requires left { Rise left.now }
    requires right { Rise right.now }
    requires fits { cell_total left.now + cell_total right.now < 2 ^ 64 }
    ensures { IfOk result (λ list. AppendsSum [] list.items left.now right.now) }
{
    let mut list = Vec::with_capacity(alloc, left.len().saturating_add(right.len()))?;
    push_merged(&mut list, left, right)?;
    Ok(list)
}

// The sum of a matrix and a list of cells. Where the list is empty it shares the matrix's cells.
fn with_cells(alloc: Global, matrix: &Hyper, cells: &[Cell]) -> Result<Hyper, AllocError>
    requires rises { Rise cells.now }
    requires within { AreWithin matrix.now.rows matrix.now.cols cells.now }
    requires fits { total matrix.now.counts + cell_total cells.now < 2 ^ 64 }
    ensures { IfOk result (λ sum.
        sum ≡ record matrix.now { counts = ewise_add matrix.now.counts (built_of cells.now) }) }
{
    if cells.len() == 0 {
        let sum = matrix.copy(alloc)?;
        return Ok(sum);
    }
    let (rows, cols) = matrix.dims();
    let list = merged(alloc, matrix.as_cells(), cells)?;
    let sum = Hyper::from_sorted(alloc, rows, cols, list)?;
    Ok(sum)
}
