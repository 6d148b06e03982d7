//! `s = A(i,j)`: `GrB_Matrix_extractElement`, and `GrB_Matrix_extractTuples`: a place, a cell by its number, the first
//! of a row from a column on, and all cells.
//!
//! A look-up is a bisection, so it takes time in the logarithm of the entries and no memory. A cell by its number takes
//! constant time.
ghost use Rattle.std.specs.Prelude.{◌≡◌, ◌<◌, ◌≤◌, ◌⊎◌, ◌++◌, MatchOption, IfOk, OnOk, IfSome, map, slice_get};
ghost use Rattle.std.specs.Option.{option_map};
ghost use Rattle.std.specs.FinMap.{get, entries};
ghost use Rattle.cells.specs.Bounds.{AreWithin};
ghost use Rattle.hyper_matrix.specs.Cells.{entry_of};
ghost use Rattle.hyper_matrix.specs.RowOf.{IsFirst, HasNoneFrom};

use crate::hyper::Hyper;
use crate::row_sum::Entry;
use crate::search;
use cells::Cell;
use std::alloc::{AllocError, Global};

impl Hyper {
    /// The count at a place, and None where the matrix has no entry, as at a place outside its dimensions. A stored
    /// zero is Some: `GrB_Matrix_extractElement` of GraphBLAS C API 2.0.
    pub fn get(&self, row: u64, col: u64) -> Option<u64>
        ensures value { result ≡ get self.now.counts (row, col) }
        ensures outside { (self.now.rows ≤ row) ⊎ (self.now.cols ≤ col) → result ≡ None }
    {
        search::get(self.piece.cells(), row, col)
    }

    /// The i-th cell from 0, by row and then by column, and None from the number of entries on.
    pub fn cell_at(&self, i: u64) -> Option<Cell>
        ensures value { option_map entry_of result ≡ slice_get (entries self.now.counts) i }
        ensures within { IfSome result (λ cell. (cell.row < self.now.rows) × (cell.col < self.now.cols)) }
    {
        let cells = self.piece.cells();
        let at = i as usize;
        if at < cells.len() {
            Some(cells[at])
        } else {
            None
        }
    }

    /// The first entry of a row at the column `from` or behind it, and None where there is none. So the entries of a
    /// row come one after the other where `from` is one more than the column before.
    pub fn first_in_row(&self, row: u64, from: u64) -> Option<Entry>
        ensures value { MatchOption result (HasNoneFrom self.now.counts row from) (IsFirst self.now.counts row from) }
        ensures within { IfSome result (λ entry. (row < self.now.rows) × (entry.col < self.now.cols)) }
    {
        search::first_in_row(self.piece.cells(), row, from)
    }

    /// Appends the cells by row and then by column. Each lies within the dimensions.
    ///
    /// Room is made at once for these cells and no more, so a caller that appends several matrices makes the room for
    /// all of them first.
    ///
    /// # Errors
    ///
    /// Memory for the list was refused.
    pub fn push_cells(&self, out: &mut Vec<Cell>) -> Result<(), AllocError>
        ensures order { OnOk result
            (map entry_of out.new.items ≡ map entry_of out.old.items ++ entries self.now.counts) }
        ensures within { AreWithin self.now.rows self.now.cols out.old.items →
            OnOk result (AreWithin self.now.rows self.now.cols out.new.items) }
    {
        let cells = self.piece.cells();
        out.reserve_exact(cells.len())?;
        out.extend_from_slice(cells)?;
        Ok(())
    }

    /// The cells by row and then by column, in a list of their own with no room to spare. Each lies within the
    /// dimensions.
    ///
    /// # Errors
    ///
    /// Memory for the list was refused.
    pub fn cells(&self, alloc: Global) -> Result<Vec<Cell>, AllocError>
        ensures order { IfOk result (λ cells. map entry_of cells.items ≡ entries self.now.counts) }
        ensures within { IfOk result (λ cells. AreWithin self.now.rows self.now.cols cells.items) }
    {
        let cells = Vec::from_slice(alloc, self.piece.cells())?;
        Ok(cells)
    }
}
