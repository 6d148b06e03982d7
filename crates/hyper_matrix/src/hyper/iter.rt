//! The cells of a matrix without a list of their own.
ghost use Rattle.std.specs.Prelude.{◌≡◌};
ghost use Rattle.std.specs.List.{AllByRecursion};
ghost use Rattle.std.specs.FinMap.{entries};
ghost use Rattle.cells.specs.Bounds.{AreWithin};
ghost use Rattle.cells.specs.Order.{Rise};
ghost use Rattle.hyper_matrix.specs.Cells.{built_of};
ghost use Rattle.hyper_matrix.specs.Shared.{LiesWithin};

use crate::cell_iter::Cells;
use crate::hyper::Hyper;
use cells::Cell;

impl Hyper {
    /// The cells by row and then by column, each place once. Constant time; it takes no memory.
    pub fn as_cells(&self) -> &[Cell]
        ensures rises { Rise result.now }
        ensures within { AreWithin self.now.rows self.now.cols result.now }
        ensures builds { built_of result.now ≡ self.now.counts }
    {
        self.piece.cells()
    }

    /// The cells by row and then by column, one after the other. Each lies within the dimensions.
    ///
    /// The iterator borrows the matrix and takes no memory. It is made in constant time, and gives each cell in
    /// constant time.
    pub fn iter(&self) -> Cells<'_>
        ensures order { result ≡ entries self.now.counts }
        ensures within { AllByRecursion (LiesWithin self.now.rows self.now.cols) result }
    {
        Cells::new(self.piece.cells())
    }
}
