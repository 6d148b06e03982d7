//! `s = sum of A(i,j)`: `GrB_reduce` to a scalar with the plus monoid, of the whole matrix and of one row.
ghost use Rattle.std.specs.Prelude.{◌≡◌, ◌<◌, ◌≤◌, ◌^◌};
ghost use Rattle.std.specs.FinMap.{len};
ghost use Rattle.hyper_matrix.specs.Counts.{total};
ghost use Rattle.hyper_matrix.specs.RowOf.{row_of};

use crate::hyper::Hyper;
use crate::row_sum::RowSum;
use crate::search;

impl Hyper {
    /// The sum of all counts, 0 for the empty matrix: `GrB_reduce` to a scalar with the plus monoid. Constant time.
    pub fn total(&self) -> u64
        ensures value { result ≡ total self.now.counts }
        ensures fits { total self.now.counts < 2 ^ 64 }
    {
        self.sum
    }

    /// How many entries a row has, stored zeros included, and the sum of their counts. Both are 0 where the row has
    /// none, as outside the dimensions.
    pub fn row_total(&self, row: u64) -> RowSum
        ensures entries { result.entries ≡ len (row_of self.now.counts row) }
        ensures total { result.total ≡ total (row_of self.now.counts row) }
        ensures outside { self.now.rows ≤ row → (result.entries ≡ 0) × (result.total ≡ 0) }
    {
        // It bounds that of a row.
        let _total = self.total();
        search::row_total(self.piece.cells(), row)
    }
}
