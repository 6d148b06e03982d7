//! `GrB_Matrix_resize` to dimensions that are no smaller.
ghost use Rattle.std.specs.Prelude.{◌≡◌, ◌≤◌};
ghost use Rattle.cells.specs.Bounds.{IsDimension};
ghost use Rattle.hyper_matrix.specs.Matrix.{matrix};

use crate::hyper::Hyper;

impl Hyper {
    /// The same entries in a matrix of these dimensions. Constant time; it takes no memory.
    pub fn widened(self, rows: u64, cols: u64) -> Hyper
        requires rows { (self.rows ≤ rows) × IsDimension rows }
        requires cols { (self.cols ≤ cols) × IsDimension cols }
        ensures { result ≡ matrix rows cols self.counts }
    {
        Hyper {
            rows,
            cols,
            sum: self.sum,
            piece: self.piece,
        }
    }
}
