//! `C(i,j) = A(i,j)`: `GrB_Matrix_dup`.
ghost use Rattle.std.specs.Prelude.{◌≡◌, IfOk};

use crate::hyper::Hyper;
use std::alloc::{AllocError, Global};

impl Hyper {
    /// The same matrix once more. The two share their cells: it takes constant time and no memory.
    ///
    /// # Errors
    ///
    /// More matrices share the cells than can be counted.
    pub fn copy(&self, _alloc: Global) -> Result<Hyper, AllocError>
        ensures { IfOk result (λ m. m ≡ self.now) }
    {
        let piece = self.piece.copy()?;
        Ok(Hyper {
            rows: self.rows,
            cols: self.cols,
            sum: self.sum,
            piece,
        })
    }
}
