//! Whether two matrices are the same.
ghost use Rattle.std.specs.Prelude.{◌≡◌, ◌↔◌, IsTrue};
ghost use Rattle.std.specs.FinMap.{entries};

use hyper_matrix::Hyper;

// Whether two matrices have the same cells.
fn same_cells(a: &Hyper, b: &Hyper) -> bool
    ensures { IsTrue result ↔ (entries a.now.counts ≡ entries b.now.counts) }
{
    let mut others = b.iter();
    'cells: for cell in a.iter() {
        match others.next() {
            Some(other) => {
                if other != cell {
                    return false;
                }
            }
            None => return false,
        }
    }
    others.next().is_none()
}

/// Whether two matrices have the same dimensions and cells: one way through both, and no memory.
pub fn same_matrix(a: &Hyper, b: &Hyper) -> bool
    ensures { IsTrue result ↔ (a.now ≡ b.now) }
{
    let (rows, cols) = a.dims();
    let (other_rows, other_cols) = b.dims();
    rows == other_rows && cols == other_cols && same_cells(a, b)
}
