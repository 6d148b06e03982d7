//! Laws of a matrix's rows, for callers of the matrix.
ghost use Rattle.std.specs.Prelude.{◌≡◌, ℕ, ◌+◌, ◌≢◌, None};
ghost use Rattle.std.specs.FinMap.{get};
ghost use Rattle.hyper_matrix.specs.Counts.{Place, Counts, ewise_add, total};
ghost use Rattle.hyper_matrix.specs.RowOf.{row_of};

/// A row has what the matrix has at the places of that row.
pub fn rows_keep_their_entries()
    ensures { (m : Counts) (r : ℕ) (q : Place) → q.0 ≡ r → get (row_of m r) q ≡ get m q }
{}

/// And nothing at others.
pub fn rows_have_no_others()
    ensures { (m : Counts) (r : ℕ) (q : Place) → q.0 ≢ r → get (row_of m r) q ≡ None }
{}

/// A row of a sum is the sum of the rows.
pub fn rows_of_sums_add()
    ensures { (a : Counts) (b : Counts) (r : ℕ) → row_of (ewise_add a b) r ≡ ewise_add (row_of a r) (row_of b r) }
{}

/// The total of a row of a sum is the sum of the rows' totals.
pub fn row_totals_add()
    ensures { (a : Counts) (b : Counts) (r : ℕ) → total (row_of (ewise_add a b) r) ≡
        total (row_of a r) + total (row_of b r) }
{}
