//! Laws of the definitions, for readers and for callers of the matrix.
//!
//! Sums are made of a finite map's insertions, and what a list builds of sums at a place. These laws say in the words
//! of the subject what comes of it. Each is a function that does nothing and promises the law.
ghost use Rattle.std.specs.Prelude.{◌≡◌, ℕ, ◌+◌, ◌<◌, ◌↔◌, List, ◌++◌, IsSome, length};
ghost use Rattle.std.specs.FinMap.{empty, get};
ghost use Rattle.cells.specs.declared.cell.Cell.{Cell};
ghost use Rattle.hyper_matrix.specs.Counts.{Place, Counts, count_at, plus, ewise_add, total, parts};
ghost use Rattle.hyper_matrix.specs.Cells.{built_of, cell_total, cells_at};

/// At each place the sum holds what both sides hold there: the sum of two counts, or the one count, or nothing.
pub fn sums_at_places()
    ensures { (a : Counts) (b : Counts) (q : Place) → get (ewise_add a b) q ≡ plus (get a q) (get b q) }
{}

/// The sum doesn't depend on the order of its two sides.
pub fn sums_commute()
    ensures { (a : Counts) (b : Counts) → ewise_add a b ≡ ewise_add b a }
{}

/// Nor on the grouping.
pub fn sums_regroup()
    ensures { (a : Counts) (b : Counts) (c : Counts) → ewise_add (ewise_add a b) c ≡ ewise_add a (ewise_add b c) }
{}

/// The empty map adds nothing.
pub fn empty_is_identity()
    ensures { (a : Counts) → ewise_add a empty ≡ a }
{}

/// The total of a sum is the sum of the totals.
pub fn totals_add()
    ensures { (a : Counts) (b : Counts) → total (ewise_add a b) ≡ total a + total b }
{}

/// A place is in what a list builds exactly if a cell of the list stands there.
pub fn built_names_places()
    ensures { (cells : List Cell) (q : Place) → IsSome (get (built_of cells) q) ↔ (0 < length (cells_at q cells)) }
{}

/// Its count there is the sum of the counts of all those cells.
pub fn built_sums_counts()
    ensures { (cells : List Cell) (q : Place) → count_at (built_of cells) q ≡ cell_total (cells_at q cells) }
{}

/// Two lists put together build the sum of what each of them builds.
pub fn built_lists_add()
    ensures { (xs : List Cell) (ys : List Cell) → built_of (xs ++ ys) ≡ ewise_add (built_of xs) (built_of ys) }
{}

/// The total of what a list builds is the sum of its counts.
pub fn built_total()
    ensures { (cells : List Cell) → total (built_of cells) ≡ cell_total cells }
{}

/// The parts of a matrix add up to it.
pub fn parts_make_the_whole()
    ensures { (m : Counts) (k : ℕ) → 0 < k → parts m k k ≡ m }
{}
