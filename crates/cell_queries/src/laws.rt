//! Laws of the rows of cells, and of those that lead.
ghost use Rattle.std.specs.Prelude.{◌≡◌, ◌≤◌, ◌⊎◌, ◌++◌, ℕ, T, Bool, true, false, List, All};
ghost use Rattle.std.specs.List.{AllByRecursion, Contains};
ghost use Rattle.std.specs.List.Sorted.{IsPermutation};
ghost use Rattle.std.specs.FinMap.{entries, is_sorted};
ghost use Rattle.hyper_matrix.specs.Counts.{Place, place_cmp, Counts, ewise_add};
ghost use Rattle.cell_queries.specs.declared.groups.RowGroups.{RowGroups};
ghost use Rattle.cell_queries.specs.declared.tally.RowTally.{RowTally};
ghost use Rattle.cell_queries.specs.declared.top.TopBy.{TopBy};
ghost use Rattle.cell_queries.specs.Groups.{grouped};
ghost use Rattle.cell_queries.specs.Rows.{HasRow, IsRight, RowsRise};
ghost use Rattle.cell_queries.specs.Shards.{LieBelow, LieInShard};
ghost use Rattle.cell_queries.specs.Tallies.{tallies};
ghost use Rattle.cell_queries.specs.Tops.{IsTop, number_of};

/// Of cells in order each row stands once, and the rows rise.
pub fn rows_stand_once()
    ensures { (es : List (Place × ℕ)) → T (is_sorted place_cmp es) → RowsRise (tallies es) }
{}

/// Each row has an entry, and it tells how many it has and what they come to.
pub fn rows_tell_entries_and_totals()
    ensures { (es : List (Place × ℕ)) → T (is_sorted place_cmp es) → AllByRecursion (IsRight es) (tallies es) }
{}

/// The row of each cell is one of them.
pub fn every_row_is_told()
    ensures { (es : List (Place × ℕ)) → AllByRecursion (λ e. HasRow e.0.0 (tallies es)) es }
{}

/// Of cells in order each group of rows stands once, and the groups rise.
pub fn groups_stand_once()
    ensures { (g : RowGroups) (es : List (Place × ℕ)) → T (is_sorted place_cmp es) → RowsRise (tallies (grouped g es)) }
{}

/// Each group has an entry, and its numbers are those of its cells.
pub fn groups_have_their_cells()
    ensures { (g : RowGroups) (es : List (Place × ℕ)) → T (is_sorted place_cmp es) →
        AllByRecursion (IsRight (grouped g es)) (tallies (grouped g es)) }
{}

/// Where a test tells the rows of two matrices apart, the rows of their sum are those of the one and of the other.
pub fn rows_apart_join()
    ensures { (p : ℕ → Bool) (a b : Counts) → AllByRecursion (λ t. p t.row ≡ true) (tallies (entries a)) →
        AllByRecursion (λ t. p t.row ≡ false) (tallies (entries b)) →
        IsPermutation (tallies (entries (ewise_add a b))) (tallies (entries a) ++ tallies (entries b)) }
{}

/// So are those of shards and of the next: the number of each row of the first leaves less than `s` when divided by
/// `k`, that of each row of the second leaves `s`.
pub fn rows_of_shards_join()
    ensures { (s k : ℕ) (a b : Counts) → LieBelow s k (tallies (entries a)) → LieInShard s k (tallies (entries b)) →
        IsPermutation (tallies (entries (ewise_add a b))) (tallies (entries a) ++ tallies (entries b)) }
{}

/// Each row of a top has at least the number of each that isn't in it.
pub fn tops_lead()
    ensures { (by : TopBy) (most : ℕ) (rows top : List RowTally) (h : IsTop by most rows top) →
        All (λ t. All (λ u. number_of by u ≤ number_of by t) h.rest) top }
{}

/// Each row is in the top, or is one of those that each row of the top is ahead of.
pub fn tops_leave_nothing_out()
    ensures { (by : TopBy) (most : ℕ) (rows top : List RowTally) (h : IsTop by most rows top) →
        All (λ t. Contains top t ⊎ Contains h.rest t) rows }
{}

/// No row is in a top that isn't one of the rows.
pub fn tops_have_rows_alone()
    ensures { (by : TopBy) (most : ℕ) (rows top : List RowTally) → IsTop by most rows top → All (Contains rows) top }
{}

/// Rows of which each stands once have one top.
pub fn tops_are_one()
    ensures { (by : TopBy) (most : ℕ) (rows a b : List RowTally) → RowsRise rows → IsTop by most rows a →
        IsTop by most rows b → a ≡ b }
{}
