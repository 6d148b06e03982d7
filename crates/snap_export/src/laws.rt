//! Laws of what several snapshots add up to, and of matrices without empty rows and columns.
ghost use Rattle.std.specs.Prelude.{◌≡◌, ◌↔◌, ℕ, List, [], ◌∷◌, Some, map};
ghost use Rattle.std.specs.FinMap.{get};
ghost use Rattle.std.specs.List.Sorted.{IsPermutation};
ghost use Rattle.hyper_matrix.specs.Counts.{Counts, Place};
ghost use Rattle.batch_store.specs.Accepted.{summed};
ghost use Rattle.batch_store.specs.Books.{accepted_in};
ghost use Rattle.snap_file.specs.Snapshots.{Saved};
ghost use Rattle.snap_export.specs.Several.{added_up, at_place, added_options};
ghost use Rattle.snap_export.specs.Compact.{IsCompact};
ghost use Rattle.snap_export.specs.Told.{ReadsBack};

/// Several snapshots have at each place what they have there by themselves, added up: an entry where one of them has
/// one. One alone adds up to its own sum, and the order in which they come says nothing.
pub fn several_snapshots_add_up()
    ensures place { (xs : List Saved) (p : Place) → get (added_up xs) p ≡ added_options (map (at_place p) xs) }
    ensures one { (x : Saved) → added_up (x ∷ []) ≡ summed (accepted_in x.list) }
    ensures order { (xs ys : List Saved) → IsPermutation xs ys → added_up ys ≡ added_up xs }
{}

/// A matrix whose rows and columns were numbered anew is, read back by the labels, the matrix that it was made of: that
/// has a count at a place exactly where the other has it at a place with these labels. So nothing was left out, and
/// nothing added.
pub fn compact_matrix_reads_back()
    ensures { (m n : Counts) (rows cols : List ℕ) → IsCompact m rows cols n → (p : Place) (count : ℕ) →
        (get m p ≡ Some count) ↔ ReadsBack rows cols n p count }
{}
