//! Laws of the difference of two matrices.
ghost use Rattle.std.specs.Prelude.{◌≡◌, ◌+◌, None};
ghost use Rattle.std.specs.FinMap.{get};
ghost use Rattle.hyper_matrix.specs.Counts.{Counts, Place, ewise_add, total};
ghost use Rattle.matrix_difference.specs.Difference.{minus, IsDifference, HasFewerZeros};

/// Added to the earlier matrix, the difference gives the later one; so its total is what the total has risen by. There
/// is at most one.
pub fn difference_adds_back()
    ensures sum { (a b x : Counts) → IsDifference a b x → ewise_add b x ≡ a }
    ensures total { (a b x : Counts) → IsDifference a b x → total b + total x ≡ total a }
    ensures one { (a b x y : Counts) → IsDifference a b x → IsDifference a b y → y ≡ x }
{}

/// Whatever gives the later matrix when it is added to the earlier one is the difference, but for stored zeros where the
/// earlier one has an entry.
pub fn difference_is_least()
    ensures { (a b y : Counts) → ewise_add b y ≡ a → (x : Counts) × IsDifference a b x × HasFewerZeros b x y }
{}

/// Where a count falls, nothing gives the later matrix.
pub fn where_counts_fall_nothing_adds_back()
    ensures { (a b y : Counts) (p : Place) → minus (get a p) (get b p) ≡ None → ewise_add b y ≡ a → ⊥ }
{}
