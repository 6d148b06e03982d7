//! Laws of setups that grow.
ghost use Rattle.std.specs.Prelude.{◌≡◌, ◌≢◌, ℕ, List};
ghost use Rattle.batch_store.specs.declared.verdict.Entry.{Entry};
ghost use Rattle.batch_store.specs.declared.verdict.Verdict.{Verdict};
ghost use Rattle.batch_store.specs.declared.fault.GrowthFault.{GrowthFault};
ghost use Rattle.batch_store.specs.Setups.{Setting, IsSetting};
ghost use Rattle.batch_store.specs.Accepted.{Accepted, entries_in, summed, total_in};
ghost use Rattle.batch_store.specs.Books.{Listing, AreAccepted, HaveDims, accepted_in};
ghost use Rattle.batch_store.specs.Growth.{AllowsNoLess, FitsIn, IsRoomFor, RefusesGrowth, grown_to};
ghost use Rattle.batch_store.specs.Verdicts.{AllFresh, verdict_of};

/// A setup that allows no less answers a batch as the smaller one does, with the same place and totals, but where that
/// refuses it by a limit. So it accepts each list of batches that the smaller one accepts, in the same order.
pub fn larger_setups_answer_the_same()
    ensures verdict { (s t : Setting) (es : List Entry) (b : Entry) (r : Verdict) → AllowsNoLess s t →
        ((accepted : ℕ) → r ≢ Verdict.OverTotal accepted) → r ≢ Verdict.BookFull →
        verdict_of s.limit s.max_batches es b ≡ r → verdict_of t.limit t.max_batches es b ≡ r }
    ensures fresh { (s t : Setting) (es more : List Entry) → AllowsNoLess s t →
        AllFresh s.limit s.max_batches es more → AllFresh t.limit t.max_batches es more }
    ensures accepted { (s t : Setting) (v : Listing) → FitsIn s t → AllowsNoLess s t → IsSetting t →
        AreAccepted s (accepted_in v) → AreAccepted t (accepted_in (grown_to t v)) }
{}

/// A list that grows keeps its entries, their order, all counts and the total.
pub fn grown_lists_keep_all()
    ensures entries { (s : Setting) (v : Listing) → entries_in (accepted_in (grown_to s v)) ≡ entries_in (accepted_in v) }
    ensures total { (s : Setting) (v : Listing) → total_in (accepted_in (grown_to s v)) ≡ total_in (accepted_in v) }
    ensures counts { (s : Setting) (v : Listing) → summed (accepted_in (grown_to s v)) ≡ summed (accepted_in v) }
{}

/// To grow to the own dimensions changes nothing, and to grow twice is to grow once to the last.
pub fn lists_grow_to_the_last()
    ensures same { (s : Setting) (v : Listing) → v.base.rows ≡ s.rows → v.base.cols ≡ s.cols →
        HaveDims s.rows s.cols v.list → grown_to s v ≡ v }
    ensures twice { (s t : Setting) (v : Listing) → grown_to t (grown_to s v) ≡ grown_to t v }
{}

/// One fault at most is why a list can't grow, beside want of memory, and none where there is room for it.
pub fn a_growth_has_one_outcome()
    ensures one { (to from : Setting) (a : Accepted) (f g : GrowthFault) → f ≢ GrowthFault.Memory →
        g ≢ GrowthFault.Memory → RefusesGrowth to from a f → RefusesGrowth to from a g → f ≡ g }
    ensures no_fault { (to from : Setting) (a : Accepted) (f : GrowthFault) → f ≢ GrowthFault.Memory →
        IsRoomFor to from a → RefusesGrowth to from a f → ⊥ }
{}
