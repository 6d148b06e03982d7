//! A law of pages.
ghost use Rattle.std.specs.Prelude.{◌≡◌, ◌⊎◌, List, ℕ, length};
ghost use Rattle.log_page.specs.Pages.{kind_of, Lost};
ghost use Rattle.log_page.specs.declared.page.PageKind.TheVariants.{Empty, Whole, Short};

/// A page that a whole page becomes where bytes of it are set to 00 is that page itself, or it is seen to be empty or
/// short. No chance is in this.
pub fn losses_are_seen()
    ensures { (page left : List ℕ) → length page ≡ 4096 → Lost page left → kind_of page ≡ Whole →
        (left ≡ page) ⊎ ((kind_of left ≡ Empty) ⊎ (kind_of left ≡ Short)) }
{}
