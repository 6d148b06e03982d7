//! Laws of head pages.
ghost use Rattle.std.specs.Prelude.{◌≡◌, ℕ, List};
ghost use Rattle.log_head.specs.Heads.{HasHead, RefusesPage};
ghost use Rattle.log_head.specs.declared.head.LogHead.{LogHead};
ghost use Rattle.log_blocks.specs.declared.fault.LogKind.{LogKind};

/// A page is the page of one head at most, and then it has no fault.
pub fn a_page_has_one_head()
    ensures one { (p : List ℕ) (h g : LogHead) → HasHead p h → HasHead p g → h ≡ g }
    ensures no_fault { (p : List ℕ) (h : LogHead) (kind : LogKind) → HasHead p h → RefusesPage p kind → ⊥ }
{}

/// A page has one first fault at most.
pub fn a_page_has_one_fault()
    ensures { (p : List ℕ) (kind other : LogKind) → RefusesPage p kind → RefusesPage p other → kind ≡ other }
{}
