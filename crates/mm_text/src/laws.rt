//! Laws of the definitions.
ghost use Rattle.std.specs.Prelude.{◌≡◌, ℕ, List};
ghost use Rattle.cells.specs.Bounds.{IsDimension, AreWithin};
ghost use Rattle.mm_text.specs.Texts.{Spells, FirstFault};
ghost use Rattle.mm_text.specs.declared.limits.TextLimits.{TextLimits};
ghost use Rattle.cells.specs.declared.cell.Cell.{Cell};
ghost use Rattle.mm_text.specs.declared.fault.MmKind.{MmKind};

/// A text has one first fault at most.
pub fn one_first_fault()
    ensures { (text : List ℕ) (limits : TextLimits) (j k : MmKind) (m n : ℕ) →
        FirstFault text limits j m → FirstFault text limits k n → (j ≡ k) × (m ≡ n) }
{}

/// A text that spells a file has no fault.
pub fn spelled_or_faulty()
    ensures { (text : List ℕ) (limits : TextLimits) (rows cols n : ℕ) (cells : List Cell) (k : MmKind) →
        Spells text limits rows cols cells → FirstFault text limits k n → ⊥ }
{}

/// A text spells one file at most.
pub fn one_file_spelled()
    ensures { (text : List ℕ) (limits : TextLimits) (rows cols rows' cols' : ℕ) (cells cells' : List Cell) →
        Spells text limits rows cols cells → Spells text limits rows' cols' cells' →
        (rows ≡ rows') × (cols ≡ cols') × (cells ≡ cells') }
{}

/// The dimensions that a text spells are 1 to 2^60, and its cells lie within them.
pub fn spelled_within()
    ensures { (text : List ℕ) (limits : TextLimits) (rows cols : ℕ) (cells : List Cell) →
        Spells text limits rows cols cells → IsDimension rows × IsDimension cols × AreWithin rows cols cells }
{}
