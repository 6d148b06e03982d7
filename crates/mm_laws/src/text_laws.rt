//! What holds of every text, whatever reads or writes it: laws of the definitions.
ghost use Rattle.std.specs.Prelude.{◌≡◌, ◌≢◌, ◌⊎◌, ℕ, ◌+◌, ◌-◌, ◌<◌, ◌≤◌, ◌^◌, List, ◌++◌, length, All};
ghost use Rattle.cells.specs.Bounds.{IsDimension, AreWithin};
ghost use Rattle.mm_text.specs.Lines.{line_at};
ghost use Rattle.mm_text.specs.Texts.{Spells, LineIsWrong, Turn, FaultAt, FirstFault, NoFaultWithin, canonical};
ghost use Rattle.mm_text.specs.declared.limits.TextLimits.{TextLimits};
ghost use Rattle.cells.specs.declared.cell.Cell.{Cell};
ghost use Rattle.mm_text.specs.declared.fault.MmKind.{MmKind};

/// Every list of bytes spells a file or has a first fault. With `one_file_spelled`, `one_first_fault` and
/// `spelled_or_faulty`: it spells exactly one file, or has exactly one first fault, and never both.
pub fn every_text_spells_or_has_a_fault()
    ensures { (text : List ℕ) (limits : TextLimits) →
        ((rows cols : ℕ) × (cells : List Cell) × Spells text limits rows cols cells)
        ⊎ ((kind : MmKind) × (line : ℕ) × FirstFault text limits kind line) }
{}

/// What a text spells has dimensions from 1 to 2^60, each cell within them, and each count below 2^64.
pub fn spelled_cells_are_within()
    ensures { (text : List ℕ) (limits : TextLimits) (rows cols : ℕ) (cells : List Cell) →
        Spells text limits rows cols cells →
        IsDimension rows × IsDimension cols × AreWithin rows cols cells × All (λ c. c.count < 2 ^ 64) cells }
{}

/// Wider limits change nothing: what a text spells under some limits, it spells under all that are no less.
pub fn wider_limits_spell_the_same()
    ensures { (text : List ℕ) (limits wider : TextLimits) (rows cols : ℕ) (cells : List Cell) →
        limits.max_bytes ≤ wider.max_bytes → limits.max_entries ≤ wider.max_entries →
        Spells text limits rows cols cells → Spells text wider rows cols cells }
{}

/// The canonical text of cells within their dimensions spells just these cells in this order, under all limits that
/// it keeps. So it is the canonical text of no other list.
pub fn canonical_texts_spell_their_cells()
    ensures spells { (rows cols : ℕ) (cells : List Cell) (limits : TextLimits) →
        IsDimension rows → IsDimension cols → AreWithin rows cols cells → All (λ c. c.count < 2 ^ 64) cells →
        length cells < 2 ^ 64 → length (canonical rows cols cells) ≤ limits.max_bytes →
        length cells ≤ limits.max_entries →
        Spells (canonical rows cols cells) limits rows cols cells }
    ensures one_list { (rows cols rows' cols' : ℕ) (cells cells' : List Cell) →
        IsDimension rows → IsDimension cols → AreWithin rows cols cells → All (λ c. c.count < 2 ^ 64) cells →
        length cells < 2 ^ 64 →
        IsDimension rows' → IsDimension cols' → AreWithin rows' cols' cells' → All (λ c. c.count < 2 ^ 64) cells' →
        length cells' < 2 ^ 64 →
        canonical rows cols cells ≡ canonical rows' cols' cells' → (rows ≡ rows') × (cols ≡ cols') × (cells ≡ cells') }
{}

/// The first fault of some bytes that shows within them is the first fault of every text that begins with them, and a
/// text's first fault that shows within its first bytes is theirs. So a reader may tell a fault as soon as its place
/// was read, whatever follows; and where some bytes bear none within them, every text that begins with them has its
/// first fault, if it has one, behind them.
pub fn first_faults_stay()
    ensures stays { (text more : List ℕ) (limits : TextLimits) (kind : MmKind) (line : ℕ)
        (f : FirstFault text limits kind line) →
        f.place ≤ length text → (g : FirstFault (text ++ more) limits kind line) × (g.place ≡ f.place) }
    ensures came { (text more : List ℕ) (limits : TextLimits) (kind : MmKind) (line : ℕ)
        (f : FirstFault (text ++ more) limits kind line) →
        f.place ≤ length text → (g : FirstFault text limits kind line) × (g.place ≡ f.place) }
    ensures none { (text more : List ℕ) (limits : TextLimits) (kind : MmKind) (line : ℕ) → NoFaultWithin text limits →
        (f : FirstFault (text ++ more) limits kind line) → length text < f.place }
{}

/// A fault shows at a byte of the text, or at its end, which counts as one byte more; and its line is one more than
/// the number of line feeds before that byte.
pub fn faults_stand_on_counted_lines()
    ensures { (turn : Turn) (text : List ℕ) (limits : TextLimits) (place : ℕ) (kind : MmKind) (line : ℕ) →
        FaultAt turn text limits place kind line →
        (1 ≤ place) × (place ≤ length text + 1) × (line ≡ line_at text (place - 1)) }
{}

/// No fault of a text is of the kinds that tell of a device or of memory; and the kinds that tell of lengths, and of
/// entries that are missing, are never those of a line's words.
pub fn faults_are_of_the_text()
    ensures of_text { (turn : Turn) (text : List ℕ) (limits : TextLimits) (place : ℕ) (kind : MmKind) (line : ℕ) →
        FaultAt turn text limits place kind line → (kind ≢ MmKind.Read) × (kind ≢ MmKind.Memory) }
    ensures of_words { (text : List ℕ) (limits : TextLimits) (place : ℕ) (kind : MmKind) (line : ℕ) →
        LineIsWrong text limits place kind line →
        (kind ≢ MmKind.LineTooLong) × (kind ≢ MmKind.TooLong) × (kind ≢ MmKind.TooFewEntries) }
{}
