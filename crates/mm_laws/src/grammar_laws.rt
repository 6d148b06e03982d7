//! What texts, lines and words mean, by what they look like: laws that tie the judgements to the form of the format.
ghost use Rattle.std.specs.Prelude.{◌≡◌, ◌⊎◌, ℕ, ◌<◌, ◌≤◌, Bool, List, [], ◌∷◌, ◌++◌, length, map, true, false, Ok};
ghost use Rattle.std.specs.Prelude.{All};
ghost use Rattle.mm_text.specs.Lines.{lines_of, joined, IsLine, content, is_comment, is_skipped};
ghost use Rattle.mm_text.specs.Words.{words};
ghost use Rattle.mm_text.specs.Judging.{number, banner, size, entry};
ghost use Rattle.mm_text.specs.Texts.{Spells};
ghost use Rattle.mm_laws.specs.Grammar.{HasWords, Writes, IsBannerLine, IsSizeLine, IsEntryLine, IsCoordinateText};
ghost use Rattle.mm_text.specs.declared.limits.TextLimits.{TextLimits};
ghost use Rattle.cells.specs.declared.cell.Cell.{Cell};
ghost use Rattle.mm_text.specs.declared.size.Size.{Size};
ghost use Rattle.mm_text.specs.declared.fault.MmKind.{MmKind};

/// The lines of a text have no line feed, and joined they are the text, or the text and one more line feed. Lines
/// that are joined so, the last with its line feed or without, are the lines of what they make.
pub fn lines_make_the_text()
    ensures joined { (text : List ℕ) → All IsLine (lines_of text)
        × ((joined (lines_of text) ≡ text) ⊎ (joined (lines_of text) ≡ text ++ 10 ∷ [])) }
    ensures whole { (lines : List (List ℕ)) → All IsLine lines → lines_of (joined lines) ≡ lines }
    ensures partial { (lines : List (List ℕ)) (last : List ℕ) → All IsLine lines → IsLine last → 0 < length last →
        lines_of (joined lines ++ last) ≡ lines ++ last ∷ [] }
{}

/// A line's words are what stands between blanks.
pub fn words_stand_between_blanks()
    ensures has { (line : List ℕ) (ws : List (List ℕ)) → words line ≡ ws → HasWords line ws }
    ensures are { (line : List ℕ) (ws : List (List ℕ)) → HasWords line ws → words line ≡ ws }
{}

/// A word is taken as the number below 2^64 that its digits write, and as no other; a word that writes none is no
/// number.
pub fn words_write_numbers()
    ensures writes { (bad : MmKind) (word : List ℕ) (n : ℕ) → number bad word ≡ Ok n → Writes word n }
    ensures taken { (bad : MmKind) (word : List ℕ) (n : ℕ) → Writes word n → number bad word ≡ Ok n }
{}

/// A line is taken as a banner, a size line or an entry exactly where it has that form; a size line also declares no
/// more entries than are allowed.
pub fn taken_lines_have_their_form()
    ensures banner { (line : List ℕ) (symmetric : Bool) → banner line ≡ Ok symmetric → IsBannerLine line symmetric }
    ensures banner_taken { (line : List ℕ) (symmetric : Bool) → IsBannerLine line symmetric →
        banner line ≡ Ok symmetric }
    ensures size { (symmetric : Bool) (most : ℕ) (line : List ℕ) (s : Size) →
        size symmetric most line ≡ Ok s → IsSizeLine symmetric line s × (s.entries ≤ most) }
    ensures size_taken { (symmetric : Bool) (most : ℕ) (line : List ℕ) (s : Size) →
        IsSizeLine symmetric line s → s.entries ≤ most → size symmetric most line ≡ Ok s }
    ensures entry { (rows cols : ℕ) (line : List ℕ) (cell : Cell) →
        entry rows cols line ≡ Ok cell → IsEntryLine rows cols line cell }
    ensures entry_taken { (rows cols : ℕ) (line : List ℕ) (cell : Cell) →
        IsEntryLine rows cols line cell → entry rows cols line ≡ Ok cell }
{}

/// A text spells a file exactly where it is a coordinate text of these cells, as "Matrix Market" (NIST) has the form.
pub fn spelled_texts_are_coordinate_texts()
    ensures is { (text : List ℕ) (limits : TextLimits) (rows cols : ℕ) (cells : List Cell) →
        Spells text limits rows cols cells → IsCoordinateText text limits rows cols cells }
    ensures spells { (text : List ℕ) (limits : TextLimits) (rows cols : ℕ) (cells : List Cell) →
        IsCoordinateText text limits rows cols cells → Spells text limits rows cols cells }
{}

/// What a text spells hangs neither on a line feed at its end, nor on whether its lines end with LF or CR LF, nor on
/// a comment or a blank line behind the first line, where the limits are kept.
pub fn line_ends_and_skipped_lines_say_nothing()
    ensures last { (text text' : List ℕ) (limits : TextLimits) (rows cols : ℕ) (cells : List Cell) →
        lines_of text ≡ lines_of text' → length text' ≤ limits.max_bytes →
        Spells text limits rows cols cells → Spells text' limits rows cols cells }
    ensures returns { (text text' : List ℕ) (limits : TextLimits) (rows cols : ℕ) (cells : List Cell) →
        All (λ line. content line ≡ line) (lines_of text) →
        lines_of text' ≡ map (λ line. line ++ 13 ∷ []) (lines_of text) →
        length text ≤ limits.max_bytes → length text' ≤ limits.max_bytes →
        (Spells text limits rows cols cells → Spells text' limits rows cols cells)
        × (Spells text' limits rows cols cells → Spells text limits rows cols cells) }
    ensures skipped { (text text' : List ℕ) (limits : TextLimits) (rows cols : ℕ) (cells : List Cell)
        (first : List ℕ) (before after : List (List ℕ)) (line : List ℕ) →
        lines_of text ≡ first ∷ before ++ after → lines_of text' ≡ first ∷ before ++ line ∷ after →
        is_skipped line ≡ true → (is_comment line ≡ false → length (content line) ≤ 1024) →
        length text ≤ limits.max_bytes → length text' ≤ limits.max_bytes →
        (Spells text limits rows cols cells → Spells text' limits rows cols cells)
        × (Spells text' limits rows cols cells → Spells text limits rows cols cells) }
{}
