//! The faults of lines: a law for each row of the table of faults (`docs/FORMATS.md`), in its order. Each says what
//! stands before the word that is judged, and nothing of what stands behind it.
ghost use Rattle.std.specs.Prelude.{◌≡◌, ◌≢◌, ◌⊎◌, ℕ, ◌<◌, ◌≤◌, ◌^◌, Bool, true, List, [], ◌∷◌, Err, codes};
ghost use Rattle.cells.specs.Bounds.{IsDimension};
ghost use Rattle.mm_text.specs.Lines.{is_blank};
ghost use Rattle.mm_text.specs.Judging.{number, banner, size, entry};
ghost use Rattle.mm_laws.specs.Grammar.{HasWords, Writes, IsNumeral, IsMinus, IsKeyword, IsOneOf, IsMarked};
ghost use Rattle.mm_text.specs.declared.fault.MmKind.{MmKind};

/// A word that is no number is bad in the way of its line, and a number of 2^64 or more is too large.
pub fn numbers_faults()
    ensures none { (bad : MmKind) (word : List ℕ) → ((n : ℕ) → IsNumeral word n → ⊥) → number bad word ≡ Err bad }
    ensures too_large { (bad : MmKind) (word : List ℕ) (n : ℕ) → IsNumeral word n → 2 ^ 64 ≤ n →
        number bad word ≡ Err MmKind.NumberTooLarge }
{}

/// A banner that doesn't begin with its mark at its first byte is bad.
pub fn banner_mark_faults()
    ensures missing { banner [] ≡ Err MmKind.BadBanner }
    ensures behind_blank { (b : ℕ) (line : List ℕ) → is_blank b ≡ true → banner (b ∷ line) ≡ Err MmKind.BadBanner }
    ensures other { (line word : List ℕ) (ws : List (List ℕ)) → HasWords line (word ∷ ws) →
        (IsKeyword word (codes "%%MatrixMarket") → ⊥) → banner line ≡ Err MmKind.BadBanner }
{}

/// The second word of a banner is `matrix`.
pub fn banner_object_faults()
    ensures missing { (line : List ℕ) → IsMarked line [] → banner line ≡ Err MmKind.BadBanner }
    ensures other { (line word : List ℕ) (ws : List (List ℕ)) → IsMarked line (word ∷ ws) →
        (IsKeyword word (codes "matrix") → ⊥) → banner line ≡ Err MmKind.BadBanner }
{}

/// The third word of a banner is `coordinate`; `array` is another format, which isn't supported.
pub fn banner_format_faults()
    ensures missing { (line object : List ℕ) → IsMarked line (object ∷ []) → IsKeyword object (codes "matrix") →
        banner line ≡ Err MmKind.BadBanner }
    ensures unsupported { (line object word : List ℕ) (ws : List (List ℕ)) → IsMarked line (object ∷ word ∷ ws) →
        IsKeyword object (codes "matrix") → IsKeyword word (codes "array") → banner line ≡ Err MmKind.Unsupported }
    ensures other { (line object word : List ℕ) (ws : List (List ℕ)) → IsMarked line (object ∷ word ∷ ws) →
        IsKeyword object (codes "matrix") → (IsOneOf word (codes "array" ∷ codes "coordinate" ∷ []) → ⊥) →
        banner line ≡ Err MmKind.BadBanner }
{}

/// The fourth word of a banner is `integer` or `unsigned-integer`; three other fields aren't supported.
pub fn banner_field_faults()
    ensures missing { (line object format : List ℕ) → IsMarked line (object ∷ format ∷ []) →
        IsKeyword object (codes "matrix") → IsKeyword format (codes "coordinate") → banner line ≡ Err MmKind.BadBanner }
    ensures unsupported { (line object format word : List ℕ) (ws : List (List ℕ)) →
        IsMarked line (object ∷ format ∷ word ∷ ws) →
        IsKeyword object (codes "matrix") → IsKeyword format (codes "coordinate") →
        IsOneOf word (codes "real" ∷ codes "complex" ∷ codes "pattern" ∷ []) → banner line ≡ Err MmKind.Unsupported }
    ensures other { (line object format word : List ℕ) (ws : List (List ℕ)) →
        IsMarked line (object ∷ format ∷ word ∷ ws) →
        IsKeyword object (codes "matrix") → IsKeyword format (codes "coordinate") →
        (IsOneOf word (codes "real" ∷ codes "complex" ∷ codes "pattern" ∷ codes "integer" ∷ codes
        "unsigned-integer" ∷ []) → ⊥) →
        banner line ≡ Err MmKind.BadBanner }
{}

/// The fifth word of a banner is `general` or `symmetric`; two other symmetries aren't supported.
pub fn banner_symmetry_faults()
    ensures missing { (line object format field : List ℕ) → IsMarked line (object ∷ format ∷ field ∷ []) →
        IsKeyword object (codes "matrix") → IsKeyword format (codes "coordinate") →
        IsOneOf field (codes "integer" ∷ codes "unsigned-integer" ∷ []) → banner line ≡ Err MmKind.BadBanner }
    ensures unsupported { (line object format field word : List ℕ) (ws : List (List ℕ)) →
        IsMarked line (object ∷ format ∷ field ∷ word ∷ ws) →
        IsKeyword object (codes "matrix") → IsKeyword format (codes "coordinate") →
        IsOneOf field (codes "integer" ∷ codes "unsigned-integer" ∷ []) →
        IsOneOf word (codes "skew-symmetric" ∷ codes "hermitian" ∷ []) → banner line ≡ Err MmKind.Unsupported }
    ensures other { (line object format field word : List ℕ) (ws : List (List ℕ)) →
        IsMarked line (object ∷ format ∷ field ∷ word ∷ ws) →
        IsKeyword object (codes "matrix") → IsKeyword format (codes "coordinate") →
        IsOneOf field (codes "integer" ∷ codes "unsigned-integer" ∷ []) →
        (IsOneOf word (codes "skew-symmetric" ∷ codes "hermitian" ∷ codes "general" ∷ codes "symmetric" ∷ []) → ⊥) →
        banner line ≡ Err MmKind.BadBanner }
{}

/// A banner has no sixth word.
pub fn banner_has_five_words()
    ensures { (line object format field symmetry word : List ℕ) (ws : List (List ℕ)) →
        IsMarked line (object ∷ format ∷ field ∷ symmetry ∷ word ∷ ws) →
        IsKeyword object (codes "matrix") → IsKeyword format (codes "coordinate") →
        IsOneOf field (codes "integer" ∷ codes "unsigned-integer" ∷ []) →
        IsOneOf symmetry (codes "general" ∷ codes "symmetric" ∷ []) → banner line ≡ Err MmKind.BadBanner }
{}

/// The first word of a size line is the number of rows, from 1 to 2^60.
pub fn size_rows_faults()
    ensures missing { (symmetric : Bool) (most : ℕ) (line : List ℕ) → HasWords line [] →
        size symmetric most line ≡ Err MmKind.BadSize }
    ensures number { (symmetric : Bool) (most : ℕ) (line word : List ℕ) (ws : List (List ℕ)) (kind : MmKind) →
        HasWords line (word ∷ ws) → number MmKind.BadSize word ≡ Err kind → size symmetric most line ≡ Err kind }
    ensures range { (symmetric : Bool) (most : ℕ) (line word : List ℕ) (ws : List (List ℕ)) (n : ℕ) →
        HasWords line (word ∷ ws) → Writes word n → (IsDimension n → ⊥) →
        size symmetric most line ≡ Err MmKind.BadDimension }
{}

/// The second word of a size line is the number of columns, from 1 to 2^60, and the same as that of rows where the
/// banner says symmetric.
pub fn size_columns_faults()
    ensures missing { (symmetric : Bool) (most : ℕ) (line row : List ℕ) (rows : ℕ) → HasWords line (row ∷ []) →
        Writes row rows → IsDimension rows → size symmetric most line ≡ Err MmKind.BadSize }
    ensures number { (symmetric : Bool) (most : ℕ) (line row word : List ℕ) (ws : List (List ℕ)) (rows : ℕ)
        (kind : MmKind) →
        HasWords line (row ∷ word ∷ ws) → Writes row rows → IsDimension rows →
        number MmKind.BadSize word ≡ Err kind → size symmetric most line ≡ Err kind }
    ensures range { (symmetric : Bool) (most : ℕ) (line row word : List ℕ) (ws : List (List ℕ)) (rows n : ℕ) →
        HasWords line (row ∷ word ∷ ws) → Writes row rows → IsDimension rows →
        Writes word n → (IsDimension n → ⊥) → size symmetric most line ≡ Err MmKind.BadDimension }
    ensures square { (most : ℕ) (line row word : List ℕ) (ws : List (List ℕ)) (rows n : ℕ) →
        HasWords line (row ∷ word ∷ ws) → Writes row rows → IsDimension rows →
        Writes word n → IsDimension n → rows ≢ n → size true most line ≡ Err MmKind.NotSquare }
{}

/// The third word of a size line is the number of entries, at most the limit, and there is no fourth.
pub fn size_entries_faults()
    ensures missing { (symmetric : Bool) (most : ℕ) (line row col : List ℕ) (rows cols : ℕ) →
        HasWords line (row ∷ col ∷ []) →
        Writes row rows → IsDimension rows → Writes col cols → IsDimension cols → (symmetric ≡ true → rows ≡ cols) →
        size symmetric most line ≡ Err MmKind.BadSize }
    ensures number { (symmetric : Bool) (most : ℕ) (line row col word : List ℕ) (ws : List (List ℕ)) (rows cols : ℕ)
        (kind : MmKind) →
        HasWords line (row ∷ col ∷ word ∷ ws) → Writes row rows → IsDimension rows → Writes col cols →
        IsDimension cols →
        (symmetric ≡ true → rows ≡ cols) → number MmKind.BadSize word ≡ Err kind → size symmetric most line ≡ Err kind }
    ensures most { (symmetric : Bool) (most : ℕ) (line row col word : List ℕ) (ws : List (List ℕ)) (rows cols n : ℕ) →
        HasWords line (row ∷ col ∷ word ∷ ws) → Writes row rows → IsDimension rows → Writes col cols →
        IsDimension cols →
        (symmetric ≡ true → rows ≡ cols) → Writes word n → most < n →
        size symmetric most line ≡ Err MmKind.TooManyEntries }
    ensures fourth { (symmetric : Bool) (most : ℕ) (line row col third word : List ℕ) (ws : List (List ℕ))
        (rows cols n : ℕ) →
        HasWords line (row ∷ col ∷ third ∷ word ∷ ws) → Writes row rows → IsDimension rows → Writes col cols →
        IsDimension cols →
        (symmetric ≡ true → rows ≡ cols) → Writes third n → n ≤ most → size symmetric most line ≡ Err MmKind.BadSize }
{}

/// The first word of an entry's line is its row, from 1 to the number of rows.
pub fn entry_row_faults()
    ensures missing { (rows cols : ℕ) (line : List ℕ) → HasWords line [] → entry rows cols line ≡ Err MmKind.BadEntry }
    ensures number { (rows cols : ℕ) (line word : List ℕ) (ws : List (List ℕ)) (kind : MmKind) →
        HasWords line (word ∷ ws) → number MmKind.BadEntry word ≡ Err kind → entry rows cols line ≡ Err kind }
    ensures range { (rows cols : ℕ) (line word : List ℕ) (ws : List (List ℕ)) (n : ℕ) →
        HasWords line (word ∷ ws) → Writes word n → (n ≡ 0) ⊎ (rows < n) →
        entry rows cols line ≡ Err MmKind.IndexOutOfRange }
{}

/// The second word of an entry's line is its column, from 1 to the number of columns.
pub fn entry_column_faults()
    ensures missing { (rows cols : ℕ) (line row : List ℕ) (i : ℕ) → HasWords line (row ∷ []) →
        Writes row i → 1 ≤ i → i ≤ rows → entry rows cols line ≡ Err MmKind.BadEntry }
    ensures number { (rows cols : ℕ) (line row word : List ℕ) (ws : List (List ℕ)) (i : ℕ) (kind : MmKind) →
        HasWords line (row ∷ word ∷ ws) → Writes row i → 1 ≤ i → i ≤ rows →
        number MmKind.BadEntry word ≡ Err kind → entry rows cols line ≡ Err kind }
    ensures range { (rows cols : ℕ) (line row word : List ℕ) (ws : List (List ℕ)) (i n : ℕ) →
        HasWords line (row ∷ word ∷ ws) → Writes row i → 1 ≤ i → i ≤ rows →
        Writes word n → (n ≡ 0) ⊎ (cols < n) → entry rows cols line ≡ Err MmKind.IndexOutOfRange }
{}

/// The third word of an entry's line is its count. A minus and digits is negative whatever its value, and there is no
/// fourth word.
pub fn entry_count_faults()
    ensures missing { (rows cols : ℕ) (line row col : List ℕ) (i j : ℕ) → HasWords line (row ∷ col ∷ []) →
        Writes row i → 1 ≤ i → i ≤ rows → Writes col j → 1 ≤ j → j ≤ cols → entry rows cols line ≡ Err MmKind.BadEntry }
    ensures negative { (rows cols : ℕ) (line row col word : List ℕ) (ws : List (List ℕ)) (i j : ℕ) →
        HasWords line (row ∷ col ∷ word ∷ ws) → Writes row i → 1 ≤ i → i ≤ rows → Writes col j → 1 ≤ j → j ≤ cols →
        IsMinus word → entry rows cols line ≡ Err MmKind.Negative }
    ensures number { (rows cols : ℕ) (line row col word : List ℕ) (ws : List (List ℕ)) (i j : ℕ) (kind : MmKind) →
        HasWords line (row ∷ col ∷ word ∷ ws) → Writes row i → 1 ≤ i → i ≤ rows → Writes col j → 1 ≤ j → j ≤ cols →
        (IsMinus word → ⊥) → number MmKind.BadEntry word ≡ Err kind → entry rows cols line ≡ Err kind }
    ensures fourth { (rows cols : ℕ) (line row col count word : List ℕ) (ws : List (List ℕ)) (i j n : ℕ) →
        HasWords line (row ∷ col ∷ count ∷ word ∷ ws) → Writes row i → 1 ≤ i → i ≤ rows → Writes col j → 1 ≤ j →
        j ≤ cols →
        Writes count n → entry rows cols line ≡ Err MmKind.BadEntry }
{}
