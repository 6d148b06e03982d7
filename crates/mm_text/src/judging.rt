//! What a line's words mean, judged from left to right.
ghost use Rattle.std.specs.Prelude.{◌≡◌, ℕ, ◌<◌, ◌^◌, slice_index};
ghost use Rattle.std.specs.Str.{str_eq_ignore_ascii_case};
ghost use Rattle.mm_text.specs.Lines.{is_blank};
ghost use Rattle.mm_text.specs.Words.{words, word, has_word};
ghost use Rattle.mm_text.specs.Judging.{mark, object, format, field, symmetry, banner, size, index, entry};
ghost use Rattle.mm_text.specs.Judging.{is_dimension};

use crate::fault::MmKind;
use crate::size::Size;
use crate::words::{five_words, is_blank_byte, is_negative_number, three_words, word_number};
use cells::{Cell, MAX_DIMENSION};

fn is_word(word: &[u8], keyword: &[u8]) -> bool
    ensures { result ≡ str_eq_ignore_ascii_case word.now keyword.now }
{
    word.eq_ignore_ascii_case(keyword)
}

#[tactic(auto, unfolding(crate::specs::Judging::mark))]
fn judge_mark(word: &[u8]) -> Result<(), MmKind>
    ensures { result ≡ mark word.now }
{
    if is_word(word, b"%%matrixmarket") {
        Ok(())
    } else {
        Err(MmKind::BadBanner)
    }
}

#[tactic(auto, unfolding(crate::specs::Judging::object))]
fn judge_object(word: &[u8]) -> Result<(), MmKind>
    ensures { result ≡ object word.now }
{
    if is_word(word, b"matrix") {
        Ok(())
    } else {
        Err(MmKind::BadBanner)
    }
}

#[tactic(auto, unfolding(crate::specs::Judging::format))]
fn judge_format(word: &[u8]) -> Result<(), MmKind>
    ensures { result ≡ format word.now }
{
    if is_word(word, b"array") {
        Err(MmKind::Unsupported)
    } else if is_word(word, b"coordinate") {
        Ok(())
    } else {
        Err(MmKind::BadBanner)
    }
}

#[tactic(auto, unfolding(crate::specs::Judging::field))]
fn judge_field(word: &[u8]) -> Result<(), MmKind>
    ensures { result ≡ field word.now }
{
    if is_word(word, b"real") || is_word(word, b"complex") || is_word(word, b"pattern") {
        Err(MmKind::Unsupported)
    } else if is_word(word, b"integer") || is_word(word, b"unsigned-integer") {
        Ok(())
    } else {
        Err(MmKind::BadBanner)
    }
}

#[tactic(auto, unfolding(crate::specs::Judging::symmetry))]
fn judge_symmetry(word: &[u8]) -> Result<bool, MmKind>
    ensures { result ≡ symmetry word.now }
{
    if is_word(word, b"skew-symmetric") || is_word(word, b"hermitian") {
        return Err(MmKind::Unsupported);
    }
    let is_symmetric = is_word(word, b"symmetric");
    if is_symmetric || is_word(word, b"general") {
        Ok(is_symmetric)
    } else {
        Err(MmKind::BadBanner)
    }
}

fn starts_with_blank(line: &[u8]) -> bool
    ensures { result ≡ is_blank (slice_index line.now 0) }
{
    match line {
        [byte, ..] => is_blank_byte(*byte),
        [] => false,
    }
}

/// Whether the banner says symmetric.
#[tactic(auto, unfolding(crate::specs::Judging::banner))]
pub fn judge_banner(line: &[u8]) -> Result<bool, MmKind>
    ensures { result ≡ banner line.now }
{
    if starts_with_blank(line) {
        return Err(MmKind::BadBanner);
    }
    let words = five_words(line);
    judge_mark(words.first)?;
    judge_object(words.second)?;
    judge_format(words.third)?;
    judge_field(words.fourth)?;
    let is_symmetric = judge_symmetry(words.fifth)?;
    if words.has_more {
        Err(MmKind::BadBanner)
    } else {
        Ok(is_symmetric)
    }
}

fn is_valid_dimension(n: u64) -> bool
    ensures { result ≡ is_dimension n }
{
    1 <= n && n <= MAX_DIMENSION
}

#[tactic(auto, unfolding(crate::specs::Judging::size))]
pub fn judge_size(symmetric: bool, max_entries: u64, line: &[u8]) -> Result<Size, MmKind>
    ensures { result ≡ size symmetric max_entries line.now }
{
    let words = three_words(line);
    let rows = word_number(MmKind::BadSize, words.first)?;
    if !is_valid_dimension(rows) {
        return Err(MmKind::BadDimension);
    }
    let cols = word_number(MmKind::BadSize, words.second)?;
    if !is_valid_dimension(cols) {
        return Err(MmKind::BadDimension);
    }
    if symmetric && rows != cols {
        return Err(MmKind::NotSquare);
    }
    let entries = word_number(MmKind::BadSize, words.third)?;
    if max_entries < entries {
        return Err(MmKind::TooManyEntries);
    }
    if words.has_more {
        return Err(MmKind::BadSize);
    }
    Ok(Size {
        rows,
        cols,
        entries,
    })
}

#[tactic(auto, unfolding(crate::specs::Judging::index))]
fn judge_index(limit: u64, word: &[u8]) -> Result<u64, MmKind>
    ensures { result ≡ index limit word.now }
{
    let n = word_number(MmKind::BadEntry, word)?;
    if n == 0 || limit < n {
        Err(MmKind::IndexOutOfRange)
    } else {
        Ok(n - 1)
    }
}

#[tactic(auto, unfolding(crate::specs::Judging::entry))]
pub fn judge_entry(rows: u64, cols: u64, line: &[u8]) -> Result<Cell, MmKind>
    ensures { result ≡ entry rows cols line.now }
{
    let words = three_words(line);
    let row = judge_index(rows, words.first)?;
    let col = judge_index(cols, words.second)?;
    if is_negative_number(words.third) {
        return Err(MmKind::Negative);
    }
    let count = word_number(MmKind::BadEntry, words.third)?;
    if words.has_more {
        return Err(MmKind::BadEntry);
    }
    Ok(Cell { row, col, count })
}
