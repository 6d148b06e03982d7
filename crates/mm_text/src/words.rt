//! Words of a line, and the numbers that they write.
ghost use Rattle.std.specs.Prelude.{◌≡◌, ℕ, ◌<◌, ◌≤◌, ◌^◌, length, drop, slice_index, [], false, true, IfSome, IfNone};
ghost use Rattle.std.specs.List.{list_all};
ghost use Rattle.std.specs.Str.Parse.{digits_value, without_leading_plus};
ghost use Rattle.std.specs.Char.{is_ascii_digit};
ghost use Rattle.mm_text.specs.Lines.{is_blank};
ghost use Rattle.mm_text.specs.Words.{words, word, has_word, are_digits, is_negative};
ghost use Rattle.mm_text.specs.Judging.{number};

use crate::fault::MmKind;

pub fn is_blank_byte(byte: u8) -> bool
    ensures { result ≡ is_blank byte }
{
    byte == b' ' || byte == b'\t'
}

/// The line from its first byte on that is no blank.
fn skip_blanks(line: &[u8]) -> &[u8]
    ensures words { words result.now ≡ words line.now }
    ensures front { 0 < length result.now → is_blank (slice_index result.now 0) ≡ false }
{
    for (i, byte) in line.iter().enumerate() {
        if !is_blank_byte(*byte) {
            return &line[i..];
        }
    }
    &line[line.len()..]
}

/// The word with which the line begins, and what follows it.
fn cut_word(line: &[u8]) -> (&[u8], &[u8])
    requires { 0 < length line.now → is_blank (slice_index line.now 0) ≡ false }
    ensures word { result.0.now ≡ word (words line.now) }
    ensures rest { words result.1.now ≡ drop 1 (words line.now) }
    ensures none { length result.0.now ≡ 0 → words line.now ≡ [] }
{
    for (i, byte) in line.iter().enumerate() {
        if is_blank_byte(*byte) {
            return line.split_at(i);
        }
    }
    line.split_at(line.len())
}

/// The first word, which is empty where there is none, and what follows it.
pub fn take_word(line: &[u8]) -> (&[u8], &[u8])
    ensures word { result.0.now ≡ word (words line.now) }
    ensures rest { words result.1.now ≡ drop 1 (words line.now) }
    ensures none { length result.0.now ≡ 0 → words line.now ≡ [] }
{
    cut_word(skip_blanks(line))
}

fn all_digits(word: &[u8]) -> bool
    ensures { result ≡ list_all is_ascii_digit word.now }
{
    word.iter().all(|byte| byte.is_ascii_digit())
}

fn has_digits_only(word: &[u8]) -> bool
    ensures { result ≡ are_digits word.now }
{
    if word.is_empty() {
        false
    } else {
        all_digits(word)
    }
}

/// A minus, and then digits.
pub fn is_negative_number(word: &[u8]) -> bool
    ensures { result ≡ is_negative word.now }
{
    match word {
        [b'-', digits @ ..] => has_digits_only(digits),
        _ => false,
    }
}

fn has_another_word(line: &[u8]) -> bool
    ensures { result ≡ has_word (words line.now) }
{
    !take_word(line).0.is_empty()
}

/// The first three words of a line, and whether a fourth follows.
#[derive(Clone, Copy)]
pub struct ThreeWords<'a> {
    pub first: &'a [u8],
    pub second: &'a [u8],
    pub third: &'a [u8],
    pub has_more: bool,
}

pub fn three_words(line: &[u8]) -> ThreeWords<'_>
    ensures first { result.first.now ≡ word (words line.now) }
    ensures second { result.second.now ≡ word (drop 1 (words line.now)) }
    ensures third { result.third.now ≡ word (drop 2 (words line.now)) }
    ensures more { result.has_more ≡ has_word (drop 3 (words line.now)) }
{
    let (first, rest) = take_word(line);
    let (second, rest) = take_word(rest);
    let (third, rest) = take_word(rest);
    let has_more = has_another_word(rest);
    ThreeWords {
        first,
        second,
        third,
        has_more,
    }
}

/// The first five words of a line, and whether a sixth follows.
#[derive(Clone, Copy)]
pub struct FiveWords<'a> {
    pub first: &'a [u8],
    pub second: &'a [u8],
    pub third: &'a [u8],
    pub fourth: &'a [u8],
    pub fifth: &'a [u8],
    pub has_more: bool,
}

pub fn five_words(line: &[u8]) -> FiveWords<'_>
    ensures first { result.first.now ≡ word (words line.now) }
    ensures second { result.second.now ≡ word (drop 1 (words line.now)) }
    ensures third { result.third.now ≡ word (drop 2 (words line.now)) }
    ensures fourth { result.fourth.now ≡ word (drop 3 (words line.now)) }
    ensures fifth { result.fifth.now ≡ word (drop 4 (words line.now)) }
    ensures more { result.has_more ≡ has_word (drop 5 (words line.now)) }
{
    let (first, rest) = take_word(line);
    let (second, rest) = take_word(rest);
    let (third, rest) = take_word(rest);
    let (fourth, rest) = take_word(rest);
    let (fifth, rest) = take_word(rest);
    let has_more = has_another_word(rest);
    FiveWords {
        first,
        second,
        third,
        fourth,
        fifth,
        has_more,
    }
}

/// The word without a plus at its front.
fn without_plus(word: &[u8]) -> &[u8]
    ensures { result.now ≡ without_leading_plus word.now }
{
    match word {
        [b'+', rest @ ..] => rest,
        _ => word,
    }
}

/// The number that digits write, if it has at most 64 bits.
#[tactic(auto, using(crate::proofs::NumberLemmas::value_more))]
fn digits_number(digits: &[u8]) -> Option<u64>
    requires { list_all is_ascii_digit digits.now ≡ true }
    ensures fits { IfSome result (λ n. n ≡ digits_value 10 digits.now) }
    ensures over { IfNone result (2 ^ 64 ≤ digits_value 10 digits.now) }
{
    let mut value = 0u64;
    for byte in digits {
        let digit = u64::from(*byte - b'0');
        value = value.checked_mul(10)?.checked_add(digit)?;
    }
    Some(value)
}

/// The number that a word writes; a word that writes none is bad in its own way.
#[tactic(auto, unfolding(crate::specs::Judging::number))]
pub fn word_number(bad: MmKind, word: &[u8]) -> Result<u64, MmKind>
    ensures { result ≡ number bad word.now }
{
    let digits = without_plus(word);
    if !has_digits_only(digits) {
        return Err(bad);
    }
    match digits_number(digits) {
        Some(value) => Ok(value),
        None => Err(MmKind::NumberTooLarge),
    }
}
