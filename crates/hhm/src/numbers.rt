//! The numbers and lists of an option's words.
//!
//! A number is one to twenty ASCII digits with a value of at most 2^64 - 1, leading zeros included. A list is one or
//! more numbers with single commas between, or the word `none` for an empty list. Nothing else is read: no sign, no
//! blank, no separator inside a number.
ghost use Rattle.std.specs.Prelude.{◌≡◌, ℕ, ◌<◌, ◌≤◌, ◌^◌, ◌↔◌, true, length, filter_map, map};
ghost use Rattle.std.specs.Prelude.{None, Some, Err, IfOk, IfNone, IfSome};
ghost use Rattle.std.specs.Char.{is_ascii_digit};
ghost use Rattle.std.specs.List.{list_all, slice_split};
ghost use Rattle.std.specs.Str.Parse.{digits_value};
ghost use Rattle.hhm.specs.Options.{is_numeral, option_number, option_list, writes_number, is_comma};

use crate::limits::MAX_DIGITS;
use std::alloc::{AllocError, Global};
use thiserror::Error;

fn are_digits(word: &[u8]) -> bool
    ensures { result ≡ list_all is_ascii_digit word.now }
{
    word.iter().all(|byte| byte.is_ascii_digit())
}

fn is_numeral_word(word: &[u8]) -> bool
    ensures { result ≡ is_numeral word.now }
{
    if word.is_empty() || word.len() > MAX_DIGITS {
        return false;
    }
    are_digits(word)
}

// The number that digits write, if it has at most 64 bits.
#[tactic(auto, using(crate::proofs::NumberLemmas::value_more))]
fn digits_number(digits: &[u8]) -> Option<u64>
    requires { list_all is_ascii_digit digits.now ≡ true }
    ensures fits { IfSome result (λ n. n ≡ digits_value 10 digits.now) }
    ensures over { IfNone result (2 ^ 64 ≤ digits_value 10 digits.now) }
{
    let mut value = 0u64;
    for byte in digits {
        let digit = u64::from(*byte - b'0');
        value = value.checked_mul(10)?.checked_add(digit)?;
    }
    Some(value)
}

/// The number that an option's word writes: None unless it is one to twenty ASCII digits with a value below 2^64.
pub fn read_number(word: &[u8]) -> Option<u64>
    ensures { result ≡ option_number word.now }
{
    if !is_numeral_word(word) {
        return None;
    }
    digits_number(word)
}

/// Why an option's list is not read.
#[derive(Clone, Copy, Debug, PartialEq, Eq, Error)]
pub enum ListFault {
    /// The word does not have the form of a list.
    #[error("settings: BadNumber")]
    BadNumber,
    /// There is no memory for the list.
    #[error("memory")]
    Memory,
}

fn is_list(word: &str) -> bool
    ensures { result ≡ list_all writes_number (slice_split is_comma word.now) }
{
    word.split(',')
        .all(|piece| read_number(piece.as_bytes()).is_some())
}

fn pieces_of(alloc: Global, word: &str) -> Result<Vec<&str>, AllocError>
    ensures { IfOk result (λ pieces. map (λ piece. piece.now) pieces.items ≡ slice_split is_comma word.now) }
{
    word.split(',').collect(alloc)
}

fn numbers_of(alloc: Global, pieces: &[&str]) -> Result<Vec<u64>, AllocError>
    ensures { IfOk result (λ list. list.items ≡ filter_map (λ piece. option_number piece.now) pieces.now) }
{
    pieces
        .iter()
        .filter_map(|piece| read_number(piece.as_bytes()))
        .collect(alloc)
}

fn collect_numbers(alloc: Global, word: &str) -> Result<Vec<u64>, AllocError>
    ensures { IfOk result (λ list. list.items ≡ filter_map option_number (slice_split is_comma word.now)) }
{
    let pieces = pieces_of(alloc, word)?;
    let list = numbers_of(alloc, pieces.as_slice())?;
    Ok(list)
}

/// The numbers that an option's list writes.
///
/// The word is judged before memory is taken, so `Memory` stands only for a word that is a list.
pub fn read_list(alloc: Global, word: &str) -> Result<Vec<u64>, ListFault>
    ensures ok { IfOk result (λ list. option_list word.now ≡ Some list.items) }
    ensures bad { (result ≡ Err ListFault.BadNumber) ↔ (option_list word.now ≡ None) }
{
    if word == "none" {
        return Ok(Vec::new(alloc));
    }
    if !is_list(word) {
        return Err(ListFault::BadNumber);
    }
    match collect_numbers(alloc, word) {
        Ok(list) => Ok(list),
        Err(_) => Err(ListFault::Memory),
    }
}
