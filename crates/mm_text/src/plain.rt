//! Takes entry lines of the plainest form: digits, a blank, digits, a blank, digits, and LF or CR LF.
//!
//! Nearly all lines of a large text are such. Each is read in one pass, which finds its numbers and its LF at once, and
//! the reader's state stays in local variables for as many of them as stand in a row: a third of the time that cutting
//! each line at its LF, then at its blanks, takes. All other lines, and each fault, are left to the judge that knows
//! every form.
//!
//! An index is read by eight digits, as a word, and then digit by digit: where it has 18, a line takes half of the time
//! that digit by digit takes. The last digits of a long index cost no branch each, since no processor foretells whether
//! it has 17, 18 or 19. A count is read digit by digit, since most have few, and first as one digit.
ghost use Rattle.std.specs.Prelude.{◌≡◌, ℕ, ◌+◌, ◌*◌, ◌<◌, ◌≤◌, ◌^◌, [], length, take, IfOk, IfErr, IfSome, OnOk};
ghost use Rattle.std.specs.Prelude.{OnErr, vec_len, vec_capacity};
ghost use Rattle.std.specs.Int.{w64, to_le_bytes};
ghost use Rattle.std.specs.Int.Digits.{AllBelowBase, number_from_digits};
ghost use Rattle.mm_text.specs.Plain.{GoesOnWithDigits, BeginsWithEight, BeginsWithDigits, BeginsWithIndex};
ghost use Rattle.mm_text.specs.Plain.{BeginsWithCount, BeginsWithEntry};
ghost use Rattle.mm_text.specs.Stages.{state, Advances, StopsWithin};
ghost use Rattle.mm_text.specs.Faults.{Shows};
ghost use Rattle.mm_text.specs.declared.limits.TextLimits.{TextLimits};

use crate::fault::{MmFault, MmKind};
use crate::limits::{LAST_DIGITS, MAX_DIGITS, WORD_DIGITS};
use crate::progress::Progress;
use crate::size::Size;
use crate::stages::{Stage, push_cells};
use crate::words::is_blank_byte;
use cells::Cell;
use std::cmp;

/// The number that eight digits write, of which each byte of the word holds one, the first the lowest.
///
/// Neighbours are joined, all of the word at once: digits to pairs, pairs to fours, and the two fours.
fn eight_value(digits: u64) -> u64
    requires { AllBelowBase 10 (to_le_bytes w64 digits) }
    ensures { result ≡ number_from_digits 10 (to_le_bytes w64 digits) }
{
    let pairs = (digits * 10 + (digits >> 8)) & 0x00ff_00ff_00ff_00ff;
    let fours = (pairs * 100 + (pairs >> 16)) & 0x0000_ffff_0000_ffff;
    (fours * 10_000 + (fours >> 32)) & 0xffff_ffff
}

/// The number that the first eight bytes write, and what follows them, if all of these are digits.
///
/// A byte that is not below 10 has one of its upper four bits set, or gets one from adding 6.
fn eight_digits(bytes: &[u8]) -> Option<(u64, &[u8])>
    ensures { IfSome result (λ p. BeginsWithEight bytes.now p.0 p.1.now) }
{
    let (front, rest) = bytes.split_first_chunk::<WORD_DIGITS>()?;
    let digits = u64::from_le_bytes(*front).wrapping_sub(0x3030_3030_3030_3030);
    if (digits | digits.wrapping_add(0x0606_0606_0606_0606)) & 0xf0f0_f0f0_f0f0_f0f0 != 0 {
        return None;
    }
    Some((eight_value(digits), rest))
}

/// The number that `value` and the first digits after it write, at most so many of them, and what follows them.
///
/// Inlined, since each caller knows how many, so that no loop is left.
#[inline(always)]
fn more_digits(most: usize, value: u64, bytes: &[u8]) -> (u64, &[u8])
    requires { (value + 1) * 10 ^ most ≤ 10 ^ 19 }
    ensures { GoesOnWithDigits most value bytes.now result.0 result.1.now }
{
    let front = &bytes[..cmp::min(bytes.len(), most)];
    let mut value = value;
    for (i, byte) in front.iter().enumerate() {
        if !byte.is_ascii_digit() {
            return (value, &bytes[i..]);
        }
        value = value * 10 + u64::from(*byte - b'0');
    }
    (value, &bytes[front.len()..])
}

/// The number that the first digits write, at most `MAX_DIGITS` of them, and what follows them, read digit by digit.
///
/// The fastest where they are fewer than eight.
fn short_number(bytes: &[u8]) -> (u64, &[u8])
    ensures { BeginsWithDigits bytes.now result.0 result.1.now }
{
    more_digits(MAX_DIGITS, 0, bytes)
}

/// What `more_digits` gives for at most three digits, with no branch on how many stand there, if three bytes do.
///
/// A number that has as many as 16 digits has 17 to 19 mostly, and which of these can't be foretold.
#[inline(always)]
fn last_digits(value: u64, bytes: &[u8]) -> (u64, &[u8])
    requires { (value + 1) * 10 ^ 3 ≤ 10 ^ 19 }
    ensures { GoesOnWithDigits 3 value bytes.now result.0 result.1.now }
{
    if bytes.len() < LAST_DIGITS {
        return more_digits(LAST_DIGITS, value, bytes);
    }
    let front = &bytes[..LAST_DIGITS];
    let mut value = value;
    let mut count = 0;
    // 1 as long as digits stand, and 0 from the first byte on that is none.
    let mut goes_on = 1;
    for byte in front.iter() {
        let digit = byte.wrapping_sub(b'0');
        goes_on *= u64::from(digit < 10);
        value += (value * 9 + u64::from(digit)) * goes_on;
        count += goes_on as usize;
    }
    (value, &bytes[count..])
}

/// The number that the first digits write, read by eight digits where so many stand: at most two words of them, and
/// then at most 11 or 3 digits.
///
/// Inlined, as its callers are: a call for each index shows in the time of reading a line.
#[inline(always)]
fn plain_number(bytes: &[u8]) -> (u64, &[u8])
    ensures { BeginsWithDigits bytes.now result.0 result.1.now }
{
    let Some((high, rest)) = eight_digits(bytes) else {
        return short_number(bytes);
    };
    let Some((low, rest)) = eight_digits(rest) else {
        return more_digits(MAX_DIGITS - WORD_DIGITS, high, rest);
    };
    last_digits(high * 100_000_000 + low, rest)
}

/// The index that digits before a blank write, counted from 0, and what follows the blank.
///
/// Inlined, since a call for each of a line's two indices takes a fifth of the time of reading it.
#[inline(always)]
fn plain_index(limit: u64, bytes: &[u8]) -> Option<(u64, &[u8])>
    ensures { IfSome result (λ p. BeginsWithIndex limit bytes.now p.0 p.1.now) }
{
    let (n, rest) = plain_number(bytes);
    if n == 0 || limit < n {
        return None;
    }
    match rest {
        [blank, rest @ ..] => {
            if is_blank_byte(*blank) {
                Some((n - 1, rest))
            } else {
                None
            }
        }
        [] => None,
    }
}

/// The number that the first digits write, as `short_number` gives it, where one that stands alone is tried first: most
/// counts have no more.
#[inline(always)]
fn count_number(bytes: &[u8]) -> (u64, &[u8])
    ensures { BeginsWithDigits bytes.now result.0 result.1.now }
{
    let [digit, behind, ..] = bytes else {
        return short_number(bytes);
    };
    if !digit.is_ascii_digit() {
        return short_number(bytes);
    }
    if behind.is_ascii_digit() {
        return short_number(bytes);
    }
    (u64::from(*digit - b'0'), &bytes[1..])
}

/// The count that digits before an LF or CR LF write, and what follows the LF.
fn plain_count(bytes: &[u8]) -> Option<(u64, &[u8])>
    ensures { IfSome result (λ p. BeginsWithCount bytes.now p.0 p.1.now) }
{
    let (n, rest) = count_number(bytes);
    if rest.len() == bytes.len() {
        return None;
    }
    match rest {
        [b'\n', rest @ ..] | [b'\r', b'\n', rest @ ..] => Some((n, rest)),
        _ => None,
    }
}

/// The entry that the first line is, and how many bytes that line has with its LF.
///
/// None says nothing of the line.
fn plain_entry(rows: u64, cols: u64, bytes: &[u8]) -> Option<(Cell, usize)>
    ensures { IfSome result (λ p. BeginsWithEntry rows cols bytes.now p.0 p.1) }
{
    let (row, rest) = plain_index(rows, bytes)?;
    let (col, rest) = plain_index(cols, rest)?;
    let (count, rest) = plain_count(rest)?;
    Some((Cell { row, col, count }, bytes.len() - rest.len()))
}

/// Takes the plain lines with which the bytes begin, as long as entries are due and the block has room for two cells,
/// and gives how many bytes they took.
pub fn take_entries(
    progress: &mut Progress,
    bytes: &[u8],
    block: &mut Vec<Cell>,
    most: usize,
) -> Result<usize, MmFault>
    requires lines { progress.old.lines + length bytes.now + 1 < 2 ^ 64 }
    requires room { length block.old.items ≤ most }
    ensures within { IfOk result (λ n. n ≤ length bytes.now) }
    ensures count { IfOk result (λ n. progress.new.lines ≤ progress.old.lines + n) }
    ensures bound { progress.new.lines ≤ progress.old.lines + length bytes.now }
    ensures room { OnOk result (length block.new.items ≤ most) }
    ensures few { IfOk result (λ n. length block.new.items ≤ length block.old.items + 2 * n) }
    ensures ok { IfOk result (λ n. (limits : TextLimits) → Advances limits (take n bytes.now)
        (state [] progress.old.stage progress.old.lines) block.old.items
        (state [] progress.new.stage progress.new.lines) block.new.items) }
    ensures err { IfErr result (λ f. (limits : TextLimits) →
        Shows limits bytes.now (state [] progress.old.stage progress.old.lines) f.kind f.line) }
    ensures kept { OnErr result ((limits : TextLimits) →
        StopsWithin limits bytes.now (state [] progress.old.stage progress.old.lines) block.old.items block.new.items) }
    ensures lacks { IfErr result (λ f. f.kind ≡ MmKind.Memory → vec_capacity block.old < most) }
    ensures grows { vec_capacity block.old ≤ vec_capacity block.new }
{
    let Stage::AtEntries {
        symmetric,
        size,
        mut seen,
    } = progress.stage
    else {
        return Ok(0);
    };
    let mut lines = progress.lines;
    let mut start = 0;
    'entries: while seen < size.entries && most - block.len() > 1 {
        let Some((cell, len)) = plain_entry(size.rows, size.cols, &bytes[start..]) else {
            break;
        };
        if push_cells(block, symmetric, cell).is_err() {
            return Err(MmFault {
                kind: MmKind::Memory,
                line: lines + 1,
            });
        }
        start += len;
        seen += 1;
        lines += 1;
    }
    progress.stage = Stage::AtEntries {
        symmetric,
        size,
        seen,
    };
    progress.lines = lines;
    Ok(start)
}
