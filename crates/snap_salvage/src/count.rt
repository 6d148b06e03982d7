//! Counts the pages that a source gives.
ghost use Rattle.std.specs.Prelude.{◌≡◌, ℕ, ◌+◌, ◌<◌, ◌≤◌, ◌^◌, List, [], ◌++◌, length, take, drop, slice_index};
ghost use Rattle.std.specs.Prelude.{OnOk, IfOk, IsTrue, IsFalse};
ghost use Rattle.log_page.specs.Pages.{IsBytes};
ghost use Rattle.snap_salvage.specs.LeftPages.{HasCountedAll, HasNext, HasRead, IsCounted};

use crate::left::Left;
use byte_io::{READ_CAPACITY, ReadBuffer, Source};
use log_blocks::LogKind;
use log_page::PAGE;
use std::alloc::Global;
use std::cmp;

/// The most pages that a log has.
pub(crate) const MOST_PAGES: u64 = 1 << 28;

// Copies the first bytes of a page, and 00 after them.
fn copy_page(bytes: &[u8], page: &mut [u8; PAGE])
    ensures long { length page.new ≡ 4096 }
    ensures bytes { IsBytes page.new }
    ensures same { (k : ℕ) → k < 4096 → slice_index page.new k ≡ slice_index bytes.now k }
{
    for i in 0..PAGE {
        page[i] = if i < bytes.len() { bytes[i] } else { 0 };
    }
}

// Reads until a page is pending (true), or the source has ended (false).
fn need_page<S: Source>(buffer: &mut ReadBuffer, source: &mut S) -> Result<bool, LogKind>
    requires failures { S.failure_count source.old + 1 < 2 ^ 64 }
    ensures no_failure { OnOk result (S.failure_count source.new ≡ S.failure_count source.old) }
    ensures read { OnOk result ((s : S) (done : List ℕ) → HasRead S.read_gives s source.old (done ++ buffer.old) →
        HasRead S.read_gives s source.new (done ++ buffer.new)) }
    ensures long { IfOk result (λ full. IsTrue full → 4096 ≤ length buffer.new) }
    ensures short { IfOk result (λ full. IsFalse full → length buffer.new < 4096) }
    ensures end { IfOk result (λ full. IsFalse full → S.at_end source.new) }
{
    'pieces: while buffer.pending().len() < PAGE {
        match buffer.fill(source, READ_CAPACITY) {
            Err(_) => return Err(LogKind::Read),
            Ok(0) => return Ok(false),
            Ok(_) => {}
        }
    }
    Ok(true)
}

// Hands on the first bytes that are pending: those of a page, or as many as there are.
fn hand_on(buffer: &mut ReadBuffer, page: &mut [u8; PAGE]) -> usize
    ensures most { result ≤ 4096 }
    ensures within { result ≤ length buffer.old }
    ensures short { length buffer.old < 4096 → result ≡ length buffer.old }
    ensures full { 4096 ≤ length buffer.old → result ≡ 4096 }
    ensures buffer { buffer.new ≡ drop result buffer.old }
    ensures long { length page.new ≡ 4096 }
    ensures bytes { IsBytes page.new }
    ensures same { (k : ℕ) → k < 4096 → slice_index page.new k ≡ slice_index (take result buffer.old) k }
{
    let pending = buffer.pending();
    let count = cmp::min(pending.len(), PAGE);
    copy_page(&pending[..count], page);
    buffer.consume(count);
    count
}

// The next page, with 00 after the end of the bytes; how many bytes of it came: fewer than all only at the end.
fn next_page<S: Source>(
    buffer: &mut ReadBuffer,
    source: &mut S,
    page: &mut [u8; PAGE],
) -> Result<usize, LogKind>
    requires failures { S.failure_count source.old + 1 < 2 ^ 64 }
    ensures no_failure { OnOk result (S.failure_count source.new ≡ S.failure_count source.old) }
    ensures most { IfOk result (λ n. n ≤ 4096) }
    ensures long { OnOk result (length page.new ≡ 4096) }
    ensures bytes { OnOk result (IsBytes page.new) }
    ensures next { IfOk result (λ n. (s : S) (done : List ℕ) →
        HasRead S.read_gives s source.old (done ++ buffer.old) →
        HasNext S.read_gives s source.new buffer.new done n page.new) }
    ensures end { IfOk result (λ n. n < 4096 → S.at_end source.new × (buffer.new ≡ [])) }
{
    match need_page(buffer, source) {
        Err(kind) => Err(kind),
        Ok(_) => Ok(hand_on(buffer, page)),
    }
}

/// Counts the pages that a source gives to its end. Behind the end of the bytes the last one has 00.
///
/// # Errors
///
/// `Memory` for the 64 KiB in which bytes wait, `Read` where a read failed, and `TooLong` where there are more pages
/// than a log has.
pub fn count_pages<S: Source>(alloc: Global, source: &mut S) -> Result<Left, LogKind>
    requires { S.failure_count source.old + 1 < 2 ^ 64 }
    // The source ended, and these are the numbers of the pages of what it gave.
    ensures ok { IfOk result (HasCountedAll S.read_gives (S.at_end source.new) source.old source.new) }
    ensures counted { IfOk result IsCounted }
{
    let Ok(mut buffer) = ReadBuffer::new(alloc) else {
        return Err(LogKind::Memory);
    };
    let mut left = Left::none();
    let mut page = [0; PAGE];
    'pages: for _i in 0..MOST_PAGES {
        match next_page(&mut buffer, source, &mut page) {
            Err(kind) => return Err(kind),
            Ok(0) => return Ok(left),
            Ok(count) => {
                left = left.with(&page);
                if count < PAGE {
                    return Ok(left);
                }
            }
        }
    }
    Err(LogKind::TooLong)
}
