//! A page: its checksum, the number of its zero bytes, and what it says of its block.
ghost use Rattle.std.specs.Prelude.{◌≡◌, ◌≤◌, length, drop};
ghost use Rattle.log_page.specs.Pages.{kind_of, zeros_in, check_kind, is_blank, is_same_check, is_lost_check, told, right_check};

use crc32c::crc32c;

/// The bytes of a page of a log.
pub const PAGE: usize = 4096;

/// The bytes of a page that are the block's own: those behind its first 24.
pub const CHUNK: usize = 4072;

/// What a page is, by its bytes alone. Of the four kinds each page has exactly one.
#[derive(Clone, Copy, Debug, PartialEq, Eq)]
pub enum PageKind {
    /// All bytes are 00.
    Empty,
    /// The number of its zero bytes and its checksum are right: it is as it was written.
    Whole,
    /// It has more zero bytes than it says, or bytes of its checksum are 00: bytes of it are lost, or were never
    /// written.
    Short,
    /// It was changed in another way.
    Spoilt,
}

/// How many bytes are 00.
pub(crate) fn zeros_among(bytes: &[u8]) -> usize
    ensures count { result ≡ zeros_in bytes.now }
    ensures most { result ≤ length bytes.now }
{
    bytes.iter().filter(|byte| **byte == 0).count()
}

/// Whether all bytes are 00.
fn is_empty(bytes: &[u8]) -> bool
    ensures { result ≡ is_blank bytes.now }
{
    bytes.iter().all(|byte| *byte == 0)
}

/// Whether a check is the right one.
fn is_same(found: &[u8], right: &[u8; 4]) -> bool
    requires { 4 ≤ length found.now }
    ensures { result ≡ is_same_check found.now right.now }
{
    found[0] == right[0] && found[1] == right[1] && found[2] == right[2] && found[3] == right[3]
}

/// Whether a check is the right one, but for bytes that are lost.
fn is_lost(found: &[u8], right: &[u8; 4]) -> bool
    requires { 4 ≤ length found.now }
    ensures { result ≡ is_lost_check found.now right.now }
{
    (found[0] == 0 || found[0] == right[0])
        && (found[1] == 0 || found[1] == right[1])
        && (found[2] == 0 || found[2] == right[2])
        && (found[3] == 0 || found[3] == right[3])
}

/// The number of zero bytes that a page tells.
fn told_zeros(page: &[u8; PAGE]) -> usize
    ensures { result ≡ told page.now }
{
    page[4] as usize * 256 + page[5] as usize
}

/// The bytes from a place on.
pub(crate) fn behind(bytes: &[u8], at: usize) -> &[u8]
    requires { at ≤ length bytes.now }
    ensures { result.now ≡ drop at bytes.now }
{
    bytes.split_at(at).1
}

/// The check that a page should have.
fn check_of(page: &[u8; PAGE]) -> [u8; 4]
    ensures { result ≡ right_check page.now }
{
    crc32c(behind(page, 4)).to_be_bytes()
}

/// Judges a page by its check alone.
fn judge_check(page: &[u8; PAGE], right: &[u8; 4]) -> PageKind
    ensures { result ≡ check_kind page.now right.now }
{
    if is_same(page, right) {
        return PageKind::Whole;
    }
    if is_lost(page, right) {
        return PageKind::Short;
    }
    PageKind::Spoilt
}

/// What a page is. It costs two passes over the page: one for its zero bytes, and one for its checksum.
pub fn page_kind(page: &[u8; PAGE]) -> PageKind
    ensures { result ≡ kind_of page.now }
{
    if is_empty(page) {
        return PageKind::Empty;
    }
    let told = told_zeros(page);
    let found = zeros_among(behind(page, 6));
    if told < found {
        return PageKind::Short;
    }
    if found < told {
        return PageKind::Spoilt;
    }
    judge_check(page, &check_of(page))
}
