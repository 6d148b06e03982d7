//! What a page says of itself.
ghost use Rattle.std.specs.Prelude.{◌≡◌, ◌+◌, ◌≤◌, length, drop, take};
ghost use Rattle.std.specs.Int.{w16, w32, w64, from_be_bytes};
ghost use Rattle.log_page.specs.Pages.{pages_field, pages_bytes, chunk_field, is_next};
ghost use Rattle.log_page.specs.Pages.{is_left_back, is_left_front, is_left_kind, is_left_number, is_left_page, is_left_place};

use crate::page::{PAGE, behind};

/// The number in two bytes.
fn u16_at(page: &[u8], at: usize) -> u16
    requires { at + 2 ≤ length page.now }
    ensures { result ≡ from_be_bytes w16 (take 2 (drop at page.now)) }
{
    let Some((bytes, _)) = behind(page, at).split_first_chunk::<2>() else {
        unreachable!();
    };
    u16::from_be_bytes(*bytes)
}

/// The number in four bytes.
fn u32_at(page: &[u8], at: usize) -> u32
    requires { at + 4 ≤ length page.now }
    ensures { result ≡ from_be_bytes w32 (take 4 (drop at page.now)) }
{
    let Some((bytes, _)) = behind(page, at).split_first_chunk::<4>() else {
        unreachable!();
    };
    u32::from_be_bytes(*bytes)
}

/// The number in eight bytes.
fn u64_at(page: &[u8], at: usize) -> u64
    requires { at + 8 ≤ length page.now }
    ensures { result ≡ from_be_bytes w64 (take 8 (drop at page.now)) }
{
    let Some((bytes, _)) = behind(page, at).split_first_chunk::<8>() else {
        unreachable!();
    };
    u64::from_be_bytes(*bytes)
}

/// How many pages a page says that its block has.
pub fn pages_told(page: &[u8; PAGE]) -> u32
    ensures { result ≡ pages_field page.now }
{
    u32_at(page, 20)
}

/// The four bytes in which a page says how many pages its block has.
pub fn pages_bytes(page: &[u8; PAGE]) -> [u8; 4]
    ensures { result ≡ pages_bytes page.now }
{
    [page[20], page[21], page[22], page[23]]
}

/// The number of batches with which the bytes of a block begin, where this is its first page.
pub fn batches_told(page: &[u8; PAGE]) -> u64
    ensures { result ≡ from_be_bytes w64 (take 8 (chunk_field page.now)) }
{
    u64_at(page, 24)
}

/// Whether a page says that it is page `number` of the block at this place, which has `pages` pages; 0 stands for any
/// number of them. Whether the page is whole isn't asked.
pub fn is_next_page(page: &[u8; PAGE], place: u64, number: u64, pages: u64) -> bool
    ensures { result ≡ is_next place number pages page.now }
{
    let told = pages_told(page) as u64;
    u16_at(page, 6) == 1
        && u64_at(page, 8) == place
        && u32_at(page, 16) as u64 == number
        && number < told
        && (pages == 0 || told == pages)
}

/// Whether each byte of a page's kind is that of a page of a block, or 00.
fn is_left_kind(page: &[u8; PAGE]) -> bool
    ensures { result ≡ is_left_kind page.now }
{
    let right = 1_u16.to_be_bytes();
    (page[6] == 0 || page[6] == right[0]) && (page[7] == 0 || page[7] == right[1])
}

/// Whether each of the first four bytes of the place in a page is that of this one, or 00.
fn is_left_front(page: &[u8; PAGE], place: u64) -> bool
    ensures { result ≡ is_left_front place page.now }
{
    let right = place.to_be_bytes();
    (page[8] == 0 || page[8] == right[0])
        && (page[9] == 0 || page[9] == right[1])
        && (page[10] == 0 || page[10] == right[2])
        && (page[11] == 0 || page[11] == right[3])
}

/// Whether each of the last four is.
fn is_left_back(page: &[u8; PAGE], place: u64) -> bool
    ensures { result ≡ is_left_back place page.now }
{
    let right = place.to_be_bytes();
    (page[12] == 0 || page[12] == right[4])
        && (page[13] == 0 || page[13] == right[5])
        && (page[14] == 0 || page[14] == right[6])
        && (page[15] == 0 || page[15] == right[7])
}

/// Whether each byte of the place in a page is that of this one, or 00.
fn is_left_place(page: &[u8; PAGE], place: u64) -> bool
    ensures { result ≡ is_left_place place page.now }
{
    is_left_front(page, place) && is_left_back(page, place)
}

/// Whether each byte of the number in a page is that of this one, or 00.
fn is_left_number(page: &[u8; PAGE], number: u32) -> bool
    ensures { result ≡ is_left_number number page.now }
{
    let right = number.to_be_bytes();
    (page[16] == 0 || page[16] == right[0])
        && (page[17] == 0 || page[17] == right[1])
        && (page[18] == 0 || page[18] == right[2])
        && (page[19] == 0 || page[19] == right[3])
}

/// Whether a page may be left of page `number` of the block at this place, by what it says of its kind, its place and
/// its number: each byte of these is the right one, or 00. How many pages the block has isn't asked.
pub fn is_left_page(page: &[u8; PAGE], place: u64, number: u32) -> bool
    ensures { result ≡ is_left_page place number page.now }
{
    is_left_kind(page) && is_left_place(page, place) && is_left_number(page, number)
}
