//! How many pages a block in the making has, as far as its pages say it.
ghost use Rattle.std.specs.Prelude.{◌≡◌, ◌<◌, ◌≤◌, ◌^◌, Bool};
ghost use Rattle.log_blocks.specs.Reading.{agrees, agrees_byte, is_left_part, most_byte, most_pages, most_shown};
ghost use Rattle.log_blocks.specs.Reading.{shown_byte, shown_with};

use log_page::{PAGE, is_left_page, pages_bytes};

/// A byte of the number that is shown, once another page has shown this one; 00 shows none.
fn shown_byte(old: u8, byte: u8) -> u8
    ensures { result ≡ shown_byte old byte }
{
    if byte == 0 { old } else { byte }
}

/// The bytes of the number that are shown, once another page has shown these.
pub(crate) fn shown_with(shown: [u8; 4], found: [u8; 4]) -> [u8; 4]
    ensures { result ≡ shown_with shown found }
{
    [
        shown_byte(shown[0], found[0]),
        shown_byte(shown[1], found[1]),
        shown_byte(shown[2], found[2]),
        shown_byte(shown[3], found[3]),
    ]
}

/// Whether a byte may be left of the number of which this one is shown. Where the number isn't known a shown 00 stands
/// for any.
fn agrees_byte(is_free: bool, old: u8, byte: u8) -> bool
    ensures { result ≡ agrees_byte is_free old byte }
{
    byte == 0 || byte == old || (is_free && old == 0)
}

/// Whether bytes may be left of the number of which these are shown.
fn agrees(is_free: bool, shown: [u8; 4], found: [u8; 4]) -> bool
    ensures { result ≡ agrees is_free shown found }
{
    agrees_byte(is_free, shown[0], found[0])
        && agrees_byte(is_free, shown[1], found[1])
        && agrees_byte(is_free, shown[2], found[2])
        && agrees_byte(is_free, shown[3], found[3])
}

/// The largest byte of the number where this one is shown.
fn most_byte(byte: u8) -> u8
    ensures { result ≡ most_byte byte }
{
    if byte == 0 { 255 } else { byte }
}

/// The largest number of which these bytes are shown.
fn most_shown(shown: [u8; 4]) -> u32
    ensures { result ≡ most_shown shown }
{
    u32::from_be_bytes([
        most_byte(shown[0]),
        most_byte(shown[1]),
        most_byte(shown[2]),
        most_byte(shown[3]),
    ])
}

/// How many pages a block may have at most: as many as are known, and where none is, as the bytes that are shown allow.
fn most_pages(pages: u32, shown: [u8; 4]) -> u32
    ensures { result ≡ most_pages pages shown }
{
    if pages == 0 { most_shown(shown) } else { pages }
}

/// Whether a page may be left of page `number` of the block at this place, of which so many pages are known, and where
/// none is, these bytes of their number are shown. Each byte of its fields is the right one, or 00.
pub(crate) fn is_left_part(
    page: &[u8; PAGE],
    place: u64,
    number: u64,
    pages: u32,
    shown: [u8; 4],
) -> bool
    ensures { result ≡ is_left_part place number pages shown page.now }
{
    let found = pages_bytes(page);
    let most = most_pages(pages, shown_with(shown, found));
    agrees(pages == 0, shown, found)
        && number < most as u64
        && is_left_page(page, place, number as u32)
}
