//! Makes a page of a block's bytes.
ghost use Rattle.std.specs.Prelude.{◌≡◌, ◌+◌, ◌≤◌, ◌++◌, length, drop};
ghost use Rattle.log_page.specs.Pages.{chunk_field, page_of};

use crate::page::{PAGE, zeros_among};
use crc32c::crc32c;

/// What a page of a block says of its kind.
const BLOCK_KIND: u16 = 1;

/// Writes bytes over those from a place on.
fn put(page: &mut [u8], at: usize, bytes: &[u8])
    requires { at + length bytes.now ≤ length page.old }
    ensures { drop at page.new ≡ bytes.now ++ drop (at + length bytes.now) page.old }
{
    page[at..at + bytes.len()].copy_from_slice(bytes);
}

/// Makes a page whole whose last 4,072 bytes are a block's: it is page `number` of the `pages` of the block at this
/// place. All that stood before those bytes is written over.
pub fn seal_page(page: &mut [u8; PAGE], place: u64, number: u32, pages: u32)
    ensures { page.new ≡ page_of place number pages (chunk_field page.old) }
{
    put(page, 20, &pages.to_be_bytes());
    put(page, 16, &number.to_be_bytes());
    put(page, 8, &place.to_be_bytes());
    put(page, 6, &BLOCK_KIND.to_be_bytes());
    let zeros = zeros_among(page.split_at(6).1) as u16;
    put(page, 4, &zeros.to_be_bytes());
    let check = crc32c(page.split_at(4).1);
    put(page, 0, &check.to_be_bytes());
}
