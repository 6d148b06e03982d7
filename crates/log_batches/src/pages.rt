//! Makes the pages of a block.
ghost use Rattle.std.specs.Prelude.{◌≡◌, ◌+◌, ◌*◌, ◌<◌, ◌≤◌, ◌^◌, ◌++◌, ℕ, length, take, drop};
ghost use Rattle.batch_store.specs.Batches.{values};
ghost use Rattle.log_page.specs.Pages.{chunk_field, page_of};
ghost use Rattle.log_blocks.specs.Blocks.{block_pages, pages_from};
ghost use Rattle.log_blocks.specs.Files.{joined};
ghost use Rattle.log_batches.specs.Payloads.{chunk_count, chunks_from, block_of};

use crate::payload::{put, put_payload};
use crate::size::block_pages;
use batch_store::Batch;
use log_page::{CHUNK, PAGE, seal_page};
use std::sync::Arc;

/// Writes a chunk of a block's bytes into a page, which is still to be sealed.
fn put_chunk(page: &mut [u8; PAGE], chunk: &[u8])
    requires { length chunk.now ≡ 4072 }
    ensures { chunk_field page.new ≡ chunk.now }
{
    put(page, PAGE - CHUNK, chunk);
}

/// Makes a page of a chunk of a block's bytes. Those of the chunks before it aren't touched, as a page ends behind its
/// chunk.
fn seal_chunk(out: &mut [u8], number: usize, place: u64, pages: u32)
    requires number { number < pages }
    requires room { 4096 * pages ≤ length out.old }
    ensures front { take (4096 * number) out.new ≡ take (4096 * number) out.old }
    ensures behind { drop (4096 * number) out.new ≡
        page_of place number pages (take 4072 (drop (4072 * number) out.old)) ++ drop (4096 * (number + 1)) out.old }
{
    let mut page = [0; PAGE];
    put_chunk(&mut page, out.split_at(CHUNK * number).1.split_at(CHUNK).0);
    seal_page(&mut page, place, number as u32, pages);
    put(out, PAGE * number, &page);
}

/// Makes the pages of a block of its bytes, the last page first.
fn seal_pages(out: &mut [u8], place: u64, pages: u32)
    requires { 4096 * pages ≡ length out.old }
    ensures { out.new ≡ joined (pages_from place 0 pages (chunks_from 0 pages out.old)) }
{
    let mut left = pages as usize;
    'pages: while left > 0 {
        left -= 1;
        seal_chunk(out, left, place, pages);
    }
}

/// Writes the pages of the block of these batches to the front of `out`, and answers how many they are. What stands
/// behind them isn't touched. The place is that of the first batch.
///
/// Takes time in proportion to the bytes and no memory. `block_pages` tells how much room is needed.
pub fn encode_block(out: &mut [u8], place: u64, batches: &[Arc<Batch>]) -> u64
    requires few { length (block_of (values batches.now)) < 2 ^ 32 }
    requires room { 4096 * length (block_of (values batches.now)) ≤ length out.old }
    ensures count { result ≡ length (block_of (values batches.now)) }
    ensures bytes { take (4096 * result) out.new ≡ joined (block_pages place (block_of (values batches.now))) }
    ensures rest { drop (4096 * result) out.new ≡ drop (4096 * result) out.old }
    ensures len { length out.new ≡ length out.old }
{
    let pages = block_pages(batches);
    let (block, _) = out.split_at_mut(PAGE * pages as usize);
    put_payload(block, batches, CHUNK * pages as usize);
    seal_pages(block, place, pages as u32);
    pages
}
