//! The batches of a block as bytes, and back.

use log_batches::{BlockReader, block_pages, encode_block};
use log_blocks::LogKind;
use log_page::{CHUNK, PAGE};
use test_batches::{b12, one_cell, put_numbers, small_setup};
use test_support::{holds_at, same};

/// What stands after a page that is written.
const AFTER: u8 = 0xa5;

/// Whether these bytes are a page, and what stood after it.
fn is_page(bytes: &[u8], want: &[u8; PAGE]) -> bool {
    if bytes.len() <= PAGE {
        return false;
    }
    let (page, after) = bytes.split_at(PAGE);
    page == want.as_slice() && after.iter().all(|byte| *byte == AFTER)
}

// What is read of the page is written again as that page.
#[test]
fn a_known_block_is_written_and_read(rt: HostRuntime) {
    let alloc = rt.alloc();
    let setup = small_setup().expect(&rt, "a setup");
    let mut out = [AFTER; PAGE + 8];
    let batches = [
        one_cell(alloc, &setup, 7, 5).expect(&rt, "a batch"),
        one_cell(alloc, &setup, 8, 3).expect(&rt, "a batch"),
    ];
    assert!(rt; block_pages(&batches) == 1);
    assert!(rt; same(&rt, &encode_block(&mut out, 0, &batches), &1));
    assert!(rt; holds_at(&rt, &"written", is_page(&out, &b12())));
    let mut reader = BlockReader::new(alloc, &setup).expect(&rt, "memory");
    let read = reader.read(alloc, &b12()[24..]).expect(&rt, "batches");
    let mut again = [AFTER; PAGE + 8];
    assert!(rt; block_pages(&read) == 1);
    assert!(rt; same(&rt, &encode_block(&mut again, 0, &read), &1));
    assert!(rt; holds_at(&rt, &"read", is_page(&again, &b12())));
}

// Blocks that hold no batches: how many pages they have, and the numbers that they begin with.
static REFUSED: &[(&str, usize, &[u64])] = &[
    ("no batches", 1, &[0]),
    ("more batches than bytes", 1, &[170, 7, 1, 1, 0, 0, 5]),
    ("a row outside", 1, &[1, 7, 1, 1, 3, 0, 5]),
    ("a cell twice", 1, &[1, 7, 1, 2, 0, 0, 5, 0, 0, 1]),
    (
        "a total above the limit",
        1,
        &[1, 7, 1, 2, 0, 0, 60, 0, 1, 41],
    ),
    ("another byte at the end", 1, &[1, 7, 1, 1, 0, 0, 5, 1]),
    ("a page too many", 2, &[1, 7, 1, 1, 0, 0, 5]),
];

#[test]
fn other_blocks_are_refused(rt: HostRuntime) {
    let alloc = rt.alloc();
    let mut reader = BlockReader::new(alloc, &small_setup().expect(&rt, "a setup")).expect(
        &rt, "memory",
    );
    for (what, pages, numbers) in REFUSED {
        let mut bytes = [0; 2 * CHUNK];
        put_numbers(&mut bytes, 0, numbers);
        let length = if *pages == 2 { 2 * CHUNK } else { CHUNK };
        let read = reader.read(alloc, &bytes[..length]);
        let refused = matches!(read, Err(LogKind::BadBlock));
        assert!(rt; holds_at(&rt, what, refused));
    }
}
