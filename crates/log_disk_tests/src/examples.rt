//! Batches, pages and lists whose bytes are known.
ghost use Rattle.std.specs.Prelude.{◌≡◌};
ghost use Rattle.std.specs.Arc.{arc_value};
ghost use Rattle.batch_store.specs.Books.{AreAccepted, accepted_in};

use batch_store::{Batch, Book, BookList, Setup, Verdict};
use cells::Cell;
use log_page::PAGE;
use std::alloc::Global;
use std::process::Abort;
use std::random::RandomSource;
use std::sync::Arc;

/// Three rows, three columns, two shards, a limit of 100 and at most 10 batches.
pub fn small_setup(rt: &impl Abort) -> Setup {
    Setup::new(3, 3, &[2, 4], 2, 100, 10).expect(rt, "a setup")
}

/// The batch number 1 of a client, with one cell at (0, 0).
fn one_cell(rt: &impl Abort, alloc: Global, setup: &Setup, client: u64, count: u64) -> Arc<Batch>
    ensures rows { (arc_value result).matrix.rows ≡ setup.now.rows }
    ensures cols { (arc_value result).matrix.cols ≡ setup.now.cols }
{
    let cell = Cell {
        row: 0,
        col: 0,
        count,
    };
    Batch::from_cells(alloc, setup, client, 1, &[cell]).expect(rt, "a batch")
}

// Accepts a batch that is fresh.
fn accept(rt: &impl Abort, book: &mut Book, setup: &Setup, batch: Arc<Batch>)
    requires setup { book.old.setup ≡ setup.now }
    requires rows { (arc_value batch).matrix.rows ≡ setup.now.rows }
    requires cols { (arc_value batch).matrix.cols ≡ setup.now.cols }
    ensures { book.new.setup ≡ setup.now }
{
    match book.look(&batch) {
        Verdict::Fresh => {
            book.reserve(&batch).expect(rt, "room");
            let _ = book.admit(batch);
        }
        Verdict::Known(_)
        | Verdict::NumberReused
        | Verdict::OverTotal { accepted: _ }
        | Verdict::BookFull => {}
    }
}

/// The list of a snapshot of batches of one cell, of these clients and counts.
pub fn list_of<R: Abort + RandomSource>(
    rt: &R,
    alloc: Global,
    setup: &Setup,
    rows: &[(u64, u64)],
) -> BookList
    ensures { AreAccepted setup.now (accepted_in result) }
{
    let mut book = Book::new(rt, alloc, setup).expect(rt, "a book");
    'rows: for (client, count) in rows {
        let batch = one_cell(rt, alloc, setup, *client, *count);
        accept(rt, &mut book, setup, batch);
    }
    book.book_list(alloc).expect(rt, "a list")
}

/// Writes numbers over bytes, from a place on.
fn put_numbers(bytes: &mut [u8], from: usize, numbers: &[u64]) {
    let mut at = from;
    for number in numbers {
        for byte in number.to_be_bytes() {
            if at < bytes.len() {
                bytes[at] = byte;
                at += 1;
            }
        }
    }
}

/// A page that begins with these 24 bytes, and has these numbers behind them.
fn page_of(head: [u64; 3], numbers: &[u64]) -> [u8; PAGE] {
    let mut page = [0; PAGE];
    put_numbers(&mut page, 0, &head);
    put_numbers(&mut page, 24, numbers);
    page
}

/// Client 7, number 1, a count of 5 at (0, 0), at place 0.
pub fn b1() -> [u8; PAGE] {
    page_of([0x6665_30d2_0ff3_0001, 0, 1], &[1, 7, 1, 1, 0, 0, 5])
}

/// Client 8, number 1, a count of 3 at (0, 0), at place 1.
pub fn b2() -> [u8; PAGE] {
    page_of([0x511d_7306_0ff2_0001, 1, 1], &[1, 8, 1, 1, 0, 0, 3])
}

/// Both, at place 0.
pub fn b12() -> [u8; PAGE] {
    page_of(
        [0xb4dc_6a97_0fef_0001, 0, 1],
        &[2, 7, 1, 1, 0, 0, 5, 8, 1, 1, 0, 0, 3],
    )
}

/// The batch of client 7 twice, at place 0.
pub fn twice() -> [u8; PAGE] {
    page_of(
        [0x4596_ece2_0fef_0001, 0, 1],
        &[2, 7, 1, 1, 0, 0, 5, 7, 1, 1, 0, 0, 5],
    )
}

/// A head of the setup, from its limit's last bytes on: what comes before the log, and the page's checksum. Its book isn't
/// known, and it has no window.
fn head_of(behind: [u64; 4], check: u64) -> [u8; PAGE] {
    let mut page = [0; PAGE];
    let fields = [
        0x4848_4d2d_4c4f_470a,
        0x0000_0002_0000_0000,
        0x0000_0003_0000_0000,
        0x0000_0003_0200_0000,
        0x0000_0000_0200_0000,
        0x0000_0000_0402_0000,
        0x0000_0000_0064_0000,
    ];
    put_numbers(&mut page, 0, &fields);
    put_numbers(&mut page, 56, &behind);
    put_numbers(&mut page, 98, &[u64::MAX]);
    put_numbers(&mut page, PAGE - 8, &[check]);
    page
}

/// The same of the book 00112233445566778899aabbccddeeff, with nothing before it.
pub fn head_of_book() -> [u8; PAGE] {
    let mut page = head_of([0x0000_0000_000a_0000, 0, 0, 0], 0x9ec0_e3d8);
    put_numbers(
        &mut page,
        82,
        &[0x0011_2233_4455_6677, 0x8899_aabb_ccdd_eeff],
    );
    page
}

/// The head of the setup with nothing before it.
pub fn head() -> [u8; PAGE] {
    head_of([0x0000_0000_000a_0000, 0, 0, 0], 0x9ed9_5ae1)
}

/// The head of the setup behind the batch of client 7.
pub fn head_behind() -> [u8; PAGE] {
    head_of(
        [
            0x0000_0000_000a_0000,
            0x0000_0000_0001_0000,
            0x0000_0000_0005_de34,
            0x5a72_0000_0000_0000,
        ],
        0x7ef0_1ca8,
    )
}

/// The head of the setup behind both batches.
pub fn head_behind_both() -> [u8; PAGE] {
    head_of(
        [
            0x0000_0000_000a_0000,
            0x0000_0000_0002_0000,
            0x0000_0000_0008_ec64,
            0x96c9_0000_0000_0000,
        ],
        0x2a50_2fde,
    )
}
