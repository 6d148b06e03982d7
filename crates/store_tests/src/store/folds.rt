//! Books that begin with folded batches, and shards that begin with a base or get one.
ghost use Rattle.std.specs.Prelude.{◌≡◌, ◌≤◌};

use crate::store::books::{Put, put_all};
use crate::store::shards::{Step, shard_after, take_all};
use batch_store::Verdict::{NumberReused, OverTotal};
use batch_store::{Book, Entry, Pieces, Setup, Shard};
use cells::Cell;
use hyper_matrix::Hyper;
use std::alloc::Global;
use std::process::Abort;
use std::random::RandomSource;
use std::sync::Arc;
use test_batches::small_setup;
use test_support::same;

/// The entries of a matrix, their total, and the count at the first place.
pub type Sum = (u64, u64, Option<u64>);

fn sum(m: &Hyper) -> Sum {
    (m.entries(), m.total(), m.get(0, 0))
}

// The same of pieces.
fn pieces_sum(base: &Pieces) -> Sum {
    let first = base.cells().next();
    let count = match first {
        Some(cell) if cell.row == 0 && cell.col == 0 => Some(cell.count),
        _ => None,
    };
    (base.entries(), base.total(), count)
}

/// How many batches a book has, how many of them are folded, their total, and the base.
pub type Size = (u64, u64, u64, Sum);

pub fn size(book: &Book) -> Size {
    (
        book.len(),
        book.folded(),
        book.total(),
        pieces_sum(book.base()),
    )
}

const FIRST: Entry = Entry {
    client: 7,
    number: 1,
    cells: 1,
    total: 5,
};

const SECOND: Entry = Entry {
    client: 8,
    number: 1,
    cells: 1,
    total: 3,
};

const THIRD: Entry = Entry {
    client: 9,
    number: 1,
    cells: 1,
    total: 2,
};

// A book with two batches folded, made of their entries and their base.
fn given_book<R: RandomSource + Abort>(rt: &R, alloc: Global, setup: &Setup) -> Book
    requires few { 2 ≤ setup.now.max_batches }
    requires within { 8 ≤ setup.now.limit }
    ensures { result.setup ≡ setup.now }
{
    let cell = Cell {
        row: 0,
        col: 0,
        count: 8,
    };
    let m = Hyper::build(alloc, setup.rows(), setup.cols(), &[cell]).expect(rt, "a matrix");
    let base = Pieces::one(alloc, &m).expect(rt, "memory");
    Book::with_folded(rt, alloc, setup, base, &[FIRST, SECOND]).expect(rt, "a book")
}

// What is put to that book, and what it answers.
static AFTER_TWO: &[Put] = &[
    (7, 1, &[(0, 0, 5)], Ok((0, 5))),
    (8, 1, &[(0, 0, 3)], Ok((1, 8))),
    // The cells themselves aren't compared.
    (8, 1, &[(2, 1, 3)], Ok((1, 8))),
    (7, 1, &[(0, 0, 6)], Err(NumberReused)),
    (7, 1, &[(0, 0, 3)], Err(NumberReused)),
    (7, 1, &[(0, 0, 5), (0, 1, 0)], Err(NumberReused)),
    (7, 1, &[(0, 0, 96)], Err(NumberReused)),
    (9, 1, &[(0, 0, 93)], Err(OverTotal { accepted: 8 })),
    (9, 1, &[(0, 0, 2)], Ok((2, 10))),
    (9, 1, &[(0, 0, 3)], Err(NumberReused)),
    (10, 1, &[(0, 0, 91)], Err(OverTotal { accepted: 10 })),
];

// The total of the batch at an index of a book.
fn total_at(book: &Book, i: u64) -> Option<u64> {
    match book.at(i) {
        Some(b) => Some(b.total),
        None => None,
    }
}

// How many batches a book lists, and of its whole list how many folded entries and batches that has, and its base.
fn listed(rt: &impl Abort, alloc: Global, book: &Book) -> (usize, usize, usize, Sum) {
    let list = book.list(alloc).expect(rt, "memory");
    let count = list.len();
    drop(list);
    let list = book.book_list(alloc).expect(rt, "memory");
    let sizes = (
        list.folded.len(),
        list.batches.len(),
        pieces_sum(&list.base),
    );
    drop(list);
    (count, sizes.0, sizes.1, sizes.2)
}

#[test]
fn a_book_of_folded_batches_knows_them(rt: HostRuntime) {
    let setup = small_setup().expect(&rt, "a setup");
    let mut book = given_book(&rt, rt.alloc(), &setup);
    put_all(&rt, rt.alloc(), &setup, &mut book, AFTER_TWO);
    let base = (1, 8, Some(8));
    assert!(rt; same(&rt, &size(&book), &(3, 2, 10, base)));
    let entries = [0, 1, 2, 3].map(|i: u64| book.entry_at(i));
    assert!(rt;
        same(
            &rt,
            &entries,
            &[Some(FIRST), Some(SECOND), Some(THIRD), None]
        )
    );
    let totals = [0, 1, 2, 3].map(|i: u64| total_at(&book, i));
    assert!(rt; same(&rt, &totals, &[None, None, Some(2), None]));
    assert!(rt; same(&rt, &listed(&rt, rt.alloc(), &book), &(1, 2, 1, base)));
    drop(book);
}

// Shard 0 with what these cells have in it as its base.
fn shard_of<R: RandomSource + Abort>(rt: &R, alloc: Global, setup: &Setup, cells: &[Cell]) -> Shard
    ensures { result.setup ≡ setup.now }
{
    let m = Hyper::build(alloc, setup.rows(), setup.cols(), cells).expect(rt, "a matrix");
    let part = m.part(alloc, 0, setup.shards()).expect(rt, "memory");
    drop(m);
    assert!(rt; part.total() <= setup.limit());
    let base = Arc::new(alloc, part).expect(rt, "memory");
    Shard::with_base(rt, alloc, setup, 0, base).expect(rt, "a shard")
}

/// The total of a shard and the length of its record, its base, its counts at the places (0, 0) and (2, 0), and whether
/// the batches (7, 1) and (9, 1) are in its record.
pub type Held = ((u64, u64), Sum, [Option<u64>; 2], [bool; 2]);

pub fn held(shard: &Shard) -> Held {
    let size = (shard.total(), shard.record_len());
    let counts = [shard.get(0, 0), shard.get(2, 0)];
    let are_held = [shard.holds(7, 1), shard.holds(9, 1)];
    (size, sum(shard.base()), counts, are_held)
}

/// Of shard 0 of 2, which has the rows 0 and 2.
pub static SIX: &[Step] = &[(9, 1, &[(0, 0, 2), (1, 0, 7), (2, 0, 4)], Ok(6))];

// What a shard with a base holds, and what it holds once it took a batch in.
#[test]
fn a_shard_begins_with_its_base(rt: HostRuntime) {
    let setup = small_setup().expect(&rt, "a setup");
    let eight = Cell {
        row: 0,
        col: 0,
        count: 8,
    };
    let mut shard = shard_of(&rt, rt.alloc(), &setup, &[eight]);
    let base = (1, 8, Some(8));
    let before = ((8, 0), base, [Some(8), None], [false, false]);
    assert!(rt; same(&rt, &held(&shard), &before));
    take_all(&rt, rt.alloc(), &setup, &mut shard, SIX);
    let after = ((14, 1), base, [Some(10), Some(4)], [false, true]);
    let found = held(&shard);
    drop(shard);
    assert!(rt; same(&rt, &found, &after));
}

pub static FIVE: &[Step] = &[(7, 1, &[(0, 0, 5), (1, 1, 1)], Ok(5))];

// Makes what a shard holds its base.
fn rebase(rt: &impl Abort, alloc: Global, shard: &mut Shard)
    ensures { shard.new.setup ≡ shard.old.setup }
{
    let view = shard.view(alloc).expect(rt, "memory");
    let sum = view.sum(alloc).expect(rt, "memory");
    drop(view);
    shard.rebase(Arc::new(alloc, sum).expect(rt, "memory"));
}

#[test]
fn a_shard_is_rebased_to_what_it_holds(rt: HostRuntime) {
    let mut shard = shard_after(&rt, rt.alloc(), &small_setup().expect(&rt, "a setup"), FIVE);
    let before = held(&shard);
    rebase(&rt, rt.alloc(), &mut shard);
    let after = held(&shard);
    drop(shard);
    let counts = [Some(5), None];
    assert!(rt; same(&rt, &before, &((5, 1), (0, 0, None), counts, [true, false])));
    assert!(rt;
        same(
            &rt,
            &after,
            &((5, 0), (1, 5, Some(5)), counts, [false, false])
        )
    );
}
