//! Books: what each put of a table is answered, what a book lists then, and what it shares from an index on.
ghost use Rattle.std.specs.Prelude.{◌≡◌};

use batch_store::Verdict::{BookFull, NumberReused, OverTotal};
use batch_store::{Book, Setup, Verdict};
use std::alloc::Global;
use std::io::Eprint;
use std::process::Abort;
use std::random::RandomSource;
use test_batches::{Cells, batch, setup_up_to, small_setup};
use test_support::same_at;

/// The index of an accepted batch and the total with it, or the verdict on one that isn't accepted.
type Answer = Result<(u64, u64), Verdict>;

/// The client, the number and the cells of a batch that is put, and what the book answers.
pub type Put = (u64, u64, Cells, Answer);

// The verdict on one batch of a table; one that is fresh is admitted, and answered as a repeat of it would be.
fn answer(rt: &impl Abort, alloc: Global, setup: &Setup, book: &mut Book, step: &Put) -> Answer
    requires { book.old.setup ≡ setup.now }
    ensures { book.new.setup ≡ setup.now }
{
    let (client, number, cells, _) = *step;
    let b = batch(alloc, setup, (client, number), cells).expect(rt, "a batch");
    match book.look(&b) {
        Verdict::Fresh => {
            book.reserve(&b).expect(rt, "memory");
            let kept = book.admit(b);
            Ok((kept.index, kept.total_after))
        }
        Verdict::Known(kept) => {
            drop(b);
            Ok((kept.index, kept.total_after))
        }
        verdict => {
            drop(b);
            Err(verdict)
        }
    }
}

/// Puts the batches of a table, and compares each answer.
pub fn put_all(
    rt: &(impl Abort + Eprint),
    alloc: Global,
    setup: &Setup,
    book: &mut Book,
    steps: &[Put],
)
    requires { book.old.setup ≡ setup.now }
    ensures { book.new.setup ≡ setup.now }
{
    'steps: for step in steps {
        let found = answer(rt, alloc, setup, book, step);
        assert!(rt; same_at(rt, &(step.0, step.1, step.2), &found, &step.3));
    }
}

/// A book to which the batches of a table were put, each with its answer.
pub fn book_after<R: RandomSource + Abort + Eprint>(
    rt: &R,
    alloc: Global,
    setup: &Setup,
    steps: &[Put],
) -> Book
    ensures { result.setup ≡ setup.now }
{
    let mut book = Book::new(rt, alloc, setup).expect(rt, "a book");
    put_all(rt, alloc, setup, &mut book, steps);
    book
}

// With a limit of 100.
const WITHIN_100: &[Put] = &[
    (7, 1, &[(0, 0, 90)], Ok((0, 90))),
    (8, 1, &[(0, 0, 11)], Err(OverTotal { accepted: 90 })),
    (8, 1, &[(0, 0, 10)], Ok((1, 100))),
    (9, 1, &[(0, 0, 0)], Ok((2, 100))),
    (7, 1, &[(0, 0, 90)], Ok((0, 90))),
    (9, 1, &[(0, 0, 0)], Ok((2, 100))),
    (9, 2, &[(0, 0, 1)], Err(OverTotal { accepted: 100 })),
];

// Repeats, and numbers used for other batches: another total, or as many counts at other places.
const REPEATS: &[Put] = &[
    (7, 1, &[(0, 0, 5)], Ok((0, 5))),
    (8, 1, &[(0, 0, 3)], Ok((1, 8))),
    (7, 1, &[(0, 0, 5)], Ok((0, 5))),
    (7, 1, &[(0, 0, 6)], Err(NumberReused)),
    (7, 1, &[(0, 0, 5), (0, 1, 0)], Err(NumberReused)),
    (7, 1, &[(2, 2, 5)], Ok((0, 5))),
    (8, 1, &[(0, 0, 3)], Ok((1, 8))),
    (7, 2, &[(0, 0, 5)], Ok((2, 13))),
];

// Batches without cells.
const NOTHING: &[Put] = &[
    (9, 1, &[], Ok((0, 0))),
    (9, 1, &[], Ok((0, 0))),
    (9, 1, &[(0, 0, 0)], Err(NumberReused)),
];

// With room for one batch.
const ONE_BATCH: &[Put] = &[
    (7, 1, &[(0, 0, 5)], Ok((0, 5))),
    (8, 1, &[(0, 0, 3)], Err(BookFull)),
    (8, 1, &[(0, 0, 96)], Err(OverTotal { accepted: 5 })),
    (7, 1, &[(0, 0, 5)], Ok((0, 5))),
    (7, 1, &[(0, 0, 101)], Err(NumberReused)),
];

// The largest total that a limit may allow.
const LARGEST: &[Put] = &[
    (
        7,
        1,
        &[(0, 0, 1 << 63), (0, 1, (1 << 63) - 1)],
        Ok((0, u64::MAX)),
    ),
    (7, 2, &[(0, 0, 0)], Ok((1, u64::MAX))),
    (7, 3, &[(0, 0, 1)], Err(OverTotal { accepted: u64::MAX })),
    (
        7,
        4,
        &[(0, 0, u64::MAX)],
        Err(OverTotal { accepted: u64::MAX }),
    ),
];

// A limit, the most batches, what is put, and how many batches the book has then, and their total.
static PUTS: &[(u64, u64, &[Put], (u64, u64))] = &[
    (100, 10, WITHIN_100, (3, 100)),
    (100, 10, REPEATS, (3, 13)),
    (100, 10, NOTHING, (1, 0)),
    (100, 1, ONE_BATCH, (1, 5)),
    (u64::MAX, 10, LARGEST, (2, u64::MAX)),
];

#[test]
fn puts_are_answered(rt: HostRuntime) {
    for (limit, most, steps, size) in PUTS {
        let setup = setup_up_to(*limit, *most).expect(&rt, "a setup");
        let book = book_after(&rt, rt.alloc(), &setup, steps);
        let found = (book.len(), book.total());
        drop(book);
        assert!(rt; same_at(&rt, &(*limit, *most), &found, size));
    }
}

// Batches of two cells, of one and of three.
static BATCHES: &[Put] = &[
    (7, 1, &[(0, 0, 5), (0, 1, 0)], Ok((0, 5))),
    (8, 1, &[(0, 0, 3)], Ok((1, 8))),
    (9, 1, &[(0, 0, 1), (1, 1, 1), (2, 2, 1)], Ok((2, 11))),
];

// The clients of the first three batches.
type Clients = (Option<u64>, Option<u64>, Option<u64>);

// From where, at most how many cells, room for how many batches, and the clients of those that are shared.
static SHARED: &[(u64, u64, usize, Clients)] = &[
    (0, 100, 8, (Some(7), Some(8), Some(9))),
    (1, 100, 8, (Some(8), Some(9), None)),
    (2, 100, 8, (Some(9), None, None)),
    // Nothing comes after the end.
    (3, 100, 8, (None, None, None)),
    (u64::MAX, 100, 8, (None, None, None)),
    // As far as there is room.
    (0, 100, 1, (Some(7), None, None)),
    (0, 100, 2, (Some(7), Some(8), None)),
    // As many as have at most so many cells together, and the first in any case.
    (0, 6, 8, (Some(7), Some(8), Some(9))),
    (0, 5, 8, (Some(7), Some(8), None)),
    (0, 3, 8, (Some(7), Some(8), None)),
    (0, 2, 8, (Some(7), None, None)),
    (0, 0, 8, (Some(7), None, None)),
    (2, 0, 8, (Some(9), None, None)),
];

// The clients of the first three batches that a book shares, and whether these are all.
fn clients(
    rt: &impl Abort,
    alloc: Global,
    book: &Book,
    from: u64,
    most_cells: u64,
    room: usize,
) -> (Clients, bool) {
    assert!(rt; room > 0 && book.folded() <= from);
    let mut out = Vec::with_capacity(alloc, room).expect(rt, "memory");
    assert!(rt; book.share_from(from, most_cells, &mut out));
    let client = |i: usize| -> Option<u64> { Some(out.get(i)?.client) };
    let found = ((client(0), client(1), client(2)), out.len() <= 3);
    drop(out);
    found
}

#[test]
fn a_book_shares_batches_from_an_index_on(rt: HostRuntime) {
    let book = book_after(
        &rt,
        rt.alloc(),
        &small_setup().expect(&rt, "a setup"),
        BATCHES,
    );
    for (from, most_cells, room, expected) in SHARED {
        let found = clients(&rt, rt.alloc(), &book, *from, *most_cells, *room);
        let place = (*from, *most_cells, *room);
        assert!(rt; same_at(&rt, &place, &found, &(*expected, true)));
    }
    drop(book);
}
