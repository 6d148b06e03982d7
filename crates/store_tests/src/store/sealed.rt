//! Books and shards that are folded beside what they take in: sealed, summed apart, and settled.
ghost use Rattle.std.specs.Prelude.{◌≡◌};

use crate::store::books::{Put, book_after, put_all};
use crate::store::folds::{FIVE, Held, SIX, Size, held, size};
use crate::store::shards::{shard_after, take_all};
use batch_store::{Book, BookFold, Setup, Shard, ShardFold};
use std::alloc::Global;
use std::io::Eprint;
use std::process::Abort;
use std::sync::Arc;
use test_batches::small_setup;
use test_support::same;

// Seals a book's batches, where there are at most so many, and reports how many are sealed.
fn seal(
    rt: &impl Abort,
    alloc: Global,
    book: &mut Book,
    most: u64,
) -> (Option<usize>, Option<Arc<BookFold>>)
    ensures { book.new.setup ≡ book.old.setup }
{
    let fold = book.begin_fold(alloc, most).expect(rt, "memory");
    let count = fold.as_ref().map(|fold| fold.len());
    (count, fold)
}

// Whether anything was settled. What the book lets go of is dropped.
fn settle(book: &mut Book) -> bool
    ensures { book.new.setup ≡ book.old.setup }
{
    book.settle_fold().is_some()
}

// Makes the base of what was sealed, once.
fn sum_up(rt: &impl Abort, alloc: Global, fold: Option<Arc<BookFold>>) {
    let Some(fold) = fold else {
        panic!(rt; "nothing was sealed");
    };
    fold.run(alloc, &[]).expect(rt, "memory");
    // The base is made already, so this sum is dropped.
    fold.run(alloc, &[]).expect(rt, "memory");
}

// What is put first, and then folded.
static TWO: &[Put] = &[
    (7, 1, &[(0, 0, 5)], Ok((0, 5))),
    (8, 1, &[(0, 0, 3)], Ok((1, 8))),
];

// What is put once those are sealed.
static ONE_MORE: &[Put] = &[
    (9, 1, &[(0, 0, 2)], Ok((2, 10))),
    (8, 1, &[(0, 0, 3)], Ok((1, 8))),
    (9, 1, &[(0, 0, 2)], Ok((2, 10))),
];

// How many batches are sealed where there are more than may be, where all may be, and where they are sealed already;
// whether anything is settled before the base is made, and before it is with a batch that came since; whether it is
// then, and whether it is once more.
type Steps = ([Option<usize>; 3], [bool; 4]);

// Folds two batches of a book while a table is put: the steps, and how large the book is with two sealed, with the
// table put, and with two folded.
fn fold_beside(
    rt: &(impl Abort + Eprint),
    alloc: Global,
    setup: &Setup,
    book: &mut Book,
) -> (Steps, [Size; 3])
    requires { book.old.setup ≡ setup.now }
    ensures { book.new.setup ≡ setup.now }
{
    let (too_many, _none) = seal(rt, alloc, book, 1);
    let (sealed, fold) = seal(rt, alloc, book, 2);
    let (again, _no_other) = seal(rt, alloc, book, u64::MAX);
    let early = settle(book);
    let alone = size(book);
    put_all(rt, alloc, setup, book, ONE_MORE);
    let not_made = settle(book);
    let beside = size(book);
    sum_up(rt, alloc, fold);
    let made = settle(book);
    let after = size(book);
    let twice = settle(book);
    let steps = ([too_many, sealed, again], [early, not_made, made, twice]);
    (steps, [alone, beside, after])
}

#[test]
fn a_book_is_folded_beside_what_it_takes(rt: HostRuntime) {
    let setup = small_setup().expect(&rt, "a setup");
    let mut book = book_after(&rt, rt.alloc(), &setup, TWO);
    let (steps, sizes) = fold_beside(&rt, rt.alloc(), &setup, &mut book);
    let (_count, fold) = seal(&rt, rt.alloc(), &mut book, u64::MAX);
    sum_up(&rt, rt.alloc(), fold);
    let settled = (settle(&mut book), size(&book));
    drop(book);
    let wanted_steps = ([None, Some(2), None], [false, false, true, false]);
    let unfolded = (0, 0, None);
    let wanted_sizes = [
        (2, 0, 8, unfolded),
        (3, 0, 10, unfolded),
        (3, 2, 10, (1, 8, Some(8))),
    ];
    assert!(rt; same(&rt, &steps, &wanted_steps));
    assert!(rt; same(&rt, &sizes, &wanted_sizes));
    assert!(rt; same(&rt, &settled, &(true, (3, 3, 10, (1, 10, Some(10))))));
}

// A book without batches has none to seal.
#[test]
fn an_empty_book_seals_nothing(rt: HostRuntime) {
    let mut book = book_after(&rt, rt.alloc(), &small_setup().expect(&rt, "a setup"), &[]);
    let (none, fold) = seal(&rt, rt.alloc(), &mut book, u64::MAX);
    drop(fold);
    drop(book);
    assert!(rt; none.is_none());
}

// What a shard holds, and the client of the batch at each of the first three indices of its record.
type Told = (Held, [Option<u64>; 3]);

fn client_at(shard: &Shard, i: u64) -> Option<u64> {
    let b = shard.at(i)?;
    Some(b.client)
}

fn told(shard: &Shard) -> Told {
    let order = [
        client_at(shard, 0),
        client_at(shard, 1),
        client_at(shard, 2),
    ];
    (held(shard), order)
}

// Seals a shard's record.
fn seal_shard(rt: &impl Abort, alloc: Global, shard: &mut Shard) -> Option<ShardFold>
    ensures { shard.new.setup ≡ shard.old.setup }
{
    shard.begin_fold(alloc).expect(rt, "memory")
}

fn settle_shard(alloc: Global, shard: &mut Shard) -> bool
    ensures { shard.new.setup ≡ shard.old.setup }
{
    shard.settle_fold(alloc).is_some()
}

// What a shard holds with one batch sealed, with another that came since, and once the first is folded. Beside it
// whether a second seal was had, and whether anything was settled before the base was made, when it was, and once more.
type Folded = ([Told; 3], bool, [bool; 3]);

fn fold_shard_beside(
    rt: &(impl Abort + Eprint),
    alloc: Global,
    setup: &Setup,
    shard: &mut Shard,
) -> Folded
    requires { shard.old.setup ≡ setup.now }
{
    let fold = seal_shard(rt, alloc, shard);
    let sealed = told(shard);
    let again = seal_shard(rt, alloc, shard);
    take_all(rt, alloc, setup, shard, SIX);
    let early = settle_shard(alloc, shard);
    let beside = told(shard);
    if let Some(fold) = fold {
        drop(fold.run(alloc).expect(rt, "memory"));
    }
    let made = settle_shard(alloc, shard);
    let after = told(shard);
    let twice = settle_shard(alloc, shard);
    (
        [sealed, beside, after],
        again.is_some(),
        [early, made, twice],
    )
}

// What a shard holds that took the batch of 5, and then the batch of 6.
const ONE: Told = (
    ((5, 1), (0, 0, None), [Some(5), None], [true, false]),
    [Some(7), None, None],
);

const BOTH: Told = (
    ((11, 2), (0, 0, None), [Some(7), Some(4)], [true, true]),
    [Some(7), Some(9), None],
);

// The same with the first batch folded.
const REST: Told = (
    ((11, 1), (1, 5, Some(5)), [Some(7), Some(4)], [false, true]),
    [Some(9), None, None],
);

#[test]
fn a_shard_is_folded_beside_what_it_takes(rt: HostRuntime) {
    let setup = small_setup().expect(&rt, "a setup");
    let mut shard = shard_after(&rt, rt.alloc(), &setup, FIVE);
    let found = fold_shard_beside(&rt, rt.alloc(), &setup, &mut shard);
    drop(shard);
    let want = ([ONE, BOTH, REST], false, [false, true, false]);
    assert!(rt; same(&rt, &found, &want));
}

// A seal is taken back where no batch came since, and then another is had; where one came, nothing changes.
#[test]
fn a_seal_is_taken_back(rt: HostRuntime) {
    let setup = small_setup().expect(&rt, "a setup");
    let mut shard = shard_after(&rt, rt.alloc(), &setup, FIVE);
    let first = seal_shard(&rt, rt.alloc(), &mut shard).is_some();
    shard.unseal();
    let alone = told(&shard);
    let second = seal_shard(&rt, rt.alloc(), &mut shard).is_some();
    take_all(&rt, rt.alloc(), &setup, &mut shard, SIX);
    shard.unseal();
    let third = seal_shard(&rt, rt.alloc(), &mut shard).is_some();
    let beside = told(&shard);
    drop(shard);
    assert!(rt; same(&rt, &[first, second, third], &[true, true, false]));
    assert!(rt; same(&rt, &[alone, beside], &[ONE, BOTH]));
}
