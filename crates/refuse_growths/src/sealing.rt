//! A book and a shard that are folded apart from what they take in: what `begin_fold`, `run` and `settle_fold` leave.
ghost use Rattle.std.specs.Prelude.{◌≡◌};

use crate::book::{admit, show_book, take_in};
use crate::examples::{batch, small_setup};
use crate::show::{say, show_shard, tell};
use crate::stop::Stop;
use batch_store::{Book, BookFold, Setup, Shard, ShardFold};
use std::alloc::{AllocError, Global};
use std::random::RandomSource;
use std::sync::Arc;

/// Has a shard take a batch in, and a book admit it, and folds both.
pub fn run(rt: &(impl RandomSource + Print), alloc: Global) -> Result<(), Stop> {
    let setup = small_setup()?;
    let mut shard = Shard::new(rt, alloc, &setup, 0)?;
    let told = match Book::new(rt, alloc, &setup) {
        Ok(mut book) => {
            let told = run_example(rt, alloc, &setup, &mut shard, &mut book);
            drop(book);
            told
        }
        Err(_) => Err(Stop::SetUp),
    };
    drop(shard);
    told
}

fn run_example(
    rt: &impl Print,
    alloc: Global,
    setup: &Setup,
    shard: &mut Shard,
    book: &mut Book,
) -> Result<(), Stop>
    requires shard { shard.old.setup ≡ setup.now }
    requires book { book.old.setup ≡ setup.now }
{
    let b = batch(alloc, setup, 1)?;
    if let Err(stop) = take_in(rt, alloc, shard, &b) {
        drop(b);
        return Err(stop);
    }
    admit(rt, book, b)?;
    fold_shard(rt, alloc, shard)?;
    fold_book(rt, alloc, book)
}

// Seals a shard's record, again where memory was refused.
fn shard_sealed_at_last(
    rt: &impl Print,
    alloc: Global,
    shard: &mut Shard,
) -> Result<Option<ShardFold>, AllocError> {
    match shard.begin_fold(alloc) {
        Ok(fold) => Ok(fold),
        Err(_) => {
            say(rt, "shard seal refused");
            show_shard(rt, shard);
            shard.begin_fold(alloc)
        }
    }
}

fn fold_shard(rt: &impl Print, alloc: Global, shard: &mut Shard) -> Result<(), Stop> {
    let Some(fold) = shard_sealed_at_last(rt, alloc, shard)? else {
        return Err(Stop::Fault);
    };
    if fold.run(alloc).is_err() {
        say(rt, "shard sum refused");
        show_shard(rt, shard);
        drop(fold.run(alloc)?);
    }
    if shard.settle_fold(alloc).is_none() {
        return Err(Stop::Fault);
    }
    tell(rt, &[("shard settled, base total", shard.base().total())]);
    show_shard(rt, shard);
    Ok(())
}

// Seals a book's batches, again where memory was refused.
fn book_sealed_at_last(
    rt: &impl Print,
    alloc: Global,
    book: &mut Book,
) -> Result<Option<Arc<BookFold>>, AllocError> {
    match book.begin_fold(alloc, u64::MAX) {
        Ok(fold) => Ok(fold),
        Err(_) => {
            say(rt, "book seal refused");
            show_book(rt, book);
            book.begin_fold(alloc, u64::MAX)
        }
    }
}

fn fold_book(rt: &impl Print, alloc: Global, book: &mut Book) -> Result<(), Stop> {
    let Some(fold) = book_sealed_at_last(rt, alloc, book)? else {
        return Err(Stop::Fault);
    };
    if fold.run(alloc, &[]).is_err() {
        say(rt, "book sum refused");
        show_book(rt, book);
        fold.run(alloc, &[])?;
    }
    if book.settle_fold().is_none() {
        return Err(Stop::Fault);
    }
    let (folded, total) = (book.folded(), book.base().total());
    tell(
        rt,
        &[("book settled, folded", folded), ("base total", total)],
    );
    show_book(rt, book);
    Ok(())
}
