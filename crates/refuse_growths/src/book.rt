//! A book and a shard by themselves: what `reserve`, `list` and `prepare` leave.
ghost use Rattle.std.specs.Prelude.{◌≡◌};
ghost use Rattle.std.specs.Arc.{arc_value};

use crate::examples::{batch, small_setup};
use crate::show::{say, show_shard, tell};
use crate::stop::Stop;
use batch_store::{Batch, Book, Setup, Shard, ShardFault, Verdict};
use std::alloc::{AllocError, Global};
use std::random::RandomSource;
use std::sync::Arc;

/// Has a shard take a batch in, and a book admit it.
pub fn run(rt: &(impl RandomSource + Print), alloc: Global) -> Result<(), Stop> {
    let setup = small_setup()?;
    let mut shard = Shard::new(rt, alloc, &setup, 0)?;
    let told = match Book::new(rt, alloc, &setup) {
        Ok(mut book) => {
            let told = run_example(rt, alloc, &setup, &mut shard, &mut book);
            drop(book);
            told
        }
        Err(_) => Err(Stop::SetUp),
    };
    drop(shard);
    told
}

fn run_example(
    rt: &impl Print,
    alloc: Global,
    setup: &Setup,
    shard: &mut Shard,
    book: &mut Book,
) -> Result<(), Stop>
    requires shard { shard.old.setup ≡ setup.now }
    requires book { book.old.setup ≡ setup.now }
{
    let b = batch(alloc, setup, 1)?;
    if let Err(stop) = take_in(rt, alloc, shard, &b) {
        drop(b);
        return Err(stop);
    }
    admit(rt, book, b)?;
    show_list(rt, alloc, book)?;
    Ok(())
}

/// How many batches a book has, and their total.
pub fn show_book(rt: &impl Print, book: &Book) {
    tell(
        rt,
        &[
            ("book of batches", book.len() as u64),
            ("total", book.total()),
        ],
    );
}

/// Has a shard take a batch in; where memory was refused, it is told what stands, and the shard prepares it again.
pub fn take_in(
    rt: &impl Print,
    alloc: Global,
    shard: &mut Shard,
    b: &Arc<Batch>,
) -> Result<(), Stop>
    requires rows { (arc_value b.now).matrix.rows ≡ shard.old.setup.rows }
    requires cols { (arc_value b.now).matrix.cols ≡ shard.old.setup.cols }
{
    let mut made = shard.prepare(alloc, b);
    if matches!(made, Err(ShardFault::Memory)) {
        say(rt, "prepare refused");
        show_shard(rt, shard);
        made = shard.prepare(alloc, b);
    }
    match made {
        Ok(prepared) => shard.commit(prepared),
        Err(_) => return Err(Stop::Fault),
    }
    show_shard(rt, shard);
    Ok(())
}

/// Has a book admit a batch that is new to it; where memory was refused, it is told what stands, and the book is asked
/// for room again.
pub fn admit(rt: &impl Print, book: &mut Book, b: Arc<Batch>) -> Result<(), Stop>
    requires rows { (arc_value b).matrix.rows ≡ book.old.setup.rows }
    requires cols { (arc_value b).matrix.cols ≡ book.old.setup.cols }
{
    if book.reserve(&b).is_err() {
        say(rt, "reserve refused");
        show_book(rt, book);
        if book.reserve(&b).is_err() {
            drop(b);
            return Err(Stop::SetUp);
        }
    }
    let Verdict::Fresh = book.look(&b) else {
        drop(b);
        return Err(Stop::Fault);
    };
    let kept = book.admit(b);
    tell(rt, &[("admitted", kept.index), ("total", kept.total_after)]);
    show_book(rt, book);
    Ok(())
}

fn list_at_last(
    rt: &impl Print,
    alloc: Global,
    book: &Book,
) -> Result<Vec<Arc<Batch>>, AllocError> {
    match book.list(alloc) {
        Ok(list) => Ok(list),
        Err(_) => {
            say(rt, "list refused");
            book.list(alloc)
        }
    }
}

fn show_list(rt: &impl Print, alloc: Global, book: &Book) -> Result<(), AllocError> {
    let list = list_at_last(rt, alloc, book)?;
    tell(rt, &[("list of batches", list.len() as u64)]);
    drop(list);
    Ok(())
}
