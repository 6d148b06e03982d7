//! What is put from one seat of an engine of several threads, and read from another.
ghost use Rattle.std.specs.Prelude.{◌≡◌, None};
ghost use Rattle.std.specs.Arc.{arc_value};

use crate::running::show_fold;
use crate::show::{say, show_book_list, show_cells, show_put, tell};
use crate::stop::Stop;
use batch_store::{Batch, BookList, Kept};
use hyper_matrix::Hyper;
use locked_engine::{Engine, Named, PutFault, Seat};
use std::alloc::{AllocError, Global};
use std::sync::ledger::Ledger;
use std::sync::{Arc, Wait};

/// Puts a batch twice from the first seat, reads what the second is shown, folds, and puts and reads again.
pub fn show_seats<N: Named, H: Ledger, R: Wait + Print>(
    rt: &R,
    alloc: Global,
    engine: &Engine<N, H>,
    seats: &mut [Seat<N, H>],
    b: &Arc<Batch>,
) -> Result<(), Stop>
    requires rows { (arc_value b.now).matrix.rows ≡ N.setup.rows }
    requires cols { (arc_value b.now).matrix.cols ≡ N.setup.cols }
    requires unlogged { N.log ≡ None }
{
    let [first, second] = seats else {
        return Err(Stop::Fault);
    };
    put_at_last(rt, alloc, engine, first, b)?;
    let repeat = put(rt, alloc, engine, first, b)?;
    show_put(rt, &repeat);
    show_export(rt, alloc, engine)?;
    show_list(rt, alloc, engine, second)?;
    show_all(rt, alloc, engine, second)?;
    show_status(rt, engine, second);
    show_fold(rt, alloc, engine, second)?;
    let again = put(rt, alloc, engine, first, b)?;
    show_put(rt, &again);
    show_all(rt, alloc, engine, second)?;
    Ok(())
}

// Puts a batch of the engine's dimensions.
fn put<N: Named, H: Ledger, R: Wait + Print>(
    rt: &R,
    alloc: Global,
    engine: &Engine<N, H>,
    seat: &mut Seat<N, H>,
    b: &Arc<Batch>,
) -> Result<Result<Kept, PutFault>, AllocError>
    requires rows { (arc_value b.now).matrix.rows ≡ N.setup.rows }
    requires cols { (arc_value b.now).matrix.cols ≡ N.setup.cols }
{
    let shared = Arc::try_clone(b)?;
    Ok(engine.put(rt, alloc, seat, shared))
}

// Puts a batch, and again where memory was refused, and tells what stands after each.
fn put_at_last<N: Named, H: Ledger, R: Wait + Print>(
    rt: &R,
    alloc: Global,
    engine: &Engine<N, H>,
    seat: &mut Seat<N, H>,
    b: &Arc<Batch>,
) -> Result<(), Stop>
    requires rows { (arc_value b.now).matrix.rows ≡ N.setup.rows }
    requires cols { (arc_value b.now).matrix.cols ≡ N.setup.cols }
{
    let mut answer = put(rt, alloc, engine, seat, b)?;
    if answer == Err(PutFault::Memory) {
        show_put(rt, &answer);
        show_status(rt, engine, seat);
        answer = put(rt, alloc, engine, seat, b)?;
    }
    show_put(rt, &answer);
    show_status(rt, engine, seat);
    Ok(())
}

/// What was accepted, what stands at the first place and in its row, and what stands behind each shard's lock.
pub fn show_status<N: Named, H: Ledger, R: Wait + Print>(
    rt: &R,
    engine: &Engine<N, H>,
    seat: &mut Seat<N, H>,
) {
    let status = engine.status(seat);
    tell(rt, &[("batches", status.batches), ("total", status.total)]);
    let count = engine.cell(rt, 0, 0).unwrap_or(0);
    tell(rt, &[("row", 0), ("column", 0), ("count", count)]);
    let row = engine.row(rt, 0);
    tell(
        rt,
        &[("row", 0), ("entries", row.entries), ("total", row.total)],
    );
    show_shards(rt, engine);
}

// How many batches each shard has taken in, and the total of its parts.
fn show_shards<N: Named, H: Ledger, R: Wait + Print>(rt: &R, engine: &Engine<N, H>) {
    for s in 0..engine.setup().shards() {
        let held = engine.look(rt, s, |shard| (shard.record_len(), shard.total()));
        if let Some((batches, total)) = held {
            tell(rt, &[("shard", s), ("batches", batches), ("total", total)]);
        }
    }
}

fn export_at_last<N: Named, H: Ledger, R: Wait + Print>(
    rt: &R,
    alloc: Global,
    engine: &Engine<N, H>,
) -> Result<Hyper, AllocError> {
    match engine.export(rt, alloc) {
        Ok(sum) => Ok(sum),
        Err(_) => {
            say(rt, "export refused");
            engine.export(rt, alloc)
        }
    }
}

fn show_export<N: Named, H: Ledger, R: Wait + Print>(
    rt: &R,
    alloc: Global,
    engine: &Engine<N, H>,
) -> Result<(), AllocError> {
    let sum = export_at_last(rt, alloc, engine)?;
    tell(rt, &[("export of entries", sum.entries())]);
    show_cells(rt, &sum);
    drop(sum);
    Ok(())
}

fn list_at_last<N: Named, H: Ledger, R: Wait + Print>(
    rt: &R,
    alloc: Global,
    engine: &Engine<N, H>,
    seat: &mut Seat<N, H>,
) -> Result<Vec<Arc<Batch>>, AllocError> {
    match engine.batch_list(rt, alloc, seat) {
        Ok(list) => Ok(list),
        Err(_) => {
            say(rt, "list refused");
            engine.batch_list(rt, alloc, seat)
        }
    }
}

fn show_list<N: Named, H: Ledger, R: Wait + Print>(
    rt: &R,
    alloc: Global,
    engine: &Engine<N, H>,
    seat: &mut Seat<N, H>,
) -> Result<(), AllocError> {
    let list = list_at_last(rt, alloc, engine, seat)?;
    tell(rt, &[("list of batches", list.len() as u64)]);
    drop(list);
    Ok(())
}

fn all_at_last<N: Named, H: Ledger, R: Wait + Print>(
    rt: &R,
    alloc: Global,
    engine: &Engine<N, H>,
    seat: &mut Seat<N, H>,
) -> Result<BookList, AllocError> {
    match engine.book_list(rt, alloc, seat) {
        Ok(list) => Ok(list),
        Err(_) => {
            say(rt, "book list refused");
            engine.book_list(rt, alloc, seat)
        }
    }
}

// All that was accepted, folded or not.
fn show_all<N: Named, H: Ledger, R: Wait + Print>(
    rt: &R,
    alloc: Global,
    engine: &Engine<N, H>,
    seat: &mut Seat<N, H>,
) -> Result<(), AllocError> {
    let list = all_at_last(rt, alloc, engine, seat)?;
    show_book_list(rt, &list);
    drop(list);
    Ok(())
}
