//! The engine of several threads: it is opened, a batch is put from one seat and read from another, it is folded, and it is
//! closed.
ghost use Rattle.std.specs.Prelude.{◌≡◌, None};
ghost use Rattle.std.specs.Arc.{arc_value};
ghost use Rattle.batch_store.specs.Accepted.{entries_in};
ghost use Rattle.locked_engine.specs.Opened.{NamesEngine};

use crate::examples::{batch, small_setup};
use crate::seats::show_seats;
use crate::show::{say, show_engine, tell};
use crate::stop::Stop;
use batch_store::{Batch, Setup};
use locked_engine::{CloseFault, Engine, Named, Names, Seat};
use plain_engine::PlainEngine;
use std::alloc::{AllocError, Global};
use std::marker::Brand;
use std::random::RandomSource;
use std::sync::ledger::Ledger;
use std::sync::{Arc, Wait};

/// An engine and its seats.
type Opened<N, H> = (Engine<N, H>, Vec<Seat<N, H>>);

/// Opens an engine of two seats, puts and reads, and closes it.
pub fn run<R: Wait + Print + RandomSource>(rt: &R, alloc: Global) -> Result<(), Stop> {
    let setup = small_setup()?;
    let b = batch(alloc, &setup, 1)?;
    let told = run_with(rt, alloc, setup, &b);
    drop(b);
    told
}

fn run_with<R: Wait + Print + RandomSource>(
    rt: &R,
    alloc: Global,
    setup: Setup,
    b: &Arc<Batch>,
) -> Result<(), Stop>
    requires rows { (arc_value b.now).matrix.rows ≡ setup.rows }
    requires cols { (arc_value b.now).matrix.cols ≡ setup.cols }
{
    let plain = PlainEngine::new(rt, alloc, setup)?;
    // Names take no memory.
    match Names::new(rt, alloc, &plain, 2) {
        Ok(names) => run_named::<Brand, Brand, R>(rt, alloc, plain, names, b),
        Err(_) => {
            drop(plain);
            Err(Stop::Fault)
        }
    }
}

fn run_named<N: Named, H: Ledger, R: Wait + Print>(
    rt: &R,
    alloc: Global,
    plain: PlainEngine,
    names: Names,
    b: &Arc<Batch>,
) -> Result<(), Stop>
    requires named { NamesEngine names N.setup N.seats N.history N.name N.parts H.name H.parts }
    requires made_from { plain.setup ≡ names.setup }
    requires opened { plain.book.state ≡ N.opened }
    requires rows { (arc_value b.now).matrix.rows ≡ N.setup.rows }
    requires cols { (arc_value b.now).matrix.cols ≡ N.setup.cols }
    requires unlogged { N.log ≡ None }
{
    let (engine, mut seats) = open_at_last::<N, H, R>(rt, alloc, plain, names)?;
    if let Err(stop) = show_seats(rt, alloc, &engine, &mut seats, b) {
        engine.end(rt);
        drop(seats);
        return Err(stop);
    }
    let plain = close_at_last(rt, alloc, engine, seats)?;
    show_engine(rt, &plain);
    drop(plain);
    Ok(())
}

// Opens an engine, and where memory was refused again with what was handed back.
fn open_at_last<N: Named, H: Ledger, R: Wait + Print>(
    rt: &R,
    alloc: Global,
    plain: PlainEngine,
    names: Names,
) -> Result<Opened<N, H>, Stop>
    requires named { NamesEngine names N.setup N.seats N.history N.name N.parts H.name H.parts }
    requires made_from { plain.setup ≡ names.setup }
    requires opened { plain.book.state ≡ N.opened }
{
    match Engine::<N, H>::open(alloc, plain, names) {
        Ok(opened) => Ok(opened),
        Err((plain, names, AllocError)) => {
            say(rt, "open refused");
            show_engine(rt, &plain);
            open_again(alloc, plain, names)
        }
    }
}

fn open_again<N: Named, H: Ledger>(
    alloc: Global,
    plain: PlainEngine,
    names: Names,
) -> Result<Opened<N, H>, Stop>
    requires named { NamesEngine names N.setup N.seats N.history N.name N.parts H.name H.parts }
    requires made_from { plain.setup ≡ names.setup }
    requires opened { plain.book.state ≡ N.opened }
{
    match Engine::<N, H>::open(alloc, plain, names) {
        Ok(opened) => Ok(opened),
        Err(handed_back) => {
            drop(handed_back);
            Err(Stop::Fault)
        }
    }
}

// Closes an engine, and where memory was refused again with what was handed back.
fn close_at_last<N: Named, H: Ledger, R: Wait + Print>(
    rt: &R,
    alloc: Global,
    engine: Engine<N, H>,
    seats: Vec<Seat<N, H>>,
) -> Result<PlainEngine, Stop> {
    match engine.close(rt, alloc, seats) {
        Ok(plain) => Ok(plain),
        Err(CloseFault::Memory { engine, seats }) => {
            tell(rt, &[("close refused, seats", seats.len() as u64)]);
            close_again(rt, alloc, engine, seats)
        }
        Err(fault) => Err(not_closed(rt, fault)),
    }
}

fn close_again<N: Named, H: Ledger, R: Wait + Print>(
    rt: &R,
    alloc: Global,
    engine: Engine<N, H>,
    seats: Vec<Seat<N, H>>,
) -> Result<PlainEngine, Stop> {
    match engine.close(rt, alloc, seats) {
        Ok(plain) => Ok(plain),
        Err(fault) => Err(not_closed(rt, fault)),
    }
}

// Ends what wasn't closed.
fn not_closed<N: Named, H: Ledger, R: Wait + Print>(rt: &R, fault: CloseFault<N, H>) -> Stop {
    match fault {
        CloseFault::SeatsMissing { engine, seats } => {
            engine.end(rt);
            drop(seats);
        }
        CloseFault::Memory { engine, seats } => {
            engine.end(rt);
            drop(seats);
        }
        CloseFault::RecordsDiffer { shards, book } => {
            drop(shards);
            drop(book);
        }
    }
    Stop::Fault
}
