//! Engines that are opened and closed, and what is put from their seats.
ghost use Rattle.std.specs.Prelude.{◌≡◌};
ghost use Rattle.batch_store.specs.Accepted.{entries_in};
ghost use Rattle.locked_engine.specs.Opened.{NamesEngine};

use locked_engine::{CloseFault, Engine, Named, Names, PutFault, Seat};
use plain_engine::PlainEngine;
use std::alloc::Global;
use std::io::Eprint;
use std::process::Abort;
use std::sync::Wait;
use std::sync::ledger::Ledger;
use test_batches::{Cells, batch};
use test_support::same_at;

/// The index and the total of a kept reply, or why there is none.
pub type Answer = Result<(u64, u64), PutFault>;

/// The client, the number and the cells of a batch that is put, and what is answered.
pub type Step = (u64, u64, Cells, Answer);

/// The engine of several threads that has these names, and its seats.
pub fn opened<N: Named, H: Ledger>(
    rt: &impl Abort,
    alloc: Global,
    plain: PlainEngine,
    names: Names,
) -> (Engine<N, H>, Vec<Seat<N, H>>)
    requires named { NamesEngine names N.setup N.seats N.history N.name N.parts H.name H.parts }
    requires made_from { plain.setup ≡ names.setup }
    requires opened { plain.book.state ≡ N.opened }
{
    match Engine::<N, H>::open(alloc, plain, names) {
        Ok(opened) => opened,
        Err(_) => panic!(rt; "open"),
    }
}

/// The engine of one thread again, with all seats given back.
pub fn closed<N: Named, H: Ledger, R: Wait + Abort>(
    rt: &R,
    alloc: Global,
    engine: Engine<N, H>,
    seats: Vec<Seat<N, H>>,
) -> PlainEngine {
    match engine.close(rt, alloc, seats) {
        Ok(closed) => closed,
        Err(_) => panic!(rt; "close"),
    }
}

/// The engine of one thread again, where the last seat is kept back at first: the engine comes back with the others.
pub fn close_at_last<N: Named, H: Ledger, R: Wait + Abort>(
    rt: &R,
    alloc: Global,
    engine: Engine<N, H>,
    seats: Vec<Seat<N, H>>,
) -> PlainEngine {
    let mut seats = seats;
    let last = seats.pop().expect(rt, "a seat");
    match engine.close(rt, alloc, seats) {
        Err(CloseFault::SeatsMissing { engine, seats }) => {
            let mut seats = seats;
            seats.push(last).expect(rt, "memory");
            closed(rt, alloc, engine, seats)
        }
        _ => panic!(rt; "a seat is missing"),
    }
}

/// The first of these seats.
pub fn first_seat<'a, N: Named, H: Ledger>(
    rt: &impl Abort,
    seats: &'a mut [Seat<N, H>],
) -> &'a mut Seat<N, H> {
    match seats {
        [first, ..] => first,
        _ => panic!(rt; "a seat"),
    }
}

/// The first two of these seats.
pub fn two_seats<'a, N: Named, H: Ledger>(
    rt: &impl Abort,
    seats: &'a mut [Seat<N, H>],
) -> (&'a mut Seat<N, H>, &'a mut Seat<N, H>) {
    match seats {
        [first, second, ..] => (first, second),
        _ => panic!(rt; "two seats"),
    }
}

/// The first three of these seats.
pub fn three_seats<'a, N: Named, H: Ledger>(
    rt: &impl Abort,
    seats: &'a mut [Seat<N, H>],
) -> (&'a mut Seat<N, H>, &'a mut Seat<N, H>, &'a mut Seat<N, H>) {
    match seats {
        [first, second, third, ..] => (first, second, third),
        _ => panic!(rt; "three seats"),
    }
}

/// Puts the batch of these cells.
pub fn put<N: Named, H: Ledger, R: Wait + Abort>(
    rt: &R,
    alloc: Global,
    engine: &Engine<N, H>,
    seat: &mut Seat<N, H>,
    pair: (u64, u64),
    cells: &[(u64, u64, u64)],
) -> Answer {
    let setup = engine.setup();
    let b = batch(alloc, &setup, pair, cells).expect(rt, "a batch");
    let kept = engine.put(rt, alloc, seat, b)?;
    Ok((kept.index, kept.total_after))
}

/// Puts the batches of a table, and compares each answer.
pub fn put_all<N: Named, H: Ledger, R: Wait + Abort + Eprint>(
    rt: &R,
    alloc: Global,
    engine: &Engine<N, H>,
    seat: &mut Seat<N, H>,
    steps: &[Step],
) {
    for (client, number, cells, expected) in steps {
        let answer = put(rt, alloc, engine, seat, (*client, *number), cells);
        assert!(rt; same_at(rt, &(*client, *number, cells), &answer, expected));
    }
}
