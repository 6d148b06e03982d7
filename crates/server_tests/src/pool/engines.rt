//! Engines that are opened, serve sessions by a pool or one after another, and are closed.
ghost use Rattle.std.specs.Prelude.{◌≡◌, None};
ghost use Rattle.batch_store.specs.Accepted.{entries_in};
ghost use Rattle.locked_engine.specs.Opened.{NamesEngine};
ghost use Rattle.session_pool.specs.Saves.{path_of};

use batch_store::Setup;
use byte_io::{Link, Script, Sink};
use crossbeam_channel::{Receiver, Sender, bounded};
use locked_engine::{Engine, Named, Names, Seat};
use log_desk::LogDesk;
use plain_engine::PlainEngine;
use server_counters::Machine;
use session_pool::{
    Disk, Gate, LogPlace, PoolFault, PoolReport, Saver, SeatKeeper, Session, SessionLog, run_pool,
};
use socket_server::FileLog;
use std::alloc::Global;
use std::marker::Brand;
use std::process::Abort;
use std::random::RandomSource;
use std::sync::Wait;
use std::sync::ledger::Ledger;
use std::thread::Threads;
use wire_proto::{Ended, serve};

/// An engine without batches that is to be opened with this many seats: three rows, three columns, two shards, a limit
/// of 1,000 and at most 100 batches.
pub fn unopened<R: RandomSource + Abort>(
    rt: &R,
    alloc: Global,
    seats: usize,
) -> (PlainEngine, Names)
    ensures { result.0.setup ≡ result.1.setup }
{
    let setup = Setup::new(3, 3, &[2, 4], 2, 1000, 100).expect(rt, "setup");
    let plain = PlainEngine::new(rt, alloc, setup).expect(rt, "memory");
    let names = Names::new(rt, alloc, &plain, seats).expect(rt, "names");
    (plain, names)
}

/// The engine of several threads that has these names, and its seats.
pub fn opened<N: Named, H: Ledger>(
    rt: &impl Abort,
    alloc: Global,
    plain: PlainEngine,
    names: Names,
) -> (Engine<N, H>, Vec<Seat<N, H>>)
    requires named { NamesEngine names N.setup N.seats N.history N.name N.parts H.name H.parts }
    requires made_from { plain.setup ≡ names.setup }
    requires opened { plain.book.state ≡ N.opened }
{
    match Engine::<N, H>::open(alloc, plain, names) {
        Ok(opened) => opened,
        Err(_) => panic!(rt; "open"),
    }
}

/// The engine of one thread again, with all seats given back.
pub fn closed<N: Named, H: Ledger, R: Wait + Abort>(
    rt: &R,
    alloc: Global,
    engine: Engine<N, H>,
    seats: Vec<Seat<N, H>>,
) -> PlainEngine {
    match engine.close(rt, alloc, seats) {
        Ok(closed) => closed,
        Err(_fault) => panic!(rt; "close"),
    }
}

/// The number of accepted batches and their total.
pub type Accepted = (u64, u64);

// Sends a session over a link that hasn't failed.
fn send_session<R: Wait + Abort>(
    rt: &R,
    sender: &Sender<Session<Script>, Global>,
    number: u64,
    link: Script,
) {
    assert!(rt; Sink::failures(&link) == 0);
    let sent = sender.send(rt, Session::new(number, link));
    let is_sent = sent.is_ok();
    drop(sent);
    assert!(rt; is_sent);
}

/// A closed channel with sessions over these links, numbered in order.
pub fn queued<R: Wait + Abort>(
    rt: &R,
    alloc: Global,
    links: Vec<Script>,
) -> Receiver<Session<Script>, Global> {
    let (sender, receiver) = bounded(alloc, links.len()).expect(rt, "channel");
    let mut number = 0u64;
    for link in links {
        send_session(rt, &sender, number, link);
        number = number.saturating_add(1);
    }
    drop(sender);
    receiver
}

/// What a pool did over sessions, or why it did nothing; and what is accepted once all seats were given back, how many of
/// the batches are folded, and the count at row 0 and column 0.
#[derive(Clone, Copy)]
pub struct Found {
    pub report: Result<PoolReport, PoolFault>,
    pub accepted: Accepted,
    pub folded: u64,
    pub count: Option<u64>,
}

// Opens an engine, serves sessions by a pool with all of its seats, and closes it.
fn pooled<
    N: Named + Send + Sync,
    H: Ledger + Send + Sync,
    G: Gate<R> + Sync,
    R: Threads + Wait + Disk + Machine + LogPlace<FileLog> + Abort + Sync,
>(
    rt: &R,
    alloc: Global,
    plain: PlainEngine,
    names: Names,
    gate: &G,
    saver: &Saver,
    sessions: &Receiver<Session<Script>, Global>,
    compactors: u64,
) -> Found
    requires named { NamesEngine names N.setup N.seats N.history N.name N.parts H.name H.parts }
    requires made_from { plain.setup ≡ names.setup }
    requires opened { plain.book.state ≡ N.opened }
    requires path { path_of saver.now.log ≡ N.log }
    requires unlogged { N.log ≡ None }
{
    let (engine, mut seats) = opened::<N, H>(rt, alloc, plain, names);
    let desk: Option<LogDesk<N, FileLog>> = None;
    let report = run_pool(
        rt,
        alloc,
        &engine,
        &mut seats,
        sessions,
        gate,
        saver,
        desk.as_ref(),
        compactors,
    );
    drop(desk);
    let closed = closed(rt, alloc, engine, seats);
    let status = closed.status();
    let found = Found {
        report,
        accepted: (status.batches, status.total),
        folded: closed.folded(),
        count: closed.cell(0, 0),
    };
    drop(closed);
    found
}

/// Serves sessions over these links, numbered in order, by a pool with all seats of an engine and so many threads that
/// compact.
pub fn found_over<
    G: Gate<R> + Sync,
    R: Threads + Wait + Disk + Machine + LogPlace<FileLog> + RandomSource + Abort + Sync,
>(
    rt: &R,
    alloc: Global,
    seats: usize,
    gate: &G,
    saver: &Saver,
    links: Vec<Script>,
    compactors: u64,
) -> Found
    requires { path_of saver.now.log ≡ None }
{
    let sessions = queued(rt, alloc, links);
    let (plain, names) = unopened(rt, alloc, seats);
    let found = pooled::<Brand, Brand, G, R>(
        rt, alloc, plain, names, gate, saver, &sessions, compactors,
    );
    drop(sessions);
    found
}

/// How a session ended, and what was accepted then.
pub type After = (Ended, Accepted);

// Serves a session by a seat, over a link that hasn't failed.
fn serve_link<N: Named, H: Ledger, L: Link, R: Wait + Disk + Machine + LogPlace<FileLog> + Abort>(
    rt: &R,
    alloc: Global,
    engine: &Engine<N, H>,
    seat: &mut Seat<N, H>,
    link: &mut L,
    compactor: Option<&Sender<()>>,
) -> After
    requires { N.log ≡ None }
{
    assert!(rt; Sink::failures(link) == 0);
    let saver = Saver::new(None).with_log(None);
    let log: Option<SessionLog<'_, N, FileLog>> = None;
    let mut keeper = SeatKeeper::new(rt, engine, seat, &saver, log, compactor);
    let ended = serve(alloc, link, &mut keeper, 1 << 40);
    keeper.end();
    drop(saver);
    let status = engine.status(seat);
    (ended, (status.batches, status.total))
}

// The totals of both shards together.
fn total_of_shards(closed: &PlainEngine) -> Option<u64> {
    let first = closed.shard(0)?.total();
    let second = closed.shard(1)?.total();
    first.checked_add(second)
}

/// What became of a session and of the one after it, if there is one, and what the engine has accepted once it is
/// closed, in its book and in its shards.
pub type InTurn = (After, Option<After>, Accepted, Option<u64>);

// Opens an engine, serves these links by its first seat, and closes it.
fn served_in_turn<
    N: Named,
    H: Ledger,
    L: Link,
    R: Wait + Disk + Machine + LogPlace<FileLog> + Abort,
>(
    rt: &R,
    alloc: Global,
    plain: PlainEngine,
    names: Names,
    first: &mut L,
    second: Option<&mut Script>,
    compactor: Option<&Sender<()>>,
) -> InTurn
    requires named { NamesEngine names N.setup N.seats N.history N.name N.parts H.name H.parts }
    requires made_from { plain.setup ≡ names.setup }
    requires opened { plain.book.state ≡ N.opened }
    requires unlogged { N.log ≡ None }
{
    let (engine, mut seats) = opened::<N, H>(rt, alloc, plain, names);
    let seat = seats.first_mut().expect(rt, "a seat");
    let after_first = serve_link(rt, alloc, &engine, seat, first, compactor);
    let after_second = match second {
        Some(link) => Some(serve_link(rt, alloc, &engine, seat, link, compactor)),
        None => None,
    };
    let closed = closed(rt, alloc, engine, seats);
    let status = closed.status();
    let accepted = (status.batches, status.total);
    let total = total_of_shards(&closed);
    drop(closed);
    (after_first, after_second, accepted, total)
}

/// Serves a session over the first link and then one over the second, if there is one, by one of a new engine's seats.
/// Their puts wake whoever receives from `compactor`, where there is one.
pub fn sessions_in_turn<
    L: Link,
    R: Wait + Disk + Machine + LogPlace<FileLog> + RandomSource + Abort,
>(
    rt: &R,
    alloc: Global,
    seats: usize,
    first: &mut L,
    second: Option<&mut Script>,
    compactor: Option<&Sender<()>>,
) -> InTurn {
    let (plain, names) = unopened(rt, alloc, seats);
    served_in_turn::<Brand, Brand, L, R>(rt, alloc, plain, names, first, second, compactor)
}
