//! Engines that are opened with a log, serve a session, and are closed.
ghost use Rattle.std.specs.Prelude.{◌≡◌, List, [], Some};
ghost use Rattle.batch_store.specs.declared.verdict.Entry.{Entry};
ghost use Rattle.session_pool.specs.Saves.{path_of};
ghost use Rattle.locked_engine.specs.Opened.{NamesEngine};

use crate::logged::frames::{Ask, frames};
use crate::logged::log::TestLog;
use crate::pool::engines::{closed, opened, unopened};
use byte_io::{Script, Sink};
use locked_engine::{Engine, Named, Names, Seat};
use log_desk::{Durable, FailAt, Log, LogDesk, MemoryLog, NoPause};
use plain_engine::{PlainEngine, Status};
use server_counters::Machine;
use session_pool::{Disk, LogPlace, Saver, SeatKeeper, SessionLog};
use std::alloc::Global;
use std::marker::Brand;
use std::process::Abort;
use std::random::RandomSource;
use std::sync::Wait;
use std::sync::ledger::Ledger;
use wire_proto::{Ended, serve};

/// A session: its name, what is asked in one piece after the other, how many pages the log has, which of its calls
/// fails, its path, and what is expected.
#[derive(Clone, Copy)]
pub struct Case {
    pub name: &'static str,
    pub pieces: &'static [&'static [Ask]],
    pub pages: u64,
    pub fail_at: FailAt,
    pub path: &'static str,
    pub replies: &'static [u8],
    pub found: Found,
}

/// Whether just the replies came back that were expected, how many syncs the log in use was asked for in appends, how
/// many batches are durable, and whether it has failed.
#[derive(Clone, Copy, Debug, PartialEq, Eq)]
pub struct Found {
    pub is_answered: bool,
    pub syncs: u64,
    pub durable: u64,
    pub has_failed: bool,
}

/// Plays a session over a new engine and an empty log.
pub fn play<R: Wait + Disk + Machine + LogPlace<TestLog> + RandomSource + Abort>(
    rt: &R,
    alloc: Global,
    case: &Case,
) -> Found {
    let (plain, names) = unopened(rt, alloc, 1);
    play_named::<Brand, Brand, R>(rt, alloc, plain, names, case)
}

fn play_named<N: Named, H: Ledger, R: Wait + Disk + Machine + LogPlace<TestLog> + Abort>(
    rt: &R,
    alloc: Global,
    plain: PlainEngine,
    names: Names,
    case: &Case,
) -> Found
    requires named { NamesEngine names N.setup N.seats N.history N.name N.parts H.name H.parts }
    requires made_from { plain.setup ≡ names.setup }
    requires opened { plain.book.state ≡ N.opened }
    requires path { N.log ≡ Some case.now.path.now }
    requires word { (entries : List Entry) → N.synced entries }
{
    let (engine, mut seats) = opened::<N, H>(rt, alloc, plain, names);
    let seat = seats.first_mut().expect(rt, "a seat");
    let found = serve_case(rt, alloc, &engine, seat, case);
    drop(closed(rt, alloc, engine, seats));
    found
}

/// What an engine without batches has as durable in an empty log.
pub fn nothing<N: Named, H: Ledger>(seat: &Seat<N, H>) -> Durable<N, TestLog>
    ensures { result ≡ [] }
{
    let none = Status {
        batches: 0,
        total: 0,
    };
    Durable::of(&seat.version(), none)
}

/// A link that gives these requests, in one piece after the other.
pub fn link_of(rt: &impl Abort, alloc: Global, pieces: &[&[Ask]]) -> Script {
    let mut list = Vec::new(alloc);
    for asks in pieces {
        let piece = frames(rt, alloc, asks);
        list.push(piece).expect(rt, "memory");
    }
    Script::new(alloc, list, None, None)
}

/// A saver to this path, which begins the log under that one anew.
pub fn saver_to(rt: &impl Abort, alloc: Global, path: &str, log: &str) -> Saver
    ensures { path_of result.log ≡ Some log.now }
{
    let path = path.to_string(alloc).expect(rt, "memory");
    let log = log.to_string(alloc).expect(rt, "memory");
    Saver::new(Some(path)).with_log(Some(log))
}

// Serves a session by a seat, over a desk of its own.
fn serve_case<'x, N: Named, H: Ledger, R: Wait + Disk + Machine + LogPlace<TestLog> + Abort>(
    rt: &'x R,
    alloc: Global,
    engine: &'x Engine<N, H>,
    seat: &'x mut Seat<N, H>,
    case: &Case,
) -> Found
    requires path { N.log ≡ Some case.now.path.now }
    requires word { (entries : List Entry) → N.synced entries }
{
    let mut link = link_of(rt, alloc, case.pieces);
    assert!(rt; Sink::failures(&link) == 0);
    let log = MemoryLog::new(alloc, 100, case.pages, case.fail_at, NoPause).expect(rt, "memory");
    let desk = LogDesk::open(alloc, TestLog { log }, nothing(seat), seat.version()).expect(
        rt, "memory",
    );
    let saver = saver_to(rt, alloc, "session_log_test.snapshot", case.path);
    let log = SessionLog::new(&desk, desk.known(rt));
    let mut keeper = SeatKeeper::new(rt, engine, seat, &saver, Some(log), None);
    let ended = serve(alloc, &mut link, &mut keeper, 1 << 40);
    keeper.end();
    drop(saver);
    let is_answered = ended == Ended::Closed { rest: 0 } && link.written() == case.replies;
    drop(link);
    let (log, durable) = desk.close().expect(rt, "the turn");
    let found = Found {
        is_answered,
        syncs: log.log.syncs(),
        durable: durable.count(),
        has_failed: log.log.is_failed(),
    };
    drop(log);
    found
}
