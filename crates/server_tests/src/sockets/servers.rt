//! Servers with a client in another thread.

use crate::pool::saves::saved_batches;
use crate::sockets::clients::{Over, is_served};
use crate::sockets::frames::{
    ACCEPTED_FIRST, ACCEPTED_SECOND, CELL, COUNTS_NONE, COUNTS_TWO, EXPORT, FIVE, NUMBER_REUSED,
    ROW, SAVE, SAVE_OFF, SAVED_TWO, SIX, STATUS, STOP, THREE, Turn,
};
use crate::sockets::said::Said;
use crate::sockets::settings::{ANY_PORT, PLAIN, Plan, settings};
use byte_io::Counted;
use locked_engine::Status;
use server_counters::Machine;
use session_pool::{Disk, LogPlace};
use socket_server::{FileLog, Host, LogHost, ServerFault, Settings, run_server};
use std::alloc::Global;
use std::net::{Net, TcpListener, TcpStream};
use std::process::Abort;
use std::random::RandomSource;
use std::sync::{Mutex, Wait};
use std::test::Fail;
use std::thread::Threads;
use std::time::Clock;
use std::{fs, thread};

// Whether the client was answered as it should be, and what the server answered.
type Outcome = (bool, Result<Status, ServerFault>);

// A server whose output goes where a client can read it.
fn run_saying<
    R: Threads
        + Wait
        + Clock
        + Disk
        + Machine
        + LogPlace<FileLog>
        + Host
        + LogHost<FileLog>
        + RandomSource
        + Net<Listener = TcpListener, Stream = TcpStream>
        + Sync,
>(rt: &R, alloc: Global, settings: Settings, said: &Mutex<Vec<u8>>) -> Result<Status, ServerFault> {
    let mut out = Counted::new(Said { rt, bytes: said });
    let answer = run_server::<FileLog, _, _>(rt, alloc, settings, &mut out);
    drop(out);
    answer
}

// What became of a server of this plan, and of a client with these turns.
fn outcome_of<
    R: Threads
        + Wait
        + Clock
        + Disk
        + Machine
        + LogPlace<FileLog>
        + Host
        + LogHost<FileLog>
        + RandomSource
        + Net<Listener = TcpListener, Stream = TcpStream>
        + Abort
        + Sync,
>(rt: &R, alloc: Global, plan: &Plan, over: Over, turns: &[Turn]) -> Outcome {
    let settings = settings(rt, alloc, plan);
    let said = Mutex::new(Vec::new(alloc));
    let outcome = thread::join(
        rt,
        || is_served(rt, alloc, &said, over, turns),
        || run_saying(rt, alloc, settings, &said),
    );
    drop(said);
    outcome
}

// The client was answered, and the server has accepted this.
fn accepted(batches: u64, total: u64) -> Outcome {
    (true, Ok(Status { batches, total }))
}

// Whether this is the outcome.
fn is_outcome(outcome: Outcome, wanted: Outcome) -> bool {
    let is_wanted = outcome == wanted;
    drop(outcome);
    drop(wanted);
    is_wanted
}

// Puts, look-ups and a save.
const PUT_AND_SAVED: &[Turn] = &[
    (FIVE, ACCEPTED_FIRST),
    (THREE, ACCEPTED_SECOND),
    (FIVE, ACCEPTED_FIRST),
    (SIX, NUMBER_REUSED),
    CELL,
    ROW,
    EXPORT,
    (SAVE, SAVED_TWO),
    STOP,
];

// A second server goes on from there.
const PUT_AGAIN: &[Turn] = &[
    (STATUS, COUNTS_TWO),
    (FIVE, ACCEPTED_FIRST),
    (SIX, NUMBER_REUSED),
    EXPORT,
    STOP,
];

#[test]
fn a_saved_server_goes_on_over_another_socket(rt: HostRuntime) -> Result<(), Fail> {
    let path = "saved_test.socket";
    let snapshot = "saved_test.snapshot";
    let plan = Plan {
        tcp: Some(ANY_PORT),
        unix: Some(path),
        snapshot: Some(snapshot),
        ..PLAIN
    };
    for (over, turns) in [(Over::Tcp, PUT_AND_SAVED), (Over::Unix, PUT_AGAIN)] {
        let outcome = outcome_of(&rt, rt.alloc(), &plan, over, turns);
        assert!(&rt; is_outcome(outcome, accepted(2, 8)));
        assert!(&rt; saved_batches(&rt, rt.alloc(), snapshot) == 2);
        assert!(&rt; !fs::exists(&rt, path)?);
    }
    fs::remove_file(&rt, snapshot)?;
    fs::remove_file(&rt, "saved_test.snapshot.lock")?;
    Ok(())
}

// A server that has no path for snapshots refuses a save.
const NOT_SAVED: &[Turn] = &[(STATUS, COUNTS_NONE), (SAVE, SAVE_OFF)];

#[test]
fn the_last_session_ends_both_acceptors(rt: HostRuntime) -> Result<(), Fail> {
    let path = "last_test.socket";
    let plan = Plan {
        sessions: 1,
        tcp: Some(ANY_PORT),
        unix: Some(path),
        ..PLAIN
    };
    let outcome = outcome_of(&rt, rt.alloc(), &plan, Over::Tcp, NOT_SAVED);
    assert!(&rt; is_outcome(outcome, accepted(0, 0)));
    assert!(&rt; !fs::exists(&rt, path)?);
    Ok(())
}
