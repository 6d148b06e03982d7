//! Servers that are refused, and servers whose output fails.

use crate::sockets::settings::{ANY_PORT, PLAIN, Plan, settings};
use byte_io::{Script, WriteFault};
use log_start::StartFault;
use server_counters::Machine;
use session_pool::{Disk, LogPlace};
use snap_file::{FileFault, SaveFault};
use socket_server::{FileLog, Host, LogHost, ServerFault, Settings, run_server};
use std::alloc::Global;
use std::fs;
use std::net::{Net, TcpListener, TcpStream};
use std::os::unix::net::UnixListener;
use std::process::Abort;
use std::random::RandomSource;
use std::sync::Wait;
use std::test::Fail;
use std::thread::Threads;
use std::time::Clock;
use test_support::holds_at;

// Whether a server of which all output or `room` bytes are taken, and that takes no session, has this fault, or none.
fn is_fault<
    R: Threads
        + Wait
        + Clock
        + Disk
        + Machine
        + LogPlace<FileLog>
        + Host
        + LogHost<FileLog>
        + RandomSource
        + Net<Listener = TcpListener, Stream = TcpStream>
        + Abort
        + Sync,
>(rt: &R, alloc: Global, plan: &Plan, room: Option<u64>, wanted: &Option<ServerFault>) -> bool {
    let mut out = Script::new(alloc, Vec::new(alloc), None, room);
    let settings = Settings {
        sessions: 0,
        ..settings(rt, alloc, plan)
    };
    let fault = run_server::<FileLog, _, _>(rt, alloc, settings, &mut out).err();
    let is_wanted = fault == *wanted;
    drop(fault);
    drop(out);
    is_wanted
}

// What becomes of a server.
#[derive(Clone, Copy)]
enum Wanted {
    BadWorkers,
    NoAddress,
    SamePath,
    BadCompactors,
    NoSnapshot,
    NoSave,
    NoLog,
    Runs,
}

// Its fault, or none.
fn fault_of(wanted: Wanted) -> Option<ServerFault> {
    match wanted {
        Wanted::BadWorkers => Some(ServerFault::BadWorkers),
        Wanted::NoAddress => Some(ServerFault::NoAddress),
        Wanted::SamePath => Some(ServerFault::SamePath),
        Wanted::BadCompactors => Some(ServerFault::BadCompactors),
        Wanted::NoSnapshot => Some(ServerFault::File(FileFault::NotFound)),
        Wanted::NoSave => Some(ServerFault::Save(SaveFault::Create)),
        Wanted::NoLog => Some(ServerFault::Log(StartFault::Create)),
        Wanted::Runs => None,
    }
}

// A server with an address.
const AT_ANY_PORT: Plan<'static> = Plan {
    tcp: Some(ANY_PORT),
    ..PLAIN
};

// Plans, and what becomes of a server of each.
static PLANS: &[(Plan<'static>, Wanted)] = &[
    (
        Plan {
            workers: 0,
            ..PLAIN
        },
        Wanted::BadWorkers,
    ),
    (PLAIN, Wanted::NoAddress),
    (
        Plan {
            snapshot: Some("same_test.files"),
            log: Some("same_test.files"),
            ..AT_ANY_PORT
        },
        Wanted::SamePath,
    ),
    (
        Plan {
            compactors: 3,
            ..AT_ANY_PORT
        },
        Wanted::BadCompactors,
    ),
    (
        Plan {
            snapshot: Some("absent_test.snapshot"),
            must_load: true,
            ..AT_ANY_PORT
        },
        Wanted::NoSnapshot,
    ),
    // There is no such folder.
    (
        Plan {
            snapshot: Some("no_folder_here/snapshot"),
            must_save: true,
            ..AT_ANY_PORT
        },
        Wanted::NoSave,
    ),
    (
        Plan {
            log: Some("no_folder_here/log"),
            ..AT_ANY_PORT
        },
        Wanted::NoLog,
    ),
    (
        Plan {
            workers: 32,
            compactors: 1,
            ..AT_ANY_PORT
        },
        Wanted::Runs,
    ),
];

#[test]
fn plans_are_judged(rt: HostRuntime) {
    for (i, (plan, wanted)) in PLANS.iter().enumerate() {
        let wanted = fault_of(*wanted);
        let is_wanted = is_fault(&rt, rt.alloc(), plan, None, &wanted);
        drop(wanted);
        assert!(rt; holds_at(&rt, &i, is_wanted));
    }
}

// Another has the lock of a snapshot's path, and then that of a log's.
#[test]
fn paths_that_are_locked_are_refused(rt: HostRuntime) -> Result<(), Fail> {
    let path = "locked_test.file";
    let lock = snap_file::lock(&rt, rt.alloc(), path).expect(&rt, "lock");
    let snapshot = Plan {
        snapshot: Some(path),
        ..AT_ANY_PORT
    };
    let busy = Some(ServerFault::File(FileFault::Busy));
    assert!(&rt; is_fault(&rt, rt.alloc(), &snapshot, None, &busy));
    let log = Plan {
        log: Some(path),
        ..AT_ANY_PORT
    };
    let busy = Some(ServerFault::Log(StartFault::Busy));
    assert!(&rt; is_fault(&rt, rt.alloc(), &log, None, &busy));
    assert!(&rt; !fs::exists(&rt, path)?);
    drop(lock);
    assert!(&rt; is_fault(&rt, rt.alloc(), &log, None, &None));
    fs::remove_file(&rt, path)?;
    fs::remove_file(&rt, "locked_test.file.lock")?;
    Ok(())
}

#[test]
fn a_path_that_is_taken_stays(rt: HostRuntime) -> Result<(), Fail> {
    let path = "taken_test.socket";
    let listener = UnixListener::bind(&rt, path)?;
    let plan = Plan {
        unix: Some(path),
        ..PLAIN
    };
    let told = "taken_test.socket (Address already in use)";
    let address = told.to_string(rt.alloc()).expect(&rt, "memory");
    let wanted = Some(ServerFault::Listen(address));
    let is_told = is_fault(&rt, rt.alloc(), &plan, None, &wanted);
    drop(wanted);
    drop(listener);
    assert!(&rt; is_told);
    assert!(&rt; fs::exists(&rt, path)?);
    fs::remove_file(&rt, path)?;
    Ok(())
}

// The output's first line has 34 bytes, and the last one 26.
fn output_fault(room: u64) -> Option<ServerFault> {
    if room < 60 {
        let written = u128::from(room);
        Some(ServerFault::Output(WriteFault { written }))
    } else {
        None
    }
}

#[test]
fn a_failed_output_is_told_and_the_path_removed(rt: HostRuntime) -> Result<(), Fail> {
    let path = "output_test.socket";
    let plan = Plan {
        unix: Some(path),
        ..PLAIN
    };
    for room in [0, 10, 33, 34, 59, 60] {
        let wanted = output_fault(room);
        let is_told = is_fault(&rt, rt.alloc(), &plan, Some(room), &wanted);
        drop(wanted);
        assert!(&rt; is_told);
        assert!(&rt; !fs::exists(&rt, path)?);
    }
    Ok(())
}
