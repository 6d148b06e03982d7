//! Saves in a folder in memory, each of whose calls fails in turn.
ghost use Rattle.std.specs.Prelude.{◌≡◌, ◌+◌, ◌<◌, ◌^◌};

use crate::snapshots::bytes::{ONE, WRITTEN_ONE, read};
use byte_io::WriteFault;
use snap_file::{Folder, MemoryFolder, SaveFault, Snapshot, save_in};
use std::alloc::Global;
use std::io::Eprint;
use std::process::Abort;
use test_support::same_at;

// A folder of files, of which call number `fail_at` fails.
fn folder(
    rt: &impl Abort,
    alloc: Global,
    files: &[(&str, &[u8])],
    fail_at: Option<u64>,
) -> MemoryFolder
    ensures { result.failures ≡ 0 }
{
    let mut list = Vec::new(alloc);
    for (name, bytes) in files {
        let name = String::from_str(alloc, *name).expect(rt, "memory");
        let bytes = Vec::from_slice(alloc, *bytes).expect(rt, "memory");
        list.push((name, bytes)).expect(rt, "memory");
    }
    MemoryFolder::new(alloc, list, fail_at)
}

fn saved(alloc: Global, folder: &mut MemoryFolder, snapshot: &Snapshot) -> Result<(), SaveFault>
    requires { folder.old.failures + 1 < 2 ^ 64 }
{
    // Any use of it gives the facts that it keeps.
    let list = &snapshot.list;
    save_in(alloc, folder, "a", snapshot.origin, &snapshot.setup, list)
}

// Whether a file has these bytes.
fn holds(f: &MemoryFolder, name: &str, bytes: &[u8]) -> bool {
    match f.file(name) {
        Some(held) => held == bytes,
        None => false,
    }
}

// What a save is answered in a folder whose call number `fail_at` fails, and what `a` and `b` hold then. A file was
// left over under the name of the new one.
fn expect_save(
    rt: &(impl Abort + Eprint),
    alloc: Global,
    snapshot: &Snapshot,
    fail_at: Option<u64>,
    expected: Result<(), SaveFault>,
    held: &[u8],
) {
    let files: [(&str, &[u8]); 3] = [("a", b"old"), ("a.new", b"left over"), ("b", b"other")];
    let mut f = folder(rt, alloc, &files, fail_at);
    let answer = saved(alloc, &mut f, snapshot);
    let are_held = [holds(&f, "a", held), holds(&f, "b", b"other")];
    let failures = f.failures();
    drop(f);
    let wanted = (expected, [true; 2], u64::from(expected.is_err()));
    assert!(rt; same_at(rt, &fail_at, &(answer, are_held, failures), &wanted));
}

// The calls of a save, from 0, each with its fault: a file of up to 16 KiB is one write.
static FAULTS: &[(u64, SaveFault)] = &[
    (0, SaveFault::Create),
    (1, SaveFault::Write(WriteFault { written: 0 })),
    (2, SaveFault::Sync),
    (3, SaveFault::Rename),
];

#[test]
fn each_call_fails_in_turn(rt: HostRuntime) {
    let snapshot = read(&rt, rt.alloc(), ONE, ONE.len());
    for (call, fault) in FAULTS {
        expect_save(&rt, rt.alloc(), &snapshot, Some(*call), Err(*fault), b"old");
    }
    expect_save(&rt, rt.alloc(), &snapshot, Some(4), Ok(()), WRITTEN_ONE);
    drop(snapshot);
}
