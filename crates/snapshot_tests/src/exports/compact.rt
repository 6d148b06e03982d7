//! The sum of several snapshots as a compact matrix (`run_compact`), in a folder in memory each of whose calls fails in
//! turn.
ghost use Rattle.std.specs.Prelude.{◌≡◌};

use crate::exports::given::{Given, NONE, WIDE};
use crate::snapshots::bytes::{ONE, TWO};
use byte_io::WriteFault;
use snap_export::{ExportFault, run_compact};
use snap_file::{Folder, MemoryFolder, SaveFault};
use std::alloc::Global;
use std::io::Eprint;
use std::process::Abort;
use test_support::same_at;

/// The three files, and another.
type Held<'a> = [&'a [u8]; 4];

const NAMES: [&str; 4] = ["rows.txt", "cols.txt", "matrix.mtx", "notes"];

/// The sum of `ONE` and `TWO`: 13 at row 0 and column 0, a stored zero at row 2 and column 1.
const NEW: Held = [
    b"0\n2\n",
    b"0\n1\n",
    b"%%MatrixMarket matrix coordinate integer general\n2 2 2\n1 1 13\n2 2 0\n",
    b"mine",
];

const OLD: Held = [b"old rows", b"old cols", b"old matrix", b"mine"];

const OF_NONE: Held = [
    b"",
    b"",
    b"%%MatrixMarket matrix coordinate integer general\n1 1 0\n",
    b"mine",
];

// A folder of the old files, of which call number `fail_at` fails.
fn folder(rt: &impl Abort, alloc: Global, fail_at: Option<u64>) -> MemoryFolder
    ensures { result.failures ≡ 0 }
{
    let mut list = Vec::new(alloc);
    for (name, bytes) in NAMES.iter().zip(OLD.iter()) {
        let name = String::from_str(alloc, *name).expect(rt, "memory");
        let bytes = Vec::from_slice(alloc, *bytes).expect(rt, "memory");
        list.push((name, bytes)).expect(rt, "memory");
    }
    MemoryFolder::new(alloc, list, fail_at)
}

// Whether the files have these bytes.
fn holds(f: &MemoryFolder, held: &Held<'_>) -> bool {
    for (name, bytes) in NAMES.iter().zip(held.iter()) {
        if f.file(*name) != Some(*bytes) {
            return false;
        }
    }
    true
}

// How a compact export ends in a folder whose call number `fail_at` fails, and what it holds then.
fn expect(
    rt: &(impl Abort + Eprint),
    alloc: Global,
    files: &[&[u8]],
    fail_at: Option<u64>,
    expected: Result<(), ExportFault>,
    held: &Held<'_>,
) {
    assert!(rt; !files.is_empty());
    let mut given = Given::new(files, None);
    let mut f = folder(rt, alloc, fail_at);
    let answer = run_compact(alloc, &mut given, files.len() as u64, &mut f);
    let is_held = holds(&f, held);
    drop(f);
    assert!(rt; same_at(rt, &fail_at, &(answer, is_held), &(expected, true)));
}

#[test]
fn snapshots_are_summed(rt: HostRuntime) {
    expect(&rt, rt.alloc(), &[TWO, NONE, ONE], None, Ok(()), &NEW);
    expect(&rt, rt.alloc(), &[NONE], None, Ok(()), &OF_NONE);
    // A fault of a file touches nothing.
    let differs = Err(ExportFault::DimensionsDiffer(1));
    expect(&rt, rt.alloc(), &[ONE, WIDE], None, differs, &OLD);
}

// The calls of a save, from 0, each with its fault: a file of up to 16 KiB is one write, and one of no byte none.
static FAULTS: &[SaveFault] = &[
    SaveFault::Create,
    SaveFault::Write(WriteFault { written: 0 }),
    SaveFault::Sync,
    SaveFault::Create,
    SaveFault::Write(WriteFault { written: 0 }),
    SaveFault::Sync,
    SaveFault::Create,
    SaveFault::Write(WriteFault { written: 0 }),
    SaveFault::Sync,
];

#[test]
fn each_call_fails_in_turn(rt: HostRuntime) {
    for (call, fault) in FAULTS.iter().enumerate() {
        let told = Err(ExportFault::Save(*fault));
        expect(&rt, rt.alloc(), &[ONE, TWO], Some(call as u64), told, &OLD);
    }
}

#[test]
fn each_rename_fails_in_turn(rt: HostRuntime) {
    let told = Err(ExportFault::Save(SaveFault::Rename));
    expect(&rt, rt.alloc(), &[ONE, TWO], Some(9), told, &OLD);
    let rows = [NEW[0], OLD[1], OLD[2], OLD[3]];
    expect(&rt, rt.alloc(), &[ONE, TWO], Some(10), told, &rows);
    let labels = [NEW[0], NEW[1], OLD[2], OLD[3]];
    expect(&rt, rt.alloc(), &[ONE, TWO], Some(11), told, &labels);
    expect(&rt, rt.alloc(), &[ONE, TWO], Some(12), Ok(()), &NEW);
}
