//! Snapshots in memory and as a file.
ghost use Rattle.std.specs.Prelude.{◌≡◌, ◌+◌, ◌<◌, ◌^◌};

use crate::show::{say, tell};
use crate::stop::Stop;
use byte_io::{Script, WriteFault};
use snap_file::{
    FileFault, SaveFault, SnapFault, Snapshot, load, read_snapshot, save, write_snapshot,
};
use std::alloc::Global;
use std::fs;
use std::rt::Files;
use test_support::pieces;

/// Three rows, three columns, cuts 2 and 4, 2 shards, a limit of 100 and at most 10 batches; 2 batches, total 12, 1 of
/// them folded: client 8, number 1, 1 cell, total 7. The base: 1 cell, row 1, column 2, count 7. Then client 7, number
/// 1, 1 cell: row 0, column 0, count 5. The book is 00112233445566778899aabbccddeeff, the window 2, and a log goes
/// with the file. A checksum each follows the head, what is folded, and the batch.
static BYTES: &[u8] = b"HHMSNAP\n\0\0\0\x04\
\0\0\0\0\0\0\0\x03\0\0\0\0\0\0\0\x03\
\x02\0\0\0\0\0\0\0\x02\0\0\0\0\0\0\0\x04\
\x02\0\0\0\0\0\0\0\x64\0\0\0\0\0\0\0\x0a\
\0\0\0\0\0\0\0\x01\0\0\0\0\0\0\0\x0c\
\0\x11\x22\x33\x44\x55\x66\x77\x88\x99\xaa\xbb\xcc\xdd\xee\xff\
\0\0\0\0\0\0\0\x02\x01\
\x56\xeb\xbd\xad\
\0\0\0\0\0\0\0\x01\
\0\0\0\0\0\0\0\x08\0\0\0\0\0\0\0\x01\0\0\0\0\0\0\0\x01\0\0\0\0\0\0\0\x07\
\0\0\0\0\0\0\0\x01\
\0\0\0\0\0\0\0\x01\0\0\0\0\0\0\0\x02\0\0\0\0\0\0\0\x07\
\xb2\x1e\xea\xee\
\0\0\0\0\0\0\0\x07\0\0\0\0\0\0\0\x01\0\0\0\0\0\0\0\x01\
\0\0\0\0\0\0\0\0\0\0\0\0\0\0\0\0\0\0\0\0\0\0\0\x05\
\xd8\x97\x2f\x19";

/// The most bytes of a snapshot that is read.
const MAX_BYTES: u64 = 1_000_000;

/// A file of the folder that the program runs in.
const PATH: &str = "refuse_growths.snap";

/// Reads a snapshot, writes it again, and saves and loads it.
pub fn run(rt: &(impl Files + Print), alloc: Global) -> Result<(), Stop> {
    let first = pieces(alloc, BYTES, 50)?;
    let Ok(second) = pieces(alloc, BYTES, 50) else {
        drop(first);
        return Err(Stop::SetUp);
    };
    let snapshot = read_at_last(rt, alloc, first, second)?;
    let told = run_example(rt, alloc, &snapshot);
    drop(snapshot);
    told
}

fn run_example(rt: &(impl Files + Print), alloc: Global, snapshot: &Snapshot) -> Result<(), Stop> {
    let (folded, batches) = (snapshot.list.folded.len(), snapshot.list.batches.len());
    tell(
        rt,
        &[("read folded", folded as u64), ("batches", batches as u64)],
    );
    write_at_last(rt, alloc, snapshot)?;
    save_at_last(rt, alloc, snapshot)?;
    load_at_last(rt, alloc)?;
    fs::remove_file(rt, PATH).map_err(|_| Stop::Fault)
}

fn read_from(alloc: Global, list: Vec<Vec<u8>>) -> Result<Snapshot, SnapFault> {
    let mut link = Script::new(alloc, list, None, None);
    let answer = read_snapshot(alloc, &mut link, MAX_BYTES);
    drop(link);
    answer
}

// Reads a snapshot from the first of two lists of pieces, and where memory was refused from the second.
fn read_at_last(
    rt: &impl Print,
    alloc: Global,
    first: Vec<Vec<u8>>,
    second: Vec<Vec<u8>>,
) -> Result<Snapshot, Stop> {
    match read_from(alloc, first) {
        Ok(snapshot) => {
            drop(second);
            Ok(snapshot)
        }
        Err(SnapFault::Memory) => {
            say(rt, "read refused");
            read_from(alloc, second).map_err(|_| Stop::Fault)
        }
        Err(_) => {
            drop(second);
            Err(Stop::Fault)
        }
    }
}

fn written(link: &mut Script, snapshot: &Snapshot) -> Result<(), WriteFault>
    requires { link.old.failures + 1 < 2 ^ 64 }
{
    // Any use of it tells what it keeps.
    let list = &snapshot.list;
    write_snapshot(link, snapshot.origin, &snapshot.setup, list)
}

// Writes a snapshot to a link that keeps it in memory, and where that was refused to another.
fn write_at_last(rt: &impl Print, alloc: Global, snapshot: &Snapshot) -> Result<(), Stop> {
    let mut link = Script::new(alloc, Vec::new(alloc), None, None);
    let mut again = Script::new(alloc, Vec::new(alloc), None, None);
    if let Err(fault) = written(&mut link, snapshot) {
        tell(
            rt,
            &[(
                "write refused behind bytes",
                u64::try_from(fault.written).unwrap_or(u64::MAX),
            )],
        );
        show_link(rt, &link);
        drop(link);
        if written(&mut again, snapshot).is_err() {
            drop(again);
            return Err(Stop::Fault);
        }
        link = again;
    } else {
        drop(again);
    }
    show_link(rt, &link);
    drop(link);
    Ok(())
}

fn show_link(rt: &impl Print, link: &Script) {
    let is_whole = link.written() == BYTES;
    let words = if is_whole {
        "written whole, bytes"
    } else {
        "written in part, bytes"
    };
    tell(rt, &[(words, link.written().len() as u64)]);
}

fn saved(rt: &(impl Files + Print), alloc: Global, snapshot: &Snapshot) -> Result<(), SaveFault> {
    // Any use of it tells what it keeps.
    let list = &snapshot.list;
    save(rt, alloc, PATH, snapshot.origin, &snapshot.setup, list)
}

fn save_at_last(rt: &(impl Files + Print), alloc: Global, snapshot: &Snapshot) -> Result<(), Stop> {
    if let Err(fault) = saved(rt, alloc, snapshot) {
        let _ = println!(rt; "save refused: {fault}");
        if saved(rt, alloc, snapshot).is_err() {
            return Err(Stop::Fault);
        }
    }
    say(rt, "saved");
    Ok(())
}

// How many batches are loaded, and how many behind the folded ones.
fn loaded(rt: &impl Files, alloc: Global) -> Result<(usize, usize), FileFault> {
    let snapshot = load(rt, alloc, PATH, MAX_BYTES)?;
    let lens = (snapshot.list.folded.len(), snapshot.list.batches.len());
    drop(snapshot);
    Ok(lens)
}

fn load_at_last(rt: &(impl Files + Print), alloc: Global) -> Result<(), Stop> {
    let mut answer = loaded(rt, alloc);
    if answer == Err(FileFault::Memory) {
        say(rt, "load refused");
        answer = loaded(rt, alloc);
    }
    match answer {
        Ok((folded, batches)) => {
            tell(
                rt,
                &[
                    ("loaded folded", folded as u64),
                    ("batches", batches as u64),
                ],
            );
            Ok(())
        }
        Err(_) => Err(Stop::Fault),
    }
}
