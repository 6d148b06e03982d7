//! `has`: reads a snapshot, and says whether the batch of a client with a number is in it.
ghost use Rattle.std.specs.Prelude.{◌≡◌, ◌+◌, ◌<◌, ◌^◌, ◌↔◌, ◌⊎◌, None, Option, Err, IsTrue, IfSome, IfOk, IfErr};
ghost use Rattle.byte_io.specs.Writing.{HasTaken, HasStopped};
ghost use Rattle.byte_io.specs.declared.fault.WriteFault.{WriteFault};
ghost use Rattle.batch_store.specs.Books.{accepted_in};
ghost use Rattle.snap_file.specs.Snapshots.{Saved};
ghost use Rattle.snap_report.specs.Checks.{LeavesOutput};
ghost use Rattle.snap_report.specs.Kept.{HasLoaded, IsReadTold, ComesLater};
ghost use Rattle.snap_roll.specs.Has.{IsAt, IsSaid, found_line, has_line};

use crate::entries::{count_of, entry_at};
use crate::words::{LINE_CAPACITY, push_number, write_line};
use arrayvec::ArrayString;
use batch_store::{BookList, Entry};
use byte_io::Sink;
use snap_file::SnapshotFile;
use snap_report::{CheckFault, SNAPSHOT_BYTES};
use std::alloc::Global;

/// A batch of a snapshot: its index, counted from 0 over all batches, and its entry.
#[derive(Clone, Copy, Debug, PartialEq, Eq)]
pub struct Found {
    pub index: u64,
    pub entry: Entry,
}

// Whether an entry is of this client and has this number.
fn is_named(entry: &Entry, client: u64, number: u64) -> bool
    ensures { IsTrue result ↔ ((entry.now.client ≡ client) × (entry.now.number ≡ number)) }
{
    entry.client == client && entry.number == number
}

// The batch at an index, if it is of this client and has this number.
fn found_at(list: &BookList, at: usize, client: u64, number: u64) -> Option<Found>
    ensures some { IfSome result (IsAt (accepted_in list.now) client number) }
    ensures none { result ≡ None → (found : Found) → found.index ≡ at →
        IsAt (accepted_in list.now) client number found → ⊥ }
{
    let Some(entry) = entry_at(list, at) else {
        return None;
    };
    if !is_named(&entry, client, number) {
        return None;
    }
    Some(Found {
        index: at as u64,
        entry,
    })
}

/// The batch of a client with a number, if a list has it. One look at each entry.
pub fn find(list: &BookList, client: u64, number: u64) -> Option<Found>
    ensures { IsSaid (accepted_in list.now) client number result }
{
    'entries: for at in 0..count_of(list) {
        if let Some(found) = found_at(list, at, client, number) {
            return Some(found);
        }
    }
    None
}

// The line of a batch.
fn found_line(found: &Found) -> ArrayString<LINE_CAPACITY>
    ensures { result.bytes ≡ found_line found.now }
{
    let mut line = ArrayString::new();
    push_number(&mut line, "index ", found.index);
    push_number(&mut line, " cells ", found.entry.cells);
    push_number(&mut line, " total ", found.entry.total);
    line.push_str("\n");
    line
}

// The line where there is no batch.
fn none_line() -> ArrayString<LINE_CAPACITY>
    ensures { result.bytes ≡ has_line None }
{
    let mut line = ArrayString::new();
    line.push_str("none\n");
    line
}

// The line of what was found.
fn line_of(found: &Option<Found>) -> ArrayString<LINE_CAPACITY>
    ensures { result.bytes ≡ has_line found.now }
{
    match found {
        Some(found) => found_line(found),
        None => none_line(),
    }
}

// Looks for the batch of a client with a number in a list, and writes the line.
fn write_found<W: Sink>(
    w: &mut W,
    list: &BookList,
    client: u64,
    number: u64,
) -> Result<Option<Found>, CheckFault>
    requires { W.failure_count w.old + 1 < 2 ^ 64 }
    ensures ok { IfOk result (λ found. IsSaid (accepted_in list.now) client number found
        × HasTaken W.write_takes W.failure_count w.old w.new (has_line found)) }
    ensures output { (fault : WriteFault) → result ≡ Err (CheckFault.Output fault) →
        (found : Option Found) × IsSaid (accepted_in list.now) client number found
        × HasStopped W.write_takes W.failure_count w.old w.new (has_line found) fault.written }
    ensures only { IfErr result LeavesOutput }
    ensures later { IfErr result ComesLater }
{
    let found = find(list, client, number);
    let line = line_of(&found);
    match write_line(w, &line) {
        Ok(()) => Ok(found),
        Err(fault) => Err(CheckFault::Output(fault)),
    }
}

/// Reads the snapshot in a file, writes the line `index I cells C total T` of the batch of a client with a number, or
/// `none` where the snapshot has no such batch, and gives what was found. A folded batch is found too: its entry stays.
///
/// Takes the memory of the list, and one look at each entry.
///
/// # Errors
///
/// Those of `run_check`: `File` where there is no such file, where it can't be opened or read, or where it is no
/// snapshot; `Memory`; and `Output` where the line could not be written whole. Only `Output` leaves anything written.
pub fn run_has<F: SnapshotFile, W: Sink>(
    alloc: Global,
    file: &mut F,
    w: &mut W,
    client: u64,
    number: u64,
) -> Result<Option<Found>, CheckFault>
    requires { W.failure_count w.old + 1 < 2 ^ 64 }
    // One load is made of the file, and no save. What was written is the line of what the snapshot that it has answered
    // has.
    ensures ok { IfOk result (λ found. (x : Saved) × HasLoaded F.load_gives file.old file.new x
        × IsSaid (accepted_in x.list) client number found
        × HasTaken W.write_takes W.failure_count w.old w.new (has_line found)) }
    ensures output { (fault : WriteFault) → result ≡ Err (CheckFault.Output fault) →
        (x : Saved) × (found : Option Found) × HasLoaded F.load_gives file.old file.new x
        × IsSaid (accepted_in x.list) client number found
        × HasStopped W.write_takes W.failure_count w.old w.new (has_line found) fault.written }
    ensures told { IfErr result (λ fault. IsReadTold F.load_gives file.old file.new fault) }
    ensures unwritten { IfErr result (λ fault. LeavesOutput fault ⊎ (w.new ≡ w.old)) }
{
    let snapshot = file.load(alloc, SNAPSHOT_BYTES)?;
    write_found(w, &snapshot.list, client, number)
}
