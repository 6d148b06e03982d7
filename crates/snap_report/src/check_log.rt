//! `check` with a log: reads a snapshot and a log, and writes two lines that say what both hold together.
ghost use Rattle.std.specs.Prelude.{◌≡◌, ℕ, ◌+◌, ◌<◌, ◌≤◌, ◌^◌, ◌⊎◌, ◌++◌, [], Err, length, OnOk, IfOk, IfErr};
ghost use Rattle.arrayvec.specs.ArrayString.{array_string_len};
ghost use Rattle.byte_io.specs.Writing.{HasTaken, HasStopped};
ghost use Rattle.byte_io.specs.declared.fault.WriteFault.{WriteFault};
ghost use Rattle.batch_store.specs.Setups.{IsSetting};
ghost use Rattle.batch_store.specs.Accepted.{unfolded};
ghost use Rattle.batch_store.specs.Batches.{values};
ghost use Rattle.batch_store.specs.Books.{Listing, listed_in};
ghost use Rattle.log_batches.specs.Payloads.{block_of};
ghost use Rattle.log_read.specs.Logs.{batches_in, pages_in};
ghost use Rattle.snap_report.specs.Checks.{LeavesOutput};
ghost use Rattle.snap_report.specs.Kept.{most_bytes};
ghost use Rattle.snap_report.specs.Logged.{AreJoined, Checked, HasFound, HasJoined, IsJoinTold, IsKnown, IsLogTold, IsRead};
ghost use Rattle.snap_report.specs.Logged.{IsUnread, both_lines, log_line};

use crate::check::{LINE_CAPACITY, line_of_list, push_number, write_line};
use crate::fault::CheckFault;
use crate::kept_log::KeptLog;
use crate::limits::{LOG_BYTES, SNAPSHOT_BYTES};
use arrayvec::ArrayString;
use batch_store::{BookList, Pieces, Setup};
use byte_io::Sink;
use hyper_matrix::Hyper;
use log_batches::block_pages;
use log_head::LogHead;
use log_join::join_log;
use log_read::{Block, LogFile, all_batches};
use snap_file::{FileFault, Origin, Snapshot, SnapshotFile};
use std::alloc::{AllocError, Global};

// A list of a book that has accepted nothing.
fn empty_list(alloc: Global, setup: &Setup) -> Result<BookList, AllocError>
    ensures empty { IfOk result (λ list. list ≡ listed_in setup.now (unfolded [])) }
    ensures sound { IsSetting setup.now }
{
    let base = Hyper::new(alloc, setup.rows(), setup.cols());
    Ok(BookList {
        base: Pieces::one(alloc, &base)?,
        folded: Vec::new(alloc),
        batches: Vec::new(alloc),
    })
}

// The snapshot in a file, None where there is no file.
pub(crate) fn load_if_any<F: SnapshotFile>(
    alloc: Global,
    file: &mut F,
) -> Result<Option<Snapshot>, CheckFault>
    ensures ok { IfOk result (λ found. HasFound F.load_gives file.old file.new found) }
    ensures err { IfErr result (λ fault. IsUnread F.load_gives file.old file.new fault) }
{
    match file.load(alloc, SNAPSHOT_BYTES) {
        Ok(snapshot) => Ok(Some(snapshot)),
        Err(FileFault::NotFound) => Ok(None),
        Err(fault) => Err(CheckFault::from(fault)),
    }
}

// What is known beside a log: the snapshot, or where there is none an empty one of the log's setup.
pub(crate) fn known_beside(
    alloc: Global,
    found: Option<Snapshot>,
    head: &LogHead,
) -> Result<Snapshot, AllocError>
    ensures { IfOk result (λ known. IsKnown found head.now known) }
{
    match found {
        Some(snapshot) => Ok(snapshot),
        None => {
            let list = empty_list(alloc, &head.setup)?;
            Ok(Snapshot {
                origin: Origin {
                    identity: head.identity,
                    has_log: true,
                },
                setup: head.setup,
                list,
            })
        }
    }
}

// How many pages a block has.
fn pages_of_one(block: &Block) -> u64
    requires { length (block_of (values block.now.batches.items)) < 2 ^ 50 }
    ensures { result ≡ length (block_of (values block.now.batches.items)) }
{
    block_pages(&block.batches)
}

// How many pages the blocks of a log have.
fn pages_of(blocks: &[Block]) -> u64
    requires { pages_in blocks.now < 2 ^ 50 }
    ensures { result ≡ pages_in blocks.now }
{
    let mut pages = 0;
    for block in blocks {
        pages += pages_of_one(block);
    }
    pages
}

// Appends the line of a log with so many batches.
#[tactic(auto, using(crate::proofs::LoggedLemmas::parts_behind))]
fn push_log(line: &mut ArrayString<LINE_CAPACITY>, logged: &LogFile, batches: u64)
    requires room { array_string_len line.old ≤ 165 }
    requires pages { pages_in logged.now.blocks.items < 2 ^ 50 }
    requires batches { batches ≡ length (batches_in logged.now.blocks.items) }
    ensures { line.new.bytes ≡ line.old.bytes ++ log_line logged.now }
{
    let pages = 1 + pages_of(&logged.blocks);
    push_number(line, "log first ", logged.head.first);
    push_number(line, " batches ", batches);
    push_number(line, " pages ", pages);
    push_number(line, " rest ", logged.rest);
    line.push_str("\n");
}

// The lines of a snapshot and a log.
fn lines_of(
    alloc: Global,
    known: Snapshot,
    logged: &LogFile,
) -> Result<ArrayString<LINE_CAPACITY>, CheckFault>
    requires { IsRead most_bytes logged.now }
    ensures ok { IfOk result (λ line. (list : Listing)
        × AreJoined known logged.now list
        × (line.bytes ≡ both_lines known.setup list logged.now)) }
    ensures err { IfErr result (λ fault. IsJoinTold known logged.now fault) }
{
    let Snapshot {
        origin,
        setup,
        list,
    } = known;
    let batches = all_batches(alloc, &logged.blocks)?;
    let both = join_log(
        alloc,
        &setup,
        &origin.identity,
        list,
        &logged.head,
        &batches,
    )?;
    let mut line = line_of_list(alloc, &setup, &both)?;
    push_log(&mut line, logged, batches.len() as u64);
    Ok(line)
}

/// Reads the snapshot in a file and then the log in another, and writes two lines: that of `run_check` for the list of
/// both, which is the snapshot's with the log's batches behind it; and `log first F batches N pages P rest R`, where F
/// is the place of the log's first batch, N the number of its batches, P that of its whole pages with the head, and R
/// that of the pages behind them that aren't empty. Where there is no snapshot, the list is the log's alone.
///
/// Takes the memory of `run_check` for the list of both, and that of `read_log`; the list shares the log's batches.
///
/// # Errors
///
/// In this order: `File` where the snapshot's file can't be opened or read, or is no snapshot; `Log` where there is no
/// file of a log, where it can't be opened or read, or where it is no log; `LogDiffers` and `Join` where the two don't
/// belong together; and `Output` where the lines could not be written. `Memory` at any step. Only `Output` leaves
/// anything written.
pub fn run_check_with_log<F: SnapshotFile, L: KeptLog, W: Sink>(
    alloc: Global,
    file: &mut F,
    log: &mut L,
    w: &mut W,
) -> Result<(), CheckFault>
    requires { W.failure_count w.old + 1 < 2 ^ 64 }
    // One load is made of the snapshot's file, and then one reading of the log's. What was written is the lines of what
    // they have answered.
    ensures ok { OnOk result ((x : Checked)
        × HasJoined F.load_gives L.read_gives file.old file.new log.old log.new x
        × HasTaken W.write_takes W.failure_count w.old w.new (both_lines x.known.setup x.list x.log)) }
    ensures output { (fault : WriteFault) → result ≡ Err (CheckFault.Output fault) → (x : Checked)
        × HasJoined F.load_gives L.read_gives file.old file.new log.old log.new x
        × HasStopped W.write_takes W.failure_count w.old w.new (both_lines x.known.setup x.list x.log) fault.written }
    ensures told { IfErr result (λ fault.
        IsLogTold F.load_gives L.read_gives file.old file.new log.old log.new fault) }
    ensures unwritten { IfErr result (λ fault. LeavesOutput fault ⊎ (w.new ≡ w.old)) }
{
    let found = load_if_any(alloc, file)?;
    let logged = log.read(alloc, LOG_BYTES)?;
    let known = known_beside(alloc, found, &logged.head)?;
    let lines = lines_of(alloc, known, &logged)?;
    write_line(w, &lines)
}
