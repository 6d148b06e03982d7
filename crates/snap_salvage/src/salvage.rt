//! `salvage`: makes a new snapshot of what a snapshot and the front of a log have.
ghost use Rattle.std.specs.Prelude.{◌≡◌, ◌⊎◌, ◌+◌, ◌<◌, ◌^◌, IfOk, OnOk, IfErr};
ghost use Rattle.byte_io.specs.Writing.{HasStopped, HasTaken};
ghost use Rattle.byte_io.specs.declared.fault.WriteFault.{WriteFault};
ghost use Rattle.batch_store.specs.Accepted.{count_in, total_in};
ghost use Rattle.batch_store.specs.Books.{AreAccepted, accepted_in};
ghost use Rattle.snap_file.specs.Snapshots.{Saved};
ghost use Rattle.snap_report.specs.Logged.{HasFound};
ghost use Rattle.snap_report.specs.Made.{IsMade};
ghost use Rattle.snap_salvage.specs.Lines.{salvage_line};
ghost use Rattle.snap_salvage.specs.Salvages.{HasCounted, HasSalvaged, salvage_origin};
ghost use Rattle.snap_salvage.specs.Reported.{IsMadeReported, IsMakeReported, IsSnapshotUnread, IsUncounted, IsUnmade};
ghost use Rattle.snap_salvage.specs.declared.salvage_end.SalvageEnd.{SalvageEnd};
ghost use Rattle.snap_salvage.specs.declared.left.Left.{Left};

use crate::front::find_front;
use crate::joining::{Salvage, join_front};
use crate::left::Left;
use crate::line::line_of;
use crate::salvage_end::SalvageEnd;
use crate::torn_log::TornLog;
use batch_store::{BookList, Setup};
use byte_io::{Sink, write_all};
use snap_file::{FileFault, Identity, NO_WINDOW, Origin, Snapshot, SnapshotFile};
use snap_report::{CheckFault, MakeFault, NewSnapshot, SNAPSHOT_BYTES, total_of_list};
use std::alloc::Global;

// The snapshot in a file, None where there is no file.
fn load_if_any<F: SnapshotFile>(alloc: Global, file: &mut F) -> Result<Option<Snapshot>, CheckFault>
    ensures ok { IfOk result (HasFound F.load_gives file.old file.new) }
    ensures err { IfErr result (IsSnapshotUnread F.load_gives file.old file.new) }
{
    match file.load(alloc, SNAPSHOT_BYTES) {
        Ok(snapshot) => Ok(Some(snapshot)),
        Err(FileFault::NotFound) => Ok(None),
        Err(fault) => Err(CheckFault::from(fault)),
    }
}

// Counts what the log has after what is salvaged.
fn count_left<L: TornLog>(
    alloc: Global,
    log: &mut L,
    end: SalvageEnd,
    from: u64,
) -> Result<Left, CheckFault>
    requires { from < 2 ^ 50 }
    ensures ok { IfOk result (HasCounted L.left_gives log.old log.new end from) }
    ensures err { IfErr result (IsUncounted L.left_gives log.old log.new from) }
{
    match end {
        SalvageEnd::Whole => Ok(Left::none()),
        SalvageEnd::Fault(_) | SalvageEnd::Gap(_) => {
            let left = log.count_left(alloc, from)?;
            Ok(left)
        }
    }
}

// Whose the new file is.
fn origin_of(book: Identity, found: &Origin) -> Origin
    ensures { result ≡ salvage_origin book found.now }
{
    Origin {
        identity: if found.identity.window == NO_WINDOW {
            book
        } else {
            found.identity
        },
        has_log: false,
    }
}

// How many batches a list has, folded or not.
fn count_of(list: &BookList) -> u64
    ensures { result ≡ count_in (accepted_in list.now) }
{
    list.folded.len() as u64 + list.batches.len() as u64
}

// The total of a list.
fn total_of(setup: &Setup, list: &BookList) -> u64
    requires { AreAccepted setup.now (accepted_in list.now) }
    ensures { result ≡ total_in (accepted_in list.now) }
{
    total_of_list(setup, list)
}

// Writes the line of a list that a file was made of.
fn write_salvaged<W: Sink>(
    w: &mut W,
    setup: &Setup,
    list: &BookList,
    end: SalvageEnd,
    left: &Left,
) -> Result<(), MakeFault>
    requires failures { W.failure_count w.old + 1 < 2 ^ 64 }
    requires accepted { AreAccepted setup.now (accepted_in list.now) }
    ensures written { OnOk result (HasTaken W.write_takes W.failure_count w.old w.new
        (salvage_line (count_in (accepted_in list.now)) (total_in (accepted_in list.now)) end left.now)) }
    ensures reported { IfErr result (λ f. (fault : WriteFault) × (f ≡ MakeFault.Output fault)
        × HasStopped W.write_takes W.failure_count w.old w.new
        (salvage_line (count_in (accepted_in list.now)) (total_in (accepted_in list.now)) end left.now) fault.written) }
{
    let line = line_of(count_of(list), total_of(setup, list), end, left);
    match write_all(w, line.as_str().as_bytes()) {
        Ok(()) => Ok(()),
        Err(fault) => Err(MakeFault::Output(fault)),
    }
}

// Makes the file of what is salvaged, and writes the line.
fn make_salvaged<N: NewSnapshot, W: Sink>(
    alloc: Global,
    book: Identity,
    salvage: Salvage,
    left: &Left,
    new: &mut N,
    w: &mut W,
) -> Result<(), MakeFault>
    requires { W.failure_count w.old + 1 < 2 ^ 64 }
    ensures made { OnOk result (IsMade N.make_gives new.old new.new
        (salvage_origin book salvage.snapshot.origin) salvage.snapshot.setup (accepted_in salvage.snapshot.list)) }
    ensures written { OnOk result (HasTaken W.write_takes W.failure_count w.old w.new
        (salvage_line (count_in (accepted_in salvage.snapshot.list)) (total_in (accepted_in salvage.snapshot.list))
        salvage.end left.now)) }
    ensures reported { IfErr result (IsMakeReported N.make_gives W.write_takes W.failure_count new.old new.new w.old w.new
        (salvage_origin book salvage.snapshot.origin) salvage.snapshot.setup (accepted_in salvage.snapshot.list)
        (salvage_line (count_in (accepted_in salvage.snapshot.list)) (total_in (accepted_in salvage.snapshot.list))
        salvage.end left.now)) }
{
    let Salvage {
        snapshot,
        end,
        from: _,
    } = salvage;
    let Snapshot {
        origin,
        setup,
        list,
    } = snapshot;
    match new.make(alloc, origin_of(book, &origin), &setup, &list) {
        Ok(()) => write_salvaged(w, &setup, &list, end, left),
        Err(fault) => Err(MakeFault::Save(fault)),
    }
}

/// Reads the snapshot in a file, if one is there, and then the front of a log; makes a new snapshot in a new file of
/// what both have, as a start joins them, and writes the line `salvaged B total T until END`.
///
/// B is how many batches the new one has, and T their total. END is `the end` where nothing is wrong with the log. Else
/// it is the fault that ends the front, as a start reports it, or `Gap at batch F` where the log begins after the end of
/// the snapshot, which is all that is salvaged then. After that comes `pages Q whole W batches N`: how many pages that
/// aren't empty the log has after what is salvaged, how many of them are whole, and how many batches these claim.
///
/// The new one is of another book, but where the files say a window, and no log goes with it. Nothing of the files that
/// are read is changed. The log is read up to three times: hold its lock.
///
/// Takes the memory of the snapshot and of the log's batches, and that of `join_beside`.
///
/// # Errors
///
/// `Read` where the snapshot or the log can't be read, where the two don't belong together, or where there is no
/// snapshot and the log has no head or doesn't begin with the first batch; `Save` where the new file couldn't be made;
/// and `Output` where the line couldn't be written whole: the file is made then.
pub fn run_salvage<F: SnapshotFile, L: TornLog, N: NewSnapshot, W: Sink>(
    alloc: Global,
    file: &mut F,
    log: &mut L,
    book: Identity,
    new: &mut N,
    w: &mut W,
) -> Result<(), MakeFault>
    requires { W.failure_count w.old + 1 < 2 ^ 64 }
    // What was made is what the load of the snapshot's file and the front of the log have together, and the line says
    // what ends it, and what the count has answered.
    ensures made { OnOk result ((x : Saved) × ((end : SalvageEnd) × ((left : Left)
        × HasSalvaged F.load_gives L.read_gives L.front_gives L.left_gives file.old file.new log.old log.new x end left
        × IsMade N.make_gives new.old new.new (salvage_origin book x.origin) x.setup (accepted_in x.list)
        × HasTaken W.write_takes W.failure_count w.old w.new
        (salvage_line (count_in (accepted_in x.list)) (total_in (accepted_in x.list)) end left)))) }
    // A fault of the reading is what these calls have answered, or that the two don't belong together, and then nothing
    // was made or written. One of the making, or of the line, is what comes of it.
    ensures reported { IfErr result (λ fault.
        IsUnmade F.load_gives L.read_gives L.front_gives L.left_gives file.old file.new log.old log.new new.old new.new
        w.old w.new fault
        ⊎ IsMadeReported F.load_gives L.read_gives L.front_gives L.left_gives N.make_gives W.write_takes W.failure_count
        file.old file.new log.old log.new new.old new.new w.old w.new book fault) }
{
    let found = load_if_any(alloc, file)?;
    let front = find_front(alloc, log)?;
    let salvage = join_front(alloc, found, &front)?;
    let left = count_left(alloc, log, salvage.end, salvage.from)?;
    make_salvaged(alloc, book, salvage, &left, new, w)
}
