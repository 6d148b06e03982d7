//! `fork`: reads a snapshot, or a snapshot and a log, and makes a new snapshot of another book of what they have.
ghost use Rattle.std.specs.Prelude.{◌≡◌, ◌⊎◌, ◌+◌, ◌<◌, ◌^◌, IfOk, OnOk, IfErr};
ghost use Rattle.byte_io.specs.Writing.{HasTaken};
ghost use Rattle.batch_store.specs.Accepted.{count_in, total_in};
ghost use Rattle.batch_store.specs.Books.{AreAccepted, accepted_in};
ghost use Rattle.snap_file.specs.Origins.{no_window};
ghost use Rattle.snap_file.specs.Snapshots.{HasBase, Saved};
ghost use Rattle.snap_report.specs.Forks.{IsForked, fork_line};
ghost use Rattle.snap_report.specs.Kept.{HasLoaded};
ghost use Rattle.snap_report.specs.Logged.{Checked, HasJoined};
ghost use Rattle.snap_report.specs.Made.{LeavesMade};

use crate::fault::CheckFault;
use crate::kept_log::KeptLog;
use crate::limits::SNAPSHOT_BYTES;
use crate::making::{MakeFault, NewSnapshot, make_file, write_made};
use crate::pair::{both_lists, read_pair};
use batch_store::{BookList, Setup};
use byte_io::Sink;
use snap_file::{Identity, NO_WINDOW, Origin, Snapshot, SnapshotFile};
use std::alloc::Global;

// Refuses the snapshot of a window.
fn judge_window(origin: &Origin) -> Result<(), MakeFault>
    ensures ok { OnOk result (origin.now.identity.window ≡ no_window) }
    ensures err { IfErr result (λ f. f ≡ MakeFault.HasWindow) }
{
    if origin.identity.window == NO_WINDOW {
        Ok(())
    } else {
        Err(MakeFault::HasWindow)
    }
}

// Makes the new file of a book, of a setup and a list, and writes the line.
fn make_fork<N: NewSnapshot, W: Sink>(
    alloc: Global,
    book: Identity,
    setup: &Setup,
    list: &BookList,
    new: &mut N,
    w: &mut W,
) -> Result<(), MakeFault>
    requires failures { W.failure_count w.old + 1 < 2 ^ 64 }
    requires accepted { AreAccepted setup.now (accepted_in list.now) }
    requires based { HasBase setup.now list.now }
    ensures made { OnOk result (IsForked N.make_gives new.old new.new book setup.now (accepted_in list.now)) }
    ensures written { OnOk result (HasTaken W.write_takes W.failure_count w.old w.new
        (fork_line (count_in (accepted_in list.now)) (total_in (accepted_in list.now)))) }
    ensures later { IfErr result LeavesMade }
{
    let origin = Origin {
        identity: book,
        has_log: false,
    };
    make_file(alloc, origin, setup, list, new)?;
    write_made(w, "forked ", setup, list)
}

/// Reads the snapshot in a file, makes a new one of another book in a new file, which has all that it has, and writes
/// the line `forked B total T`: how many batches it has, and their total. The new one goes with no log. Answers whether a
/// log goes with the one that was read: then that alone may lack batches.
///
/// Takes the memory of the snapshot. Where a server may save to the file meanwhile, give a `LockedFile` that lives on.
///
/// # Errors
///
/// `Read` where the file can't be read, `HasWindow` where it is of a window, `Save` where the new file couldn't be made,
/// and `Output` where the line couldn't be written whole: the file is made then.
pub fn run_fork<F: SnapshotFile, N: NewSnapshot, W: Sink>(
    alloc: Global,
    file: &mut F,
    book: Identity,
    new: &mut N,
    w: &mut W,
) -> Result<bool, MakeFault>
    requires { W.failure_count w.old + 1 < 2 ^ 64 }
    // What was made is what the one load of the file has answered, of the other book.
    ensures made { IfOk result (λ has_log. (x : Saved) × HasLoaded F.load_gives file.old file.new x
        × (x.origin.identity.window ≡ no_window) × (has_log ≡ x.origin.has_log)
        × IsForked N.make_gives new.old new.new book x.setup (accepted_in x.list)
        × HasTaken W.write_takes W.failure_count w.old w.new
        (fork_line (count_in (accepted_in x.list)) (total_in (accepted_in x.list)))) }
    ensures unmade { IfErr result (λ fault. LeavesMade fault ⊎ ((new.new ≡ new.old) × (w.new ≡ w.old))) }
{
    let Snapshot {
        origin,
        setup,
        list,
    } = match file.load(alloc, SNAPSHOT_BYTES) {
        Ok(snapshot) => snapshot,
        Err(fault) => return Err(MakeFault::Read(CheckFault::from(fault))),
    };
    judge_window(&origin)?;
    make_fork(alloc, book, &setup, &list, new, w)?;
    Ok(origin.has_log)
}

/// The same of a snapshot and a log beside it, which are joined as a start joins them. Where there is no snapshot, what is
/// made has the log's batches alone.
///
/// # Errors
///
/// As `run_fork`; `Read` also where the log can't be read, or doesn't belong to the snapshot.
pub fn run_fork_with_log<F: SnapshotFile, L: KeptLog, N: NewSnapshot, W: Sink>(
    alloc: Global,
    file: &mut F,
    log: &mut L,
    book: Identity,
    new: &mut N,
    w: &mut W,
) -> Result<(), MakeFault>
    requires { W.failure_count w.old + 1 < 2 ^ 64 }
    ensures made { OnOk result ((x : Checked)
        × HasJoined F.load_gives L.read_gives file.old file.new log.old log.new x
        × (x.known.origin.identity.window ≡ no_window)
        × IsForked N.make_gives new.old new.new book x.known.setup (accepted_in x.list)
        × HasTaken W.write_takes W.failure_count w.old w.new
        (fork_line (count_in (accepted_in x.list)) (total_in (accepted_in x.list)))) }
    ensures unmade { IfErr result (λ fault. LeavesMade fault ⊎ ((new.new ≡ new.old) × (w.new ≡ w.old))) }
{
    let (known, logged) = read_pair(alloc, file, log)?;
    let Snapshot {
        origin,
        setup,
        list,
    } = known;
    judge_window(&origin)?;
    let both = both_lists(alloc, &setup, &origin, list, &logged)?;
    make_fork(alloc, book, &setup, &both, new, w)
}
