//! A snapshot and the log beside it, as one who makes a snapshot of both reads them.
ghost use Rattle.std.specs.Prelude.{◌≡◌, IfErr, IfOk, OnOk};
ghost use Rattle.batch_store.specs.Books.{AreAccepted, accepted_in};
ghost use Rattle.log_join.specs.Joins.{Joins};
ghost use Rattle.log_read.specs.Logs.{batches_in};
ghost use Rattle.snap_file.specs.Origins.{IsOtherBook, origin, own};
ghost use Rattle.snap_file.specs.Snapshots.{HasBase, saved};
ghost use Rattle.snap_report.specs.Kept.{most_bytes};
ghost use Rattle.snap_report.specs.Logged.{HasRead, IsJoinOf, IsJoinTold, IsRead, IsUnjoined, is_open};
ghost use Rattle.snap_report.specs.Made.{IsLeft};

use crate::check_log::{known_beside, load_if_any};
use crate::fault::CheckFault;
use crate::kept_log::KeptLog;
use crate::limits::LOG_BYTES;
use batch_store::{BookList, Setup};
use log_join::join_log;
use log_read::{LogFile, all_batches};
use snap_file::{Identity, NO_WINDOW, Origin, Snapshot, SnapshotFile};
use std::alloc::Global;

/// Reads a snapshot, an empty one where there is none, and then the log beside it.
pub(crate) fn read_pair<F: SnapshotFile, L: KeptLog>(
    alloc: Global,
    file: &mut F,
    log: &mut L,
) -> Result<(Snapshot, LogFile), CheckFault>
    ensures read { IfOk result (λ r. HasRead F.load_gives L.read_gives file.old file.new log.old log.new r.0 r.1) }
    ensures log { IfOk result (λ r. IsRead most_bytes r.1) }
    ensures left { IsLeft F.load_gives file.old file.new }
{
    let found = load_if_any(alloc, file)?;
    let logged = log.read(alloc, LOG_BYTES)?;
    let known = known_beside(alloc, found, &logged.head)?;
    Ok((known, logged))
}

/// The list of a snapshot of this origin and a log.
pub(crate) fn both_lists(
    alloc: Global,
    setup: &Setup,
    origin: &Origin,
    known: BookList,
    logged: &LogFile,
) -> Result<BookList, CheckFault>
    requires accepted { AreAccepted setup.now (accepted_in known) }
    requires based { HasBase setup.now known }
    requires read { IsRead most_bytes logged.now }
    ensures book { OnOk result (IsOtherBook origin.now.identity logged.now.head.identity → ⊥) }
    ensures joined { IfOk result (Joins setup.now known logged.now.head (batches_in logged.now.blocks.items)) }
    ensures accepted { IfOk result (λ list. AreAccepted setup.now (accepted_in list)) }
    ensures based { IfOk result (λ list. HasBase setup.now list) }
    ensures err { IfErr result (IsJoinTold (saved origin.now setup.now known) logged.now) }
{
    let batches = all_batches(alloc, &logged.blocks)?;
    let both = join_log(
        alloc,
        setup,
        &origin.identity,
        known,
        &logged.head,
        &batches,
    )?;
    Ok(both)
}

// Whether a log still goes with a snapshot and its log: only where they are of a window that isn't closed.
fn is_open(known: &Origin) -> bool
    ensures { result ≡ is_open known.now }
{
    known.has_log && known.identity.window < NO_WINDOW
}

// Whose a snapshot and the log beside it are together.
fn origin_of_whole(known: &Origin, found: Identity) -> Origin
    ensures { result ≡ origin (own known.now.identity found known.now.identity) (is_open known.now) }
{
    Origin {
        identity: known.identity.or_else(found, known.identity),
        has_log: is_open(known),
    }
}

/// What a snapshot and the log beside it have together, as a start joins them, and where there is no snapshot what the
/// log has. It is of the book that is known of the two. It has all batches of the log, so no log goes with it, unless
/// it is of a window that isn't closed.
///
/// Takes the memory and the time of `join_log`; the batches are shared.
///
/// # Errors
///
/// `LogDiffers` and `Join` where the two don't belong together, and `Memory`.
pub fn join_beside(
    alloc: Global,
    found: Option<Snapshot>,
    logged: &LogFile,
) -> Result<Snapshot, CheckFault>
    requires { IsRead most_bytes logged.now }
    ensures ok { IfOk result (IsJoinOf found logged.now) }
    ensures err { IfErr result (IsUnjoined found logged.now) }
{
    let known = known_beside(alloc, found, &logged.head)?;
    let Snapshot {
        origin,
        setup,
        list,
    } = known;
    let both = both_lists(alloc, &setup, &origin, list, logged)?;
    Ok(Snapshot {
        origin: origin_of_whole(&origin, logged.head.identity),
        setup,
        list: both,
    })
}
