//! How room is made in a log.
ghost use Rattle.std.specs.Prelude.{◌≡◌, ◌≢◌, ℕ, ◌+◌, ◌≤◌, ◌++◌, List, true, false, Err, OnOk};
ghost use Rattle.batch_store.specs.Batches.{entries_of, values};

use crate::fault::{DeskFault, RoomFault};
use crate::log::Log;
use batch_store::Batch;
use std::sync::Arc;

/// How many pages are made ready beyond what is asked for: 16 MiB.
const STRETCH: u64 = 4096;

/// Makes so many pages ready, and a long stretch more where that is to be had.
///
/// # Errors
///
/// As `Log::make_room` says.
pub fn make_stretch<L: Log>(log: &mut L, wanted: u64) -> Result<(), RoomFault>
    requires working { L.failed log.old ≡ false }
    ensures working { result ≢ Err RoomFault.Failed → L.failed log.new ≡ false }
    ensures room { OnOk result (wanted ≤ L.ready log.new) }
    ensures kept { L.failed log.new ≡ false → L.ready log.old ≤ L.ready log.new }
    ensures durable { L.failed log.new ≡ false → L.durable log.new ≡ L.durable log.old }
    ensures named { (path : List ℕ) → L.has_name log.old path → L.has_name log.new path }
    ensures broken { result ≡ Err RoomFault.Failed → L.failed log.new ≡ true }
    ensures told { result ≡ Err RoomFault.Failed → L.has_failed }
    ensures full { result ≡ Err RoomFault.Full → L.was_full }
{
    match log.make_room(wanted.saturating_add(STRETCH)) {
        Err(RoomFault::Full) => log.make_room(wanted),
        answer => answer,
    }
}

// Makes so many pages ready, where fewer are.
fn make_ready<L: Log>(log: &mut L, pages: u64) -> Result<(), RoomFault>
    requires working { L.failed log.old ≡ false }
    ensures working { result ≢ Err RoomFault.Failed → L.failed log.new ≡ false }
    ensures room { OnOk result (pages ≤ L.ready log.new) }
    ensures kept { L.failed log.new ≡ false → L.ready log.old ≤ L.ready log.new }
    ensures durable { L.failed log.new ≡ false → L.durable log.new ≡ L.durable log.old }
    ensures named { (path : List ℕ) → L.has_name log.old path → L.has_name log.new path }
    ensures broken { result ≡ Err RoomFault.Failed → L.failed log.new ≡ true }
    ensures told { result ≡ Err RoomFault.Failed → L.has_failed }
    ensures full { result ≡ Err RoomFault.Full → L.was_full }
{
    if log.room() >= pages {
        return Ok(());
    }
    log.make_room(pages)
}

/// Writes a block of these batches, for which room was promised.
///
/// # Errors
///
/// `LogFailed`: the log has failed. `LogFull`: there is no room for the block, to which promises don't lead.
pub fn write_block<L: Log>(log: &mut L, batches: &[Arc<Batch>]) -> Result<(), DeskFault>
    requires working { L.failed log.old ≡ false }
    ensures working { result ≢ Err DeskFault.LogFailed → L.failed log.new ≡ false }
    ensures durable { OnOk result (L.durable log.new ≡ L.durable log.old ++ entries_of (values batches.now)) }
    ensures synced { OnOk result (L.was_synced (L.durable log.new)) }
    ensures room { OnOk result (L.ready log.old ≤ L.ready log.new + L.takes (values batches.now)) }
    ensures named { (path : List ℕ) → L.has_name log.old path → L.has_name log.new path }
    ensures kept { result ≡ Err DeskFault.LogFull → L.durable log.new ≡ L.durable log.old }
    ensures room_kept { result ≡ Err DeskFault.LogFull → L.ready log.old ≤ L.ready log.new }
    ensures broken { result ≡ Err DeskFault.LogFailed → L.failed log.new ≡ true }
    ensures told { result ≡ Err DeskFault.LogFailed → L.has_failed }
    ensures full { result ≡ Err DeskFault.LogFull → L.was_full }
    ensures belong { (none : _) → result ≢ Err (DeskFault.HistoriesDiffer none) }
{
    match make_ready(log, L::pages_of(batches)) {
        Ok(()) => {}
        Err(RoomFault::Full) => return Err(DeskFault::LogFull),
        Err(RoomFault::Failed) => return Err(DeskFault::LogFailed),
    }
    if log.append(batches).is_err() {
        return Err(DeskFault::LogFailed);
    }
    Ok(())
}
