//! Finds the front of a log.
ghost use Rattle.std.specs.Prelude.{◌≡◌, true, IfOk, IfErr};
ghost use Rattle.snap_salvage.specs.Found.{HasFault, HasFront, IsFrontRead, IsWrong};
ghost use Rattle.snap_salvage.specs.Reported.{IsFrontUnread};
ghost use Rattle.snap_salvage.specs.declared.front.Front.{Front};

use crate::count::MOST_PAGES;
use crate::torn_log::TornLog;
use log_blocks::{LogFault, LogKind};
use log_read::LogFile;
use snap_report::{CheckFault, LOG_BYTES, LogFileFault};
use std::alloc::Global;

/// The front of a log.
#[derive(Drop)]
pub enum Front {
    /// All of the log: it has no fault.
    Whole(LogFile),
    /// What the pages before that of the fault hold.
    Before(LogFile, LogFault),
    /// Nothing: the page of the head has this fault.
    Headless(LogFault),
}

// Whether a fault is one of the bytes, and not of the reading of them.
fn is_wrong(kind: LogKind) -> bool
    ensures { result ≡ true → IsWrong kind }
{
    match kind {
        LogKind::Read | LogKind::Memory | LogKind::TooLong => false,
        LogKind::Truncated
        | LogKind::BadMark
        | LogKind::BadVersion
        | LogKind::BadHead
        | LogKind::HeadCheck
        | LogKind::Damaged
        | LogKind::BadBlock => true,
    }
}

// What the pages before that of a fault hold.
fn read_before<L: TornLog>(alloc: Global, log: &mut L, fault: LogFault) -> Result<Front, CheckFault>
    ensures front { IfOk result (λ front. (u : L) → HasFault L.read_gives u log.old fault →
        HasFront L.read_gives L.front_gives u log.new front) }
    ensures read { IfOk result IsFrontRead }
    ensures reported { IfErr result (λ reported. (u : L) → HasFault L.read_gives u log.old fault →
        IsFrontUnread L.read_gives L.front_gives u log.new reported) }
{
    if fault.page == 0 {
        return Ok(Front::Headless(fault));
    }
    if fault.page > MOST_PAGES {
        return Err(CheckFault::from(LogFileFault::Log(fault)));
    }
    let file = log.read_front(alloc, fault.page)?;
    Ok(Front::Before(file, fault))
}

/// Finds the front of a log: reads the log, and where its bytes have a fault the pages before that.
///
/// # Errors
///
/// `Log` where the file isn't there, or can't be read, and `Memory`.
pub(crate) fn find_front<L: TornLog>(alloc: Global, log: &mut L) -> Result<Front, CheckFault>
    ensures front { IfOk result (HasFront L.read_gives L.front_gives log.old log.new) }
    ensures read { IfOk result IsFrontRead }
    ensures reported { IfErr result (IsFrontUnread L.read_gives L.front_gives log.old log.new) }
{
    match log.read(alloc, LOG_BYTES) {
        Ok(file) => Ok(Front::Whole(file)),
        Err(LogFileFault::Log(fault)) => {
            if is_wrong(fault.kind) {
                return read_before(alloc, log, fault);
            }
            Err(CheckFault::from(LogFileFault::Log(fault)))
        }
        Err(fault) => Err(CheckFault::from(fault)),
    }
}
