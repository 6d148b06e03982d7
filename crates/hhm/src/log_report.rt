//! The status that a log's fault ends the program with.
ghost use Rattle.std.specs.Prelude.{◌≡◌};
ghost use Rattle.hhm.specs.Logs.{log_status};

use crate::report::log_kind_status;
use log_start::StartFault;

/// The status of a fault of a log: 2 where it is of another setup, 3 for what it says, 4 for its file or its folder, 5
/// for memory.
pub fn status_of_log(fault: &StartFault) -> u8
    ensures { result ≡ log_status fault.now }
{
    match fault {
        StartFault::Log(log) => log_kind_status(log.kind),
        StartFault::SetupDiffers => 2,
        StartFault::OtherBook
        | StartFault::Gap { .. }
        | StartFault::LinkDiffers
        | StartFault::EntryDiffers { .. }
        | StartFault::NotFresh { .. } => 3,
        StartFault::Memory => 5,
        StartFault::NotFound
        | StartFault::Create
        | StartFault::Write
        | StartFault::Sync
        | StartFault::Rename
        | StartFault::Busy => 4,
    }
}
