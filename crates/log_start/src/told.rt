//! What is told of the faults of a start's steps.
ghost use Rattle.std.specs.Prelude.{◌≡◌, ◌≢◌};
ghost use Rattle.log_blocks.specs.declared.fault.LogKind.{LogKind};
ghost use Rattle.log_start.specs.Starts.{of_join, of_rotate};
ghost use Rattle.log_start.specs.declared.fault.StartFault.{StartFault};

use crate::fault::StartFault;
use log_blocks::{LogFault, LogKind};
use log_folder::RotateFault;
use log_join::JoinFault;

/// Of a file that isn't read. Want of memory is told as such.
pub fn fault_of_log(fault: LogFault) -> StartFault
    ensures memory { fault.kind ≡ LogKind.Memory → result ≡ StartFault.Memory }
    ensures other { fault.kind ≢ LogKind.Memory → result ≡ StartFault.Log fault }
{
    if fault.kind == LogKind::Memory {
        return StartFault::Memory;
    }
    StartFault::Log(fault)
}

/// Of a log that doesn't belong to a snapshot.
pub fn fault_of_join(fault: JoinFault) -> StartFault
    ensures { result ≡ of_join fault }
{
    match fault {
        JoinFault::OtherBook => StartFault::OtherBook,
        JoinFault::SetupDiffers => StartFault::SetupDiffers,
        JoinFault::Gap { first } => StartFault::Gap { first },
        JoinFault::LinkDiffers => StartFault::LinkDiffers,
        JoinFault::EntryDiffers { at } => StartFault::EntryDiffers { at },
        JoinFault::NotFresh { at } => StartFault::NotFresh { at },
        JoinFault::Memory => StartFault::Memory,
    }
}

/// Of a new log that isn't begun.
pub fn fault_of_rotate(fault: RotateFault) -> StartFault
    ensures { result ≡ of_rotate fault }
{
    match fault {
        RotateFault::Create => StartFault::Create,
        RotateFault::Write => StartFault::Write,
        RotateFault::Sync => StartFault::Sync,
        RotateFault::Rename => StartFault::Rename,
    }
}
