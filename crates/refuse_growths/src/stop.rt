//! Why a scenario goes no further.

use batch_store::SetupFault;
use std::alloc::AllocError;

/// Why a scenario goes no further.
#[derive(Clone, Copy, Debug, PartialEq, Eq)]
pub enum Stop {
    /// There was no memory for what the scenario needs beside the calls that it makes again.
    SetUp,
    /// Something was answered that the scenario never leads to.
    Fault,
}

impl From<AllocError> for Stop {
    fn from(_error: AllocError) -> Stop {
        Stop::SetUp
    }
}

impl From<SetupFault> for Stop {
    fn from(_fault: SetupFault) -> Stop {
        Stop::Fault
    }
}
