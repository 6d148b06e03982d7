//! Why a server hasn't answered, or not as it was asked.

use byte_io::WriteFault;
use std::alloc::AllocError;
use thiserror::Error;
use wire_frames::EncodeFault;

/// Why a server hasn't answered, or not as it was asked.
#[derive(Clone, Copy, Debug, PartialEq, Eq, Error)]
pub enum AskFault {
    /// The link failed or ended before the reply was whole.
    #[error("server: NoAnswer")]
    NoAnswer,
    /// What came is no reply to the request.
    #[error("server: BadReply")]
    BadReply,
    /// The server refuses, by this code.
    #[error("server: Refused ({0})")]
    Refused(u16),
    /// There was no memory here.
    #[error("memory")]
    Memory,
    /// The line of the answer was not written whole.
    #[error(transparent)]
    Output(WriteFault),
}

impl From<AllocError> for AskFault {
    ghost use Rattle.std.specs.Prelude.{◌≡◌};
    ghost use Rattle.ask_server.specs.declared.fault.AskFault.TheVariants.{Memory};

    ghost from_gives = { λ _ fault. fault ≡ Memory };

    fn from(_error: AllocError) -> AskFault {
        AskFault::Memory
    }
}

impl From<EncodeFault> for AskFault {
    ghost use Rattle.std.specs.Prelude.{◌≡◌};
    ghost use Rattle.ask_server.specs.declared.fault.AskFault.TheVariants.{Memory};

    ghost from_gives = { λ _ fault. fault ≡ Memory };

    // No request without a body is too large.
    fn from(_error: EncodeFault) -> AskFault {
        AskFault::Memory
    }
}
