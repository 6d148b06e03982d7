//! What the acceptors share.

use crate::ending::Ending;
use crate::numbers::SessionNumbers;
use crate::stop::StopGate;
use session_pool::LastFailure;
use std::sync::{Arc, Wait};
use std::time::Duration;

/// The stop flag, the numbers of sessions, how long a connection may be silent, why the last save that failed did, and
/// where it is noted how the server ends, if anywhere.
#[derive(Drop)]
pub struct Shared {
    pub gate: StopGate,
    pub numbers: SessionNumbers,
    pub idle: Option<Duration>,
    pub failure: Arc<LastFailure>,
    pub ending: Option<Arc<Ending>>,
}

impl Shared {
    /// Whether no further connection is to be accepted.
    pub fn is_over<R: Wait>(&self, rt: &R) -> bool {
        self.gate.is_stopped() || self.numbers.are_used_up(rt)
    }
}
