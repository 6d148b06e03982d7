//! What can be wrong with a device.

use thiserror::Error;

/// A call of a device failed.
#[derive(Clone, Copy, Debug, PartialEq, Eq, Error)]
#[error("a call of a device failed")]
pub struct DeviceFault;

/// Not all of a text was written: its first `written` bytes were taken, and then the sink failed, or took none of the
/// bytes that it was offered.
#[derive(Clone, Copy, Debug, PartialEq, Eq, Error)]
#[error("output failed after {written} bytes")]
pub struct WriteFault {
    pub written: u128,
}
