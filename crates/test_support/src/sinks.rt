//! Sinks that take less than they are offered.
ghost use Rattle.std.specs.Prelude.{◌≡◌, ℕ, ◌+◌, ◌<◌, ◌≤◌, ◌^◌, length};

use byte_io::{DeviceFault, Script, Sink};

/// Takes one byte of each piece that it is offered.
#[derive(Drop)]
pub struct OneByte {
    pub inner: Script,
}

impl Sink for OneByte {
    ghost write_takes = { λ s offered a t. Unit {0} };

    ghost failure_count = { λ s. s.inner.failures };

    fn write(&mut self, buf: &[u8]) -> Result<usize, DeviceFault> {
        self.inner.write(&buf[..buf.len().min(1)])
    }

    fn failures(&self) -> u64 {
        Sink::failures(&self.inner)
    }
}

/// Takes nothing, and doesn't fail.
#[derive(Drop)]
pub struct Full;

impl Sink for Full {
    ghost write_takes = { λ s offered a t. Unit {0} };

    ghost failure_count = { λ _. 0 };

    fn write(&mut self, _buf: &[u8]) -> Result<usize, DeviceFault> {
        Ok(0)
    }

    fn failures(&self) -> u64 {
        0
    }
}
