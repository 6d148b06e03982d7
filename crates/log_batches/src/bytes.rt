//! Bytes in memory as a source.
ghost use Rattle.std.specs.Prelude.{◌≡◌, []};
ghost use Rattle.log_batches.specs.Held.{gives_front};

use byte_io::{DeviceFault, Source};
use std::cmp;
use std::marker::Model;

/// Bytes that are still to be given. Contracts see them. No read fails.
#[derive(Drop)]
pub(crate) struct Bytes<'a> {
    rest: &'a [u8],
}

impl<'a> Model for Bytes<'a> {
    ghost use Rattle.std.specs.Prelude.{ℕ, List};

    ghost Value = { List ℕ };

    ghost view = { λ b. b.rest.now };
}

impl<'a> Bytes<'a> {
    /// These bytes.
    pub(crate) fn new(bytes: &'a [u8]) -> Bytes<'a>
        ensures { result ≡ bytes.now }
    {
        Bytes { rest: bytes }
    }
}

impl<'a> Source for Bytes<'a> {
    ghost read_gives = { gives_front };

    ghost at_end = { λ s. s ≡ [] };

    ghost failure_count = { λ s. 0 };

    fn read(&mut self, buf: &mut [u8]) -> Result<usize, DeviceFault> {
        let count = cmp::min(self.rest.len(), buf.len());
        let (given, rest) = self.rest.split_at(count);
        let (front, _) = buf.split_at_mut(count);
        front.copy_from_slice(given);
        self.rest = rest;
        Ok(count)
    }

    fn failures(&self) -> u64 {
        0
    }
}
