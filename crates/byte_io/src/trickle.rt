//! A link that moves few bytes at a time.
ghost use Rattle.std.specs.Prelude.{◌≡◌, ◌≢◌, ℕ, ◌+◌, ◌<◌, ◌≤◌, ◌^◌, length, take, IfOk, OnOk, OnErr};
ghost use Rattle.byte_io.specs.Streams.{Answer, answer_of};
ghost use Rattle.byte_io.specs.Wrappers.{TrickleState, TrickleRead, TrickleWrite};

use crate::devices::{Sink, Source};
use crate::fault::DeviceFault;
use crate::link::Link;
use std::marker::Model;

/// A link whose calls each move at most so many bytes.
///
/// Its failures are the link's. Contracts see it as the link and the number of bytes, so that they say what the link
/// saw of each call.
#[derive(Drop)]
pub struct Trickle<L: Link> {
    link: L,
    step: usize,
}

impl<L: Link> Model for Trickle<L> {
    ghost use Rattle.std.specs.Prelude.{ℕ, ◌<◌};
    ghost use Rattle.byte_io.specs.Wrappers.{TrickleState};

    ghost Value = { TrickleState L };

    ghost view = { λ t. record {
      link = t.link;
      step = t.step;
    } };

    ghost invariant = { λ t. 0 < t.step };
}

impl<L: Link> Trickle<L> {
    /// A device whose calls move at most `step` bytes, around a link that may have been used before. No memory is
    /// taken.
    pub fn new(link: L, step: usize) -> Trickle<L>
        requires { step ≢ 0 }
        ensures link { result.link ≡ link }
        ensures step { result.step ≡ step }
    {
        Trickle { link, step }
    }

    /// The link itself, as its calls left it.
    pub fn inner(&self) -> &L
        ensures { result.now ≡ self.now.link }
    {
        &self.link
    }
}

impl<L: Link> Source for Trickle<L> {
    ghost read_gives = { TrickleRead L.read_gives };

    ghost at_end = { λ s. L.at_end s.link };

    ghost failure_count = { λ s. L.Source.failure_count s.link };

    fn read(&mut self, buf: &mut [u8]) -> Result<usize, DeviceFault> {
        let count = self.step.min(buf.len());
        self.link.read(&mut buf[..count])
    }

    fn failures(&self) -> u64 {
        Source::failures(&self.link)
    }
}

impl<L: Link> Sink for Trickle<L> {
    ghost write_takes = { TrickleWrite L.write_takes };

    ghost failure_count = { λ s. L.Sink.failure_count s.link };

    fn write(&mut self, buf: &[u8]) -> Result<usize, DeviceFault> {
        let count = self.step.min(buf.len());
        self.link.write(&buf[..count])
    }

    fn failures(&self) -> u64 {
        Sink::failures(&self.link)
    }
}

impl<L: Link> Link for Trickle<L> {
    ghost one_count = { λ s. L.one_count s.link };
}
