//! A link of which one call fails.
ghost use Rattle.std.specs.Prelude.{◌≡◌, ◌≢◌, ℕ, ◌+◌, ◌-◌, ◌<◌, ◌≤◌, ◌^◌, length, min, IfOk, OnOk, OnErr};
ghost use Rattle.std.specs.Prelude.{IsTrue, ◌↔◌};
ghost use Rattle.std.proofs.Common.{ap};
ghost use Rattle.byte_io.specs.Streams.{Answer, answer_of};
ghost use Rattle.byte_io.specs.Wrappers.{OnceState, OnceCall, own_failures};

use crate::devices::{Sink, Source};
use crate::fault::DeviceFault;
use crate::link::Link;
use std::marker::Model;

/// A link whose reads and writes are counted together, from 0. One of them fails without being made; every other one
/// is the link's own call.
///
/// Its failures are the link's and that one. Contracts see it as the link, the number of the call that fails and the
/// number of calls made so far, so that they say what the link saw of each call.
#[derive(Drop)]
pub struct Once<L: Link> {
    link: L,
    fail_at: u64,
    calls: u64,
}

impl<L: Link> Model for Once<L> {
    ghost use Rattle.std.specs.Prelude.{ℕ, ◌+◌, ◌-◌, ◌<◌, ◌^◌};
    ghost use Rattle.byte_io.specs.Wrappers.{OnceState, own_failures};

    ghost Value = { OnceState L };

    ghost view = { λ o. record {
      link = o.link;
      fail_at = o.fail_at;
      calls = o.calls;
    } };

    ghost invariant = { λ o. (o.fail_at < 2 ^ 64 - 1)
        × (L.Sink.failure_count o.link + own_failures o.fail_at o.calls < 2 ^ 64) };
}

impl<L: Link> Once<L> {
    /// A device of which no call was made yet, around a link that may have been used before.
    ///
    /// Call number `fail_at`, counted from 0, fails. No memory is taken.
    pub fn new(link: L, fail_at: u64) -> Once<L>
        requires { fail_at < 2 ^ 64 - 1 }
        ensures link { result.link ≡ link }
        ensures fail_at { result.fail_at ≡ fail_at }
        ensures calls { result.calls ≡ 0 }
    {
        // The answer fits a u64, so that this one's does.
        let _failures = Sink::failures(&link);
        Once {
            link,
            fail_at,
            calls: 0,
        }
    }

    /// The link itself, as its calls left it.
    pub fn inner(&self) -> &L
        ensures { result.now ≡ self.now.link }
    {
        &self.link
    }

    /// The number of reads and writes that were made, those that failed too. It stays at 2^64 - 1 once there.
    pub fn calls(&self) -> u64
        ensures { result ≡ self.now.calls }
    {
        self.calls
    }

    // Counts a call, and tells whether it is the one that fails.
    fn fails_now(&mut self) -> bool
        requires { L.Sink.failure_count self.old.link + own_failures self.old.fail_at self.old.calls + 1 < 2 ^ 64 }
        ensures counted { self.new ≡ record self.old { calls = min (self.old.calls + 1) (2 ^ 64 - 1) } }
        ensures fails { IsTrue result ↔ (self.old.calls ≡ self.old.fail_at) }
        ensures failure { IsTrue result →
            own_failures self.new.fail_at self.new.calls ≡ own_failures self.old.fail_at self.old.calls + 1 }
    {
        let fails = self.calls == self.fail_at;
        self.calls = self.calls.saturating_add(1);
        fails
    }
}

impl<L: Link> Source for Once<L> {
    ghost read_gives = { OnceCall L.read_gives };

    ghost at_end = { λ s. L.at_end s.link };

    ghost failure_count = { λ s. L.Source.failure_count s.link + own_failures s.fail_at s.calls };

    fn read(&mut self, buf: &mut [u8]) -> Result<usize, DeviceFault> {
        if self.fails_now() {
            return Err(DeviceFault);
        }
        self.link.read(buf)
    }

    fn failures(&self) -> u64 {
        Source::failures(&self.link) + u64::from(self.fail_at < self.calls)
    }
}

impl<L: Link> Sink for Once<L> {
    ghost write_takes = { λ s offered. OnceCall (λ l answer m. L.write_takes l offered answer m) s };

    ghost failure_count = { λ s. L.Sink.failure_count s.link + own_failures s.fail_at s.calls };

    fn write(&mut self, buf: &[u8]) -> Result<usize, DeviceFault> {
        if self.fails_now() {
            return Err(DeviceFault);
        }
        self.link.write(buf)
    }

    fn failures(&self) -> u64 {
        Sink::failures(&self.link) + u64::from(self.fail_at < self.calls)
    }
}

impl<L: Link> Link for Once<L> {
    ghost one_count = { λ s. ap (λ n. n + own_failures s.fail_at s.calls) (L.one_count s.link) };
}
