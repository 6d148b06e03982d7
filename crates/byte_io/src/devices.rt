//! Devices that give and take bytes, and may fail.
//!
//! What a device gives or takes is not a function of its state, since a socket's bytes are known to nobody beforehand:
//! one call is a relation between the state before, the answer and the state after. A contract over many calls says
//! that there is a list of answers by which they lead from the first state to the last.
ghost use Rattle.std.specs.Prelude.{◌≡◌, ℕ, ◌+◌, ◌-◌, ◌<◌, ◌≤◌, ◌^◌, List, [], ◌++◌, length, take, Result, Ok, Err};
ghost use Rattle.std.specs.Prelude.{IfOk, OnOk, OnErr, MatchResult, ⊤};
ghost use Rattle.std.specs.Io.KnownBytes.{Consumes, Appends, IsAtEnd, Keeps};
ghost use Rattle.byte_io.specs.Streams.{Answer, answer_of, MayRead, MayWrite};
ghost use Rattle.byte_io.specs.declared.fault.DeviceFault.{DeviceFault};

use crate::fault::DeviceFault;
use std::io::{Read, Write};

/// What gives bytes: a reader that counts its failures.
pub trait Source {
    // What a call of `read` may answer, with the bytes that it gave, and what it leaves.
    ghost read_gives: { Self → Answer → Self → Type 0 };

    // No byte is left.
    ghost at_end: { Self → Type 0 };

    // How many calls have failed.
    ghost failure_count: { Self → ℕ };

    /// Gives bytes into the front of `buf`, and answers how many. An `Ok(0)` is the end, unless `buf` is empty.
    ///
    /// After an Err nothing is known of `buf`. At most 2^64 - 1 calls may fail.
    fn read(&mut self, buf: &mut [u8]) -> Result<usize, DeviceFault>
        requires { failure_count self.old + 1 < 2 ^ 64 }
        ensures bound { IfOk result (λ n. n ≤ length buf.new) }
        ensures gives { read_gives self.old (answer_of result buf.new) self.new }
        ensures end { IfOk result (λ n. n ≡ 0 → 0 < length buf.new → at_end self.new) }
        ensures ok { OnOk result (failure_count self.new ≡ failure_count self.old) }
        ensures err { OnErr result (failure_count self.new ≡ failure_count self.old + 1) };

    /// How many calls have failed.
    fn failures(&self) -> u64
        ensures { result ≡ failure_count self.now };
}

/// What takes bytes: a writer that counts its failures.
pub trait Sink {
    // What a call of `write` that is offered these bytes may answer, with those that it took, and what it leaves.
    ghost write_takes: { Self → List ℕ → Answer → Self → Type 0 };

    // How many calls have failed.
    ghost failure_count: { Self → ℕ };

    /// Takes bytes from the front of `buf`, and answers how many, which may be fewer than all and even none.
    ///
    /// An Err took nothing. At most 2^64 - 1 calls may fail.
    fn write(&mut self, buf: &[u8]) -> Result<usize, DeviceFault>
        requires { failure_count self.old + 1 < 2 ^ 64 }
        ensures bound { IfOk result (λ n. n ≤ length buf.now) }
        ensures takes { write_takes self.old buf.now (answer_of result buf.now) self.new }
        ensures ok { OnOk result (failure_count self.new ≡ failure_count self.old) }
        ensures err { OnErr result (failure_count self.new ≡ failure_count self.old + 1) };

    /// How many calls have failed.
    fn failures(&self) -> u64
        ensures { result ≡ failure_count self.now };
}

/// A Source of any reader, and a Sink of any writer. Every error is a failure, `Interrupted` too: no call is made
/// again.
///
/// Where the bytes of `T` are known, as those of a slice or a `Vec`, so is what a call moves; those of a file, a socket
/// or standard input are not.
#[derive(Drop)]
pub struct Counted<T> {
    inner: T,
    failures: u64,
}

impl<T> Counted<T> {
    /// A device that has not failed yet.
    pub fn new(inner: T) -> Counted<T>
        ensures inner { result.inner ≡ inner }
        ensures failures { result.failures ≡ 0 }
    {
        Counted { inner, failures: 0 }
    }

    /// The reader or writer itself, so that it can be flushed or closed.
    pub fn into_inner(self) -> T
        ensures { result ≡ self.inner }
    {
        let Counted { inner, failures: _ } = self;
        inner
    }

    /// Counts a failure.
    fn fail(&mut self) -> DeviceFault
        requires { self.old.failures + 1 < 2 ^ 64 }
        ensures { self.new ≡ record self.old { failures = self.old.failures + 1 } }
    {
        self.failures += 1;
        DeviceFault
    }
}

impl<T: Read> Source for Counted<T> {
    ghost read_gives = { λ s a t. MayRead (T.remaining s.inner) a (T.remaining t.inner) };

    ghost at_end = { λ s. IsAtEnd (T.remaining s.inner) };

    ghost failure_count = { λ s. s.failures };

    fn read(&mut self, buf: &mut [u8]) -> Result<usize, DeviceFault> {
        match self.inner.read(buf) {
            Ok(n) => Ok(n),
            Err(_) => Err(self.fail()),
        }
    }

    fn failures(&self) -> u64 {
        self.failures
    }
}

impl<T: Write> Sink for Counted<T> {
    ghost write_takes = { λ s offered a t. MayWrite (T.contents s.inner) a (T.contents t.inner) };

    ghost failure_count = { λ s. s.failures };

    fn write(&mut self, buf: &[u8]) -> Result<usize, DeviceFault> {
        match self.inner.write(buf) {
            Ok(n) => Ok(n),
            Err(_) => Err(self.fail()),
        }
    }

    fn failures(&self) -> u64 {
        self.failures
    }
}
