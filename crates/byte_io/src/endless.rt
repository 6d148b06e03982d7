//! A source that doesn't end.
ghost use Rattle.std.specs.Prelude.{◌≡◌, ℕ, ◌+◌, ◌<◌, ◌≤◌, ◌^◌, length, take, drop, vec_len, IfOk, OnErr};
ghost use Rattle.byte_io.specs.Streams.{answer_of};
ghost use Rattle.byte_io.specs.Wrappers.{EndlessState, IsEndlessRead, endless_gives};

use crate::devices::Source;
use crate::fault::DeviceFault;
use std::marker::Model;

/// A source that gives some bytes, and then one byte for ever. It has no end and never fails, and each read fills its
/// buffer.
///
/// Contracts see the bytes that are still to come before the last, and that one.
#[derive(Drop)]
pub struct Endless {
    front: Vec<u8>,
    given: usize,
    byte: u8,
}

impl Model for Endless {
    ghost use Rattle.std.specs.Prelude.{ℕ, ◌≤◌, drop, vec_len};
    ghost use Rattle.byte_io.specs.Wrappers.{EndlessState};

    ghost Value = { EndlessState };

    ghost view = { λ e. record {
      front = drop e.given e.front.items;
      byte = e.byte;
    } };

    ghost invariant = { λ e. e.given ≤ vec_len e.front };
}

impl Endless {
    /// A source that gives `front`, and then `byte` for ever. No memory is taken.
    pub fn new(front: Vec<u8>, byte: u8) -> Endless
        ensures front { result.front ≡ front.items }
        ensures byte { result.byte ≡ byte }
    {
        Endless {
            front,
            given: 0,
            byte,
        }
    }
}

impl Source for Endless {
    ghost read_gives = { endless_gives };

    ghost at_end = { λ s. ⊥ };

    ghost failure_count = { λ s. 0 };

    /// Fills `buf`, and takes constant time beside that.
    fn read(&mut self, buf: &mut [u8]) -> Result<usize, DeviceFault>
        ensures filled { result ≡ Ok (length buf.old) }
        ensures bytes { IsEndlessRead (length buf.old) self.old (answer_of result buf.new) self.new }
        ensures bound { IfOk result (λ n. n ≤ length buf.new) }
        ensures end { IfOk result (λ n. n ≡ 0 → 0 < length buf.new → ⊥) }
        ensures err { OnErr result ⊥ }
    {
        let rest = &self.front.as_slice()[self.given..];
        let count = rest.len().min(buf.len());
        let (front, behind) = buf.split_at_mut(count);
        front.copy_from_slice(&rest[..count]);
        behind.fill(self.byte);
        self.given += count;
        Ok(buf.len())
    }

    fn failures(&self) -> u64 {
        0
    }
}
