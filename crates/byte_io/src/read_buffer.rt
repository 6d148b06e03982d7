//! Bytes that a source gave, in a buffer in which they wait to be used.
//!
//! A source is asked for large pieces, since a call for each small one would cost more than the bytes, and who uses
//! them looks at what is pending and says how much of it is done with, in the manner of std's `BufRead`. One buffer is
//! made for a reading, and no byte is copied but those that are still pending when more are asked for.
ghost use Rattle.std.specs.Prelude.{◌≡◌, ℕ, ◌+◌, ◌-◌, ◌<◌, ◌≤◌, ◌^◌, [], length, take, drop, Result, Ok, Err};
ghost use Rattle.std.specs.Prelude.{IfOk, OnOk, IfErr, OnErr};
ghost use Rattle.byte_io.specs.Buffers.{Fills, IsBytes};

use crate::devices::Source;
use crate::fault::DeviceFault;
use crate::limits::READ_CAPACITY;
use std::alloc::{AllocError, Global};
use std::cmp;
use std::marker::Model;

/// Bytes that came from a source and that nobody has used yet, at most `READ_CAPACITY`.
///
/// Contracts see the pending bytes. Every call of `fill` is to be given the same source.
#[derive(Drop)]
pub struct ReadBuffer {
    piece: Vec<u8>,
    // The bytes from `start` to `end` are pending.
    start: usize,
    end: usize,
}

impl Model for ReadBuffer {
    ghost use Rattle.std.specs.Prelude.{◌≡◌, ℕ, List, ◌-◌, ◌≤◌, length, take, drop};
    ghost use Rattle.byte_io.specs.declared.limits.TheConstants.{READ_CAPACITY};

    ghost Value = { List ℕ };

    ghost view = { λ b. take (b.end - b.start) (drop b.start b.piece.items) };

    ghost invariant = { λ b. (b.start ≤ b.end) × (b.end ≤ length b.piece.items) ×
        (length b.piece.items ≡ READ_CAPACITY) };
}

// How many bytes to ask for, where there is room for so many.
fn bytes_wanted(most: usize, room: usize) -> usize
    ensures asked { result ≤ most }
    ensures room { result ≤ room }
    ensures some { 0 < most → 0 < room → 0 < result }
{
    cmp::min(most, room)
}

// Moves so many bytes from `start` on to the front.
fn move_front(piece: &mut [u8], start: usize, count: usize)
    requires { start + count ≤ length piece.old }
    ensures len { length piece.new ≡ length piece.old }
    ensures front { take count piece.new ≡ take count (drop start piece.old) }
{
    piece.copy_within(start..start + count, 0);
}

// Reads at most so many bytes behind the first ones of a piece.
fn read_behind<R: Source>(
    r: &mut R,
    piece: &mut [u8],
    count: usize,
    most: usize,
) -> Result<usize, DeviceFault>
    requires failures { R.failure_count r.old + 1 < 2 ^ 64 }
    requires most { count + most ≤ length piece.old }
    ensures len { length piece.new ≡ length piece.old }
    ensures front { take count piece.new ≡ take count piece.old }
    ensures bound { IfOk result (λ n. n ≤ most) }
    ensures bytes { IsBytes piece.new }
    ensures gives { IfOk result (λ n. R.read_gives r.old (Ok (take n (drop count piece.new))) r.new) }
    ensures end { IfOk result (λ n. n ≡ 0 → 0 < most → R.at_end r.new) }
    ensures fails { IfErr result (λ e. R.read_gives r.old (Err e) r.new) }
    ensures ok { OnOk result (R.failure_count r.new ≡ R.failure_count r.old) }
    ensures err { OnErr result (R.failure_count r.new ≡ R.failure_count r.old + 1) }
{
    r.read(&mut piece[count..count + most])
}

// Moves so many bytes from `start` on to the front of the piece, and reads at most so many behind them.
fn refill<R: Source>(
    r: &mut R,
    piece: &mut Vec<u8>,
    start: usize,
    count: usize,
    most: usize,
) -> Result<usize, DeviceFault>
    requires failures { R.failure_count r.old + 1 < 2 ^ 64 }
    requires kept { start + count ≤ length piece.old.items }
    requires most { count + most ≤ length piece.old.items }
    ensures len { length piece.new.items ≡ length piece.old.items }
    ensures front { take count piece.new.items ≡ take count (drop start piece.old.items) }
    ensures bound { IfOk result (λ n. n ≤ most) }
    ensures bytes { IsBytes piece.new.items }
    ensures gives { IfOk result (λ n. R.read_gives r.old (Ok (take n (drop count piece.new.items))) r.new) }
    ensures end { IfOk result (λ n. n ≡ 0 → 0 < most → R.at_end r.new) }
    ensures fails { IfErr result (λ e. R.read_gives r.old (Err e) r.new) }
    ensures ok { OnOk result (R.failure_count r.new ≡ R.failure_count r.old) }
    ensures err { OnErr result (R.failure_count r.new ≡ R.failure_count r.old + 1) }
{
    let bytes = piece.as_mut_slice();
    move_front(bytes, start, count);
    read_behind(r, bytes, count, most)
}

impl ReadBuffer {
    /// A buffer in which nothing is pending. One growth, of `READ_CAPACITY` bytes.
    ///
    /// # Errors
    ///
    /// The growth was refused.
    pub fn new(alloc: Global) -> Result<ReadBuffer, AllocError>
        ensures { IfOk result (λ buffer. buffer ≡ []) }
    {
        let piece = vec![in alloc; 0u8; READ_CAPACITY]?;
        Ok(ReadBuffer {
            piece,
            start: 0,
            end: 0,
        })
    }

    /// The bytes that are pending.
    pub fn pending(&self) -> &[u8]
        ensures value { result.now ≡ self.now }
        ensures most { length self.now ≤ READ_CAPACITY }
    {
        &self.piece[self.start..self.end]
    }

    /// Takes away the first bytes: they were used.
    pub fn consume(&mut self, count: usize)
        requires { count ≤ length self.old }
        ensures { self.new ≡ drop count self.old }
    {
        self.start += count;
    }

    /// Keeps the first bytes alone.
    pub fn truncate(&mut self, count: usize)
        requires { count ≤ length self.old }
        ensures { self.new ≡ take count self.old }
    {
        self.end = self.start + count;
    }

    /// One read of at most so many bytes, and of no more than there is room for, behind what is pending, which is moved
    /// to the front before. It answers how many came; none, where some were asked for, is the end of the source.
    ///
    /// # Errors
    ///
    /// The read failed. What was pending still is.
    pub fn fill<R: Source>(&mut self, r: &mut R, most: usize) -> Result<usize, DeviceFault>
        requires failures { R.failure_count r.old + 1 < 2 ^ 64 }
        requires room { length self.old < READ_CAPACITY }
        ensures ok { IfOk result (λ n. Fills R.read_gives r.old r.new self.old self.new n) }
        ensures most { IfOk result (λ n. n ≤ most) }
        ensures bound { IfOk result (λ n. n ≤ READ_CAPACITY) }
        ensures end { IfOk result (λ n. n ≡ 0 → 0 < most → R.at_end r.new) }
        ensures err { IfErr result (λ e. R.read_gives r.old (Err e) r.new) }
        ensures kept { OnErr result (self.new ≡ self.old) }
        ensures no_failure { OnOk result (R.failure_count r.new ≡ R.failure_count r.old) }
        ensures failure { OnErr result (R.failure_count r.new ≡ R.failure_count r.old + 1) }
    {
        let start = self.start;
        let count = self.end - start;
        self.start = 0;
        self.end = count;
        let wanted = bytes_wanted(most, READ_CAPACITY - count);
        match refill(r, &mut self.piece, start, count, wanted) {
            Ok(came) => {
                self.end = count + came;
                Ok(came)
            }
            Err(fault) => Err(fault),
        }
    }
}
