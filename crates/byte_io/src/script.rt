//! A source and a sink in memory, which fail where they are told to.
//!
//! A text in pieces is read as it would come over a socket, and what is written can be looked at. Each piece is kept as
//! it was given, with the place up to which it was read, so that a call copies no more than the bytes that it moves.
ghost use Rattle.std.specs.Prelude.{◌≡◌, ℕ, ◌+◌, ◌-◌, ◌<◌, ◌≤◌, ◌^◌, List, [], length, take, drop, map, min, vec_len};
ghost use Rattle.std.specs.Prelude.{Some, IfOk, OnOk, OnErr};
ghost use Rattle.std.specs.Vec.Iter.{into_iter_items};
ghost use Rattle.byte_io.specs.Streams.{answer_of};
ghost use Rattle.byte_io.specs.Scripts.{nonempty_pieces, before_pieces, first_piece, pieces_behind, take_within};
ghost use Rattle.byte_io.specs.Scripts.{limit_less, IsRead, IsWrite, script_gives, script_takes};

use crate::devices::{Sink, Source};
use crate::fault::DeviceFault;
use std::alloc::Global;
use std::marker::Model;
use std::vec::IntoIter;

/// Pieces of bytes that are given one after another. Contracts see those that are left, without empty ones.
#[derive(Drop)]
struct Pieces {
    present: Vec<u8>,
    given: usize,
    later: IntoIter<Vec<u8>>,
}

impl Model for Pieces {
    ghost use Rattle.std.specs.Prelude.{ℕ, ◌≤◌, List, drop, map, vec_len};
    ghost use Rattle.std.specs.Vec.Iter.{into_iter_items};
    ghost use Rattle.byte_io.specs.Scripts.{before_pieces, nonempty_pieces};

    ghost Value = { List (List ℕ) };

    ghost view = { λ p. before_pieces (drop p.given p.present.items)
        (nonempty_pieces (map (λ piece. piece.items) (into_iter_items p.later))) };

    ghost invariant = { λ p. p.given ≤ vec_len p.present };
}

/// Goes on to the next piece that isn't empty, if nothing of the present one is left.
fn next_piece(present: &mut Vec<u8>, given: &mut usize, later: &mut IntoIter<Vec<u8>>)
    requires { given.old ≤ vec_len present.old }
    ensures within { given.new ≤ vec_len present.new }
    ensures same { before_pieces (drop given.new present.new.items)
        (nonempty_pieces (map (λ piece. piece.items) (into_iter_items later.new)))
        ≡ before_pieces (drop given.old present.old.items)
        (nonempty_pieces (map (λ piece. piece.items) (into_iter_items later.old))) }
    ensures last { given.new ≡ vec_len present.new → into_iter_items later.new ≡ [] }
{
    while *given == present.len() {
        let Some(piece) = later.next() else {
            return;
        };
        *present = piece;
        *given = 0;
    }
}

impl Pieces {
    fn new(alloc: Global, pieces: Vec<Vec<u8>>) -> Pieces
        ensures { result ≡ nonempty_pieces (map (λ piece. piece.items) pieces.items) }
    {
        Pieces {
            present: Vec::new(alloc),
            given: 0,
            later: pieces.into_iter(),
        }
    }

    fn read(&mut self, buf: &mut [u8]) -> usize
        ensures bound { result ≤ length buf.new }
        ensures bytes { take result buf.new ≡ take (length buf.old) (first_piece self.old) }
        ensures rest { self.new ≡ pieces_behind (length buf.old) self.old }
        ensures end { result ≡ 0 → 0 < length buf.new → self.new ≡ [] }
    {
        next_piece(&mut self.present, &mut self.given, &mut self.later);
        let rest = &self.present.as_slice()[self.given..];
        let count = rest.len().min(buf.len());
        buf[..count].copy_from_slice(&rest[..count]);
        self.given += count;
        count
    }
}

/// How many of `count` a limit allows; None is no limit.
fn allowed(limit: Option<u64>, count: usize) -> usize
    ensures within { result ≤ count }
    ensures value { (bytes : List ℕ) → length bytes ≡ count → take result bytes ≡ take_within limit bytes }
{
    match limit {
        Some(limit) => count.min(limit as usize),
        None => count,
    }
}

/// What is left of a limit after `count`.
fn limit_less(limit: Option<u64>, count: u64) -> Option<u64>
    ensures { result ≡ limit_less limit count }
{
    match limit {
        Some(limit) => Some(limit.saturating_sub(count)),
        None => None,
    }
}

/// A source and a sink in memory, one beside the other: reads give the pieces, and writes are kept.
///
/// Contracts see it as a `ScriptState`, from which follows what each call gives and takes, but for want of memory.
/// However it is read, it gives one list of bytes (`script_gives_its_pieces`).
#[derive(Drop)]
pub struct Script {
    pieces: Pieces,
    reads_left: Option<u64>,
    written: Vec<u8>,
    room: Option<u64>,
    failures: u64,
}

impl Model for Script {
    ghost use Rattle.byte_io.specs.Scripts.{ScriptState};

    ghost Value = { ScriptState };

    ghost view = { λ s. record {
      pieces = s.pieces;
      reads_left = s.reads_left;
      written = s.written.items;
      room = s.room;
      failures = s.failures;
    } };
}

impl Script {
    ghost use Rattle.byte_io.specs.Scripts.{ScriptState};

    /// A script whose reads give `pieces` one after another, without the empty ones, and which hasn't failed yet.
    ///
    /// The read with number `fail_read`, counted from 0, and all later ones fail. Writes take `fail_write` bytes in
    /// all; the one that reaches this takes what is left below it, and a later one of a nonempty piece fails. None is
    /// no limit. What is written is kept in memory of `alloc`, of which this call takes none.
    pub fn new(
        alloc: Global,
        pieces: Vec<Vec<u8>>,
        fail_read: Option<u64>,
        fail_write: Option<u64>,
    ) -> Script
        ensures pieces { result.pieces ≡ nonempty_pieces (map (λ piece. piece.items) pieces.items) }
        ensures reads_left { result.reads_left ≡ fail_read }
        ensures written { result.written ≡ [] }
        ensures room { result.room ≡ fail_write }
        ensures failures { result.failures ≡ 0 }
    {
        Script {
            pieces: Pieces::new(alloc, pieces),
            reads_left: fail_read,
            written: Vec::new(alloc),
            room: fail_write,
            failures: 0,
        }
    }

    /// The bytes that were taken so far.
    pub fn written(&self) -> &[u8]
        ensures { result.now ≡ self.now.written }
    {
        self.written.as_slice()
    }

    /// Counts a call that fails.
    fn fail(&mut self) -> DeviceFault
        requires { self.old.failures + 1 < 2 ^ 64 }
        ensures { self.new ≡ record self.old { failures = self.old.failures + 1 } }
    {
        self.failures += 1;
        DeviceFault
    }
}

impl Source for Script {
    ghost read_gives = { script_gives };

    ghost at_end = { λ s. s.pieces ≡ [] };

    ghost failure_count = { λ s. s.failures };

    /// Gives at most the rest of the present piece, and nothing after the last.
    fn read(&mut self, buf: &mut [u8]) -> Result<usize, DeviceFault>
        requires { self.old.failures + 1 < 2 ^ 64 }
        ensures bound { IfOk result (λ n. n ≤ length buf.new) }
        ensures gives { IsRead (length buf.old) self.old (answer_of result buf.new) self.new }
        ensures end { IfOk result (λ n. n ≡ 0 → 0 < length buf.new → self.new.pieces ≡ []) }
    {
        if self.reads_left == Some(0) {
            return Err(self.fail());
        }
        self.reads_left = limit_less(self.reads_left, 1);
        Ok(self.pieces.read(buf))
    }

    fn failures(&self) -> u64 {
        self.failures
    }
}

impl Sink for Script {
    ghost write_takes = { script_takes };

    ghost failure_count = { λ s. s.failures };

    /// Takes as many bytes as the limit leaves. Fails where it leaves none of them, and for want of memory.
    fn write(&mut self, buf: &[u8]) -> Result<usize, DeviceFault>
        requires { self.old.failures + 1 < 2 ^ 64 }
        ensures bound { IfOk result (λ n. n ≤ length buf.now) }
        ensures takes { IsWrite buf.now self.old (answer_of result buf.now) self.new }
    {
        let count = allowed(self.room, buf.len());
        if count == 0 && !buf.is_empty() {
            return Err(self.fail());
        }
        if self.written.extend_from_slice(&buf[..count]).is_err() {
            return Err(self.fail());
        }
        self.room = limit_less(self.room, count as u64);
        Ok(count)
    }

    fn failures(&self) -> u64 {
        self.failures
    }
}
