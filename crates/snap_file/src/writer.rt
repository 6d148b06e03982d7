//! Fields of numbers on their way to a sink, through a buffer of the writer's own: no memory is taken.
ghost use Rattle.std.specs.Prelude.{◌≡◌, ℕ, ◌+◌, ◌<◌, ◌≤◌, ◌^◌, List, [], ◌++◌, length, IfOk, OnOk, IfErr};
ghost use Rattle.std.specs.Int.{w8, w32, w64};
ghost use Rattle.snap_file.specs.Spelling.{number_bytes};
ghost use Rattle.crc32c.specs.Remainders.{all_ones, after_bytes, complement};
ghost use Rattle.snap_file.specs.Writing.{IsWriting};
ghost use Rattle.byte_io.specs.Writing.{HasTaken, HasStopped};

use byte_io::{Sink, WRITE_CAPACITY, WriteBuffer, WriteFault};
use crc32c::Crc;
use std::marker::Model;

/// How many bytes `make_room` makes room for: a cell, a folded batch's entry, or the front of a batch.
const LONGEST_FIELDS: usize = 32;

/// A file on its way to a sink, and the checksum of all bytes that were appended.
#[derive(Drop)]
pub struct ByteWriter {
    buffer: WriteBuffer,
    crc: Crc,
}

impl Model for ByteWriter {
    ghost use Rattle.snap_file.specs.Writing.{WriterState};

    ghost Value = { WriterState };

    ghost view = { λ w. record { taken = w.buffer.taken; pending = w.buffer.pending; remainder = w.crc } };
}

impl ByteWriter {
    /// Nothing was appended yet.
    pub fn new() -> ByteWriter
        ensures taken { result.taken ≡ 0 }
        ensures pending { result.pending ≡ [] }
        ensures remainder { result.remainder ≡ all_ones }
    {
        ByteWriter {
            buffer: WriteBuffer::new(),
            crc: Crc::new(),
        }
    }

    /// Appends a field of eight bytes.
    #[tactic(auto, unfolding(crate::specs::Spelling::number_bytes))]
    pub fn push_u64(&mut self, n: u64)
        requires { length self.old.pending + 8 ≤ WRITE_CAPACITY }
        ensures taken { self.new.taken ≡ self.old.taken }
        ensures pending { self.new.pending ≡ self.old.pending ++ number_bytes w64 n }
        ensures remainder { self.new.remainder ≡ after_bytes self.old.remainder (number_bytes w64 n) }
        ensures length { length self.new.pending ≡ length self.old.pending + 8 }
    {
        let bytes = n.to_be_bytes();
        self.crc.add(&bytes);
        self.buffer.push(&bytes);
    }

    /// Appends a field of four bytes.
    #[tactic(auto, unfolding(crate::specs::Spelling::number_bytes))]
    pub fn push_u32(&mut self, n: u32)
        requires { length self.old.pending + 4 ≤ WRITE_CAPACITY }
        ensures taken { self.new.taken ≡ self.old.taken }
        ensures pending { self.new.pending ≡ self.old.pending ++ number_bytes w32 n }
        ensures remainder { self.new.remainder ≡ after_bytes self.old.remainder (number_bytes w32 n) }
        ensures length { length self.new.pending ≡ length self.old.pending + 4 }
    {
        let bytes = n.to_be_bytes();
        self.crc.add(&bytes);
        self.buffer.push(&bytes);
    }

    /// Appends a field of one byte.
    #[tactic(auto, unfolding(crate::specs::Spelling::number_bytes))]
    pub fn push_u8(&mut self, n: u8)
        requires { length self.old.pending + 1 ≤ WRITE_CAPACITY }
        ensures taken { self.new.taken ≡ self.old.taken }
        ensures pending { self.new.pending ≡ self.old.pending ++ number_bytes w8 n }
        ensures remainder { self.new.remainder ≡ after_bytes self.old.remainder (number_bytes w8 n) }
        ensures length { length self.new.pending ≡ length self.old.pending + 1 }
    {
        let bytes = n.to_be_bytes();
        self.crc.add(&bytes);
        self.buffer.push(&bytes);
    }

    /// The checksum of all that was appended.
    pub fn sum(&self) -> u32
        ensures { result ≡ complement self.now.remainder }
    {
        self.crc.value()
    }

    /// Hands on what is pending, unless there is room for `LONGEST_FIELDS` bytes.
    pub fn make_room<W: Sink>(&mut self, w: &mut W) -> Result<(), WriteFault>
        requires failures { W.failure_count w.old + 1 < 2 ^ 64 }
        requires countable { self.old.taken + length self.old.pending < 2 ^ 127 }
        ensures room { OnOk result (length self.new.pending + LONGEST_FIELDS ≤ WRITE_CAPACITY) }
        ensures count { self.new.taken + length self.new.pending ≡ self.old.taken + length self.old.pending }
        ensures ok { OnOk result ((s : W) (all left : List ℕ) →
            IsWriting W.write_takes W.failure_count s w.old all self.old left →
            IsWriting W.write_takes W.failure_count s w.new all self.new left) }
        ensures err { IfErr result (λ f. (s : W) (all left : List ℕ) →
            IsWriting W.write_takes W.failure_count s w.old all self.old left →
            HasStopped W.write_takes W.failure_count s w.new all f.written) }
        ensures failures { OnOk result (W.failure_count w.new ≡ W.failure_count w.old) }
    {
        self.buffer.make_room(w, LONGEST_FIELDS)?;
        Ok(())
    }

    /// Hands on what is pending, once all was appended. The sink isn't flushed.
    pub fn finish<W: Sink>(mut self, w: &mut W) -> Result<(), WriteFault>
        requires failures { W.failure_count w.old + 1 < 2 ^ 64 }
        requires countable { self.taken + length self.pending < 2 ^ 127 }
        ensures ok { OnOk result ((s : W) (all : List ℕ) →
            IsWriting W.write_takes W.failure_count s w.old all self [] →
            HasTaken W.write_takes W.failure_count s w.new all) }
        ensures err { IfErr result (λ f. (s : W) (all : List ℕ) →
            IsWriting W.write_takes W.failure_count s w.old all self [] →
            HasStopped W.write_takes W.failure_count s w.new all f.written) }
    {
        self.buffer.flush(w)?;
        Ok(())
    }
}
