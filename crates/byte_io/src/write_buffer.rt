//! Bytes on their way to a sink, through a buffer that takes no memory of its own.
//!
//! What is written in small pieces is handed on in large ones, since a call for each would cost more than the bytes.
//! The buffer lies in the value itself, so whoever writes by it takes no memory and can't fail for want of it.
ghost use Rattle.std.specs.Prelude.{◌≡◌, ℕ, ◌+◌, ◌<◌, ◌≤◌, ◌^◌, List, [], ◌++◌, length, IfErr, OnOk};
ghost use Rattle.byte_io.specs.Writing.{HasStopped};
ghost use Rattle.byte_io.specs.Buffers.{HasWritten};

use crate::devices::Sink;
use crate::fault::WriteFault;
use crate::limits::WRITE_CAPACITY;
use crate::write::write_all;
use arrayvec::ArrayVec;
use std::marker::Model;

/// Bytes in front of a sink: those that it took are counted, and up to `WRITE_CAPACITY` are pending.
///
/// Every call is to be given the same sink. After a call that answered Err it is of no more use, and what was pending
/// is lost.
#[derive(Drop)]
pub struct WriteBuffer {
    bytes: ArrayVec<u8, WRITE_CAPACITY>,
    taken: u128,
}

impl Model for WriteBuffer {
    ghost use Rattle.std.specs.Prelude.{ℕ, ◌<◌, ◌^◌};
    ghost use Rattle.byte_io.specs.Buffers.{Unwritten};

    ghost Value = { Unwritten };

    ghost view = { λ b. record { taken = b.taken; pending = b.bytes.items } };

    ghost invariant = { λ b. b.taken < 2 ^ 127 };
}

impl WriteBuffer {
    /// A buffer of which nothing was handed on, and in which nothing is pending.
    pub fn new() -> WriteBuffer
        ensures taken { result.taken ≡ 0 }
        ensures pending { result.pending ≡ [] }
    {
        WriteBuffer {
            bytes: ArrayVec::new(),
            taken: 0,
        }
    }

    /// Appends bytes that have room (`make_room`). Takes the time of their copy.
    pub fn push(&mut self, bytes: &[u8])
        requires { length self.old.pending + length bytes.now ≤ WRITE_CAPACITY }
        ensures taken { self.new.taken ≡ self.old.taken }
        ensures pending { self.new.pending ≡ self.old.pending ++ bytes.now }
    {
        let added = self.bytes.try_extend_from_slice(bytes).is_ok();
        prove!(added);
    }

    /// Hands on all that is pending. The sink isn't flushed.
    ///
    /// At an Err `written` counts from the first byte that was ever pushed.
    pub fn flush<W: Sink>(&mut self, w: &mut W) -> Result<(), WriteFault>
        requires failures { W.failure_count w.old + 1 < 2 ^ 64 }
        requires countable { self.old.taken + length self.old.pending < 2 ^ 127 }
        ensures pending { OnOk result (self.new.pending ≡ []) }
        ensures count { self.new.taken + length self.new.pending ≡ self.old.taken + length self.old.pending }
        ensures ok { OnOk result ((s : W) (text : List ℕ) →
            HasWritten W.write_takes W.failure_count s w.old text self.old →
            HasWritten W.write_takes W.failure_count s w.new text self.new) }
        ensures err { IfErr result (λ f. (s : W) (text : List ℕ) →
            HasWritten W.write_takes W.failure_count s w.old text self.old →
            HasStopped W.write_takes W.failure_count s w.new text f.written) }
        ensures failures { OnOk result (W.failure_count w.new ≡ W.failure_count w.old) }
    {
        let bytes = self.bytes.as_slice();
        let taken = self.taken;
        let count = bytes.len() as u128;
        if let Err(fault) = write_all(w, bytes) {
            return Err(WriteFault {
                written: taken + fault.written,
            });
        }
        self.taken = taken + count;
        self.bytes.clear();
        Ok(())
    }

    /// Hands on what is pending, unless there is room for so many bytes more, at most `WRITE_CAPACITY`.
    ///
    /// At an Err `written` counts from the first byte that was ever pushed.
    pub fn make_room<W: Sink>(&mut self, w: &mut W, len: usize) -> Result<(), WriteFault>
        requires failures { W.failure_count w.old + 1 < 2 ^ 64 }
        requires countable { self.old.taken + length self.old.pending < 2 ^ 127 }
        requires len { len ≤ WRITE_CAPACITY }
        ensures room { OnOk result (length self.new.pending + len ≤ WRITE_CAPACITY) }
        ensures count { self.new.taken + length self.new.pending ≡ self.old.taken + length self.old.pending }
        ensures ok { OnOk result ((s : W) (text : List ℕ) →
            HasWritten W.write_takes W.failure_count s w.old text self.old →
            HasWritten W.write_takes W.failure_count s w.new text self.new) }
        ensures err { IfErr result (λ f. (s : W) (text : List ℕ) →
            HasWritten W.write_takes W.failure_count s w.old text self.old →
            HasStopped W.write_takes W.failure_count s w.new text f.written) }
        ensures failures { OnOk result (W.failure_count w.new ≡ W.failure_count w.old) }
    {
        if self.bytes.remaining_capacity() < len {
            return self.flush(w);
        }
        Ok(())
    }
}
