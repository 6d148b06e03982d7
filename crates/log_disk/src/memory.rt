//! A file in memory that can lose what it was not synced.
ghost use Rattle.std.specs.Prelude.{◌≡◌, ◌⊎◌, ℕ, ◌+◌, ◌<◌, ◌≤◌, ◌^◌, List, length, slice_index, IfOk, true, false, ⊤};
ghost use Rattle.std.proofs.Common.{inl};
ghost use Rattle.log_disk.specs.Memory.{Between, IsPending, LeftSince, only_now_left};

use crate::bytes::copy_from;
use crate::calls::Calls;
use crate::content::Content;
use crate::disk::LogDisk;
use crate::picks::Picks;
use byte_io::DeviceFault;
use std::alloc::{AllocError, Global};

/// A file in memory, which tells what it holds, for tests. One call of it fails, the one that it was told, and each for
/// which there is no memory. A write that fails so may have written any of its bytes, a sync may have brought any of
/// them, and a cut may be done. It keeps all that it ever held.
#[derive(Drop)]
pub struct MemoryDisk {
    content: Content,
    calls: Calls,
}

impl MemoryDisk {
    /// A file of these bytes, all of them durable, whose call number `fail_at`, counted from 0, fails. What a failed
    /// call leaves follows from the seed.
    pub fn new(
        alloc: Global,
        bytes: &[u8],
        seed: u64,
        fail_at: Option<u64>,
    ) -> Result<MemoryDisk, AllocError>
        ensures durable { IfOk result (λ new. new.content.durable.items ≡ bytes.now) }
        ensures pending { IfOk result (λ new. new.content.pending.items ≡ bytes.now) }
        ensures written { IfOk result (λ new. new.content.written.items ≡ bytes.now) }
        ensures failures { IfOk result (λ new. new.calls.failed ≡ 0) }
        ensures in_doubt { IfOk result (λ new. new.calls.in_doubt ≡ false) }
    {
        Ok(MemoryDisk {
            content: Content::new(alloc, bytes, bytes, Picks::new(seed))?,
            calls: Calls::new(fail_at),
        })
    }

    /// The bytes that a read gives.
    pub fn bytes(&self) -> &[u8]
        ensures { result.now ≡ self.now.content.written.items }
    {
        self.content.written()
    }

    /// The bytes that are durable.
    pub fn durable_bytes(&self) -> &[u8]
        ensures { result.now ≡ self.now.content.durable.items }
    {
        self.content.durable()
    }

    /// The file that a loss of power at this moment leaves, as it is picked, for who opens it anew. Call number
    /// `fail_at` of that one fails.
    pub fn crash(
        &self,
        alloc: Global,
        picks: &mut Picks,
        fail_at: Option<u64>,
    ) -> Result<MemoryDisk, AllocError>
        ensures left { IfOk result (λ new. Between self.now.content.durable.items self.now.content.written.items
            new.content.written.items) }
        ensures durable { IfOk result (λ new. new.content.durable.items ≡ new.content.written.items) }
        ensures pending { IfOk result (λ new. new.content.pending.items ≡ new.content.durable.items) }
        ensures failures { IfOk result (λ new. new.calls.failed ≡ 0) }
        ensures in_doubt { IfOk result (λ new. new.calls.in_doubt ≡ false) }
    {
        Ok(MemoryDisk {
            content: self.content.crash(alloc, picks)?,
            calls: Calls::new(fail_at),
        })
    }

    /// The file that the end of a program leaves, for who opens it anew: what is written stays, but what no sync has
    /// brought may be in memory alone, and no later sync brings it. Call number `fail_at` of that one fails.
    pub fn kill(&self, alloc: Global, fail_at: Option<u64>) -> Result<MemoryDisk, AllocError>
        ensures durable { IfOk result (λ new. new.content.durable.items ≡ self.now.content.durable.items) }
        ensures pending { IfOk result (λ new. new.content.pending.items ≡ new.content.durable.items) }
        ensures written { IfOk result (λ new. new.content.written.items ≡ self.now.content.written.items) }
        ensures failures { IfOk result (λ new. new.calls.failed ≡ 0) }
        ensures in_doubt { IfOk result (λ new. new.calls.in_doubt ≡ false) }
    {
        Ok(MemoryDisk {
            content: self.content.kill(alloc)?,
            calls: Calls::new(fail_at),
        })
    }
}

impl LogDisk for MemoryDisk {
    ghost telling = { ⊤ };

    ghost tells = { λ d. d.calls.in_doubt ≡ false →
        IsPending d.content.durable.items d.content.written.items d.content.pending.items };

    ghost written = { λ d. d.content.written.items };

    ghost may_leave = { λ d left. Between d.content.durable.items d.content.written.items left };

    ghost is_fresh = { λ d i. slice_index d.content.pending.items i ≡ slice_index d.content.written.items i };

    ghost moment = { λ d. length d.content.past.items };

    ghost left_since = { λ d t left. LeftSince d.content.past.items d.content.durable.items d.content.written.items
        t left };

    ghost failure_count = { λ d. d.calls.failed };

    ghost in_doubt = { λ d. d.calls.in_doubt };

    ghost lost_name = { ⊤ };

    ghost counts_now = { λ d t left le now. inl now };

    ghost only_now = { λ d left since. only_now_left d.content.past.items d.content.durable.items
        d.content.written.items left since };

    fn read_at(&mut self, at: u64, buf: &mut [u8]) -> Result<(), DeviceFault> {
        if self.calls.next_fails() {
            return Err(self.calls.fail());
        }
        copy_from(self.content.written(), at as usize, buf);
        Ok(())
    }

    fn write_at(&mut self, at: u64, bytes: &[u8]) -> Result<(), DeviceFault> {
        if self.calls.next_fails() {
            let _ = self.content.write_some(at, bytes);
            return Err(self.calls.doubt());
        }
        if self.content.write(at, bytes).is_err() {
            return Err(self.calls.doubt());
        }
        Ok(())
    }

    fn fill(&mut self, at: u64, zeros: &[u8]) -> Result<(), DeviceFault> {
        if self.calls.next_fails() {
            self.content.write_perhaps(at, zeros);
            return Err(self.calls.fail());
        }
        if self.content.write(at, zeros).is_err() {
            return Err(self.calls.fail());
        }
        Ok(())
    }

    fn cut(&mut self, len: u64) -> Result<(), DeviceFault> {
        if self.calls.next_fails() {
            self.content.cut_perhaps(len);
            return Err(self.calls.doubt());
        }
        if self.content.cut(len).is_err() {
            return Err(self.calls.doubt());
        }
        Ok(())
    }

    fn sync(&mut self) -> Result<(), DeviceFault> {
        if self.calls.next_fails() {
            let _ = self.content.sync_some();
            return Err(self.calls.doubt());
        }
        if self.content.sync().is_err() {
            return Err(self.calls.doubt());
        }
        Ok(())
    }

    fn failures(&self) -> u64 {
        self.calls.failures()
    }

    fn is_in_doubt(&self) -> bool {
        self.calls.is_in_doubt()
    }
}
