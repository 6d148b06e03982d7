//! What a file in memory holds, and what its calls make of it.
ghost use Rattle.std.specs.Prelude.{◌≡◌, ◌⊎◌, ℕ, ◌+◌, ◌<◌, ◌≤◌, ◌^◌, List, [], ◌∷◌, ◌++◌, length, slice_index};
ghost use Rattle.std.specs.Prelude.{OnOk, OnErr, IfOk};
ghost use Rattle.log_disk.specs.Disk.{Holds, HoldsSome, IsCut, MayBeCut, Follows, Elapses};
ghost use Rattle.log_disk.specs.Memory.{Between, IsPending, LeftSince};

use crate::bytes::{mixed, overwritten, shortened, sized};
use crate::picks::Picks;
use std::alloc::{AllocError, Global};

/// What is durable, what the next sync makes durable, and what is written.
#[derive(Drop)]
pub(crate) struct Content {
    alloc: Global,
    durable: Vec<u8>,
    pending: Vec<u8>,
    written: Vec<u8>,
    // What was durable and what was written at each earlier moment.
    past: Vec<(Vec<u8>, Vec<u8>)>,
    picks: Picks,
}

/// Keeps a moment behind the earlier ones.
fn keep(
    alloc: Global,
    past: &mut Vec<(Vec<u8>, Vec<u8>)>,
    durable: &[u8],
    written: &[u8],
) -> Result<(), AllocError>
    ensures ok { OnOk result ((moment : _) × (moment.0.items ≡ durable.now) × (moment.1.items ≡ written.now)
        × (past.new.items ≡ past.old.items ++ moment ∷ [])) }
    ensures err { OnErr result (past.new.items ≡ past.old.items) }
{
    let moment = (durable.to_vec(alloc)?, written.to_vec(alloc)?);
    past.push(moment)?;
    Ok(())
}

impl Content {
    /// A file of these bytes of which these are durable, and nothing is pending.
    pub(crate) fn new(
        alloc: Global,
        durable: &[u8],
        written: &[u8],
        picks: Picks,
    ) -> Result<Content, AllocError>
        ensures durable { IfOk result (λ new. new.durable.items ≡ durable.now) }
        ensures pending { IfOk result (λ new. new.pending.items ≡ durable.now) }
        ensures written { IfOk result (λ new. new.written.items ≡ written.now) }
        ensures past { IfOk result (λ new. new.past.items ≡ []) }
    {
        Ok(Content {
            alloc,
            durable: durable.to_vec(alloc)?,
            pending: durable.to_vec(alloc)?,
            written: written.to_vec(alloc)?,
            past: Vec::new(alloc),
            picks,
        })
    }

    /// The bytes that a read gives.
    pub(crate) fn written(&self) -> &[u8]
        ensures { result.now ≡ self.now.written.items }
    {
        &self.written
    }

    /// The bytes that are durable.
    pub(crate) fn durable(&self) -> &[u8]
        ensures { result.now ≡ self.now.durable.items }
    {
        &self.durable
    }

    /// Writes bytes over what is there. An Err, for want of memory or room, changed nothing.
    pub(crate) fn write(&mut self, at: u64, bytes: &[u8]) -> Result<(), AllocError>
        ensures written { OnOk result (Holds at bytes.now self.old.written.items self.new.written.items) }
        ensures part { HoldsSome at bytes.now self.old.written.items self.new.written.items }
        ensures pending { IsPending self.old.durable.items self.old.written.items self.old.pending.items →
            IsPending self.new.durable.items self.new.written.items self.new.pending.items }
        ensures fresh { OnOk result ((j : ℕ) → j < length bytes.now →
            slice_index self.new.pending.items (at + j) ≡ slice_index self.new.written.items (at + j)) }
        ensures still { OnOk result ((i : ℕ) →
            slice_index self.old.pending.items i ≡ slice_index self.old.written.items i →
            slice_index self.new.pending.items i ≡ slice_index self.new.written.items i) }
        ensures crash { Follows (HoldsSome at bytes.now) (Between self.old.durable.items self.old.written.items)
            (Between self.new.durable.items self.new.written.items) }
        ensures time { Elapses (length self.old.past.items) (length self.new.past.items)
            (LeftSince self.old.past.items self.old.durable.items self.old.written.items)
            (LeftSince self.new.past.items self.new.durable.items self.new.written.items)
            (Between self.new.durable.items self.new.written.items) }
    {
        if at >= 1 << 40 || bytes.len() >= 1 << 40 {
            return Err(AllocError);
        }
        let written = overwritten(self.alloc, &self.written, at as usize, bytes)?;
        let pending = overwritten(self.alloc, &self.pending, at as usize, bytes)?;
        keep(self.alloc, &mut self.past, &self.durable, &self.written)?;
        self.written = written;
        self.pending = pending;
        Ok(())
    }

    /// Writes the bytes or nothing, as it is picked.
    pub(crate) fn write_perhaps(&mut self, at: u64, bytes: &[u8])
        ensures part { HoldsSome at bytes.now self.old.written.items self.new.written.items }
        ensures pending { IsPending self.old.durable.items self.old.written.items self.old.pending.items →
            IsPending self.new.durable.items self.new.written.items self.new.pending.items }
        ensures crash { Follows (HoldsSome at bytes.now) (Between self.old.durable.items self.old.written.items)
            (Between self.new.durable.items self.new.written.items) }
        ensures time { Elapses (length self.old.past.items) (length self.new.past.items)
            (LeftSince self.old.past.items self.old.durable.items self.old.written.items)
            (LeftSince self.new.past.items self.new.durable.items self.new.written.items)
            (Between self.new.durable.items self.new.written.items) }
    {
        if self.picks.below(2) == 1 {
            let _ = self.write(at, bytes);
        }
    }

    /// Writes some of the bytes, as they are picked. An Err wrote none of them.
    pub(crate) fn write_some(&mut self, at: u64, bytes: &[u8]) -> Result<(), AllocError>
        ensures written { HoldsSome at bytes.now self.old.written.items self.new.written.items }
        ensures crash { Follows (HoldsSome at bytes.now) (Between self.old.durable.items self.old.written.items)
            (Between self.new.durable.items self.new.written.items) }
        ensures time { Elapses (length self.old.past.items) (length self.new.past.items)
            (LeftSince self.old.past.items self.old.durable.items self.old.written.items)
            (LeftSince self.new.past.items self.new.durable.items self.new.written.items)
            (Between self.new.durable.items self.new.written.items) }
    {
        if at >= 1 << 40 || bytes.len() >= 1 << 40 {
            return Err(AllocError);
        }
        let all = overwritten(self.alloc, &self.written, at as usize, bytes)?;
        let written = mixed(self.alloc, &mut self.picks, &self.written, &all)?;
        keep(self.alloc, &mut self.past, &self.durable, &self.written)?;
        self.written = written;
        Ok(())
    }

    /// Cuts the file. An Err, for want of memory, changed nothing.
    pub(crate) fn cut(&mut self, len: u64) -> Result<(), AllocError>
        ensures written { OnOk result (IsCut len self.old.written.items self.new.written.items) }
        ensures part { MayBeCut len self.old.written.items self.new.written.items }
        ensures pending { IsPending self.old.durable.items self.old.written.items self.old.pending.items →
            IsPending self.new.durable.items self.new.written.items self.new.pending.items }
        ensures fresh { OnOk result ((i : ℕ) → len ≤ i →
            slice_index self.new.pending.items i ≡ slice_index self.new.written.items i) }
        ensures still { OnOk result ((i : ℕ) →
            slice_index self.old.pending.items i ≡ slice_index self.old.written.items i →
            slice_index self.new.pending.items i ≡ slice_index self.new.written.items i) }
        ensures crash { Follows (MayBeCut len) (Between self.old.durable.items self.old.written.items)
            (Between self.new.durable.items self.new.written.items) }
        ensures time { Elapses (length self.old.past.items) (length self.new.past.items)
            (LeftSince self.old.past.items self.old.durable.items self.old.written.items)
            (LeftSince self.new.past.items self.new.durable.items self.new.written.items)
            (Between self.new.durable.items self.new.written.items) }
    {
        let written = shortened(self.alloc, &self.written, len as usize)?;
        let pending = shortened(self.alloc, &self.pending, len as usize)?;
        keep(self.alloc, &mut self.past, &self.durable, &self.written)?;
        self.written = written;
        self.pending = pending;
        Ok(())
    }

    /// Cuts the file or leaves it, as it is picked.
    pub(crate) fn cut_perhaps(&mut self, len: u64)
        ensures part { MayBeCut len self.old.written.items self.new.written.items }
        ensures crash { Follows (MayBeCut len) (Between self.old.durable.items self.old.written.items)
            (Between self.new.durable.items self.new.written.items) }
        ensures time { Elapses (length self.old.past.items) (length self.new.past.items)
            (LeftSince self.old.past.items self.old.durable.items self.old.written.items)
            (LeftSince self.new.past.items self.new.durable.items self.new.written.items)
            (Between self.new.durable.items self.new.written.items) }
    {
        if self.picks.below(2) == 1 {
            let _ = self.cut(len);
        }
    }

    /// Makes durable what is pending. An Err, for want of memory, changed nothing.
    pub(crate) fn sync(&mut self) -> Result<(), AllocError>
        ensures written { self.new.written.items ≡ self.old.written.items }
        ensures durable { OnOk result ((left : List ℕ) → Between self.new.durable.items self.new.written.items left →
            (i : ℕ) → slice_index self.old.pending.items i ≡ slice_index self.old.written.items i →
            slice_index left i ≡ slice_index self.old.written.items i) }
        ensures long { OnOk result ((left : List ℕ) → Between self.new.durable.items self.new.written.items left →
            length self.old.written.items ≤ length left) }
        ensures pending { OnOk result (self.new.pending.items ≡ self.new.durable.items) }
        ensures crash { IsPending self.old.durable.items self.old.written.items self.old.pending.items →
            (left : List ℕ) → Between self.new.durable.items self.new.written.items left →
            Between self.old.durable.items self.old.written.items left }
        ensures time { Elapses (length self.old.past.items) (length self.new.past.items)
            (LeftSince self.old.past.items self.old.durable.items self.old.written.items)
            (LeftSince self.new.past.items self.new.durable.items self.new.written.items)
            (Between self.new.durable.items self.new.written.items) }
    {
        let durable = sized(self.alloc, &self.pending, self.written.len())?;
        let pending = durable.to_vec(self.alloc)?;
        keep(self.alloc, &mut self.past, &self.durable, &self.written)?;
        self.durable = durable;
        self.pending = pending;
        Ok(())
    }

    /// Makes durable some of what is pending, as it is picked. An Err made nothing durable.
    pub(crate) fn sync_some(&mut self) -> Result<(), AllocError>
        ensures written { self.new.written.items ≡ self.old.written.items }
        ensures crash { IsPending self.old.durable.items self.old.written.items self.old.pending.items →
            (left : List ℕ) → Between self.new.durable.items self.new.written.items left →
            Between self.old.durable.items self.old.written.items left }
        ensures time { Elapses (length self.old.past.items) (length self.new.past.items)
            (LeftSince self.old.past.items self.old.durable.items self.old.written.items)
            (LeftSince self.new.past.items self.new.durable.items self.new.written.items)
            (Between self.new.durable.items self.new.written.items) }
    {
        let all = sized(self.alloc, &self.pending, self.written.len())?;
        let durable = mixed(self.alloc, &mut self.picks, &self.durable, &all)?;
        keep(self.alloc, &mut self.past, &self.durable, &self.written)?;
        self.durable = durable;
        Ok(())
    }

    /// What a loss of power at this moment leaves, as it is picked. It is the whole file from then on, and all of it is
    /// durable.
    pub(crate) fn crash(&self, alloc: Global, picks: &mut Picks) -> Result<Content, AllocError>
        ensures left { IfOk result (λ new. Between self.now.durable.items self.now.written.items new.written.items) }
        ensures durable { IfOk result (λ new. new.durable.items ≡ new.written.items) }
        ensures pending { IfOk result (λ new. new.pending.items ≡ new.durable.items) }
    {
        let left = mixed(alloc, picks, &self.durable, &self.written)?;
        Content::new(alloc, &left, &left, *picks)
    }

    /// The file as who opens it anew finds it: what is written stays, and of what was written a sync brings nothing
    /// more.
    pub(crate) fn kill(&self, alloc: Global) -> Result<Content, AllocError>
        ensures durable { IfOk result (λ new. new.durable.items ≡ self.now.durable.items) }
        ensures pending { IfOk result (λ new. new.pending.items ≡ new.durable.items) }
        ensures written { IfOk result (λ new. new.written.items ≡ self.now.written.items) }
    {
        Content::new(alloc, &self.durable, &self.written, self.picks)
    }
}
