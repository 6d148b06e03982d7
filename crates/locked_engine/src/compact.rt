//! Compacting what puts leave side by side in a shard's layers, while other threads put.
ghost use Rattle.std.specs.Prelude.{◌<◌};

use crate::engine::Engine;
use crate::locked_shard::LockedShard;
use crate::names::Named;
use crate::shard_version::ShardVersion;
use batch_store::Compaction;
use std::alloc::Global;
use std::sync::ledger::Ledger;
use std::sync::{Arc, MutexGuard, Wait};

impl<N: Named, H: Ledger> Engine<N, H> {
    /// Makes the compaction that is due next in some layers of shard s, those from the place `from` on and before
    /// `until`, which count from 0: some of what puts left side by side there is added up. It may wait for other threads
    /// at the shard's lock.
    ///
    /// Under that lock the compaction is begun. It is made without any lock, in the time and memory of a sum of the
    /// cells concerned. Then the lock is taken once more, to put the sum in the place of what was added up and to show
    /// readers the shard with it. Under the lock only pointers are copied, and no cell: what readers were shown before
    /// is freed once the lock was given back, with what only that shared. What the shard holds stays throughout, and
    /// puts go on meanwhile. Where one of them has carried on what was added up, the sum is dropped.
    ///
    /// It answers whether a sum was made. With no other call beside it and no refusal of memory, false says that nothing
    /// is due in these layers. Where memory is refused, what the shard holds and what readers are shown stay as they are,
    /// and a later call tries again. It begins with putting in place what was made before and could not be.
    ///
    /// Any number of threads may call it, and none has to; `put` says what is left then. Two that have the same layers of
    /// a shard may make the same sum twice, so each is to have layers of its own. Whoever puts sums in place takes all
    /// that are made there, also those of others, who then find nothing left to do.
    pub fn compact<R: Wait>(&self, rt: &R, alloc: Global, s: u64, from: usize, until: usize) -> bool
        requires { s < N.setup.shards }
    {
        let Some(compaction) = self.begin(rt, alloc, s, from, until) else {
            return false;
        };
        let is_made = compaction.run(alloc).is_ok();
        if is_made {
            self.settle(rt, alloc, s);
        }
        is_made
    }

    // Puts in place what was made before in shard s, and chooses what is due next in these layers of it.
    fn begin<R: Wait>(
        &self,
        rt: &R,
        alloc: Global,
        s: u64,
        from: usize,
        until: usize,
    ) -> Option<Compaction>
        requires { s < N.setup.shards }
    {
        let mut guard = self.shards[s as usize].lock(rt);
        let locked = &mut *guard;
        let replaced = self.settle_in(rt, alloc, s, locked);
        let begun = locked.begin(alloc, from, until);
        let _ = MutexGuard::unlock(guard);
        drop(replaced);
        begun.ok().flatten()
    }

    // Puts in place what was made in shard s.
    fn settle<R: Wait>(&self, rt: &R, alloc: Global, s: u64)
        requires { s < N.setup.shards }
    {
        let mut guard = self.shards[s as usize].lock(rt);
        let replaced = self.settle_in(rt, alloc, s, &mut guard);
        let _ = MutexGuard::unlock(guard);
        drop(replaced);
    }

    // Puts in place what was made in shard s, whose lock the caller holds, and shows readers the shard with it. It
    // gives what they were shown before, to be freed when no lock is held; None where nothing was put in place, or
    // there was no memory.
    fn settle_in<R: Wait>(
        &self,
        rt: &R,
        alloc: Global,
        s: u64,
        locked: &mut LockedShard<N, H>,
    ) -> Option<Arc<ShardVersion<N>>>
        requires { s < N.setup.shards }
    {
        let version = locked.settle(alloc, s)?;
        Some(self.show(rt, s, version))
    }
}
