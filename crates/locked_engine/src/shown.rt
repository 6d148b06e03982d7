//! What readers are shown of shards: of each the version after its last commit, behind a small lock of its own.
//!
//! Whoever has committed to a shard, or added up in it, exchanges its version before it gives the shard's lock back. So
//! the versions of a shard are shown in the order of its commits, and a batch is shown in all its shards before its put
//! is answered. A reader copies a pointer, and reads when it holds no lock.
ghost use Rattle.std.specs.Prelude.{◌≡◌, ◌<◌, IfOk, IfSome, vec_len};
ghost use Rattle.std.specs.Arc.{arc_value};

use crate::engine::Engine;
use crate::names::Named;
use crate::shard_version::ShardVersion;
use plain_engine::PlainEngine;
use std::alloc::{AllocError, Global};
use std::mem;
use std::sync::ledger::Ledger;
use std::sync::{Arc, Mutex, MutexGuard, Wait};

impl<N: Named, H: Ledger> Engine<N, H> {
    /// Shows readers of shard s this version, and gives what they were shown before, so that it is freed when no lock
    /// is held. The caller holds the shard's lock. No memory.
    pub(crate) fn show<R: Wait>(
        &self,
        rt: &R,
        s: u64,
        version: Arc<ShardVersion<N>>,
    ) -> Arc<ShardVersion<N>>
        requires place { s < N.setup.shards }
        requires number { (arc_value version).number ≡ s }
    {
        let mut shown = self.shown[s as usize].lock(rt);
        mem::replace(&mut *shown, version)
    }

    /// The version that readers of shard s are shown. None where the pointer can't be copied, since too many copies are
    /// in use, or the shard that is shown has another number. It waits at most for others to copy or exchange this
    /// pointer, and takes no memory. Whoever drops the last copy of a version frees what only that shared.
    pub(crate) fn version<R: Wait>(&self, rt: &R, s: u64) -> Option<Arc<ShardVersion<N>>>
        requires { s < N.setup.shards }
        ensures { IfSome result (λ a. (arc_value a).number ≡ s) }
    {
        let shown = self.shown[s as usize].lock(rt);
        let version: &Arc<ShardVersion<N>> = &shown;
        let copy = Arc::try_clone(version);
        let _ = MutexGuard::unlock(shown);
        let version = copy.ok()?;
        if version.number() == s {
            Some(version)
        } else {
            None
        }
    }
}

// A version of a shard of an engine of one thread.
fn first_version<N: Named>(
    alloc: Global,
    plain: &PlainEngine,
    s: u64,
) -> Result<Arc<ShardVersion<N>>, AllocError>
    requires setup { plain.now.setup ≡ N.setup }
    requires opened { plain.now.book.state ≡ N.opened }
{
    // Any call on it tells what it keeps.
    let _setup = plain.setup();
    match plain.shard(s) {
        Some(shard) => ShardVersion::of_shard(alloc, shard),
        None => Err(AllocError),
    }
}

/// Of each shard, in order, what readers are shown, behind a lock.
pub(crate) type FirstVersions<N> = Vec<Mutex<Arc<ShardVersion<N>>>>;

/// A version of each shard of an engine of one thread, in order, each behind a lock.
///
/// # Errors
///
/// A growth was refused.
pub(crate) fn first_versions<N: Named>(
    alloc: Global,
    plain: &PlainEngine,
) -> Result<FirstVersions<N>, AllocError>
    requires setup { plain.now.setup ≡ N.setup }
    requires opened { plain.now.book.state ≡ N.opened }
    ensures { IfOk result (λ versions. vec_len versions ≡ N.setup.shards) }
{
    let k = plain.setup().shards();
    let mut versions = Vec::with_capacity(alloc, k as usize)?;
    'shards: for s in 0..k {
        let version = first_version(alloc, plain, s)?;
        versions.push(Mutex::new(version))?;
    }
    Ok(versions)
}
