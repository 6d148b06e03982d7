//! The parts of a batch, cut before any shard is asked, and the preparation of a shard for its part.
//!
//! Cutting reads the batch and takes memory, and concerns no shard. So where shards are shared, a put cuts its batch
//! first, and holds a shard only for what needs the shard's layers.
ghost use Rattle.std.specs.Prelude.{◌≡◌, ◌<◌, IfOk, IfErr};
ghost use Rattle.std.specs.Arc.{arc_value};
ghost use Rattle.batch_store.specs.BatchParts.{part_matrix, parts_if_any, unless_empty};
ghost use Rattle.batch_store.specs.Parts.{part_of};
ghost use Rattle.batch_store.specs.Shards.{IsReady, Refuses, Stays};

use crate::batch::Batch;
use crate::fault::ShardFault;
use crate::shard::{Prepared, Shard};
use hyper_matrix::Hyper;
use std::alloc::{AllocError, Global};
use std::sync::Arc;

// A part, and None where it has no cell.
fn unless_empty(part: Hyper) -> Option<Hyper>
    ensures { result ≡ unless_empty part }
{
    if part.entries() == 0 {
        None
    } else {
        Some(part)
    }
}

impl Batch {
    /// The parts of the batch in all shards of `k`, in order, and None for a shard in which none of its cells, a stored
    /// zero neither, lies. One pass over the batch, as `Hyper::parts`.
    ///
    /// # Errors
    ///
    /// A growth was refused.
    pub fn parts(&self, alloc: Global, k: u64) -> Result<Vec<Option<Hyper>>, AllocError>
        requires { 0 < k }
        ensures { IfOk result (λ parts. parts.items ≡ parts_if_any k k self.now) }
    {
        let all = self.matrix.parts(alloc, k)?;
        let mut parts = Vec::with_capacity(alloc, all.len())?;
        'all: for part in all {
            parts.push(unless_empty(part))?;
        }
        Ok(parts)
    }
}

impl Shard {
    /// As `prepare`, of a batch whose part in this shard was cut before. It takes the time and memory of the sums up to
    /// the layer where the cascade ends.
    ///
    /// # Errors
    ///
    /// Those of `prepare`, in the same order.
    pub fn prepare_with(
        &mut self,
        alloc: Global,
        b: &Arc<Batch>,
        part: &Hyper,
    ) -> Result<Prepared, ShardFault>
        requires rows { (arc_value b.now).matrix.rows ≡ self.old.setup.rows }
        requires cols { (arc_value b.now).matrix.cols ≡ self.old.setup.cols }
        requires part { part.now ≡ part_matrix self.old.number self.old.setup.shards (arc_value b.now) }
        ensures stays { Stays self.old self.new }
        ensures batch { IfOk result (λ p. p.batch ≡ arc_value b.now) }
        ensures amount { IfOk result (λ p. p.amount ≡
            part_of self.new.number self.new.setup.shards (arc_value b.now).matrix.counts) }
        ensures ready { IfOk result (IsReady self.new) }
        ensures err { IfErr result (Refuses self.old (arc_value b.now)) }
    {
        let batch: &Batch = b;
        if self.holds(batch.client, batch.number) {
            return Err(ShardFault::AlreadyThere);
        }
        self.prepare_part(alloc, b, part)
    }
}
