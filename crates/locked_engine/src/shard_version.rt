//! What readers of a shard are shown without its lock.
ghost use Rattle.std.specs.Prelude.{◌≡◌, List, IfOk, IfSome, Some};
ghost use Rattle.std.specs.Arc.{arc_value};
ghost use Rattle.std.specs.FinMap.{get};
ghost use Rattle.layer_compaction.specs.Shared.{content};
ghost use Rattle.batch_store.specs.Shards.{Holding, IsReady};
ghost use Rattle.locked_engine.specs.Moments.{IsShardOf, row_sum_in};
ghost use Rattle.plain_engine.specs.Known.{IsBasedOn};
ghost use Rattle.batch_store.specs.Batches.{Submission};
ghost use Rattle.locked_engine.specs.Shown.{IsSightOf, IsOf, IsNext, shown};

use crate::names::Named;
use batch_store::{Prepared, Shard, ShardView};
use hyper_matrix::RowSum;
use std::alloc::{AllocError, Global};
use std::marker::{Model, PhantomData};
use std::sync::Arc;

/// A shard as it was at one moment: its number, and a view of its layers, which it shares.
///
/// Contracts see the number, the layers, and how many batches the record had. They are those of a shard of N's setup,
/// as it keeps itself behind its lock: its base is its part of what was folded when the engine was opened and of batches
/// that were folded since, the layers add up to the base and the parts of the record's batches, each but the last within
/// its cut, no batch twice.
#[derive(Drop)]
pub struct ShardVersion<N: Named> {
    number: u64,
    sight: ShardView,
    of: PhantomData<N>,
}

impl<N: Named> Model for ShardVersion<N> {
    ghost use Rattle.batch_store.specs.Shards.{Holding};
    ghost use Rattle.locked_engine.specs.Shown.{Shown, shown, coded_shown, IsSightOf};

    ghost Value = { Shown };

    ghost coded = { coded_shown };

    ghost view = { λ a. shown a.number a.sight };

    ghost invariant = { λ a. (x : Holding) × IsSightOf N.setup N.opened a.number a.sight x };
}

impl<N: Named> ShardVersion<N> {
    fn new(number: u64, sight: ShardView) -> ShardVersion<N>
        requires { (x : Holding) × IsSightOf N.setup N.opened number sight x }
        ensures { result ≡ shown number sight }
    {
        ShardVersion {
            number,
            sight,
            of: PhantomData,
        }
    }

    /// The shard as it is. Two growths: of a pointer for each layer, and of the version.
    ///
    /// # Errors
    ///
    /// A growth was refused.
    pub fn of_shard(alloc: Global, shard: &Shard) -> Result<Arc<ShardVersion<N>>, AllocError>
        requires setup { shard.now.setup ≡ N.setup }
        requires based { (since : List Submission) × IsBasedOn N.opened N.setup.shards since shard.now }
        ensures { IfOk result (λ a. IsOf shard.now (arc_value a)) }
    {
        let number = shard.number();
        let sight = shard.view(alloc)?;
        let version = Arc::new(alloc, ShardVersion::new(number, sight))?;
        Ok(version)
    }

    /// The shard as it will be once what was prepared is committed, so that nothing has to grow after an admission. Two
    /// growths, as `of_shard`.
    ///
    /// # Errors
    ///
    /// A growth was refused.
    pub fn of_next(
        alloc: Global,
        shard: &Shard,
        p: &Prepared,
    ) -> Result<Arc<ShardVersion<N>>, AllocError>
        requires setup { shard.now.setup ≡ N.setup }
        requires based { (since : List Submission) × IsBasedOn N.opened N.setup.shards since shard.now }
        requires ready { IsReady shard.now p.now }
        ensures { IfOk result (λ a. IsNext shard.now p.now (arc_value a)) }
    {
        let number = shard.number();
        let sight = shard.view_after(alloc, p)?;
        let version = Arc::new(alloc, ShardVersion::new(number, sight))?;
        Ok(version)
    }

    /// The number of the shard. Constant time.
    pub fn number(&self) -> u64
        ensures { result ≡ self.now.number }
    {
        self.number
    }

    /// The count at a place, as `Shard::get`. No memory.
    pub fn cell(&self, row: u64, col: u64) -> Option<u64>
        ensures { IfSome result (λ n. (x : Holding) × IsShardOf N.setup N.opened self.now.number x
            × (get (content x.layers) (row, col) ≡ Some n)) }
    {
        self.sight.get(row, col)
    }

    /// How many entries a row has and their counts together, as `Shard::row_total`. No memory.
    pub fn row(&self, row: u64) -> RowSum
        ensures { (x : Holding) × IsShardOf N.setup N.opened self.now.number x × (result ≡ row_sum_in x row) }
    {
        self.sight.row_total(row)
    }

    /// The view of the shard. Constant time.
    pub fn sight(&self) -> &ShardView
        ensures sight { result.now ≡ self.now.sight }
        ensures kept { (x : Holding) × IsSightOf N.setup N.opened self.now.number result.now x }
    {
        &self.sight
    }
}
