//! A shard as it was at one moment, to be read outside the shard's lock.
ghost use Rattle.std.specs.Prelude.{◌≡◌, IfOk, OnOk};
ghost use Rattle.hyper_matrix.specs.Counts.{ewise_add};
ghost use Rattle.hyper_matrix.specs.Matrix.{matrix};
ghost use Rattle.merged_cells.specs.Within.{LieWithin};
ghost use Rattle.layer_compaction.specs.Shared.{content};

use hyper_matrix::Hyper;
use layer_cascade::LayerView;
use merged_cells::Sources;
use std::alloc::{AllocError, Global};
use std::marker::Model;

/// The layers of a shard and the length of its record, as they were when `Shard::view` was called. It shares all layers
/// with the shard.
///
/// Contracts see both.
#[derive(Drop)]
pub struct ShardView {
    pub(crate) layers: LayerView,
    pub(crate) record_len: u64,
}

impl Model for ShardView {
    ghost use Rattle.batch_store.specs.Shards.{Sight, coded_sight};

    ghost Value = { Sight };

    ghost coded = { coded_sight };

    ghost view = { λ a. record { layers = a.layers; record_len = a.record_len } };
}

impl ShardView {
    pub(crate) fn new(layers: LayerView, record_len: u64) -> ShardView
        ensures layers { result.layers ≡ layers }
        ensures record { result.record_len ≡ record_len }
    {
        ShardView { layers, record_len }
    }

    /// The number of batches that were in the record. Constant time.
    pub fn record_len(&self) -> u64
        ensures { result ≡ self.now.record_len }
    {
        self.record_len
    }

    /// The sum of the layers, which is that of the parts of those batches. The time and memory of a sum of all layers.
    ///
    /// # Errors
    ///
    /// A growth was refused.
    pub fn sum(&self, alloc: Global) -> Result<Hyper, AllocError>
        ensures { IfOk result (λ m. m ≡
            matrix self.now.layers.rows self.now.layers.cols (content self.now.layers.layers)) }
    {
        let sum = self.layers.sum(alloc)?;
        Ok(sum)
    }

    /// Adds all matrices of all layers to those whose cells are to be merged, as `LayerView::add_to`.
    ///
    /// # Errors
    ///
    /// A growth was refused, or the totals of all that was added pass 2^64 - 1. Some matrices may have been added.
    pub fn add_to<'a>(&'a self, sources: &mut Sources<'a>) -> Result<(), AllocError>
        ensures sum { OnOk result (sources.new ≡ ewise_add sources.old (content self.now.layers.layers)) }
        ensures within { LieWithin self.now.layers.rows self.now.layers.cols sources.old →
            OnOk result (LieWithin self.now.layers.rows self.now.layers.cols sources.new) }
    {
        self.layers.add_to(sources)
    }
}
