//! Look-ups in a shard as it was at one moment.
ghost use Rattle.std.specs.Prelude.{◌≡◌, IfOk};
ghost use Rattle.std.specs.FinMap.{get as get_count, len};
ghost use Rattle.hyper_matrix.specs.Counts.{total as total_of};
ghost use Rattle.hyper_matrix.specs.RowOf.{row_of};
ghost use Rattle.layer_cascade.specs.Stored.{seen_layers};
ghost use Rattle.layer_compaction.specs.Shared.{content, values, all_counts};

use crate::view::ShardView;
use hyper_matrix::RowSum;
use layer_compaction::Layer;
use std::alloc::{AllocError, Global};
use std::sync::Arc;

impl ShardView {
    /// The same view once more, which shares all layers with this one. One growth, of a pointer for each layer.
    ///
    /// # Errors
    ///
    /// The growth was refused.
    pub fn again(&self, alloc: Global) -> Result<ShardView, AllocError>
        ensures { IfOk result (λ v. v ≡ self.now) }
    {
        let layers = self.layers.again(alloc)?;
        Ok(ShardView::new(layers, self.record_len))
    }

    /// The layers, the first one first, and after the last one what was handed down: contracts see the last two as one
    /// layer. Constant time.
    pub fn layers(&self) -> &[Arc<Layer>]
        ensures { seen_layers (all_counts (values result.now)) ≡ self.now.layers.layers }
    {
        self.layers.layers()
    }

    /// The count at a place of the sum of the layers, as `Shard::get`. No memory.
    pub fn get(&self, row: u64, col: u64) -> Option<u64>
        ensures { result ≡ get_count (content self.now.layers.layers) (row, col) }
    {
        self.layers.get(row, col)
    }

    /// How many entries a row of that sum has and their counts together, as `Shard::row_total`. No memory.
    pub fn row_total(&self, row: u64) -> RowSum
        ensures entries { result.entries ≡ len (row_of (content self.now.layers.layers) row) }
        ensures total { result.total ≡ total_of (row_of (content self.now.layers.layers) row) }
    {
        self.layers.row_total(row)
    }
}
