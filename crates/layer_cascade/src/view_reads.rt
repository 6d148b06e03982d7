//! Look-ups in the layers of one moment, and views of what an addition will leave.
ghost use Rattle.std.specs.Prelude.{◌≡◌, IfOk};
ghost use Rattle.std.specs.FinMap.{get, len};
ghost use Rattle.hyper_matrix.specs.Counts.{total};
ghost use Rattle.hyper_matrix.specs.RowOf.{row_of};
ghost use Rattle.layer_compaction.specs.Shared.{content, values, all_counts};
ghost use Rattle.layer_cascade.specs.Stored.{seen_layers, lowest};

use crate::layers::Plan;
use crate::view::LayerView;
use hyper_matrix::RowSum;
use layer_compaction::Layer;
use std::alloc::{AllocError, Global};
use std::sync::Arc;

impl Plan {
    /// The layers that `Layers::commit` will leave, for a reader. So the growth of a view is made before the commit:
    /// of a pointer for each layer, in as much time.
    ///
    /// # Errors
    ///
    /// The growth was refused. The plan is as before.
    pub fn view(&self, alloc: Global) -> Result<LayerView, AllocError>
        ensures { IfOk result (λ view. view ≡ self.now) }
    {
        let layers = self.after.share(alloc)?;
        Ok(LayerView { layers })
    }
}

impl LayerView {
    /// The same view once more. One growth, of a pointer for each layer.
    ///
    /// # Errors
    ///
    /// The growth was refused.
    pub fn again(&self, alloc: Global) -> Result<LayerView, AllocError>
        ensures { IfOk result (λ view. view ≡ self.now) }
    {
        self.layers.view(alloc)
    }

    /// The layers of that moment, the first one first, and after the last one what was handed down: contracts see the
    /// last two as one layer. Constant time.
    pub fn layers(&self) -> &[Arc<Layer>]
        ensures seen { seen_layers (all_counts (values result.now)) ≡ self.now.layers }
        ensures below { lowest (all_counts (values result.now)) ≡ self.now.below }
    {
        self.layers.all()
    }

    /// The count at a place of the sum of the layers of that moment, as `Layers::get`. No memory.
    pub fn get(&self, row: u64, col: u64) -> Option<u64>
        ensures { result ≡ get (content self.now.layers) (row, col) }
    {
        self.layers.get(row, col)
    }

    /// The entries of a row of that sum and their counts together, as `Layers::row_total`. No memory.
    pub fn row_total(&self, row: u64) -> RowSum
        ensures entries { result.entries ≡ len (row_of (content self.now.layers) row) }
        ensures total { result.total ≡ total (row_of (content self.now.layers) row) }
    {
        self.layers.row_total(row)
    }
}
