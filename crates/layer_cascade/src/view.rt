//! The layers of one moment, for a reader who takes its time.
//!
//! Layers are never changed in place, so a view is a list of pointers to them: what is added later leaves it as it is,
//! and costs no more for its sake than that a layer that the view shares is copied before it is added to.
ghost use Rattle.std.specs.Prelude.{◌≡◌, IfOk, OnOk};
ghost use Rattle.hyper_matrix.specs.Counts.{ewise_add};
ghost use Rattle.hyper_matrix.specs.Matrix.{matrix};
ghost use Rattle.merged_cells.specs.Within.{LieWithin};
ghost use Rattle.layer_compaction.specs.Shared.{content};
ghost use Rattle.layer_cascade.specs.Layering.{IsLayering};

use crate::layers::Layers;
use hyper_matrix::Hyper;
use merged_cells::Sources;
use std::alloc::{AllocError, Global};
use std::marker::Model;

/// The layers as they were when `Layers::view` was called, whatever is committed or added later.
///
/// It shares all matrices with them, and keeps them from being freed. Contracts see it as the layers of that moment.
#[derive(Drop)]
pub struct LayerView {
    pub(crate) layers: Layers,
}

impl Model for LayerView {
    ghost use Rattle.layer_cascade.specs.Layering.{Layering, coded_layering};

    ghost Value = { Layering };

    ghost coded = { coded_layering };

    ghost view = { λ a. a.layers };
}

impl Layers {
    /// The layers as they are now. Takes one growth, of a pointer for each layer, and time for as many.
    ///
    /// # Errors
    ///
    /// The growth was refused.
    pub fn view(&self, alloc: Global) -> Result<LayerView, AllocError>
        ensures { IfOk result (λ view. view ≡ self.now) }
    {
        let layers = self.share(alloc)?;
        Ok(LayerView { layers })
    }
}

impl LayerView {
    /// The sum of the layers of that moment, as `Layers::sum`.
    ///
    /// # Errors
    ///
    /// A growth was refused.
    pub fn sum(&self, alloc: Global) -> Result<Hyper, AllocError>
        ensures sum { IfOk result (λ m. m ≡ matrix self.now.rows self.now.cols (content self.now.layers)) }
        ensures kept { IsLayering self.now }
    {
        let sum = self.layers.sum(alloc)?;
        Ok(sum)
    }

    /// Adds all matrices of that moment to those whose cells are to be merged: `MergedCells` gives the cells of the
    /// layers' sum then, without a list or a matrix of it. Some 100 bytes for each matrix.
    ///
    /// # Errors
    ///
    /// A growth was refused, or the totals of all that was added pass 2^64 - 1. Some matrices may have been added.
    pub fn add_to<'a>(&'a self, sources: &mut Sources<'a>) -> Result<(), AllocError>
        ensures sum { OnOk result (sources.new ≡ ewise_add sources.old (content self.now.layers)) }
        ensures within { LieWithin self.now.rows self.now.cols sources.old →
            OnOk result (LieWithin self.now.rows self.now.cols sources.new) }
    {
        self.layers.add_to(sources)
    }
}
