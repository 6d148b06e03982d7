//! The addition of a matrix to layers: where its cascade ends, and what the layers are then.
//!
//! The matrix is carried from layer to layer: at each it is put beside what the layer holds, and stays there if all
//! together have at most the cut of entries. Else all goes on, side by side. So no layer above the end is read. All
//! growth is made here, and nothing is changed.
ghost use Rattle.std.specs.Prelude.{◌≡◌, ℕ, suc, ◌+◌, ◌<◌, ◌^◌, ◌++◌, ◌∷◌, IfOk, OnOk, length, drop, replicate};
ghost use Rattle.std.specs.Arc.{arc_value};
ghost use Rattle.hyper_matrix.specs.Counts.{total};
ghost use Rattle.hyper_matrix.specs.Matrix.{matrix};
ghost use Rattle.layer_compaction.specs.Shared.{content, values, all_counts, HaveDims};
ghost use Rattle.layer_cascade.specs.Cascade.{with_first, EndsAt};

use hyper_matrix::Hyper;
use layer_compaction::{Layer, Step};
use std::alloc::{AllocError, Global};
use std::sync::Arc;

/// Where the cascade of a matrix ends.
#[derive(Drop)]
pub struct CascadeEnd {
    /// The layer's number, counted from 0.
    pub place: usize,
    /// What it holds then: the matrix with all layers up to that place.
    pub layer: Layer,
}

/// Finds where the cascade of m ends. Only the layers up to that place are read.
pub fn cascade_end(
    alloc: Global,
    layers: &[Arc<Layer>],
    cuts: &[u64],
    m: &Hyper,
) -> Result<CascadeEnd, AllocError>
    requires count { length layers.now ≡ length cuts.now + 1 }
    requires dims { HaveDims m.now.rows m.now.cols (values layers.now) }
    requires fits { total (content (all_counts (values layers.now))) + total m.now.counts < 2 ^ 64 }
    ensures place { IfOk result (λ s. EndsAt (all_counts (values layers.now)) cuts.now m.now.counts s.place) }
    ensures sum { IfOk result (λ s.
        s.layer ≡ matrix m.now.rows m.now.cols (with_first (all_counts (values layers.now)) m.now.counts s.place)) }
{
    let copy = m.copy(alloc)?;
    let layer = Layer::of(alloc, copy)?;
    end_of_carried(alloc, layers, cuts, layer)
}

// As `cascade_end`, for what a layer holds.
fn end_of_carried(
    alloc: Global,
    layers: &[Arc<Layer>],
    cuts: &[u64],
    m: Layer,
) -> Result<CascadeEnd, AllocError>
    requires count { length layers.now ≡ length cuts.now + 1 }
    requires dims { HaveDims m.rows m.cols (values layers.now) }
    requires fits { total (content (all_counts (values layers.now))) + total m.counts < 2 ^ 64 }
    ensures place { IfOk result (λ s. EndsAt (all_counts (values layers.now)) cuts.now m.counts s.place) }
    ensures sum { IfOk result (λ s.
        s.layer ≡ matrix m.rows m.cols (with_first (all_counts (values layers.now)) m.counts s.place)) }
{
    let mut sum = m;
    'places: for (place, cut) in cuts.iter().enumerate() {
        match layers[place].taking(alloc, sum, *cut)? {
            Step::Ends(layer) => return Ok(CascadeEnd { place, layer }),
            Step::Carries(carried) => sum = carried,
        }
    }
    let place = cuts.len();
    let layer = layers[place].taking_any(alloc, sum)?;
    Ok(CascadeEnd { place, layer })
}

/// Appends n layers that share one matrix.
pub fn push_copies(
    out: &mut Vec<Arc<Layer>>,
    layer: &Arc<Layer>,
    n: usize,
) -> Result<(), AllocError>
    ensures { OnOk result (values out.new.items ≡ values out.old.items ++ replicate n (arc_value layer.now)) }
{
    'copies: for _i in 0..n {
        let copy = Arc::try_clone(layer)?;
        out.push(copy)?;
    }
    Ok(())
}

/// Appends layers that share their matrices with these.
pub fn push_layers(out: &mut Vec<Arc<Layer>>, layers: &[Arc<Layer>]) -> Result<(), AllocError>
    ensures { OnOk result (values out.new.items ≡ values out.old.items ++ values layers.now) }
{
    'layers: for layer in layers {
        let copy = Arc::try_clone(layer)?;
        out.push(copy)?;
    }
    Ok(())
}

/// The layers after an addition: empty before the place where it ends, and shared after it, with what was handed down.
pub fn layers_after(
    alloc: Global,
    layers: &[Arc<Layer>],
    below: &[Arc<Layer>],
    empty: &Arc<Layer>,
    end: CascadeEnd,
) -> Result<Vec<Arc<Layer>>, AllocError>
    requires { end.place < length layers.now }
    ensures { IfOk result (λ after. values after.items
        ≡ (replicate end.place (arc_value empty.now) ++ end.layer ∷ values (drop (suc end.place) layers.now))
        ++ values below.now) }
{
    let mut after = Vec::with_capacity(alloc, layers.len() + below.len())?;
    push_copies(&mut after, empty, end.place)?;
    let layer = Arc::new(alloc, end.layer)?;
    after.push(layer)?;
    push_layers(&mut after, &layers[end.place + 1..])?;
    push_layers(&mut after, below)?;
    Ok(after)
}
