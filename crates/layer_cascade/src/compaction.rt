//! What is compacted next in layers, and how a layer takes the place of one that holds the same.
//!
//! Sums are made apart from the layers: a layer in which something is due is exchanged for one that has a place for the
//! sum, and once that is full, for one with the sum. Places of layers count from 0 here.
ghost use Rattle.std.specs.Prelude.{◌≡◌, ◌<◌, IfOk, IfSome, OnOk, Some, length, slice_get};
ghost use Rattle.layer_compaction.specs.Shared.{values};

use layer_compaction::{Compaction, Layer};
use std::alloc::{AllocError, Global};
use std::sync::Arc;

/// A place, a layer that holds the same as the one there and has a place for a sum, and what is to make that sum.
type Beginning = (usize, Layer, Compaction);

/// Puts a layer in the place of one that holds the same.
pub fn exchange(
    layers: &mut [Arc<Layer>],
    place: usize,
    alloc: Global,
    layer: Layer,
) -> Result<(), AllocError>
    requires { slice_get (values layers.old) place ≡ Some layer }
    ensures { values layers.new ≡ values layers.old }
{
    layers[place] = Arc::new(alloc, layer)?;
    Ok(())
}

// The first layer with something due, from one place up to another.
fn first_begun(
    layers: &[Arc<Layer>],
    cuts: &[u64],
    from: usize,
    until: usize,
    alloc: Global,
) -> Result<Option<Beginning>, AllocError>
    ensures { IfOk result (λ next. IfSome next (λ n. slice_get (values layers.now) n.0 ≡ Some n.1)) }
{
    for place in from..until.min(layers.len()) {
        // The last layer has no cut.
        let cut = cuts.get(place).copied().unwrap_or(u64::MAX);
        if let Some((layer, compaction)) = layers[place].begun(alloc, place == 0, cut)? {
            return Ok(Some((place, layer, compaction)));
        }
    }
    Ok(None)
}

// The same from the layer on whose turn it is, and then up to that one.
fn next_begun(
    layers: &[Arc<Layer>],
    cuts: &[u64],
    turn: usize,
    from: usize,
    until: usize,
    alloc: Global,
) -> Result<Option<Beginning>, AllocError>
    ensures { IfOk result (λ next. IfSome next (λ n. slice_get (values layers.now) n.0 ≡ Some n.1)) }
{
    let turn = turn.max(from);
    if let Some(next) = first_begun(layers, cuts, turn, until, alloc)? {
        return Ok(Some(next));
    }
    first_begun(layers, cuts, from, turn.min(until), alloc)
}

/// Begins what is due next in the layers from one place up to another, and tells in which that is; the search begins at
/// `turn`. What the layers hold stays.
pub fn begin_next(
    layers: &mut [Arc<Layer>],
    cuts: &[u64],
    turn: usize,
    from: usize,
    until: usize,
    alloc: Global,
) -> Result<Option<(usize, Compaction)>, AllocError>
    ensures same { values layers.new ≡ values layers.old }
    ensures place { IfOk result (λ begun. IfSome begun (λ b. b.0 < length layers.old)) }
{
    let Some((place, layer, compaction)) = next_begun(layers, cuts, turn, from, until, alloc)?
    else {
        return Ok(None);
    };
    exchange(layers, place, alloc, layer)?;
    Ok(Some((place, compaction)))
}

// A layer takes over the sum that was made for it, if one was.
fn settle_at(layers: &mut [Arc<Layer>], place: usize, alloc: Global) -> Result<bool, AllocError>
    requires { place < length layers.old }
    ensures same { values layers.new ≡ values layers.old }
{
    let Some(layer) = layers[place].compacted(alloc)? else {
        return Ok(false);
    };
    exchange(layers, place, alloc, layer)?;
    Ok(true)
}

/// Each layer takes over the sum that was made for it. Whether any was. What the layers hold stays.
pub fn settle(layers: &mut [Arc<Layer>], alloc: Global) -> Result<bool, AllocError>
    ensures { values layers.new ≡ values layers.old }
{
    let mut settled = false;
    'layers: for place in 0..layers.len() {
        settled = settle_at(layers, place, alloc)? || settled;
    }
    Ok(settled)
}
