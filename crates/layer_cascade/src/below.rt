//! What was handed down: matrices below the layers, which no addition and no compaction reaches.
//!
//! All layers are handed down together, by pointers, and empty ones take over from them. So their sum can be made
//! without the layers, and exchanged for them later, whatever was added meanwhile.
ghost use Rattle.std.specs.Prelude.{◌≡◌, ◌+◌, ◌<◌, ◌^◌, IfOk, is_some, true};
ghost use Rattle.std.specs.FinMap.{entries, get, len};
ghost use Rattle.cells.specs.Bounds.{IsDimension};
ghost use Rattle.hyper_matrix.specs.Counts.{ewise_add, total};
ghost use Rattle.hyper_matrix.specs.Matrix.{matrix};
ghost use Rattle.layer_cascade.specs.Stored.{lowest, seen_layers};
ghost use Rattle.layer_compaction.specs.Runs.{count_new};
ghost use Rattle.layer_compaction.specs.Shared.{content, values, all_counts, HaveDims};

use crate::row_entries::runs_have;
use filtered_matrix::FilteredMatrix;
use hyper_matrix::Hyper;
use layer_compaction::Layer;
use std::alloc::{AllocError, Global};
use std::sync::Arc;

/// The matrices of all these layers side by side in one, of which none is due. They are shared: takes the time and
/// memory of a pointer for each.
pub fn side_by_side(
    alloc: Global,
    layers: &[Arc<Layer>],
    rows: u64,
    cols: u64,
) -> Result<Layer, AllocError>
    requires rows { IsDimension rows }
    requires cols { IsDimension cols }
    requires dims { HaveDims rows cols (values layers.now) }
    requires fits { total (content (all_counts (values layers.now))) < 2 ^ 64 }
    ensures { IfOk result (λ all. all ≡ matrix rows cols (content (all_counts (values layers.now)))) }
{
    let mut all = Layer::new(alloc, rows, cols);
    'layers: for layer in layers {
        all = layer.over(alloc, all)?;
    }
    Ok(all)
}

// Whether what lies below or one of these runs has an entry at a place.
fn have_either(before: &[Arc<FilteredMatrix>], below: &Layer, row: u64, col: u64) -> bool
    ensures { result ≡
        is_some (get (ewise_add below.now.counts (content (all_counts (values before.now)))) (row, col)) }
{
    runs_have(below.runs(), row, col) || runs_have(before, row, col)
}

// How many entries a matrix has at places where neither what lies below nor one of these runs has one.
fn new_over(before: &[Arc<FilteredMatrix>], below: &Layer, m: &Hyper) -> u64
    ensures { result ≡
        count_new (ewise_add below.now.counts (content (all_counts (values before.now)))) (entries m.now.counts) }
{
    // They fit 64 bits, so the new ones do.
    let _bound = m.entries();
    let mut new = 0;
    'cells: for cell in m.iter() {
        if !have_either(before, below, cell.row, cell.col) {
            new += 1;
        }
    }
    new
}

/// Whether the entries of the last layer, with what lies below it, are surely fewer than 2^64: more would need more memory
/// than there is. The stored layers end with both.
pub fn are_countable(layers: &[Arc<Layer>]) -> bool
    ensures { result ≡ true → len (lowest (seen_layers (all_counts (values layers.now)))) < 2 ^ 64 }
{
    let Some(last) = layers.len().checked_sub(2) else {
        return false;
    };
    let (own, below) = (layers[last].most_entries(), layers[last + 1].most_entries());
    if own > u64::MAX - below {
        return false;
    }
    true
}

/// The number of entries of the sum of a layer and what lies below it: each cell of the layer's matrices is looked up
/// below and in those before its own.
pub fn entries_over(layer: &Layer, below: &Layer) -> u64
    requires { len (ewise_add layer.now.counts below.now.counts) < 2 ^ 64 }
    ensures { result ≡ len (ewise_add layer.now.counts below.now.counts) }
{
    let runs = layer.runs();
    let mut entries = below.entries();
    'runs: for (i, run) in runs.iter().enumerate() {
        entries += new_over(&runs[..i], below, run.matrix());
    }
    entries
}
