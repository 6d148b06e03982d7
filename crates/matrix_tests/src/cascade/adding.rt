//! Additions as the tests make them, where the dimensions are equal and the totals fit.
ghost use Rattle.std.specs.Prelude.{◌≡◌, ◌+◌, ◌<◌, ◌^◌, true};
ghost use Rattle.hyper_matrix.specs.Counts.{total};
ghost use Rattle.layer_compaction.specs.Shared.{content};

use hyper_matrix::Hyper;
use layer_cascade::Layers;
use std::alloc::Global;
use std::process::Abort;

// Whether a matrix can be added to the layers.
fn fits(layers: &Layers, m: &Hyper) -> bool
    ensures rows { result ≡ true → m.now.rows ≡ layers.now.rows }
    ensures cols { result ≡ true → m.now.cols ≡ layers.now.cols }
    ensures total { result ≡ true → total (content layers.now.layers) + total m.now.counts < 2 ^ 64 }
{
    let (rows, cols) = layers.dims();
    let (m_rows, m_cols) = m.dims();
    rows == m_rows && cols == m_cols && layers.total().checked_add(m.total()).is_some()
}

/// Adds a matrix that fits, by a plan.
pub fn add(rt: &impl Abort, alloc: Global, layers: &mut Layers, m: &Hyper) {
    assert!(rt; fits(layers, m));
    let plan = layers.plan(alloc, m).expect(rt, "memory");
    layers.commit(plan);
}
