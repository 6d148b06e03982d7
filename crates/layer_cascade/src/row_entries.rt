//! How many columns of a row have an entry in the sum of layers, which isn't built for it.
//!
//! The matrices are walked one after the other, from the deepest layer, which has the largest, to the first. A column
//! counts where no matrix that was walked before has an entry. So the largest matrix is counted with no look-up, and
//! only the cells that a row has in the others are looked up. No memory is taken.
ghost use Rattle.std.specs.Prelude.{◌≡◌, ℕ, is_some};
ghost use Rattle.std.specs.FinMap.{get};
ghost use Rattle.hyper_matrix.specs.Counts.{ewise_add};
ghost use Rattle.layer_compaction.specs.Shared.{content, values, all_counts};
ghost use Rattle.layer_cascade.specs.Columns.{HasColumns};

use filtered_matrix::FilteredMatrix;
use hyper_matrix::Hyper;
use layer_compaction::Layer;
use std::sync::Arc;

/// Whether one of these runs has an entry at a place. After the first that has one, none is asked.
pub fn runs_have(runs: &[Arc<FilteredMatrix>], row: u64, col: u64) -> bool
    ensures { result ≡ is_some (get (content (all_counts (values runs.now))) (row, col)) }
{
    let mut have = false;
    'runs: for run in runs {
        have = have || run.get(row, col).is_some();
    }
    have
}

// Whether one of these layers has an entry at a place. Behind the first that has one, none is asked.
fn layers_have(layers: &[Arc<Layer>], row: u64, col: u64) -> bool
    ensures { result ≡ is_some (get (content (all_counts (values layers.now))) (row, col)) }
{
    let mut have = false;
    'layers: for layer in layers {
        have = have || runs_have(layer.runs(), row, col);
    }
    have
}

// The columns of a row that a run has beside the runs before it and the layers behind its own, which have `found`.
fn columns_with_run(
    found: u64,
    run: &Hyper,
    before: &[Arc<FilteredMatrix>],
    deeper: &[Arc<Layer>],
    row: u64,
) -> u64
    requires { HasColumns
        (ewise_add (content (all_counts (values deeper.now))) (content (all_counts (values before.now))))
        run.now.rows row found }
    ensures { HasColumns
        (ewise_add
        (ewise_add (content (all_counts (values deeper.now))) (content (all_counts (values before.now))))
        run.now.counts)
        run.now.rows row result }
{
    let (_, cols) = run.dims();
    if found == 0 {
        // All are new. None is as great as the number of columns.
        let _none = run.first_in_row(row, cols);
        return run.row_total(row).entries;
    }
    let mut columns = found;
    let mut from = 0;
    'columns: while let Some(entry) = run.first_in_row(row, from) {
        if !runs_have(before, row, entry.col) && !layers_have(deeper, row, entry.col) {
            columns += 1;
        }
        from = entry.col + 1;
    }
    columns
}

/// The columns of a row that a layer has beside the layers behind it, which have `found`.
pub fn columns_with_layer(found: u64, layer: &Layer, deeper: &[Arc<Layer>], row: u64) -> u64
    requires { HasColumns (content (all_counts (values deeper.now))) layer.now.rows row found }
    ensures { HasColumns (ewise_add layer.now.counts (content (all_counts (values deeper.now)))) layer.now.rows
        row result }
{
    let runs = layer.runs();
    let mut columns = found;
    'runs: for (i, run) in runs.iter().enumerate() {
        columns = columns_with_run(columns, run.matrix(), &runs[..i], deeper, row);
    }
    columns
}
