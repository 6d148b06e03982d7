//! Which matrices have a filter of their places beside them, and where one is made.
//!
//! A look-up asks every run of every layer, and most have no entry at the place: a filter mostly answers that from one
//! word, where a bisection reads several that no cache holds. A run that is soon added up with others, or whose filter
//! would hold up an addition, goes without one, and may get it later. Only time rests on which have one.
ghost use Rattle.std.specs.Prelude.{◌≡◌, ◌<◌, ◌∷◌, [], length, IfOk, IfSome};
ghost use Rattle.std.specs.Arc.{arc_value};
ghost use Rattle.layer_compaction.specs.Shared.{values};

use crate::limits::FEWEST_FILTERED;
use crate::runs::run_of;
use filtered_matrix::FilteredMatrix;
use hyper_matrix::Hyper;
use std::alloc::{AllocError, Global};
use std::sync::Arc;

// The matrix with a filter, where it has `FEWEST_FILTERED` entries or more, and else without one.
fn filtered(alloc: Global, m: Hyper) -> Result<FilteredMatrix, AllocError>
    ensures { IfOk result (λ filtered. filtered ≡ m) }
{
    if m.entries() < FEWEST_FILTERED {
        return Ok(FilteredMatrix::new(alloc, m));
    }
    FilteredMatrix::with_filter(alloc, m)
}

/// As `filtered`, as a run.
pub fn filtered_run(alloc: Global, m: Hyper) -> Result<Arc<FilteredMatrix>, AllocError>
    ensures { IfOk result (λ run. arc_value run ≡ m) }
{
    let filtered = filtered(alloc, m)?;
    run_of(alloc, filtered)
}

/// A run as the only one.
pub fn single_run(
    alloc: Global,
    run: Arc<FilteredMatrix>,
) -> Result<Vec<Arc<FilteredMatrix>>, AllocError>
    ensures { IfOk result (λ runs. values runs.items ≡ arc_value run ∷ []) }
{
    let mut runs = Vec::with_capacity(alloc, 1)?;
    runs.push(run)?;
    Ok(runs)
}

/// The place of the first run without a filter that has `FEWEST_FILTERED` entries or more.
pub fn first_unfiltered(runs: &[Arc<FilteredMatrix>]) -> Option<usize>
    ensures { IfSome result (λ place. place < length runs.now) }
{
    for place in 0..runs.len() {
        let run = &runs[place];
        if !run.has_filter() && run.matrix().entries() >= FEWEST_FILTERED {
            return Some(place);
        }
    }
    None
}
