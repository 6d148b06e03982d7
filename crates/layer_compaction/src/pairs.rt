//! The last runs of a layer, added up while those before them stay as they are.
//!
//! Done again and again, it leaves few runs, each larger than the next, in the manner of a binary counter.
ghost use Rattle.std.specs.Prelude.{◌≡◌, ◌+◌, ◌<◌, ◌≤◌, ◌^◌, length, take, IfOk, IfSome};
ghost use Rattle.cells.specs.Bounds.{IsDimension};
ghost use Rattle.hyper_matrix.specs.Counts.{total};
ghost use Rattle.layer_compaction.specs.Shared.{content, values, all_counts, HaveDims};

use crate::limits::{FEWEST_DUE, MAX_LISTED};
use crate::lists::{entries_bound, sum_with_runs};
use crate::runs::{run_of, shared_runs};
use filtered_matrix::FilteredMatrix;
use hyper_matrix::Hyper;
use std::alloc::{AllocError, Global};
use std::sync::Arc;

/// The place of the first run that has no more entries than all after it together: from there on all are to be added
/// up. None where there are fewer than `FEWEST_DUE` runs. Only time rests on which it is.
pub fn due_tail(runs: &[Arc<FilteredMatrix>]) -> Option<usize>
    ensures { IfSome result (λ place. place + 1 < length runs.now) }
{
    if runs.len() < FEWEST_DUE {
        return None;
    }
    let mut tail = entries_bound(runs);
    for place in 0..runs.len() {
        let entries = runs[place].matrix().entries();
        let after = tail.saturating_sub(entries);
        if place + 1 < runs.len() && entries <= after {
            return Some(place);
        }
        tail = after;
    }
    None
}

/// How many runs in front stay as they are where runs are added up: the first, if it has at least a third of what all
/// others have together and all have more than `MAX_LISTED`, and else none. Only time rests on it.
pub fn kept_in_front(runs: &[Arc<FilteredMatrix>]) -> usize
    ensures { result ≤ length runs.now }
{
    let Some((first, rest)) = runs.split_first() else {
        return 0;
    };
    let others = entries_bound(rest);
    let entries = first.matrix().entries();
    if entries < others / 3 || entries.saturating_add(others) <= MAX_LISTED {
        return 0;
    }
    1
}

/// The first runs, which are shared, and all others added up into one, without a filter: an addition waits for it.
pub fn with_rest_added(
    runs: &[Arc<FilteredMatrix>],
    kept: usize,
    alloc: Global,
    rows: u64,
    cols: u64,
) -> Result<Vec<Arc<FilteredMatrix>>, AllocError>
    requires kept { kept ≤ length runs.now }
    requires rows { IsDimension rows }
    requires cols { IsDimension cols }
    requires dims { HaveDims rows cols (values runs.now) }
    requires fits { total (content (all_counts (values runs.now))) < 2 ^ 64 }
    ensures content { IfOk result (λ after.
        content (all_counts (values after.items)) ≡ content (all_counts (values runs.now))) }
    ensures dims { IfOk result (λ after. HaveDims rows cols (values after.items)) }
    ensures before { IfOk result (λ after. take kept (values after.items) ≡ take kept (values runs.now)) }
{
    let (front, rest) = runs.split_at(kept);
    let none = Hyper::new(alloc, rows, cols);
    let sum = sum_with_runs(alloc, none, rest)?;
    let run = run_of(alloc, FilteredMatrix::new(alloc, sum))?;
    let mut after = shared_runs(alloc, front, kept + 1)?;
    after.push(run)?;
    Ok(after)
}
