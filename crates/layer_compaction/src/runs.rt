//! The runs of a layer: matrices of the same dimensions side by side, each shared and never changed. They stand for
//! their sum, which is built only where it has to be known what they hold together.
ghost use Rattle.std.specs.Prelude.{◌≡◌, ℕ, ◌+◌, ◌<◌, ◌≤◌, ◌^◌, ◌⊎◌, ◌++◌, ◌∷◌, T, length, map, IfOk, OnOk};
ghost use Rattle.std.specs.Arc.{arc_value};
ghost use Rattle.std.specs.FinMap.{get, len, entries, is_sorted};
ghost use Rattle.cells.specs.Bounds.{IsDimension};
ghost use Rattle.hyper_matrix.specs.Cells.{entry_of};
ghost use Rattle.hyper_matrix.specs.Counts.{ewise_add, total, place_cmp};
ghost use Rattle.hyper_matrix.specs.Matrix.{matrix};
ghost use Rattle.hyper_matrix.specs.RowOf.{row_of};
ghost use Rattle.layer_compaction.specs.Shared.{content, values, all_counts, HaveDims};
ghost use Rattle.layer_compaction.specs.Runs.{count_new, CountsPlaces};

use crate::limits::{LONGEST_LIST, WALKED_RATIO};
use crate::lists::{entries_bound, list_with_runs};
use crate::lookup::plus;
use crate::walk::{keep_new, new_beside};
use cells::Cell;
use filtered_matrix::FilteredMatrix;
use hyper_matrix::Hyper;
use std::alloc::{AllocError, Global};
use std::sync::Arc;

/// Appends runs that share their matrices with these.
pub fn push_runs(
    out: &mut Vec<Arc<FilteredMatrix>>,
    runs: &[Arc<FilteredMatrix>],
) -> Result<(), AllocError>
    ensures { OnOk result (values out.new.items ≡ values out.old.items ++ values runs.now) }
{
    'runs: for run in runs {
        let copy = Arc::try_clone(run)?;
        out.push(copy)?;
    }
    Ok(())
}

/// A matrix as a run.
pub fn run_of(alloc: Global, m: FilteredMatrix) -> Result<Arc<FilteredMatrix>, AllocError>
    ensures { IfOk result (λ run. arc_value run ≡ m) }
{
    let run = Arc::new(alloc, m)?;
    Ok(run)
}

/// These runs, shared, in a list with room for so many at least.
pub fn shared_runs(
    alloc: Global,
    runs: &[Arc<FilteredMatrix>],
    room: usize,
) -> Result<Vec<Arc<FilteredMatrix>>, AllocError>
    ensures { IfOk result (λ shared. values shared.items ≡ values runs.now) }
{
    let mut shared = Vec::with_capacity(alloc, room)?;
    push_runs(&mut shared, runs)?;
    Ok(shared)
}

/// A run between others, which are shared.
pub fn with_run_between(
    alloc: Global,
    before: &[Arc<FilteredMatrix>],
    run: Arc<FilteredMatrix>,
    behind: &[Arc<FilteredMatrix>],
) -> Result<Vec<Arc<FilteredMatrix>>, AllocError>
    ensures { IfOk result (λ all. values all.items ≡ values before.now ++ arc_value run ∷ values behind.now) }
{
    let mut all = shared_runs(alloc, before, before.len() + behind.len() + 1)?;
    all.push(run)?;
    push_runs(&mut all, behind)?;
    Ok(all)
}

/// The count at a place of the runs' sum, or None where no run has an entry.
pub fn count_in(runs: &[Arc<FilteredMatrix>], row: u64, col: u64) -> Option<u64>
    requires { total (content (all_counts (values runs.now))) < 2 ^ 64 }
    ensures value { result ≡ get (content (all_counts (values runs.now))) (row, col) }
    ensures outside { (rows : ℕ) (cols : ℕ) → HaveDims rows cols (values runs.now) →
        (rows ≤ row) ⊎ (cols ≤ col) → result ≡ None }
{
    let mut count = None;
    'counts: for run in runs {
        count = plus(count, run.get(row, col));
    }
    count
}

/// The sum of the counts of a row in all runs.
pub fn row_counts_in(runs: &[Arc<FilteredMatrix>], row: u64) -> u64
    requires { total (content (all_counts (values runs.now))) < 2 ^ 64 }
    ensures value { result ≡ total (row_of (content (all_counts (values runs.now))) row) }
    ensures outside { (rows : ℕ) (cols : ℕ) → HaveDims rows cols (values runs.now) → rows ≤ row → result ≡ 0 }
{
    let mut sum = 0;
    'rows: for run in runs {
        sum += run.matrix().row_total(row).total;
    }
    sum
}

/// How many entries a matrix has at places where none of these runs has one. Beside one run, of which it has no small
/// part, both are walked through; else each of its cells is looked up in each run.
pub fn new_entries(before: &[Arc<FilteredMatrix>], m: &Hyper) -> u64
    requires { total (content (all_counts (values before.now))) < 2 ^ 64 }
    ensures { result ≡ count_new (content (all_counts (values before.now))) (entries m.now.counts) }
{
    match before {
        [] => m.entries(),
        [run] if run.matrix().entries() / WALKED_RATIO <= m.entries() => new_beside(
            run.matrix(),
            m,
        ),
        _ => new_by_look_ups(before, m),
    }
}

// As `new_entries`, where each cell is looked up.
fn new_by_look_ups(before: &[Arc<FilteredMatrix>], m: &Hyper) -> u64
    requires { total (content (all_counts (values before.now))) < 2 ^ 64 }
    ensures { result ≡ count_new (content (all_counts (values before.now))) (entries m.now.counts) }
{
    // They fit 64 bits, so the new ones do.
    let _bound = m.entries();
    let mut new = 0;
    'cells: for cell in m.iter() {
        if count_in(before, cell.row, cell.col).is_none() {
            new += 1;
        }
    }
    new
}

/// As `new_entries`. Beside several runs, of which it has no small part, each is walked through with a list of the
/// matrix's cells, which keeps those that are new: a look-up in each run would take longer.
///
/// The list takes 24 bytes for each cell of the matrix.
pub fn new_by_walks(
    alloc: Global,
    before: &[Arc<FilteredMatrix>],
    m: &Hyper,
) -> Result<u64, AllocError>
    requires { total (content (all_counts (values before.now))) < 2 ^ 64 }
    ensures { IfOk result (λ new. new ≡ count_new (content (all_counts (values before.now))) (entries m.now.counts)) }
{
    let ratio = WALKED_RATIO.saturating_mul(before.len() as u64);
    if before.len() <= 1 || entries_bound(before) / ratio > m.entries() {
        return Ok(new_entries(before, m));
    }
    let mut cells = Vec::new(alloc);
    m.push_cells(&mut cells)?;
    let new = new_in_list(before, cells);
    Ok(new)
}

// How many cells of a list in order stand at places where none of these runs has an entry: a walk through each run and
// what is left of the list.
fn new_in_list(before: &[Arc<FilteredMatrix>], cells: Vec<Cell>) -> u64
    requires order { T (is_sorted place_cmp (map entry_of cells.items)) }
    ensures { result ≡ count_new (content (all_counts (values before.now))) (map entry_of cells.items) }
{
    let mut cells = cells;
    'runs: for run in before {
        let kept = keep_new(&mut cells, run.matrix());
        cells.truncate(kept);
    }
    cells.len() as u64
}

// How many entries the sum of runs has at places where none of those before them has one. The sum is made as a list.
fn new_together(
    alloc: Global,
    before: &[Arc<FilteredMatrix>],
    rest: &[Arc<FilteredMatrix>],
) -> Result<u64, AllocError>
    requires { total (content (all_counts (values rest.now))) < 2 ^ 64 }
    ensures { IfOk result (λ new. new
        ≡ count_new (content (all_counts (values before.now))) (entries (content (all_counts (values rest.now))))) }
{
    let cells = list_with_runs(alloc, &[], rest)?;
    let new = new_in_list(before, cells);
    Ok(new)
}

// The number of entries of the sum of the first `until` runs, of which `places` are those of the first `counted`
// together: each run between is counted by `new_by_walks`.
fn places_by_walks(
    alloc: Global,
    runs: &[Arc<FilteredMatrix>],
    counted: usize,
    places: u64,
    until: usize,
) -> Result<u64, AllocError>
    requires counts { CountsPlaces counted places (values runs.now) }
    requires order { counted ≤ until }
    requires within { until ≤ length runs.now }
    requires fits { total (content (all_counts (values runs.now))) < 2 ^ 64 }
    requires few { len (content (all_counts (values runs.now))) < 2 ^ 64 }
    ensures { IfOk result (λ all. CountsPlaces until all (values runs.now)) }
{
    let mut places = places;
    'runs: for i in counted..until {
        places += new_by_walks(alloc, &runs[..i], runs[i].matrix())?;
    }
    Ok(places)
}

// The same, where all between are counted together.
fn places_by_list(
    alloc: Global,
    runs: &[Arc<FilteredMatrix>],
    counted: usize,
    places: u64,
    until: usize,
) -> Result<u64, AllocError>
    requires counts { CountsPlaces counted places (values runs.now) }
    requires order { counted ≤ until }
    requires within { until ≤ length runs.now }
    requires fits { total (content (all_counts (values runs.now))) < 2 ^ 64 }
    requires few { len (content (all_counts (values runs.now))) < 2 ^ 64 }
    ensures { IfOk result (λ all. CountsPlaces until all (values runs.now)) }
{
    let (known, _behind) = runs.split_at(until);
    let (before, rest) = known.split_at(counted);
    let new = new_together(alloc, before, rest)?;
    Ok(places + new)
}

/// The number of entries of the sum of the first `until` runs, of which `places` are those of the first `counted`
/// together.
///
/// Where none is counted, the first takes no time. A single one between is counted as `new_by_walks` does it, and so is
/// each of several that have more than `LONGEST_LIST` cells. Else these are counted together, which takes a list of
/// their cells, 24 bytes for each and as much again while they are merged, and a walk through each run before.
pub fn places_to(
    alloc: Global,
    runs: &[Arc<FilteredMatrix>],
    counted: usize,
    places: u64,
    until: usize,
) -> Result<u64, AllocError>
    requires counts { CountsPlaces counted places (values runs.now) }
    requires order { counted ≤ until }
    requires within { until ≤ length runs.now }
    requires fits { total (content (all_counts (values runs.now))) < 2 ^ 64 }
    requires few { len (content (all_counts (values runs.now))) < 2 ^ 64 }
    ensures { IfOk result (λ all. CountsPlaces until all (values runs.now)) }
{
    let first = counted.max(1).min(until);
    let places = places_by_walks(alloc, runs, counted, places, first)?;
    let rest = &runs[first..until];
    if rest.len() <= 1 || entries_bound(rest) > LONGEST_LIST {
        let all = places_by_walks(alloc, runs, first, places, until)?;
        return Ok(all);
    }
    let all = places_by_list(alloc, runs, first, places, until)?;
    Ok(all)
}

/// The number of entries of the runs' sum, which isn't built: `places`, those of the first `counted` runs together, and
/// those of each run behind them that no earlier run has. The first run takes constant time, and the second a step for
/// each cell of both. Each cell of the third and those behind it takes a look-up in each earlier run.
pub fn entries_in(runs: &[Arc<FilteredMatrix>], counted: usize, places: u64) -> u64
    requires counts { CountsPlaces counted places (values runs.now) }
    requires fits { total (content (all_counts (values runs.now))) < 2 ^ 64 }
    requires few { len (content (all_counts (values runs.now))) < 2 ^ 64 }
    ensures { result ≡ len (content (all_counts (values runs.now))) }
{
    let mut entries = places;
    'runs: for i in counted..runs.len() {
        entries += new_entries(&runs[..i], runs[i].matrix());
    }
    entries
}
