//! One layer: matrices side by side, which are added up only where it has to be known what they hold together.
//!
//! Where a small matrix is added at once to a larger one, all cells of that are written anew. Here it is put beside the
//! others, which costs a pointer for each of them, as long as their entries together are no more than the cut: those of
//! the sum can't be more. Then few cells become one matrix; of more the places are counted, and whether the layer keeps
//! them or they go on, their sum isn't built. What was counted stays known as long as the same runs stand in front.
ghost use Rattle.std.specs.Prelude.{◌≡◌, ℕ, ◌+◌, ◌<◌, ◌≤◌, ◌^◌, ◌⊎◌, IfOk, OnOk, IfSome};
ghost use Rattle.std.specs.Arc.{arc_value};
ghost use Rattle.std.specs.FinMap.{empty, get, len};
ghost use Rattle.cells.specs.Bounds.{IsDimension, AreWithin};
ghost use Rattle.hyper_matrix.specs.Cells.{built_of};
ghost use Rattle.hyper_matrix.specs.Counts.{ewise_add, total};
ghost use Rattle.hyper_matrix.specs.Matrix.{matrix};
ghost use Rattle.hyper_matrix.specs.RowOf.{row_of};
ghost use Rattle.merged_cells.specs.Within.{LieWithin};
ghost use Rattle.layer_compaction.specs.Shared.{content, values, all_counts, HaveDims};
ghost use Rattle.layer_compaction.specs.Runs.{CountsPlaces};
ghost use Rattle.layer_compaction.specs.Steps.{joined, Takes};
ghost use Rattle.layer_compaction.specs.Due.{IsDue};

use crate::due::{Compaction, Due, begun, copied, due_runs};
use crate::filters::{filtered_run, single_run};
use crate::limits::{MAX_COUNTED, MAX_LISTED, MAX_RUNS};
use crate::lists::{add_runs, entries_bound, push_cells_of, sum_with_runs};
use crate::pairs::{kept_in_front, with_rest_added};
use crate::runs::{count_in, entries_in, places_to, push_runs, row_counts_in, run_of, shared_runs};
use cells::Cell;
use filtered_matrix::FilteredMatrix;
use hyper_matrix::Hyper;
use merged_cells::Sources;
use std::alloc::{AllocError, Global};
use std::marker::Model;
use std::sync::Arc;

/// What one layer holds: the sum of its runs, at most `MAX_RUNS`.
///
/// Contracts see it as that sum, a matrix.
#[derive(Drop)]
pub struct Layer {
    rows: u64,
    cols: u64,
    // The total of all runs.
    total: u64,
    // At least the number of entries of the sum: that number as it was counted last, and the entries of the runs that
    // were put beside the others since.
    most: u64,
    // Of how many runs in front the places are counted, and the entries of their sum, which what is put behind them
    // doesn't change.
    counted: usize,
    places: u64,
    runs: Vec<Arc<FilteredMatrix>>,
    // The runs that a compaction was begun of, and the place for their sum.
    due: Option<Due>,
}

impl Model for Layer {
    ghost use Rattle.hyper_matrix.specs.Matrix.{Matrix, matrix, coded_matrix};
    ghost use Rattle.layer_compaction.specs.Shared.{content, values, all_counts};
    ghost use Rattle.layer_compaction.specs.Runs.{KeepsRuns, CountsPlaces};
    ghost use Rattle.layer_compaction.specs.Due.{IsDue};
    ghost use Rattle.std.specs.Prelude.{IfSome};

    ghost Value = { Matrix };

    ghost coded = { coded_matrix };

    ghost view = { λ a. matrix a.rows a.cols (content (all_counts (values a.runs.items))) };

    ghost invariant = { λ a.
        KeepsRuns a.rows a.cols a.total a.most (values a.runs.items)
        × CountsPlaces a.counted a.places (values a.runs.items)
        × IfSome a.due (λ d. IsDue a.rows a.cols d (values a.runs.items)) };
}

/// What an addition comes to at one layer.
#[derive(Drop)]
pub enum Step {
    /// It ends: the layer holds what was carried to it too.
    Ends(Layer),
    /// Both together have more entries than the cut. They go to the next layer, side by side.
    Carries(Layer),
}

impl Layer {
    /// The layer that holds nothing. It takes no memory.
    pub fn new(alloc: Global, rows: u64, cols: u64) -> Layer
        requires rows { IsDimension rows }
        requires cols { IsDimension cols }
        ensures { result ≡ matrix rows cols empty }
    {
        Layer {
            rows,
            cols,
            total: 0,
            most: 0,
            counted: 0,
            places: 0,
            runs: Vec::new(alloc),
            due: None,
        }
    }

    /// The layer of one matrix, without a filter: an addition waits for it.
    pub fn of(alloc: Global, m: Hyper) -> Result<Layer, AllocError>
        ensures { IfOk result (λ layer. layer ≡ m) }
    {
        let run = run_of(alloc, FilteredMatrix::new(alloc, m))?;
        Layer::of_run(alloc, run)
    }

    /// The layer of one matrix that is to lie there for long: with a filter, where it has from `FEWEST_FILTERED` entries
    /// on. It takes 1 to 2 bytes and some nanoseconds for each entry.
    ///
    /// # Errors
    ///
    /// A growth was refused.
    pub fn base(alloc: Global, m: Hyper) -> Result<Layer, AllocError>
        ensures { IfOk result (λ layer. layer ≡ m) }
    {
        let run = filtered_run(alloc, m)?;
        Layer::of_run(alloc, run)
    }

    // The layer of one run.
    fn of_run(alloc: Global, run: Arc<FilteredMatrix>) -> Result<Layer, AllocError>
        ensures { IfOk result (λ layer. layer ≡ arc_value run) }
    {
        let m = run.matrix();
        let (rows, cols) = m.dims();
        let (total, most) = (m.total(), m.entries());
        let runs = single_run(alloc, run)?;
        Ok(Layer {
            rows,
            cols,
            total,
            most,
            counted: 1,
            places: most,
            runs,
            due: None,
        })
    }

    /// The sum of all counts. Constant time.
    pub fn total(&self) -> u64
        ensures value { result ≡ total self.now.counts }
        ensures fits { total self.now.counts < 2 ^ 64 }
    {
        self.total
    }

    /// A bound of the entries of the sum, which may be less than the entries of all runs together. Constant time.
    pub fn most_entries(&self) -> u64
        ensures { len self.now.counts ≤ result }
    {
        self.most
    }

    /// The number of entries: constant time where all runs are counted. Else each cell of those that aren't takes a
    /// look-up in each earlier run, and beside a single one a step for each cell of both.
    pub fn entries(&self) -> u64
        ensures { result ≡ len self.now.counts }
    {
        // It fits 64 bits, so the entries do.
        let _bound = self.most;
        entries_in(&self.runs, self.counted, self.places)
    }

    /// The count at a place, or None where no run has an entry: a bisection in each run.
    pub fn get(&self, row: u64, col: u64) -> Option<u64>
        ensures value { result ≡ get self.now.counts (row, col) }
        ensures outside { (self.now.rows ≤ row) ⊎ (self.now.cols ≤ col) → result ≡ None }
    {
        count_in(&self.runs, row, col)
    }

    /// The sum of the counts of a row.
    pub fn row_counts(&self, row: u64) -> u64
        ensures value { result ≡ total (row_of self.now.counts row) }
        ensures outside { self.now.rows ≤ row → result ≡ 0 }
    {
        row_counts_in(&self.runs, row)
    }

    /// The matrices side by side, whose sum the layer is.
    pub fn runs(&self) -> &[Arc<FilteredMatrix>]
        ensures sum { self.now.counts ≡ content (all_counts (values result.now)) }
        ensures dims { HaveDims self.now.rows self.now.cols (values result.now) }
    {
        self.runs.as_slice()
    }

    /// How many cells all runs have together, up to 2^64 - 1: a place in several of them counts in each. A step for
    /// each run.
    pub fn listed_cells(&self) -> u64 {
        entries_bound(&self.runs)
    }

    /// Appends the cells of all runs to a list, those of each run by row and then by column. Room for all is made at
    /// once and exactly, 24 bytes for each.
    pub fn push_cells(&self, out: &mut Vec<Cell>) -> Result<(), AllocError>
        ensures sum { OnOk result (built_of out.new.items ≡ ewise_add (built_of out.old.items) self.now.counts) }
        ensures within { AreWithin self.now.rows self.now.cols out.old.items →
            OnOk result (AreWithin self.now.rows self.now.cols out.new.items) }
    {
        push_cells_of(out, &self.runs)
    }

    /// Adds all runs to the matrices whose cells are to be merged.
    pub fn add_to<'a>(&'a self, sources: &mut Sources<'a>) -> Result<(), AllocError>
        ensures sum { OnOk result (sources.new ≡ ewise_add sources.old self.now.counts) }
        ensures within { LieWithin self.now.rows self.now.cols sources.old →
            OnOk result (LieWithin self.now.rows self.now.cols sources.new) }
    {
        add_runs(sources, &self.runs)
    }

    /// The sum of a matrix and all runs, by merges.
    pub fn added(&self, alloc: Global, m: Hyper) -> Result<Hyper, AllocError>
        requires rows { m.rows ≡ self.now.rows }
        requires cols { m.cols ≡ self.now.cols }
        requires fits { total m.counts + total self.now.counts < 2 ^ 64 }
        ensures { IfOk result (λ sum. sum ≡ joined self.now m) }
    {
        let sum = sum_with_runs(alloc, m, &self.runs)?;
        Ok(sum)
    }

    /// The sum of all runs, by merges. That of a single one shares its cells.
    pub fn sum(&self, alloc: Global) -> Result<Hyper, AllocError>
        ensures { IfOk result (λ m. m ≡ self.now) }
    {
        let none = Hyper::new(alloc, self.rows, self.cols);
        let sum = self.added(alloc, none)?;
        Ok(sum)
    }

    // The runs of both side by side, those of this layer first. More entries than 64 bits can count would need more
    // memory than there is, and stand for a want of it.
    fn beside(&self, alloc: Global, m: Layer) -> Result<Layer, AllocError>
        requires rows { m.rows ≡ self.now.rows }
        requires cols { m.cols ≡ self.now.cols }
        requires fits { total m.counts + total self.now.counts < 2 ^ 64 }
        ensures { IfOk result (λ layer. layer ≡ joined self.now m) }
    {
        if self.runs.is_empty() {
            return Ok(m);
        }
        let total = m.total + self.total;
        let Some(most) = m.most.checked_add(self.most) else {
            return Err(AllocError);
        };
        let mut runs = shared_runs(alloc, &self.runs, self.runs.len() + m.runs.len())?;
        push_runs(&mut runs, &m.runs)?;
        let due = copied(&self.due)?;
        Ok(Layer {
            rows: self.rows,
            cols: self.cols,
            total,
            most,
            counted: self.counted,
            places: self.places,
            runs,
            due,
        })
    }

    /// The runs of this layer in front of those of another, side by side. None of them is due. The runs are shared:
    /// takes the time and memory of a pointer for each.
    ///
    /// # Errors
    ///
    /// A growth was refused.
    pub fn over(&self, alloc: Global, m: Layer) -> Result<Layer, AllocError>
        requires rows { m.rows ≡ self.now.rows }
        requires cols { m.cols ≡ self.now.cols }
        requires fits { total m.counts + total self.now.counts < 2 ^ 64 }
        ensures { IfOk result (λ layer. layer ≡ joined self.now m) }
    {
        let mut layer = self.beside(alloc, m)?;
        layer.due = None;
        Ok(layer)
    }

    // The same layer with other runs, whose sum is the same. None of them is due.
    fn with_runs(&self, runs: Vec<Arc<FilteredMatrix>>, counted: usize, places: u64) -> Layer
        requires content { content (all_counts (values runs.items)) ≡ self.now.counts }
        requires dims { HaveDims self.now.rows self.now.cols (values runs.items) }
        requires counts { CountsPlaces counted places (values runs.items) }
        ensures { result ≡ self.now }
    {
        self.with_due(runs, counted, places, None)
    }

    // The same layer with other runs, whose sum is the same, or with more of them counted, or with some of them due.
    fn with_due(
        &self,
        runs: Vec<Arc<FilteredMatrix>>,
        counted: usize,
        places: u64,
        due: Option<Due>,
    ) -> Layer
        requires content { content (all_counts (values runs.items)) ≡ self.now.counts }
        requires dims { HaveDims self.now.rows self.now.cols (values runs.items) }
        requires counts { CountsPlaces counted places (values runs.items) }
        requires due { IfSome due (λ d. IsDue self.now.rows self.now.cols d (values runs.items)) }
        ensures { result ≡ self.now }
    {
        let bound = places.saturating_add(entries_bound(&runs[counted..]));
        let most = bound.min(self.most);
        Layer {
            rows: self.rows,
            cols: self.cols,
            total: self.total,
            most,
            counted,
            places,
            runs,
            due,
        }
    }

    // The same layer with its runs added up, where all together have at most `MAX_LISTED` cells: to list them is to
    // count them, and the layer behind gets one run. Where they have more, those whose places aren't known are added
    // up, but for a large first one (`kept_in_front`), if these have few cells. Where there are more than `MAX_RUNS`,
    // all but a large first one are, however long they are.
    fn settled(self, alloc: Global) -> Result<Layer, AllocError>
        ensures { IfOk result (λ layer. layer ≡ self) }
    {
        let kept = kept_in_front(&self.runs);
        if self.runs.len() > MAX_RUNS || entries_bound(&self.runs) <= MAX_LISTED {
            let runs = with_rest_added(&self.runs, kept, alloc, self.rows, self.cols)?;
            return Ok(self.with_runs(runs, 0, 0));
        }
        let from = self.counted.max(kept);
        let rest = &self.runs[from..];
        if rest.len() <= 1 || entries_bound(rest) > MAX_LISTED {
            return Ok(self);
        }
        let runs = with_rest_added(&self.runs, from, alloc, self.rows, self.cols)?;
        Ok(self.with_runs(runs, self.counted, self.places))
    }

    // The same layer with the places of all its runs counted. The runs are shared.
    fn with_all_counted(&self, alloc: Global) -> Result<Layer, AllocError>
        ensures { IfOk result (λ layer. layer ≡ self.now) }
    {
        // It fits 64 bits, so the entries do.
        let _bound = self.most;
        let until = self.runs.len();
        let places = places_to(alloc, &self.runs, self.counted, self.places, until)?;
        let runs = shared_runs(alloc, &self.runs, until)?;
        Ok(self.with_due(runs, until, places, copied(&self.due)?))
    }

    /// Takes in what is carried to this layer, if both together have at most the cut of entries. That is judged
    /// exactly: by a bound of the entries, and where that is more than the cut, or there are more than `MAX_RUNS` runs,
    /// by a count of the places, from where the last count ended. Where all runs have at most `MAX_LISTED` cells, they
    /// become one first; else those that aren't counted do, but for a large first one, where they have as few; and
    /// where there are more than `MAX_RUNS`, all do but for that.
    pub fn taking(&self, alloc: Global, m: Layer, cut: u64) -> Result<Step, AllocError>
        requires rows { m.rows ≡ self.now.rows }
        requires cols { m.cols ≡ self.now.cols }
        requires fits { total m.counts + total self.now.counts < 2 ^ 64 }
        ensures { IfOk result (λ step. Takes self.now m cut step) }
    {
        let layer = self.beside(alloc, m)?;
        if layer.runs.len() <= MAX_RUNS && layer.most_entries() <= cut {
            return Ok(Step::Ends(layer));
        }
        let layer = layer.settled(alloc)?;
        let layer = layer.with_all_counted(alloc)?;
        if layer.entries() > cut {
            return Ok(Step::Carries(layer));
        }
        Ok(Step::Ends(layer))
    }

    // Whether the layer is about to pass its cut, isn't large, and much of it isn't counted: the bound is more than
    // three quarters of the cut, and the runs that aren't counted have more than an eighth of it. Once all are added
    // up, what is left to be counted while an addition waits is little.
    fn is_filling(&self, cut: u64) -> bool {
        self.most <= MAX_COUNTED
            && self.most > cut - cut / 4
            && entries_bound(&self.runs[self.counted..]) > cut / 8
    }

    /// The same layer with a place for the sum of the runs that are due, and their compaction; `is_first` tells whether
    /// it is layer 1, and u64::MAX stands for no cut. All are due where a layer that isn't large is about to pass its
    /// cut, so that the addition that does has few places to count. Else in layer 1 none are, as long as there are
    /// fewer than `GATHERED_RUNS`. Else, from `FEWEST_DUE` runs on, all from the first run on that has no more entries
    /// than all after it; or else the first run that has no filter and is to have one.
    ///
    /// Where runs were begun before and their place is still empty, it is a compaction of the same runs for the same
    /// place: the earlier one may have been given up. None where nothing is due, or where a sum waits to be taken over
    /// (`compacted`).
    ///
    /// The runs are shared: takes the time and memory of some pointers for each of them.
    pub fn begun(
        &self,
        alloc: Global,
        is_first: bool,
        cut: u64,
    ) -> Result<Option<(Layer, Compaction)>, AllocError>
        ensures { IfOk result (λ begun. IfSome begun (λ b. b.0 ≡ self.now)) }
    {
        let next = due_runs(&self.runs, is_first, self.is_filling(cut));
        let Some((due, compaction)) = begun(
            alloc, &self.runs, &self.due, next, self.rows, self.cols,
        )?
        else {
            return Ok(None);
        };
        let runs = shared_runs(alloc, &self.runs, self.runs.len())?;
        let layer = self.with_due(runs, self.counted, self.places, Some(due));
        Ok(Some((layer, compaction)))
    }

    /// The same layer with the sum that a compaction made in the stead of its runs. None where no compaction was begun,
    /// or where the last one hasn't ended. The other runs are shared: takes the time and memory of a pointer for each.
    pub fn compacted(&self, alloc: Global) -> Result<Option<Layer>, AllocError>
        ensures { IfOk result (λ compacted. IfSome compacted (λ layer. layer ≡ self.now)) }
    {
        let Some(due) = &self.due else {
            return Ok(None);
        };
        let Some(sum) = due.sum() else {
            return Ok(None);
        };
        let (counted, places) = due.known_after(
            &self.runs,
            sum.matrix(),
            self.counted,
            self.places,
        );
        let runs = due.exchanged(alloc, &self.runs, sum)?;
        Ok(Some(self.with_runs(runs, counted, places)))
    }

    /// Takes in what is carried to this layer, whatever it has: the last layer has no cut. More than `MAX_RUNS` runs
    /// are added up.
    pub fn taking_any(&self, alloc: Global, m: Layer) -> Result<Layer, AllocError>
        requires rows { m.rows ≡ self.now.rows }
        requires cols { m.cols ≡ self.now.cols }
        requires fits { total m.counts + total self.now.counts < 2 ^ 64 }
        ensures { IfOk result (λ layer. layer ≡ joined self.now m) }
    {
        let layer = self.beside(alloc, m)?;
        if layer.runs.len() <= MAX_RUNS {
            return Ok(layer);
        }
        layer.settled(alloc)
    }
}
