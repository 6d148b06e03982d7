//! Runs that are added up by whoever has time for it, without the lock that their layer is behind.
//!
//! A layer keeps which of its runs are due, and a place for their sum. A compaction has the same place and the runs
//! themselves, so whoever has it needs neither the layer nor its lock. Once the place is full, the layer takes what
//! stands there in the stead of the runs. Nothing is compared for that: a place takes nothing but the sum of its runs,
//! so whoever finds it full knows what it has. Where the runs went on meanwhile, or were added up otherwise, nobody
//! looks at the place any more.
ghost use Rattle.std.specs.Prelude.{◌≡◌, ◌+◌, ◌≤◌, IfOk, IfSome, length};
ghost use Rattle.std.specs.Arc.{arc_value};
ghost use Rattle.hyper_matrix.specs.Matrix.{matrix};
ghost use Rattle.layer_compaction.specs.Shared.{content, values, all_counts};
ghost use Rattle.layer_compaction.specs.Runs.{CountsPlaces};
ghost use Rattle.layer_compaction.specs.Due.{numbers_of, AddUp, IsDue, part_from, with_one};

use crate::filters::{filtered_run, first_unfiltered};
use crate::limits::{FEWEST_DUE, GATHERED_RUNS};
use crate::lists::sum_with_runs;
use crate::pairs::due_tail;
use crate::runs::{shared_runs, with_run_between};
use boxcar::slot::{OnceSlot, SlotRule};
use boxcar::tag::{Names, Tag};
use filtered_matrix::FilteredMatrix;
use hyper_matrix::Hyper;
use std::alloc::{AllocError, Global};
use std::marker::Model;
use std::sync::Arc;

/// What stands in a slot is the matrix that the slot's tag tells.
pub struct SameMatrix;

impl SlotRule<Arc<FilteredMatrix>> for SameMatrix {
    ghost use Rattle.std.specs.Prelude.{◌≡◌};
    ghost use Rattle.std.specs.Arc.{arc_value};
    ghost use Rattle.layer_compaction.specs.Due.{numbers_of};

    ghost holds = { λ tag run. numbers_of (arc_value run) ≡ tag };
}

// Runs to be added up, shared with their layer. Contracts see their sum.
#[derive(Drop)]
pub(crate) struct Inputs {
    rows: u64,
    cols: u64,
    runs: Vec<Arc<FilteredMatrix>>,
}

impl Model for Inputs {
    ghost use Rattle.hyper_matrix.specs.Matrix.{Matrix, matrix, coded_matrix};
    ghost use Rattle.layer_compaction.specs.Shared.{content, values, all_counts};
    ghost use Rattle.layer_compaction.specs.Due.{AddUp};

    ghost Value = { Matrix };

    ghost coded = { coded_matrix };

    ghost view = { λ i. matrix i.rows i.cols (content (all_counts (values i.runs.items))) };

    ghost invariant = { λ i. AddUp i.rows i.cols (values i.runs.items) };
}

// The numbers of the sum.
struct OfSum;

impl Names<Inputs> for OfSum {
    ghost use Rattle.layer_compaction.specs.Due.{numbers_of};

    ghost numbers = { λ i. numbers_of i };
}

impl Inputs {
    // `count` runs from the place `from` on.
    fn of(
        alloc: Global,
        runs: &[Arc<FilteredMatrix>],
        from: usize,
        count: usize,
        rows: u64,
        cols: u64,
    ) -> Result<Inputs, AllocError>
        requires within { from + count ≤ length runs.now }
        requires runs { AddUp rows cols (values runs.now) }
        ensures { IfOk result (λ inputs.
            inputs ≡ matrix rows cols (content (all_counts (part_from from count (values runs.now))))) }
    {
        let (_before, rest) = runs.split_at(from);
        let (part, _behind) = rest.split_at(count);
        let runs = shared_runs(alloc, part, count)?;
        Ok(Inputs { rows, cols, runs })
    }

    // The sum.
    fn sum(&self, alloc: Global) -> Result<Hyper, AllocError>
        ensures { IfOk result (λ sum. sum ≡ self.now) }
    {
        let none = Hyper::new(alloc, self.rows, self.cols);
        let sum = sum_with_runs(alloc, none, &self.runs)?;
        Ok(sum)
    }
}

// A place for a sum, which is filled once. Contracts see the numbers of the sum.
#[derive(Drop)]
pub(crate) struct SumPlace {
    sum: OnceSlot<Arc<FilteredMatrix>, SameMatrix>,
}

impl Model for SumPlace {
    ghost use Rattle.std.specs.Prelude.{List, ℕ};

    ghost Value = { List ℕ };

    ghost view = { λ p. p.sum.tag };
}

impl SumPlace {
    // An empty place for the sum of these runs.
    fn new(alloc: Global, inputs: &Inputs) -> Result<Arc<SumPlace>, AllocError>
        ensures { IfOk result (λ place. arc_value place ≡ numbers_of inputs.now) }
    {
        let tag = Tag::of::<Inputs, OfSum>(inputs);
        let sum = OnceSlot::new(&tag);
        let place = Arc::new(alloc, SumPlace { sum })?;
        Ok(place)
    }

    // The sum, if it was made. It waits for nobody.
    fn sum(&self) -> Option<&Arc<FilteredMatrix>>
        ensures { IfSome result (λ run. numbers_of (arc_value run.now) ≡ self.now) }
    {
        self.sum.get()
    }

    // Puts the sum here, unless another has. It waits for nobody.
    fn fill(&self, run: Arc<FilteredMatrix>)
        requires { numbers_of (arc_value run) ≡ self.now }
    {
        let _ = self.sum.set(run);
    }
}

/// Runs of a layer that are to be compacted, and the place for what they become. Whoever has it needs no lock.
///
/// It shares the runs and the place with the layer that it was begun of. To drop it is to give it up: the layer stays
/// as it is, and the same runs can be begun again.
#[derive(Drop)]
pub struct Compaction {
    inputs: Inputs,
    place: Arc<SumPlace>,
    ghost told: { arc_value place ≡ numbers_of inputs },
}

impl Compaction {
    /// Adds the runs up, with a filter of the sum's places where it has from `FEWEST_FILTERED` entries on, and puts the
    /// sum in its place, where the layer finds it. Where another compaction of the same place was faster, its sum
    /// stays.
    ///
    /// Takes the time and memory of the sum, and 1 to 2 bytes and some nanoseconds for each of its entries for the
    /// filter. A single run is copied, which shares its cells. It waits for nobody, and nobody for it.
    ///
    /// # Errors
    ///
    /// A growth was refused. The place stays as it was, and the layer too: the same runs can be begun again.
    pub fn run(self, alloc: Global) -> Result<(), AllocError> {
        let Compaction { inputs, place } = self;
        let sum = inputs.sum(alloc)?;
        let run = filtered_run(alloc, sum)?;
        place.fill(run);
        Ok(())
    }
}

/// Which runs of a layer are due, and the place for their sum. Contracts see where they stand, and the sum's numbers.
#[derive(Drop)]
pub(crate) struct Due {
    from: usize,
    count: usize,
    place: Arc<SumPlace>,
}

impl Model for Due {
    ghost use Rattle.std.specs.Arc.{arc_value};
    ghost use Rattle.layer_compaction.specs.Due.{DueRuns, coded_due_runs};

    ghost Value = { DueRuns };

    ghost coded = { coded_due_runs };

    ghost view = { λ d. record { from = d.from; count = d.count; told = arc_value d.place } };
}

/// What is due, and how to have it done.
type Begun = (Due, Compaction);

impl Due {
    // A new place for the sum of `count` runs from the place `from` on, and their compaction.
    fn new(
        alloc: Global,
        runs: &[Arc<FilteredMatrix>],
        from: usize,
        count: usize,
        rows: u64,
        cols: u64,
    ) -> Result<Begun, AllocError>
        requires within { from + count ≤ length runs.now }
        requires runs { AddUp rows cols (values runs.now) }
        ensures { IfOk result (λ begun. IsDue rows cols begun.0 (values runs.now)) }
    {
        let inputs = Inputs::of(alloc, runs, from, count, rows, cols)?;
        let place = SumPlace::new(alloc, &inputs)?;
        let shared = Arc::try_clone(&place)?;
        let due = Due {
            from,
            count,
            place: shared,
        };
        Ok((due, Compaction { inputs, place }))
    }

    // The same once more: it shares the place.
    fn shared(&self) -> Result<Due, AllocError>
        ensures { IfOk result (λ due. due ≡ self.now) }
    {
        let place = Arc::try_clone(&self.place)?;
        Ok(Due {
            from: self.from,
            count: self.count,
            place,
        })
    }

    /// The sum, if it was made.
    pub(crate) fn sum(&self) -> Option<&Arc<FilteredMatrix>>
        ensures { IfSome result (λ run. numbers_of (arc_value run.now) ≡ self.now.told) }
    {
        self.place.sum()
    }

    // As it is, and one compaction more for the same place. None where the sum was made.
    fn again(
        &self,
        alloc: Global,
        runs: &[Arc<FilteredMatrix>],
        rows: u64,
        cols: u64,
    ) -> Result<Option<Begun>, AllocError>
        requires due { IsDue rows cols self.now (values runs.now) }
        requires runs { AddUp rows cols (values runs.now) }
        ensures { IfOk result (λ begun. IfSome begun (λ b. IsDue rows cols b.0 (values runs.now))) }
    {
        if self.sum().is_some() {
            return Ok(None);
        }
        let inputs = Inputs::of(alloc, runs, self.from, self.count, rows, cols)?;
        let due = self.shared()?;
        let place = Arc::try_clone(&self.place)?;
        Ok(Some((due, Compaction { inputs, place })))
    }

    /// The runs with the sum in the stead of those that are due. All others are shared.
    pub(crate) fn exchanged(
        &self,
        alloc: Global,
        runs: &[Arc<FilteredMatrix>],
        sum: &Arc<FilteredMatrix>,
    ) -> Result<Vec<Arc<FilteredMatrix>>, AllocError>
        requires { self.now.from + self.now.count ≤ length runs.now }
        ensures { IfOk result (λ after. values after.items ≡ with_one self.now (arc_value sum.now) (values runs.now)) }
    {
        let (before, rest) = runs.split_at(self.from);
        let (_due, behind) = rest.split_at(self.count);
        let run = Arc::try_clone(sum)?;
        let after = with_run_between(alloc, before, run, behind)?;
        Ok(after)
    }

    /// Of how many runs in front the places are known, and how many places they have, once the sum stands in the stead
    /// of those that are due: `places` were those of the first `counted`. Constant time.
    pub(crate) fn known_after(
        &self,
        runs: &[Arc<FilteredMatrix>],
        sum: &Hyper,
        counted: usize,
        places: u64,
    ) -> (usize, u64)
        requires within { self.now.from + self.now.count ≤ length runs.now }
        requires sum { sum.now.counts
            ≡ content (all_counts (part_from self.now.from self.now.count (values runs.now))) }
        requires counts { CountsPlaces counted places (values runs.now) }
        ensures { CountsPlaces result.0 result.1 (with_one self.now sum.now (values runs.now)) }
    {
        if counted <= self.from {
            return (counted, places);
        }
        if self.from + self.count <= counted {
            return (counted - self.count + 1, places);
        }
        if self.from == 0 {
            return (1, sum.entries());
        }
        (0, 0)
    }
}

/// Which runs are to be added up next: the place of the first, and how many. All, where the layer is about to pass its
/// cut. Else in layer 1 none, where they are fewer than `GATHERED_RUNS`. Else a tail of them (`due_tail`), from
/// `FEWEST_DUE` runs on. Where there is none, a single one that has no filter and is to have one.
pub(crate) fn due_runs(
    runs: &[Arc<FilteredMatrix>],
    is_first: bool,
    is_filling: bool,
) -> Option<(usize, usize)>
    ensures { IfSome result (λ due. due.0 + due.1 ≤ length runs.now) }
{
    if is_filling && runs.len() > 1 {
        return Some((0, runs.len()));
    }
    if is_first && runs.len() < GATHERED_RUNS {
        return None;
    }
    if let Some(place) = due_tail(runs) {
        return Some((place, runs.len() - place));
    }
    let place = first_unfiltered(runs)?;
    Some((place, 1))
}

/// What is due of a layer's runs, `due` of which a place is there already: the same place, or a new one for the sum of
/// those that are `next`, the place of the first and their number. None where nothing is due, or a sum waits to be put
/// in the stead of its runs.
pub(crate) fn begun(
    alloc: Global,
    runs: &[Arc<FilteredMatrix>],
    due: &Option<Due>,
    next: Option<(usize, usize)>,
    rows: u64,
    cols: u64,
) -> Result<Option<Begun>, AllocError>
    requires due { IfSome due.now (λ d. IsDue rows cols d (values runs.now)) }
    requires next { IfSome next (λ n. n.0 + n.1 ≤ length runs.now) }
    requires runs { AddUp rows cols (values runs.now) }
    ensures { IfOk result (λ begun. IfSome begun (λ b. IsDue rows cols b.0 (values runs.now))) }
{
    if let Some(due) = due {
        return due.again(alloc, runs, rows, cols);
    }
    let Some((from, count)) = next else {
        return Ok(None);
    };
    let begun = Due::new(alloc, runs, from, count, rows, cols)?;
    Ok(Some(begun))
}

/// What is due once more, if anything is.
pub(crate) fn copied(due: &Option<Due>) -> Result<Option<Due>, AllocError>
    ensures { IfOk result (λ copy. copy ≡ due.now) }
{
    match due {
        Some(due) => {
            let copy = due.shared()?;
            Ok(Some(copy))
        }
        None => Ok(None),
    }
}
