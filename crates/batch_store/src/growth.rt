//! What was accepted under one setup, for a setup of other numbers.
ghost use Rattle.std.specs.Prelude.{◌≡◌, ◌↔◌, ℕ, ◌+◌, ◌<◌, ◌≤◌, ◌^◌, IfOk, IfErr, OnOk, true};
ghost use Rattle.std.specs.Arc.{arc_value};
ghost use Rattle.hyper_matrix.specs.Matrix.{matrix};
ghost use Rattle.batch_store.specs.Accepted.{count_in, total_in};
ghost use Rattle.batch_store.specs.Batches.{values};
ghost use Rattle.batch_store.specs.Books.{AreAccepted, accepted_in, list_total};
ghost use Rattle.batch_store.specs.Growth.{AllLieIn, FitsIn, IsDimMisfit, IsGrowthMisfit, IsLimitMisfit, IsRoomFor};
ghost use Rattle.batch_store.specs.Growth.{RefusesGrowth, all_widened, grown_to, widened};

use crate::batch::Batch;
use crate::book_list::BookList;
use crate::fault::GrowthFault;
use crate::misfit::{Misfit, Number};
use crate::pieces::Pieces;
use crate::setup::Setup;
use std::alloc::{AllocError, Global};
use std::sync::Arc;

impl Batch {
    /// The same batch in a matrix of the setup's dimensions, none of which is smaller. The two matrices share all
    /// blocks: the time and memory are those of a pointer for each.
    ///
    /// # Errors
    ///
    /// A growth was refused.
    pub fn widened(&self, alloc: Global, setup: &Setup) -> Result<Arc<Batch>, AllocError>
        requires rows { self.now.matrix.rows ≤ setup.now.rows }
        requires cols { self.now.matrix.cols ≤ setup.now.cols }
        ensures { IfOk result (λ b. arc_value b ≡ widened setup.now self.now) }
    {
        let same = self.matrix.copy(alloc)?;
        let matrix = same.widened(setup.rows(), setup.cols());
        let batch = Batch {
            client: self.client,
            number: self.number,
            matrix,
            total: self.total,
        };
        let shared = Arc::new(alloc, batch)?;
        Ok(shared)
    }
}

// A base in a matrix of the setup's dimensions.
fn widened_base(alloc: Global, setup: &Setup, base: &Pieces) -> Result<Arc<Pieces>, AllocError>
    requires rows { base.now.whole.rows ≤ setup.now.rows }
    requires cols { base.now.whole.cols ≤ setup.now.cols }
    ensures { IfOk result (λ p.
        (arc_value p).whole ≡ matrix setup.now.rows setup.now.cols base.now.whole.counts) }
{
    let same = base.sum(alloc)?;
    let wide = same.widened(setup.rows(), setup.cols());
    let pieces = Pieces::cut(alloc, &wide, base.count())?;
    let shared = Arc::new(alloc, pieces)?;
    Ok(shared)
}

// Batches in matrices of the setup's dimensions.
fn widen_all(
    alloc: Global,
    setup: &Setup,
    batches: &[Arc<Batch>],
) -> Result<Vec<Arc<Batch>>, AllocError>
    requires { AllLieIn setup.now (values batches.now) }
    ensures { IfOk result (λ list. values list.items ≡ all_widened setup.now (values batches.now)) }
{
    let mut list = Vec::new(alloc);
    list.reserve(batches.len())?;
    'batches: for batch in batches {
        let wide = batch.widened(alloc, setup)?;
        list.push(wide)?;
    }
    Ok(list)
}

// The total of batches, added to this one.
fn add_totals(start: u64, batches: &[Arc<Batch>]) -> u64
    requires { start + list_total (values batches.now) < 2 ^ 64 }
    ensures { result ≡ start + list_total (values batches.now) }
{
    let mut total = start;
    'batches: for batch in batches {
        total += batch.entry().total;
    }
    total
}

// The accepted total of a list.
fn total_of(list: &BookList) -> u64
    requires { total_in (accepted_in list.now) < 2 ^ 64 }
    ensures { result ≡ total_in (accepted_in list.now) }
{
    add_totals(list.base.total(), &list.batches)
}

// How many batches a list has, folded or not.
fn count_of(list: &BookList) -> u64
    ensures { result ≡ count_in (accepted_in list.now) }
{
    list.folded.len() as u64 + list.batches.len() as u64
}

impl Setup {
    /// Judges whether matrices of another setup's dimensions fit into those of this one.
    ///
    /// # Errors
    ///
    /// There are fewer rows; or there aren't, and fewer columns.
    pub fn judge_dims(&self, from: &Setup) -> Result<(), Misfit>
        ensures ok { OnOk result (FitsIn from.now self.now) }
        ensures err { IfErr result (IsDimMisfit from.now self.now) }
    {
        if self.rows() < from.rows() {
            return Err(Misfit {
                number: Number::Rows,
                has: from.rows(),
                given: self.rows(),
            });
        }
        if self.cols() < from.cols() {
            return Err(Misfit {
                number: Number::Cols,
                has: from.cols(),
                given: self.cols(),
            });
        }
        Ok(())
    }

    /// Whether two setups have the same values.
    pub fn is_same(&self, other: &Setup) -> bool
        ensures { (result ≡ true) ↔ (self.now ≡ other.now) }
    {
        self.rows() == other.rows()
            && self.cols() == other.cols()
            && self.cuts() == other.cuts()
            && self.shards() == other.shards()
            && self.limit() == other.limit()
            && self.max_batches() == other.max_batches()
    }
}

// Judges the total and the batches of a list by the limits of a setup.
fn judge_limits(list: &BookList, to: &Setup) -> Result<(), Misfit>
    requires { total_in (accepted_in list.now) < 2 ^ 64 }
    ensures within { OnOk result (total_in (accepted_in list.now) ≤ to.now.limit) }
    ensures few { OnOk result (count_in (accepted_in list.now) ≤ to.now.max_batches) }
    ensures err { IfErr result (IsLimitMisfit to.now (accepted_in list.now)) }
{
    let total = total_of(list);
    if to.limit() < total {
        return Err(Misfit {
            number: Number::Limit,
            has: total,
            given: to.limit(),
        });
    }
    let count = count_of(list);
    if to.max_batches() < count {
        return Err(Misfit {
            number: Number::MaxBatches,
            has: count,
            given: to.max_batches(),
        });
    }
    Ok(())
}

// Judges whether what a list has is accepted under the second setup too.
fn judge_growth(list: &BookList, from: &Setup, to: &Setup) -> Result<(), Misfit>
    requires { AreAccepted from.now (accepted_in list.now) }
    ensures ok { OnOk result (IsRoomFor to.now from.now (accepted_in list.now)) }
    ensures err { IfErr result (IsGrowthMisfit from.now to.now (accepted_in list.now)) }
{
    // It bounds the total.
    let _limit = from.limit();
    to.judge_dims(from)?;
    judge_limits(list, to)
}

// A list in matrices of the setup's dimensions.
fn widen_list(alloc: Global, setup: &Setup, list: BookList) -> Result<BookList, AllocError>
    requires rows { list.base.rows ≤ setup.now.rows }
    requires cols { list.base.cols ≤ setup.now.cols }
    requires fit { AllLieIn setup.now list.list }
    ensures { IfOk result (λ wide. wide ≡ grown_to setup.now list) }
{
    let base = widened_base(alloc, setup, &list.base)?;
    let batches = widen_all(alloc, setup, &list.batches)?;
    Ok(BookList {
        base,
        folded: list.folded,
        batches,
    })
}

impl BookList {
    /// The same list for a setup of other numbers: the same clients, numbers and counts in the same order, in matrices
    /// of the second setup's dimensions. `from` is the setup that accepted the list.
    ///
    /// Where the dimensions are the same nothing is copied. Else the matrices share their blocks with those of the
    /// list, which takes the time and memory of a pointer for each block.
    ///
    /// # Errors
    ///
    /// The first number of the second setup that is too small, with what the list has. `Memory` only where none is. The
    /// list is gone then.
    pub fn grown(self, alloc: Global, from: &Setup, to: &Setup) -> Result<BookList, GrowthFault>
        requires accepted { AreAccepted from.now (accepted_in self) }
        requires rows { self.base.rows ≡ from.now.rows }
        requires cols { self.base.cols ≡ from.now.cols }
        ensures list { IfOk result (λ list. list ≡ grown_to to.now self) }
        ensures accepted { IfOk result (λ list. AreAccepted to.now (accepted_in list)) }
        ensures room { OnOk result (IsRoomFor to.now from.now (accepted_in self)) }
        ensures err { IfErr result (RefusesGrowth to.now from.now (accepted_in self)) }
    {
        judge_growth(&self, from, to)?;
        if to.rows() == from.rows() && to.cols() == from.cols() {
            return Ok(self);
        }
        match widen_list(alloc, to, self) {
            Ok(list) => Ok(list),
            Err(_) => Err(GrowthFault::Memory),
        }
    }
}
