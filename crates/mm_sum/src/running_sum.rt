//! The sum of the cells so far: layers, as long as the counts fit 64 bits together.
//!
//! A block of cells is appended to the list of cells that wait before the layers (`PendingLayers`): they are sorted and
//! added up later on, many at once. Whether the counts still fit is judged first, so that want of memory never stands
//! for a total that is too large. Once the total has passed 2^64 - 1 nothing is added any more, and memory is given
//! back: the text is only read to its end, since a fault in it is told first.
ghost use Rattle.std.specs.Prelude.{◌≡◌, ℕ, ◌+◌, ◌<◌, ◌≤◌, ◌^◌, ◌⊎◌, ◌↔◌, List};
ghost use Rattle.std.specs.Prelude.{IsTrue, OnErr, IfOk, IfErr, IfNone, IfSome};
ghost use Rattle.std.specs.FinMap.{empty};
ghost use Rattle.cells.specs.Bounds.{IsDimension, AreWithin};
ghost use Rattle.cells.specs.declared.cell.Cell.{Cell};
ghost use Rattle.hyper_matrix.specs.Cells.{built_of, cell_total};
ghost use Rattle.hyper_matrix.specs.Counts.{total};
ghost use Rattle.hyper_matrix.specs.Matrix.{matrix};
ghost use Rattle.layer_cascade.specs.Cuts.{AreCuts};
ghost use Rattle.mm_sum.specs.Running.{IsSumOf, CanTake, GrowsBy, FitsBehind, IsRefused, ListsSum};

use crate::fault::SumFault;
use cells::{Cell, checked_total};
use layer_cascade::CascadeFault;
use mm_text::Size;
use pending_layers::PendingLayers;
use std::alloc::{AllocError, Global};

/// The running sum of a list of cells.
#[derive(Drop)]
pub enum RunningSum {
    /// The counts of all cells so far are in these layers.
    Fits(PendingLayers),
    /// The counts of all cells so far add up to more than 2^64 - 1.
    TooLarge,
}

/// The cells of a sum by row and then by column, each place once, and the numbers of rows and of columns.
#[derive(Drop)]
pub struct Summed {
    pub rows: u64,
    pub cols: u64,
    pub cells: Vec<Cell>,
}

/// Empty layers with these cuts, which have room for so many cells from the start, or for as many of them as may wait.
pub fn empty_layers(
    alloc: Global,
    rows: u64,
    cols: u64,
    cuts: &[u64],
    expected: u64,
) -> Result<PendingLayers, AllocError>
    requires rows { IsDimension rows }
    requires cols { IsDimension cols }
    requires cuts { AreCuts cuts.now }
    ensures { IfOk result (λ layers. layers ≡ matrix rows cols empty) }
{
    match PendingLayers::new(alloc, rows, cols, cuts, expected) {
        Ok(layers) => Ok(layers),
        Err(CascadeFault::Memory) => Err(AllocError),
        Err(CascadeFault::BadCuts) => unreachable!(),
    }
}

// The layers with a block of cells added, whose counts fit beside theirs.
fn with_block(
    alloc: Global,
    layers: PendingLayers,
    block: &[Cell],
) -> Result<PendingLayers, AllocError>
    requires within { AreWithin layers.rows layers.cols block.now }
    requires fits { total layers.counts + cell_total block.now < 2 ^ 64 }
    ensures { IfOk result (λ after. GrowsBy (RunningSum.Fits layers) block.now (RunningSum.Fits after)) }
{
    let after = layers.add_cells(alloc, block)?;
    Ok(after)
}

// Whether the counts of a block fit beside those of the layers.
fn fits_beside(layers: &PendingLayers, block: &[Cell]) -> bool
    ensures { IsTrue result ↔ (total layers.now.counts + cell_total block.now < 2 ^ 64) }
{
    match checked_total(block) {
        Some(sum) => layers.total().checked_add(sum).is_some(),
        None => false,
    }
}

// The sum of layers and a block of cells.
fn add_block(alloc: Global, layers: PendingLayers, block: &[Cell]) -> Result<RunningSum, AllocError>
    requires { AreWithin layers.rows layers.cols block.now }
    ensures ok { IfOk result (GrowsBy (RunningSum.Fits layers) block.now) }
    ensures memory { OnErr result (FitsBehind (RunningSum.Fits layers) block.now) }
{
    if !fits_beside(&layers, block) {
        return Ok(RunningSum::TooLarge);
    }
    let layers = with_block(alloc, layers, block)?;
    Ok(RunningSum::Fits(layers))
}

impl RunningSum {
    /// The sum of a block of cells, in layers with these cuts and room for the entries of the size line.
    pub fn new(
        alloc: Global,
        size: Size,
        cuts: &[u64],
        block: &[Cell],
    ) -> Result<RunningSum, AllocError>
        requires rows { IsDimension size.rows }
        requires cols { IsDimension size.cols }
        requires cuts { AreCuts cuts.now }
        requires within { AreWithin size.rows size.cols block.now }
        ensures ok { IfOk result (IsSumOf size.rows size.cols block.now) }
        ensures memory { OnErr result (cell_total block.now < 2 ^ 64) }
    {
        if checked_total(block).is_none() {
            return Ok(RunningSum::TooLarge);
        }
        let none = empty_layers(alloc, size.rows, size.cols, cuts, size.entries)?;
        let layers = with_block(alloc, none, block)?;
        Ok(RunningSum::Fits(layers))
    }

    /// The sum with a block of cells added. There is want of memory only where the counts fit.
    pub fn add(self, alloc: Global, block: &[Cell]) -> Result<RunningSum, AllocError>
        requires { CanTake self block.now }
        ensures ok { IfOk result (GrowsBy self block.now) }
        ensures memory { OnErr result (FitsBehind self block.now) }
    {
        match self {
            RunningSum::Fits(layers) => add_block(alloc, layers, block),
            RunningSum::TooLarge => Ok(RunningSum::TooLarge),
        }
    }

    /// The sum as one list of cells.
    ///
    /// `SumTooLarge` where the counts passed 64 bits, else the only refusal is want of memory.
    pub fn into_cells(self, alloc: Global) -> Result<Summed, SumFault>
        ensures sized { IfOk result (λ sum. IsDimension sum.rows × IsDimension sum.cols
            × AreWithin sum.rows sum.cols sum.cells.items) }
        ensures ok { IfOk result (λ sum. (rows cols : ℕ) (cells : List Cell) → IsSumOf rows cols cells self →
            ListsSum rows cols cells sum × (cell_total cells < 2 ^ 64)) }
        ensures err { IfErr result (IsRefused self) }
        ensures kinds { IfErr result (λ fault. (fault ≡ SumFault.SumTooLarge) ⊎ (fault ≡ SumFault.Memory)) }
    {
        match self {
            RunningSum::TooLarge => Err(SumFault::SumTooLarge),
            RunningSum::Fits(layers) => {
                let (rows, cols) = layers.dims();
                match layers.into_cells(alloc) {
                    Ok(cells) => Ok(Summed { rows, cols, cells }),
                    Err(_) => Err(SumFault::Memory),
                }
            }
        }
    }
}
