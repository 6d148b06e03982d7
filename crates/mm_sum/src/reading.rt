//! Reads one text to its end, and adds its cells to those of the texts before it, block by block.
ghost use Rattle.std.specs.Prelude.{◌≡◌, ◌+◌, ◌<◌, ◌≤◌, ◌^◌, List, [], vec_capacity};
ghost use Rattle.std.specs.Prelude.{OnOk, IfOk, IfErr, IsTrue, ◌↔◌};
ghost use Rattle.cells.specs.declared.cell.Cell.{Cell};
ghost use Rattle.layer_cascade.specs.Cuts.{AreCuts};
ghost use Rattle.mm_text.specs.Readings.{HasRead, SizedCells};
ghost use Rattle.mm_text.specs.declared.size.Size.{Size};
ghost use Rattle.mm_sum.specs.Reading.{Begins, IsSumming, HasSummed, IsSummed, Excuses, AddsText};
ghost use Rattle.mm_sum.specs.Running.{IsSumOf};
ghost use Rattle.mm_sum.specs.Sum.{sum_limits};

use crate::fault::SumFault;
use crate::limits::BLOCK_CELLS;
use crate::running_sum::RunningSum;
use byte_io::Source;
use cells::Cell;
use mm_text::{Size, TextReader};
use std::alloc::Global;

// Reads the first block of a text, and gives what its size line says and whether more may come.
fn first_block<R: Source>(
    r: &mut R,
    reader: &mut TextReader,
    block: &mut Vec<Cell>,
) -> Result<(Size, bool), SumFault>
    requires failures { R.failure_count r.old + 1 < 2 ^ 64 }
    requires reserved { BLOCK_CELLS ≤ vec_capacity block.old }
    requires fresh { HasRead sum_limits [] [] reader.old }
    ensures ok { IfOk result (λ begun. Begins R.read_gives R.at_end R.failure_count r.old r.new reader.new begun.0
        block.new.items begun.1) }
    ensures sized { IfOk result (λ begun. SizedCells block.new.items begun.0) }
    ensures err { IfErr result (λ fault. (earlier : List Cell) →
        Excuses R.read_gives R.at_end R.failure_count earlier r.old r.new fault) }
    ensures no_failure { OnOk result (R.failure_count r.new ≡ R.failure_count r.old) }
    ensures reserved { BLOCK_CELLS ≤ vec_capacity block.new }
{
    block.clear();
    let more = reader.read_block(r, block, BLOCK_CELLS)?;
    let Some(size) = reader.size() else {
        unreachable!()
    };
    Ok((size, more))
}

// Reads the blocks behind the first, and adds each to the sum of those before it, to the text's end.
fn sum_blocks<R: Source>(
    alloc: Global,
    r: &mut R,
    reader: &mut TextReader,
    block: &mut Vec<Cell>,
    first: RunningSum,
) -> Result<RunningSum, SumFault>
    requires failures { R.failure_count r.old + 1 < 2 ^ 64 }
    requires reserved { BLOCK_CELLS ≤ vec_capacity block.old }
    requires summing { (earlier : List Cell) × (s : R) × (size : Size) ×
        IsSumming R.read_gives R.at_end R.failure_count earlier s r.old reader.old size first }
    ensures ok { IfOk result (λ sum. (earlier : List Cell) (s : R) (size : Size) →
        IsSumming R.read_gives R.at_end R.failure_count earlier s r.old reader.old size first →
        HasSummed R.read_gives R.at_end R.failure_count earlier s r.new size sum) }
    ensures err { IfErr result (λ fault. (earlier : List Cell) (s : R) (size : Size) →
        IsSumming R.read_gives R.at_end R.failure_count earlier s r.old reader.old size first →
        Excuses R.read_gives R.at_end R.failure_count earlier s r.new fault) }
    ensures reserved { BLOCK_CELLS ≤ vec_capacity block.new }
{
    let mut sum = first;
    'text: for _blocks in 0..u64::MAX {
        block.clear();
        let more = reader.read_block(r, block, BLOCK_CELLS)?;
        sum = sum.add(alloc, block)?;
        if !more {
            return Ok(sum);
        }
    }
    // Each block has a cell, and a text at most 2^41 of them.
    unreachable!()
}

// The same, where more may come.
fn sum_rest<R: Source>(
    alloc: Global,
    r: &mut R,
    reader: &mut TextReader,
    block: &mut Vec<Cell>,
    first: RunningSum,
    more: bool,
) -> Result<RunningSum, SumFault>
    requires failures { R.failure_count r.old + 1 < 2 ^ 64 }
    requires reserved { BLOCK_CELLS ≤ vec_capacity block.old }
    requires summed { (earlier : List Cell) × (s : R) × (size : Size) ×
        IsSummed R.read_gives R.at_end R.failure_count earlier s r.old reader.old size first more }
    ensures ok { IfOk result (λ sum. (earlier : List Cell) (s : R) (size : Size) →
        IsSummed R.read_gives R.at_end R.failure_count earlier s r.old reader.old size first more →
        HasSummed R.read_gives R.at_end R.failure_count earlier s r.new size sum) }
    ensures err { IfErr result (λ fault. (earlier : List Cell) (s : R) (size : Size) →
        IsSummed R.read_gives R.at_end R.failure_count earlier s r.old reader.old size first more →
        Excuses R.read_gives R.at_end R.failure_count earlier s r.new fault) }
    ensures reserved { BLOCK_CELLS ≤ vec_capacity block.new }
{
    if !more {
        return Ok(first);
    }
    sum_blocks(alloc, r, reader, block, first)
}

/// Reads a text to its end, and gives its size line and the sum of its cells. The reader has read nothing.
pub fn sum_first<R: Source>(
    alloc: Global,
    r: &mut R,
    reader: &mut TextReader,
    block: &mut Vec<Cell>,
    cuts: &[u64],
) -> Result<(Size, RunningSum), SumFault>
    requires failures { R.failure_count r.old + 1 < 2 ^ 64 }
    requires reserved { BLOCK_CELLS ≤ vec_capacity block.old }
    requires fresh { HasRead sum_limits [] [] reader.old }
    requires cuts { AreCuts cuts.now }
    ensures ok { IfOk result (λ first.
        HasSummed R.read_gives R.at_end R.failure_count [] r.old r.new first.0 first.1) }
    ensures err { IfErr result (λ fault. Excuses R.read_gives R.at_end R.failure_count [] r.old r.new fault) }
    ensures reserved { BLOCK_CELLS ≤ vec_capacity block.new }
{
    let (size, more) = first_block(r, reader, block)?;
    let sum = RunningSum::new(alloc, size, cuts, block)?;
    let all = sum_rest(alloc, r, reader, block, sum, more)?;
    Ok((size, all))
}

// Whether both have the same numbers of rows and of columns.
fn has_dims_of(own: Size, size: Size) -> bool
    ensures { IsTrue result ↔ ((own.rows ≡ size.rows) × (own.cols ≡ size.cols)) }
{
    own.rows == size.rows && own.cols == size.cols
}

/// Reads the next text to its end, and gives the sum with its cells added, or None where its dimensions aren't those of
/// the size. The reader has read nothing.
pub fn sum_next<R: Source>(
    alloc: Global,
    r: &mut R,
    reader: &mut TextReader,
    block: &mut Vec<Cell>,
    size: Size,
    sum: RunningSum,
) -> Result<Option<RunningSum>, SumFault>
    requires failures { R.failure_count r.old + 1 < 2 ^ 64 }
    requires reserved { BLOCK_CELLS ≤ vec_capacity block.old }
    requires fresh { HasRead sum_limits [] [] reader.old }
    requires summed { (earlier : List Cell) × IsSumOf size.rows size.cols earlier sum }
    ensures ok { IfOk result (λ next. (earlier : List Cell) → IsSumOf size.rows size.cols earlier sum →
        AddsText R.read_gives R.at_end R.failure_count earlier r.old r.new size next) }
    ensures err { IfErr result (λ fault. (earlier : List Cell) → IsSumOf size.rows size.cols earlier sum →
        Excuses R.read_gives R.at_end R.failure_count earlier r.old r.new fault) }
    ensures reserved { BLOCK_CELLS ≤ vec_capacity block.new }
{
    let (own, more) = first_block(r, reader, block)?;
    let is_same = has_dims_of(own, size);
    if !is_same {
        // A sum that has passed takes cells of any place, and keeps none.
        let _passed = sum_rest(alloc, r, reader, block, RunningSum::TooLarge, more)?;
        return Ok(None);
    }
    let added = sum.add(alloc, block)?;
    let all = sum_rest(alloc, r, reader, block, added, more)?;
    Ok(Some(all))
}
