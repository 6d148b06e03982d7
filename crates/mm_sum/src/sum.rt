//! `sum`: reads a text, adds its cells into layers block by block, and writes the canonical text of the sum.
//!
//! Memory goes to one block and to the latest cells, at most 2^23, which wait in a list: of so many distinct places, and
//! of more that come again, nothing else takes any. Of more the layers do too; and at the end one list of the cells of
//! all layers and of those that wait, and half as much again while these are merged. The time is that of one pass over
//! the text, of the sort, of the additions that the cuts ask for, and of one pass over the sum.
ghost use Rattle.std.specs.Prelude.{◌≡◌, ℕ, ◌+◌, ◌<◌, ◌^◌, ◌⊎◌, ◌↔◌, List, [], Err, OnOk, IfOk, IfErr};
ghost use Rattle.mm_text.specs.declared.size.Size.{Size};
ghost use Rattle.byte_io.specs.Writing.{HasTaken, HasStopped};
ghost use Rattle.cells.specs.declared.cell.Cell.{Cell};
ghost use Rattle.mm_text.specs.declared.fault.MmFault.{MmFault};
ghost use Rattle.byte_io.specs.declared.fault.WriteFault.{WriteFault};
ghost use Rattle.layer_cascade.specs.Cuts.{AreCuts};
ghost use Rattle.mm_sum.specs.Faults.{IsOutput};
ghost use Rattle.mm_sum.specs.Reading.{HasSummed, Excuses};
ghost use Rattle.mm_sum.specs.Sum.{sum_text, StopsText, SumsText, SumPasses, IsUnsummed};

use crate::fault::SumFault;
use crate::limits::{BLOCK_CELLS, TEXT_LIMITS};
use crate::reading::sum_first;
use crate::running_sum::RunningSum;
use byte_io::{Sink, Source};
use layer_cascade::are_cuts;
use mm_text::{TextReader, write_matrix};
use std::alloc::Global;

// Reads a text to its end, and gives the sum of its cells.
fn read_running<R: Source>(alloc: Global, r: &mut R, cuts: &[u64]) -> Result<RunningSum, SumFault>
    requires failures { R.failure_count r.old + 1 < 2 ^ 64 }
    requires cuts { AreCuts cuts.now }
    ensures ok { IfOk result (λ sum. (size : Size) ×
        HasSummed R.read_gives R.at_end R.failure_count [] r.old r.new size sum) }
    ensures err { IfErr result (λ fault. Excuses R.read_gives R.at_end R.failure_count [] r.old r.new fault) }
{
    let mut reader = TextReader::new(alloc, TEXT_LIMITS)?;
    let mut block = Vec::with_capacity(alloc, BLOCK_CELLS)?;
    let (_, sum) = sum_first(alloc, r, &mut reader, &mut block, cuts)?;
    Ok(sum)
}

/// Sums the cells of a Matrix Market text, and writes the canonical text of the sum.
///
/// The cells of the text's list wait in a list of at most 2^23, 24 bytes each, in blocks of at most 4,096 as they come.
/// Where places come again the list is added up earlier; where it is full of places that don't, it goes into layers
/// with these cuts (none to seven, rising, each 1 to 2^40 entries). Then all is put into one list and written, its
/// cells by row and then by column. The cuts decide time and memory, and never what is written.
///
/// # Errors
///
/// In this order: `BadCuts` before anything is read; at its place in the text, `Text`; `Memory` where memory ran out,
/// at a place up to which the text bears no fault and its counts fit 64 bits; `SumTooLarge` once the text was read to
/// its end without a fault; `Output` where the sink failed or took nothing. Only `Output` leaves anything written: the
/// first bytes of the canonical text, as many as it says. What was read has been read.
///
/// A text may have at most 2^40 bytes and declare at most 2^40 entries. `r` and `w` must have failed less than
/// 2^64 - 1 times before. `w` is not flushed.
pub fn run_sum<R: Source, W: Sink>(
    alloc: Global,
    r: &mut R,
    w: &mut W,
    cuts: &[u64],
) -> Result<(), SumFault>
    requires reads { R.failure_count r.old + 1 < 2 ^ 64 }
    requires writes { W.failure_count w.old + 1 < 2 ^ 64 }

    // The text was read to its end and spells a list that fits; what was written is the canonical text of its sum.
    ensures ok { OnOk result ((rows cols : ℕ) × (cells : List Cell)
        × SumsText R.read_gives R.at_end R.failure_count r.old r.new rows cols cells
        × HasTaken W.write_takes W.failure_count w.old w.new (sum_text rows cols cells)) }

    ensures cuts { (result ≡ Err SumFault.BadCuts) ↔ (AreCuts cuts.now → ⊥) }
    ensures unread { result ≡ Err SumFault.BadCuts → r.new ≡ r.old }
    ensures text { (fault : MmFault) → result ≡ Err (SumFault.Text fault) →
        StopsText R.read_gives R.at_end R.failure_count r.old r.new fault.kind fault.line }
    ensures too_large { result ≡ Err SumFault.SumTooLarge →
        SumPasses R.read_gives R.at_end R.failure_count r.old r.new }
    ensures output { (fault : WriteFault) → result ≡ Err (SumFault.Output fault) →
        (rows cols : ℕ) × (cells : List Cell)
        × SumsText R.read_gives R.at_end R.failure_count r.old r.new rows cols cells
        × HasStopped W.write_takes W.failure_count w.old w.new (sum_text rows cols cells) fault.written }
    ensures memory { result ≡ Err SumFault.Memory →
        IsUnsummed R.read_gives R.at_end R.failure_count r.old r.new }
    ensures unwritten { IfErr result (λ fault. IsOutput fault ⊎ (w.new ≡ w.old)) }
{
    if !are_cuts(cuts) {
        return Err(SumFault::BadCuts);
    }
    let sum = read_running(alloc, r, cuts)?;
    match sum.into_cells(alloc) {
        Ok(sum) => match write_matrix(w, sum.rows, sum.cols, &sum.cells) {
            Ok(()) => Ok(()),
            Err(fault) => Err(SumFault::Output(fault)),
        },
        Err(fault) => Err(fault),
    }
}
