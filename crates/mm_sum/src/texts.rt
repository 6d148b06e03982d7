//! `sum` of several texts: reads one behind the other, and writes the canonical text of the sum of all.
//!
//! A text is opened when its turn comes. The memory is that of the sum of one text that has the cells of all, since all
//! go into the same layers, and the reader's buffers are made once.
ghost use Rattle.std.specs.Prelude.{◌≡◌, ℕ, ◌+◌, ◌<◌, ◌≤◌, ◌^◌, ◌⊎◌, ◌↔◌, List, [], vec_capacity, Result, Ok, Err};
ghost use Rattle.std.specs.Prelude.{OnOk, IfOk, IfErr};
ghost use Rattle.byte_io.specs.Writing.{HasTaken, HasStopped};
ghost use Rattle.byte_io.specs.declared.fault.WriteFault.{WriteFault};
ghost use Rattle.cells.specs.declared.cell.Cell.{Cell};
ghost use Rattle.layer_cascade.specs.Cuts.{AreCuts};
ghost use Rattle.mm_text.specs.Readings.{HasRead};
ghost use Rattle.mm_sum.specs.Running.{IsSumOf};
ghost use Rattle.mm_sum.specs.Sum.{sum_text, sum_limits};
ghost use Rattle.mm_text.specs.declared.size.Size.{Size};
ghost use Rattle.mm_sum.specs.Faults.{LeavesText, fault_within};
ghost use Rattle.mm_sum.specs.Several.{joined, SumsTexts, Tells};
ghost use Rattle.mm_sum.specs.Steps.{IsOpening, AddsNext, TellsNext, HaveSummed, TellsRead};
ghost use Rattle.mm_sum.specs.declared.fault.OpenFault.{OpenFault};

use crate::fault::{OpenFault, SumFault, TextsFault};
use crate::limits::{BLOCK_CELLS, TEXT_LIMITS};
use crate::reading::{sum_first, sum_next};
use crate::running_sum::RunningSum;
use byte_io::{Sink, Source};
use cells::Cell;
use layer_cascade::are_cuts;
use mm_text::{Size, TextReader, write_matrix};
use std::alloc::Global;

/// Texts, one behind the other, each of which is opened when its turn comes. As a source it gives the bytes of the text
/// that was opened last.
pub trait Texts: Source {
    // What the opening of the next text may answer, and what it leaves.
    ghost open_gives: { Self → Result (Unit {0}) OpenFault → Self → Type 0 };

    /// Opens the next text, and lets go of the one before it. This is no read, and counts as none.
    fn open_next(&mut self) -> Result<(), OpenFault>
        ensures answer { open_gives self.old result self.new }
        ensures failures { Self.failure_count self.new ≡ Self.failure_count self.old };
}

// Opens the next text, of this number.
fn open_text<T: Texts>(texts: &mut T, text: u64) -> Result<(), TextsFault>
    ensures ok { OnOk result (T.open_gives texts.old (Ok tt) texts.new) }
    ensures err { IfErr result (λ fault. IsOpening T.open_gives texts.old texts.new text fault) }
    ensures failures { T.failure_count texts.new ≡ T.failure_count texts.old }
{
    match texts.open_next() {
        Ok(()) => Ok(()),
        Err(OpenFault::Memory) => Err(TextsFault::Memory),
        Err(fault) => Err(TextsFault::File(text, fault)),
    }
}

// What a fault of one text is among several. A sum of one that wasn't read whole has no other.
fn fault_of_text(text: u64, fault: SumFault) -> TextsFault
    ensures { result ≡ fault_within text fault }
{
    match fault {
        SumFault::Text(fault) => TextsFault::Text(text, fault),
        SumFault::BadCuts => TextsFault::BadCuts,
        SumFault::SumTooLarge => TextsFault::SumTooLarge,
        SumFault::Memory => TextsFault::Memory,
        SumFault::Output(fault) => TextsFault::Output(fault),
    }
}

// Opens the first text, reads it to its end, and gives its size line and the sum of its cells.
fn first_text<T: Texts>(
    alloc: Global,
    texts: &mut T,
    reader: &mut TextReader,
    block: &mut Vec<Cell>,
    cuts: &[u64],
) -> Result<(Size, RunningSum), TextsFault>
    requires failures { T.failure_count texts.old + 1 < 2 ^ 64 }
    requires reserved { BLOCK_CELLS ≤ vec_capacity block.old }
    requires fresh { HasRead sum_limits [] [] reader.old }
    requires cuts { AreCuts cuts.now }
    ensures ok { IfOk result (λ first. AddsNext T.read_gives T.at_end T.failure_count T.open_gives [] texts.old
        texts.new first.0 first.1) }
    ensures no_failure { OnOk result (T.failure_count texts.new ≡ T.failure_count texts.old) }
    ensures err { IfErr result (λ fault. (size : Size) → TellsNext T.read_gives T.at_end T.failure_count T.open_gives
        [] texts.old texts.new size 0 fault) }
    ensures reserved { BLOCK_CELLS ≤ vec_capacity block.new }
{
    open_text(texts, 0)?;
    match sum_first(alloc, texts, reader, block, cuts) {
        Ok(first) => Ok(first),
        Err(fault) => Err(fault_of_text(0, fault)),
    }
}

// Opens the next text, of this number, reads it to its end, and adds its cells to the sum of those before it.
fn next_text<T: Texts>(
    alloc: Global,
    texts: &mut T,
    reader: &mut TextReader,
    block: &mut Vec<Cell>,
    size: Size,
    sum: RunningSum,
    text: u64,
) -> Result<RunningSum, TextsFault>
    requires failures { T.failure_count texts.old + 1 < 2 ^ 64 }
    requires reserved { BLOCK_CELLS ≤ vec_capacity block.old }
    requires fresh { HasRead sum_limits [] [] reader.old }
    requires summed { (earlier : List Cell) × IsSumOf size.rows size.cols earlier sum }
    requires later { 0 < text }
    ensures ok { IfOk result (λ next. (earlier : List Cell) → IsSumOf size.rows size.cols earlier sum →
        AddsNext T.read_gives T.at_end T.failure_count T.open_gives earlier texts.old texts.new size next) }
    ensures no_failure { OnOk result (T.failure_count texts.new ≡ T.failure_count texts.old) }
    ensures err { IfErr result (λ fault. (earlier : List Cell) → IsSumOf size.rows size.cols earlier sum →
        TellsNext T.read_gives T.at_end T.failure_count T.open_gives earlier texts.old texts.new size text fault) }
    ensures reserved { BLOCK_CELLS ≤ vec_capacity block.new }
{
    open_text(texts, text)?;
    match sum_next(alloc, texts, reader, block, size, sum) {
        Ok(Some(next)) => Ok(next),
        Ok(None) => Err(TextsFault::DimensionsDiffer(text)),
        Err(fault) => Err(fault_of_text(text, fault)),
    }
}

// Reads so many texts to their ends, and gives the sum of all of their cells.
fn read_texts<T: Texts>(
    alloc: Global,
    texts: &mut T,
    count: u64,
    cuts: &[u64],
) -> Result<RunningSum, TextsFault>
    requires some { 0 < count }
    requires failures { T.failure_count texts.old + 1 < 2 ^ 64 }
    requires cuts { AreCuts cuts.now }
    ensures ok { IfOk result (λ sum. HaveSummed T.read_gives T.at_end T.failure_count T.open_gives texts.old texts.new
        count sum) }
    ensures err { IfErr result (λ fault. TellsRead T.read_gives T.at_end T.failure_count T.open_gives texts.old
        texts.new fault) }
{
    let mut reader = TextReader::new(alloc, TEXT_LIMITS)?;
    let mut block = Vec::with_capacity(alloc, BLOCK_CELLS)?;
    let (size, first) = first_text(alloc, texts, &mut reader, &mut block, cuts)?;
    let mut sum = first;
    'texts: for text in 1..count {
        reader = reader.restarted(TEXT_LIMITS);
        sum = next_text(alloc, texts, &mut reader, &mut block, size, sum, text)?;
    }
    Ok(sum)
}

/// Sums the cells of so many Matrix Market texts of the same dimensions, and writes the canonical text of the sum: of
/// all of their lists, one behind the other, what `run_sum` writes of one.
///
/// The next `count` texts are read, each to its end before the next is opened. What `run_sum` says of cuts, blocks and
/// limits holds here: the limits are those of each text.
///
/// # Errors
///
/// In this order: `BadCuts` before anything is opened; at its place in the order of the texts and of their bytes,
/// `File` where the text can't be opened, `Text`, and at its end `DimensionsDiffer` where its dimensions aren't those
/// of the first; `Memory` where memory ran out, at a place up to which no text bears a fault, and where the counts fit
/// 64 bits, unless the opening of a text was refused it; `SumTooLarge` once all texts were read; `Output` where the
/// sink failed or took nothing. Only `Output` leaves anything written.
///
/// `texts` and `w` must have failed less than 2^64 - 1 times before. `w` is not flushed.
pub fn run_sum_of<T: Texts, W: Sink>(
    alloc: Global,
    texts: &mut T,
    count: u64,
    w: &mut W,
    cuts: &[u64],
) -> Result<(), TextsFault>
    requires some { 0 < count }
    requires reads { T.failure_count texts.old + 1 < 2 ^ 64 }
    requires writes { W.failure_count w.old + 1 < 2 ^ 64 }

    // So many texts were opened and read to their ends, and spell lists of one size that fit together; what was written
    // is the canonical text of what the joined lists add up to.
    ensures ok { OnOk result ((rows cols : ℕ) × (lists : List (List Cell))
        × SumsTexts T.read_gives T.at_end T.failure_count T.open_gives texts.old texts.new count rows cols lists
        × HasTaken W.write_takes W.failure_count w.old w.new (sum_text rows cols (joined lists))) }

    ensures cuts { (result ≡ Err TextsFault.BadCuts) ↔ (AreCuts cuts.now → ⊥) }
    ensures told { IfErr result (λ fault. Tells T.read_gives T.at_end T.failure_count T.open_gives texts.old texts.new
        count fault) }
    ensures output { (fault : WriteFault) → result ≡ Err (TextsFault.Output fault) →
        (rows cols : ℕ) × (lists : List (List Cell))
        × SumsTexts T.read_gives T.at_end T.failure_count T.open_gives texts.old texts.new count rows cols lists
        × HasStopped W.write_takes W.failure_count w.old w.new (sum_text rows cols (joined lists)) fault.written }
    ensures unwritten { IfErr result (λ fault. LeavesText fault ⊎ (w.new ≡ w.old)) }
{
    if !are_cuts(cuts) {
        return Err(TextsFault::BadCuts);
    }
    let sum = read_texts(alloc, texts, count, cuts)?;
    match sum.into_cells(alloc) {
        Ok(sum) => match write_matrix(w, sum.rows, sum.cols, &sum.cells) {
            Ok(()) => Ok(()),
            Err(fault) => Err(TextsFault::Output(fault)),
        },
        Err(fault) => Err(fault_of_text(0, fault)),
    }
}
