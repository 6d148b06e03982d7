//! Reads a text from a source and hands out its cells in blocks.
//!
//! The reader asks the source for pieces of up to 65,536 bytes, never for more than the limit leaves, judges each
//! line as soon as its LF was read, and forgets it. Of the line that a piece cuts it carries what was read, at most
//! 1,025 bytes; of a comment, which may have any length, only its mark. So a reading takes time in proportion to the
//! text, and memory for one piece and one line, whatever the text promises or holds.
//!
//! It works by blocks so that a caller can sum a text that it has no room for: `read_matrix` asks for one block that
//! holds everything, a sum for blocks of a few thousand cells.
ghost use Rattle.std.specs.Prelude.{◌≡◌, ◌≢◌, ℕ, ◌+◌, ◌<◌, ◌≤◌, ◌^◌, List, [], length, Option, Result, Ok, Err, take};
ghost use Rattle.std.specs.Prelude.{Some, IsTrue, IfOk, IfErr, OnOk, OnErr, vec_len, vec_capacity};
ghost use Rattle.mm_text.specs.Lines.{IsLine};
ghost use Rattle.mm_text.specs.declared.size.Size.{Size};
ghost use Rattle.mm_text.specs.declared.limits.TextLimits.{TextLimits};
ghost use Rattle.cells.specs.declared.cell.Cell.{Cell};
ghost use Rattle.byte_io.specs.declared.fault.DeviceFault.{DeviceFault};
ghost use Rattle.byte_io.specs.Streams.{Answer};

use crate::fault::{MmFault, MmKind};
use crate::limits::{MAX_BYTES, TextLimits};
use crate::line_reader::LineReader;
use crate::size::Size;
use byte_io::{READ_CAPACITY, ReadBuffer, Source};
use cells::Cell;
use std::alloc::{AllocError, Global};
use std::cmp;

/// A reading of one Matrix Market text under way.
///
/// It owns its two buffers, of 65,536 and 1,025 bytes, and borrows the source and the block for each call. A reader
/// is for one source: give it the same one at each call. After an `Err`, or after `read_block` has answered false,
/// nothing more is said of it, and it is to be dropped.
#[derive(Drop)]
pub struct TextReader {
    limits: TextLimits,
    lines: LineReader,
    // Its bytes are within the limit, and not judged yet.
    buffer: ReadBuffer,
    // How many bytes may still be asked for: with the one that is too many, which is judged by being there.
    room: u64,
    ghost short: { length buffer ≤ 65536 },
    ghost countable: { lines.progress.lines + length buffer + room ≤ 2 ^ 63 + 1 },
}

/// How many bytes to ask for at once.
fn bytes_wanted(room: u64) -> usize
    ensures room { result ≤ room }
    ensures some { 0 < room → 0 < result }
{
    cmp::min(READ_CAPACITY as u64, room) as usize
}

/// How many of the bytes that came are within the limit: all but the last, where no more may come.
fn bytes_within(came: usize, room: u64) -> usize
    requires { room ≡ 0 → 0 < came }
    ensures all { 0 < room → result ≡ came }
    ensures last { room ≡ 0 → result + 1 ≡ came }
    ensures most { result ≤ came }
{
    if room == 0 { came - 1 } else { came }
}

impl TextReader {
    ghost use Rattle.mm_text.specs.Readings.{size_of, HasRead, AreSized, ReadsBlock, Stops, pending, TakesPending};
    ghost use Rattle.mm_text.specs.Readings.{Fills, Finishes, AddsFirst, ShowsRead};

    /// A reader that has read nothing. The limit is at most `MAX_BYTES`.
    ///
    /// It takes the memory for both buffers; this is the only growth but that of the blocks.
    pub fn new(alloc: Global, limits: TextLimits) -> Result<TextReader, AllocError>
        requires { limits.max_bytes ≤ MAX_BYTES }
        ensures { IfOk result (λ reader. HasRead limits [] [] reader) }
    {
        let buffer = ReadBuffer::new(alloc)?;
        let lines = LineReader::new(alloc)?;
        Ok(TextReader {
            limits,
            lines,
            buffer,
            room: limits.max_bytes + 1,
        })
    }

    /// A reader that has read nothing, as `new` makes it, in the memory of one that was used. It takes none. This is
    /// for the next of several texts, whatever came of the last.
    pub fn restarted(self, limits: TextLimits) -> TextReader
        requires { limits.max_bytes ≤ MAX_BYTES }
        ensures { HasRead limits [] [] result }
    {
        let mut buffer = self.buffer;
        let waiting = buffer.pending().len();
        buffer.consume(waiting);
        TextReader {
            limits,
            lines: self.lines.restarted(),
            buffer,
            room: limits.max_bytes + 1,
        }
    }

    /// What the size line declares, once it was read: dimensions from 1 to 2^60, within which all cells lie that were
    /// handed out. Constant time.
    pub fn size(&self) -> Option<Size>
        ensures size { result ≡ size_of self.now }
        ensures within { (limits : TextLimits) (answers : List Answer) (given : List Cell) →
            HasRead limits answers given self.now → AreSized given result }
    {
        self.lines.progress.size()
    }

    /// Judges the pending lines that have an LF, as long as the block has room for two cells.
    fn take_whole(&mut self, block: &mut Vec<Cell>, most: usize) -> Result<(), MmFault>
        requires { length block.old.items ≤ most }
        ensures same { (self.new.room ≡ self.old.room) × (self.new.limits ≡ self.old.limits) }
        ensures ok { OnOk result (TakesPending self.old self.new block.old.items block.new.items) }
        ensures room { OnOk result (length block.new.items ≤ most) }
        ensures rest { OnOk result (length block.new.items + 1 < most → IsLine (pending self.new)) }
        ensures err { IfErr result (λ f. ShowsRead self.old ⊥ ⊥ f.kind f.line) }
        ensures kept { OnErr result (AddsFirst self.old block.old.items block.new.items) }
        ensures lacks { IfErr result (λ f. f.kind ≡ MmKind.Memory → vec_capacity block.old < most) }
        ensures grows { vec_capacity block.old ≤ vec_capacity block.new }
    {
        let pending = self.buffer.pending();
        let all = pending.len();
        match self.lines.take_lines(self.limits, pending, block, most) {
            Ok(taken) => {
                self.buffer.consume(taken);
                Ok(())
            }
            Err(fault) => {
                // Where the lines bear a fault nothing is pending any more.
                self.buffer.consume(all);
                Err(fault)
            }
        }
    }

    /// Carries what is pending, the front of a line.
    fn take_front(&mut self) -> Result<(), MmFault>
        ensures same { self.new.room ≡ self.old.room }
        ensures empty { pending self.new ≡ [] }
        ensures ok { OnOk result (IsLine (pending self.old) → (block : List Cell) →
            TakesPending self.old self.new block block) }
        ensures err { IfErr result (λ f. IsLine (pending self.old) → ShowsRead self.old ⊥ ⊥ f.kind f.line) }
        ensures kind { IfErr result (λ f. f.kind ≡ MmKind.LineTooLong) }
    {
        let pending = self.buffer.pending();
        let all = pending.len();
        let carried = self.lines.carry_on(pending);
        self.buffer.consume(all);
        carried
    }

    /// Judges what is pending, as long as the block has room for two cells.
    fn take_pending(&mut self, block: &mut Vec<Cell>, most: usize) -> Result<(), MmFault>
        requires { length block.old.items ≤ most }
        ensures same { self.new.room ≡ self.old.room }
        ensures ok { OnOk result (TakesPending self.old self.new block.old.items block.new.items) }
        ensures room { OnOk result (length block.new.items ≤ most) }
        ensures empty { OnOk result (length block.new.items + 1 < most → (pending self.new ≡ []) ×
            (0 < self.new.room)) }
        ensures err { IfErr result (λ f. ShowsRead self.old ⊥ ⊥ f.kind f.line) }
        ensures kept { OnErr result (AddsFirst self.old block.old.items block.new.items) }
        ensures lacks { IfErr result (λ f. f.kind ≡ MmKind.Memory → vec_capacity block.old < most) }
        ensures grows { vec_capacity block.old ≤ vec_capacity block.new }
    {
        self.take_whole(block, most)?;
        if most - block.len() <= 1 {
            return Ok(());
        }
        self.take_front()?;
        if self.room == 0 {
            return Err(self.lines.progress.fault_here(MmKind::TooLong));
        }
        Ok(())
    }

    /// Reads the next piece of the text, where nothing is pending, and gives how many bytes came.
    fn fill<R: Source>(&mut self, r: &mut R) -> Result<usize, MmFault>
        requires failures { R.failure_count r.old + 1 < 2 ^ 64 }
        requires empty { pending self.old ≡ [] }
        requires room { 0 < self.old.room }
        ensures ok { IfOk result (λ n. Fills R.read_gives r.old r.new self.old self.new n) }
        ensures room { IfOk result (λ n. self.new.room + n ≡ self.old.room) }
        ensures end { IfOk result (λ n. n ≡ 0 → R.at_end r.new × (pending self.new ≡ [])) }
        ensures same { OnOk result (self.new.lines.progress ≡ self.old.lines.progress) }
        ensures no_failure { OnOk result (R.failure_count r.new ≡ R.failure_count r.old) }
        ensures failure { OnErr result (R.failure_count r.new ≡ R.failure_count r.old + 1) }
        ensures err { IfErr result (λ f. (f.kind ≡ MmKind.Read) ×
            ((e : DeviceFault) × R.read_gives r.old (Err e) r.new) ×
            ShowsRead self.old ⊥ (Unit {0}) MmKind.Read f.line) }
    {
        match self.buffer.fill(r, bytes_wanted(self.room)) {
            Err(_) => Err(self.lines.progress.fault_here(MmKind::Read)),
            Ok(n) => {
                self.room -= n as u64;
                self.buffer.truncate(bytes_within(n, self.room));
                Ok(n)
            }
        }
    }

    /// Judges the end of the text, where nothing is pending.
    fn finish(&mut self, block: &mut Vec<Cell>) -> Result<(), MmFault>
        requires empty { pending self.old ≡ [] }
        requires room { 0 < self.old.room }
        ensures ok { OnOk result (Finishes self.old self.new block.old.items block.new.items) }
        ensures room { OnOk result (length block.new.items ≤ length block.old.items + 2) }
        ensures err { IfErr result (λ f. ShowsRead self.old (Unit {0}) ⊥ f.kind f.line) }
        ensures kept { OnErr result (AddsFirst self.old block.old.items block.new.items) }
        ensures lacks { IfErr result (λ f. f.kind ≡ MmKind.Memory →
            vec_capacity block.old < length block.old.items + 2) }
        ensures grows { vec_capacity block.old ≤ vec_capacity block.new }
    {
        self.room = 0;
        self.lines.end_text(self.limits, block)
    }

    /// Reads on and appends cells to the block: until it has `most - 1` cells or `most` (true: more may come), or
    /// until the text has ended and nothing is missing (false). The two cells of a symmetric entry never part.
    ///
    /// The block grows as cells come. With room reserved for `most` cells it takes no memory, and the answer is never
    /// `Memory`.
    ///
    /// An error is the first fault of the text in reading order, told as soon as its place was read; `Read` where a
    /// call of the source failed, and no fault stands before; `Memory` where the block couldn't grow, behind the entry
    /// whose cells were to be stored. The block then holds what it held, and behind it cells that follow those handed
    /// out before: together they are the cells of the text's first lines.
    pub fn read_block<R: Source>(
        &mut self,
        r: &mut R,
        block: &mut Vec<Cell>,
        most: usize,
    ) -> Result<bool, MmFault>
        requires failures { R.failure_count r.old + 1 < 2 ^ 64 }
        requires most { 2 ≤ most }
        requires room { length block.old.items ≤ most }
        ensures ok { IfOk result (λ more. ReadsBlock R.read_gives R.at_end r.old r.new self.old self.new
            block.old.items block.new.items more) }
        ensures err { IfErr result (λ f. Stops R.read_gives (R.at_end r.new)
            (R.failure_count r.new ≡ R.failure_count r.old + 1) r.old r.new self.old block.old.items block.new.items
            f.kind f.line) }
        ensures room { OnOk result (length block.new.items ≤ most) }
        ensures full { IfOk result (λ more. IsTrue more → most ≤ length block.new.items + 1) }
        ensures size { OnOk result ((s : Size) → size_of self.old ≡ Some s → size_of self.new ≡ Some s) }
        ensures failures { IfErr result (λ f. f.kind ≢ MmKind.Read → R.failure_count r.new ≡ R.failure_count r.old) }
        ensures no_failure { OnOk result (R.failure_count r.new ≡ R.failure_count r.old) }
        ensures reserved { most ≤ vec_capacity block.old → IfErr result (λ f. f.kind ≢ MmKind.Memory) }
        ensures grows { vec_capacity block.old ≤ vec_capacity block.new }
    {
        'pieces: loop {
            self.take_pending(block, most)?;
            if most - block.len() <= 1 {
                return Ok(true);
            }
            if self.fill(r)? == 0 {
                self.finish(block)?;
                return Ok(false);
            }
        }
    }
}
