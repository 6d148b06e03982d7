//! Writes matrices as canonical texts in the Matrix Market coordinate format (NIST) with field `integer` and symmetry
//! `general`: the banner, the size line, and one line for each cell in the order given.
//!
//! Lines are formatted into the writer's buffer, which is handed on when another line might not fit. So a text is
//! written in one pass with no memory, and a sink that takes what it is offered gets about 16 KiB a call.
ghost use Rattle.std.specs.Prelude.{◌≡◌, ℕ, ◌+◌, ◌-◌, ◌*◌, ◌<◌, ◌≤◌, ◌^◌, List, [], ◌++◌, length, drop, IfOk, OnOk};
ghost use Rattle.std.specs.Prelude.{IfErr};
ghost use Rattle.cells.specs.Bounds.{IsDimension, IsWithin, AreWithin};
ghost use Rattle.mm_text.specs.Canonical.{numbers_line, canonical_head, entry_line, entry_lines, canonical};
ghost use Rattle.byte_io.specs.Writing.{HasTaken, HasStopped};
ghost use Rattle.mm_text.specs.Writing.{HasWritten};

use crate::limits::LONGEST_LINE;
use byte_io::{Sink, WRITE_CAPACITY, WriteBuffer, WriteFault};
use cells::Cell;
use std::marker::Model;

const BANNER: &str = "%%MatrixMarket matrix coordinate integer general\n";

/// Appends a line of three numbers.
fn push_line(buffer: &mut WriteBuffer, first: u64, second: u64, third: u64)
    requires { length buffer.old.pending + LONGEST_LINE ≤ WRITE_CAPACITY }
    ensures taken { buffer.new.taken ≡ buffer.old.taken }
    ensures bytes { buffer.new.pending ≡ buffer.old.pending ++ numbers_line first second third }
    ensures short { length buffer.new.pending ≤ length buffer.old.pending + LONGEST_LINE }
{
    let mut digits = itoa::Buffer::new();
    buffer.push(digits.format(first).as_bytes());
    buffer.push(b" ");
    buffer.push(digits.format(second).as_bytes());
    buffer.push(b" ");
    buffer.push(digits.format(third).as_bytes());
    buffer.push(b"\n");
}

/// A text on its way to a sink, for cells that come one after the other or in blocks: `new`, `write_cell` for each cell
/// or `write_cells` for each block, and `finish`.
///
/// Every call is to be given the same sink. The writer holds a buffer of 16,384 bytes in itself and takes no memory.
/// After a call that answered Err it is of no more use, and what it still held is lost. Contracts see it as a
/// `WriterState`: the dimensions of the text, within which all cells lie, the bytes that the sink took and those that
/// are pending, and how many entry lines are still to come.
#[derive(Drop)]
pub struct TextWriter {
    rows: u64,
    cols: u64,
    buffer: WriteBuffer,
    left: u64,
}

impl Model for TextWriter {
    ghost use Rattle.std.specs.Prelude.{ℕ, ◌+◌, ◌*◌, ◌<◌, ◌^◌, length};
    ghost use Rattle.cells.specs.Bounds.{IsDimension};
    ghost use Rattle.mm_text.specs.Writing.{WriterState};

    ghost Value = { WriterState };

    ghost view = { λ w. record {
      rows = w.rows;
      cols = w.cols;
      buffer = w.buffer;
      left = w.left;
    } };

    ghost invariant = { λ w. IsDimension w.rows × IsDimension w.cols ×
        (w.buffer.taken + length w.buffer.pending + 63 * w.left < 2 ^ 80) };
}

impl TextWriter {
    /// A text of `entries` entry lines, of which nothing was handed on yet: banner and size line are pending.
    pub fn new(rows: u64, cols: u64, entries: u64) -> TextWriter
        requires rows { IsDimension rows }
        requires cols { IsDimension cols }
        ensures dims { (result.rows ≡ rows) × (result.cols ≡ cols) }
        ensures taken { result.buffer.taken ≡ 0 }
        ensures pending { result.buffer.pending ≡ canonical_head rows cols entries }
        ensures left { result.left ≡ entries }
    {
        let mut buffer = WriteBuffer::new();
        buffer.push(BANNER.as_bytes());
        push_line(&mut buffer, rows, cols, entries);
        TextWriter {
            rows,
            cols,
            buffer,
            left: entries,
        }
    }

    /// Appends the line of one cell.
    fn push_cell(&mut self, cell: Cell)
        requires within { IsWithin self.old.rows self.old.cols cell }
        requires declared { 0 < self.old.left }
        requires room { length self.old.buffer.pending + LONGEST_LINE ≤ WRITE_CAPACITY }
        ensures dims { (self.new.rows ≡ self.old.rows) × (self.new.cols ≡ self.old.cols) }
        ensures taken { self.new.buffer.taken ≡ self.old.buffer.taken }
        ensures pending { self.new.buffer.pending ≡ self.old.buffer.pending ++ entry_line cell }
        ensures left { self.new.left + 1 ≡ self.old.left }
    {
        push_line(&mut self.buffer, cell.row + 1, cell.col + 1, cell.count);
        self.left -= 1;
    }

    /// Hands on what is pending, unless there is room for another line.
    fn make_room<W: Sink>(&mut self, w: &mut W) -> Result<(), WriteFault>
        requires { W.failure_count w.old + 1 < 2 ^ 64 }
        ensures dims { OnOk result ((self.new.rows ≡ self.old.rows) × (self.new.cols ≡ self.old.cols)) }
        ensures left { OnOk result (self.new.left ≡ self.old.left) }
        ensures room { OnOk result (length self.new.buffer.pending + LONGEST_LINE ≤ WRITE_CAPACITY) }
        ensures ok { OnOk result ((s : W) (text : List ℕ) →
            HasWritten W.write_takes W.failure_count s w.old text self.old →
            HasWritten W.write_takes W.failure_count s w.new text self.new) }
        ensures err { IfErr result (λ f. (s : W) (text : List ℕ) →
            HasWritten W.write_takes W.failure_count s w.old text self.old →
            HasStopped W.write_takes W.failure_count s w.new text f.written) }
        ensures failures { OnOk result (W.failure_count w.new ≡ W.failure_count w.old) }
    {
        self.buffer.make_room(w, LONGEST_LINE)
    }

    /// Appends the line of one cell: row and column counted from 1, and the count.
    ///
    /// At an Err `written` counts from the first byte of the text, and takes in what earlier calls wrote. Takes time in
    /// proportion to the bytes, and calls the sink only where the buffer has no room for another line.
    pub fn write_cell<W: Sink>(&mut self, w: &mut W, cell: Cell) -> Result<(), WriteFault>
        requires ready { W.failure_count w.old + 1 < 2 ^ 64 }
        requires within { IsWithin self.old.rows self.old.cols cell }
        requires declared { 0 < self.old.left }
        ensures dims { OnOk result ((self.new.rows ≡ self.old.rows) × (self.new.cols ≡ self.old.cols)) }
        ensures left { OnOk result (self.new.left + 1 ≡ self.old.left) }
        ensures ok { OnOk result ((s : W) (text : List ℕ) →
            HasWritten W.write_takes W.failure_count s w.old text self.old →
            HasWritten W.write_takes W.failure_count s w.new (text ++ entry_line cell) self.new) }
        ensures err { IfErr result (λ f. (s : W) (text : List ℕ) →
            HasWritten W.write_takes W.failure_count s w.old text self.old →
            HasStopped W.write_takes W.failure_count s w.new (text ++ entry_line cell) f.written) }
        ensures failures { OnOk result (W.failure_count w.new ≡ W.failure_count w.old) }
    {
        self.make_room(w)?;
        self.push_cell(cell);
        Ok(())
    }

    /// Appends a line for each of the cells, in this order: row and column counted from 1, and the count.
    ///
    /// At an Err `written` counts from the first byte of the text, and takes in what earlier calls wrote. Takes time in
    /// proportion to the bytes.
    pub fn write_cells<W: Sink>(&mut self, w: &mut W, cells: &[Cell]) -> Result<(), WriteFault>
        requires ready { W.failure_count w.old + 1 < 2 ^ 64 }
        requires within { AreWithin self.old.rows self.old.cols cells.now }
        requires declared { length cells.now ≤ self.old.left }
        ensures dims { OnOk result ((self.new.rows ≡ self.old.rows) × (self.new.cols ≡ self.old.cols)) }
        ensures left { OnOk result (self.new.left + length cells.now ≡ self.old.left) }
        ensures ok { OnOk result ((s : W) (text : List ℕ) →
            HasWritten W.write_takes W.failure_count s w.old text self.old →
            HasWritten W.write_takes W.failure_count s w.new (text ++ entry_lines cells.now) self.new) }
        ensures err { IfErr result (λ f. (s : W) (text : List ℕ) →
            HasWritten W.write_takes W.failure_count s w.old text self.old →
            HasStopped W.write_takes W.failure_count s w.new (text ++ entry_lines cells.now) f.written) }
        ensures failures { OnOk result (W.failure_count w.new ≡ W.failure_count w.old) }
    {
        for cell in cells {
            self.write_cell(w, *cell)?;
        }
        Ok(())
    }

    /// Hands on what is pending, once all lines were appended. The sink isn't flushed.
    ///
    /// At an Err `written` counts from the first byte of the text.
    pub fn finish<W: Sink>(mut self, w: &mut W) -> Result<(), WriteFault>
        requires ready { W.failure_count w.old + 1 < 2 ^ 64 }
        requires whole { self.left ≡ 0 }
        ensures ok { OnOk result ((s : W) (text : List ℕ) →
            HasWritten W.write_takes W.failure_count s w.old text self →
            HasTaken W.write_takes W.failure_count s w.new text) }
        ensures err { IfErr result (λ f. (s : W) (text : List ℕ) →
            HasWritten W.write_takes W.failure_count s w.old text self →
            HasStopped W.write_takes W.failure_count s w.new text f.written) }
        ensures failures { OnOk result (W.failure_count w.new ≡ W.failure_count w.old) }
    {
        self.buffer.flush(w)
    }
}

/// Writes the canonical text of a matrix of `rows` by `cols` with these cells, which are neither sorted nor added.
///
/// Cells count from 0, and the text from 1. At an Err `written` counts from the first byte of the text. Takes time in
/// proportion to the bytes and no memory, and does not flush.
pub fn write_matrix<W: Sink>(
    w: &mut W,
    rows: u64,
    cols: u64,
    cells: &[Cell],
) -> Result<(), WriteFault>
    requires ready { W.failure_count w.old + 1 < 2 ^ 64 }
    requires rows { IsDimension rows }
    requires cols { IsDimension cols }
    requires within { AreWithin rows cols cells.now }
    ensures ok { OnOk result (HasTaken W.write_takes W.failure_count w.old w.new (canonical rows cols cells.now)) }
    ensures err { IfErr result (λ f. HasStopped W.write_takes W.failure_count w.old w.new
        (canonical rows cols cells.now) f.written) }
{
    let mut writer = TextWriter::new(rows, cols, cells.len() as u64);
    writer.write_cells(w, cells)?;
    writer.finish(w)
}
