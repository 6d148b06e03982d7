//! Judges the lines of one piece of a text.
//!
//! Lines are cut at LF by `memchr`. One that stands whole in the piece is judged there and copied nowhere.
ghost use Rattle.std.specs.Prelude.{◌≡◌, ℕ, ◌+◌, ◌*◌, ◌<◌, ◌≤◌, ◌^◌, List, OnOk, OnErr, IfErr, IfOk, IfSome, IfNone};
ghost use Rattle.std.specs.Prelude.{length, vec_len, vec_capacity, slice_index, take, drop, Some};
ghost use Rattle.mm_text.specs.Lines.{IsLine};
ghost use Rattle.mm_text.specs.Stages.{state_of, Advances, StopsWithin, Holds, EndsLast, EndsText, EndsWithin};
ghost use Rattle.mm_text.specs.Faults.{Shows, Explains};
ghost use Rattle.mm_text.specs.declared.limits.TextLimits.{TextLimits};
ghost use Rattle.cells.specs.declared.cell.Cell.{Cell};

use crate::fault::{MmFault, MmKind};
use crate::limits::TextLimits;
use crate::line_reader::LineReader;
use crate::plain::take_entries;
use cells::Cell;
use memchr::memchr;

/// Where the first LF stands.
fn line_end(bytes: &[u8]) -> Option<usize>
    ensures some { IfSome result (λ n. (n < length bytes.now) × IsLine (take n bytes.now) ×
        (slice_index bytes.now n ≡ 10)) }
    ensures none { IfNone result (IsLine bytes.now) }
{
    memchr(b'\n', bytes)
}

impl LineReader {
    /// Judges the first line that ends in these bytes, and gives how many bytes it took, its LF included.
    fn take_line(
        &mut self,
        limits: TextLimits,
        bytes: &[u8],
        block: &mut Vec<Cell>,
    ) -> Result<usize, MmFault>
        requires lines { self.old.progress.lines + 1 < 2 ^ 64 }
        ensures within { IfOk result (λ n. n ≤ length bytes.now) }
        ensures count { IfOk result (λ n. self.new.progress.lines ≤ self.old.progress.lines + n) }
        ensures bound { self.new.progress.lines ≤ self.old.progress.lines + length bytes.now }
        ensures room { OnOk result (length block.new.items ≤ length block.old.items + 2) }
        ensures none { IfOk result (λ n. n ≡ 0 → IsLine bytes.now) }
        ensures ok { IfOk result (λ n. Advances limits (take n bytes.now)
            (state_of self.old) block.old.items (state_of self.new) block.new.items) }
        ensures err { IfErr result (λ f. Shows limits bytes.now (state_of self.old) f.kind f.line) }
        ensures kept { OnErr result (block.new.items ≡ block.old.items) }
        ensures lacks { IfErr result (λ f. f.kind ≡ MmKind.Memory →
            vec_capacity block.old < length block.old.items + 2) }
        ensures grows { vec_capacity block.old ≤ vec_capacity block.new }
    {
        match line_end(bytes) {
            None => Ok(0),
            Some(len) => {
                self.end_in_place(limits, &bytes[..len], block)?;
                Ok(len + 1)
            }
        }
    }

    /// Takes the plain lines with which these bytes begin, where no front of a line is carried, and gives how many
    /// bytes they took.
    fn take_plain_lines(
        &mut self,
        bytes: &[u8],
        block: &mut Vec<Cell>,
        most: usize,
    ) -> Result<usize, MmFault>
        requires lines { self.old.progress.lines + length bytes.now + 1 < 2 ^ 64 }
        requires room { length block.old.items ≤ most }
        ensures within { IfOk result (λ n. n ≤ length bytes.now) }
        ensures count { IfOk result (λ n. self.new.progress.lines ≤ self.old.progress.lines + n) }
        ensures bound { self.new.progress.lines ≤ self.old.progress.lines + length bytes.now }
        ensures room { OnOk result (length block.new.items ≤ most) }
        ensures few { IfOk result (λ n. length block.new.items ≤ length block.old.items + 2 * n) }
        ensures ok { IfOk result (λ n. (limits : TextLimits) → Advances limits (take n bytes.now)
            (state_of self.old) block.old.items (state_of self.new) block.new.items) }
        ensures err { IfErr result (λ f. (limits : TextLimits) →
            Shows limits bytes.now (state_of self.old) f.kind f.line) }
        ensures kept { OnErr result ((limits : TextLimits) →
            StopsWithin limits bytes.now (state_of self.old) block.old.items block.new.items) }
        ensures lacks { IfErr result (λ f. f.kind ≡ MmKind.Memory → vec_capacity block.old < most) }
        ensures grows { vec_capacity block.old ≤ vec_capacity block.new }
    {
        if self.carry.is_empty() {
            take_entries(&mut self.progress, bytes, block, most)
        } else {
            Ok(0)
        }
    }

    /// Takes the plain lines with which these bytes begin, or else the first line that ends in them, and gives how many
    /// bytes were taken.
    fn take_next(
        &mut self,
        limits: TextLimits,
        bytes: &[u8],
        block: &mut Vec<Cell>,
        most: usize,
    ) -> Result<usize, MmFault>
        requires lines { self.old.progress.lines + length bytes.now + 1 < 2 ^ 64 }
        requires room { length block.old.items + 2 ≤ most }
        ensures within { IfOk result (λ n. n ≤ length bytes.now) }
        ensures count { IfOk result (λ n. self.new.progress.lines ≤ self.old.progress.lines + n) }
        ensures bound { self.new.progress.lines ≤ self.old.progress.lines + length bytes.now }
        ensures room { OnOk result (length block.new.items ≤ most) }
        ensures none { IfOk result (λ n. n ≡ 0 → IsLine bytes.now) }
        ensures ok { IfOk result (λ n. Advances limits (take n bytes.now)
            (state_of self.old) block.old.items (state_of self.new) block.new.items) }
        ensures err { IfErr result (λ f. Shows limits bytes.now (state_of self.old) f.kind f.line) }
        ensures kept { OnErr result (StopsWithin limits bytes.now (state_of self.old) block.old.items block.new.items) }
        ensures lacks { IfErr result (λ f. f.kind ≡ MmKind.Memory → vec_capacity block.old < most) }
        ensures grows { vec_capacity block.old ≤ vec_capacity block.new }
    {
        let taken = self.take_plain_lines(bytes, block, most)?;
        if taken > 0 {
            return Ok(taken);
        }
        self.take_line(limits, bytes, block)
    }

    /// Judges the lines that end in these bytes as long as the block has room for two cells, and gives how many bytes
    /// they took.
    pub fn take_lines(
        &mut self,
        limits: TextLimits,
        bytes: &[u8],
        block: &mut Vec<Cell>,
        most: usize,
    ) -> Result<usize, MmFault>
        requires lines { self.old.progress.lines + length bytes.now + 1 < 2 ^ 64 }
        requires room { length block.old.items ≤ most }
        ensures within { IfOk result (λ n. n ≤ length bytes.now) }
        ensures count { IfOk result (λ n. self.new.progress.lines ≤ self.old.progress.lines + n) }
        ensures bound { self.new.progress.lines ≤ self.old.progress.lines + length bytes.now }
        ensures room { OnOk result (length block.new.items ≤ most) }
        ensures rest { IfOk result (λ n. length block.new.items + 1 < most → IsLine (drop n bytes.now)) }
        ensures ok { IfOk result (λ n. Advances limits (take n bytes.now)
            (state_of self.old) block.old.items (state_of self.new) block.new.items) }
        ensures err { IfErr result (λ f. Shows limits bytes.now (state_of self.old) f.kind f.line) }
        ensures kept { OnErr result (StopsWithin limits bytes.now (state_of self.old) block.old.items block.new.items) }
        ensures lacks { IfErr result (λ f. f.kind ≡ MmKind.Memory → vec_capacity block.old < most) }
        ensures grows { vec_capacity block.old ≤ vec_capacity block.new }
    {
        let mut start = 0;
        'lines: while most - block.len() > 1 {
            let taken = self.take_next(limits, &bytes[start..], block, most)?;
            if taken == 0 {
                return Ok(start);
            }
            start += taken;
        }
        Ok(start)
    }

    /// Judges what is carried as the last line, where the text has ended.
    fn end_last(&mut self, limits: TextLimits, block: &mut Vec<Cell>) -> Result<(), MmFault>
        requires lines { self.old.progress.lines + 1 < 2 ^ 64 }
        ensures bound { self.new.progress.lines ≤ self.old.progress.lines + 1 }
        ensures ok { OnOk result (EndsLast limits (state_of self.old) block.old.items self.new.progress
            block.new.items) }
        ensures err { IfErr result (λ f. (text : List ℕ) (given : List Cell) →
            Holds limits text (state_of self.old) given → Explains text limits (Unit {0}) ⊥ f.kind f.line) }
        ensures kept { OnErr result (block.new.items ≡ block.old.items) }
        ensures lacks { IfErr result (λ f. f.kind ≡ MmKind.Memory →
            vec_capacity block.old < length block.old.items + 2) }
        ensures grows { vec_capacity block.old ≤ vec_capacity block.new }
    {
        if self.carry.is_empty() {
            return Ok(());
        }
        self.end_carried(limits, &[], block)
    }

    /// Judges the end of the text: its last line, if that has no LF, and then what is missing.
    pub fn end_text(&mut self, limits: TextLimits, block: &mut Vec<Cell>) -> Result<(), MmFault>
        requires lines { self.old.progress.lines + 1 < 2 ^ 64 }
        ensures bound { self.new.progress.lines ≤ self.old.progress.lines + 1 }
        ensures ok { OnOk result (EndsText limits (state_of self.old) block.old.items self.new.progress.stage
            block.new.items) }
        ensures err { IfErr result (λ f. (text : List ℕ) (given : List Cell) →
            Holds limits text (state_of self.old) given → Explains text limits (Unit {0}) ⊥ f.kind f.line) }
        ensures kept { OnErr result (EndsWithin limits (state_of self.old) block.old.items block.new.items) }
        ensures lacks { IfErr result (λ f. f.kind ≡ MmKind.Memory →
            vec_capacity block.old < length block.old.items + 2) }
        ensures grows { vec_capacity block.old ≤ vec_capacity block.new }
    {
        let line = self.progress.lines + 1;
        self.end_last(limits, block)?;
        match self.progress.end_size() {
            Ok(_) => Ok(()),
            Err(kind) => Err(MmFault { kind, line }),
        }
    }
}
