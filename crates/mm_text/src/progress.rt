//! Judges whole lines, one behind another.
//!
//! Nothing is kept of a line but what it declares: which line comes next, the size line's numbers, and how many
//! entries were seen. A line costs one pass over its words.
ghost use Rattle.std.specs.Prelude.{◌≡◌, ℕ, ◌+◌, ◌<◌, ◌≤◌, ◌^◌, ◌++◌, List, OnOk, OnErr, IfOk, IfErr, IsSome, length};
ghost use Rattle.std.specs.Prelude.{vec_capacity, Bool, true, Some};
ghost use Rattle.std.specs.List.{list_all};
ghost use Rattle.mm_text.specs.Lines.{content, is_comment, is_skipped, is_blank};
ghost use Rattle.mm_text.specs.Stages.{judged, Keeps, LineFault, is_symmetric, added, AddsLine, lack_at};
ghost use Rattle.mm_text.specs.Stages.{declared_size};
ghost use Rattle.cells.specs.declared.cell.Cell.{Cell};

use crate::fault::{MmFault, MmKind};
use crate::limits::{MAX_LINE, TextLimits};
use crate::size::Size;
use crate::stages::{Stage, next_stage, push_cells};
use crate::words::is_blank_byte;
use cells::Cell;
use std::alloc::AllocError;

/// What the whole lines so far declare, if they bear no fault.
#[derive(Clone, Copy)]
pub struct Progress {
    /// Which line that counts comes next.
    pub stage: Stage,
    /// How many lines there were, skipped ones too.
    pub lines: u64,
}

/// The line without the one CR at its end.
pub fn content_of(line: &[u8]) -> &[u8]
    ensures { result.now ≡ content line.now }
{
    match line {
        [content @ .., b'\r'] => content,
        _ => line,
    }
}

pub fn is_comment_line(line: &[u8]) -> bool
    ensures { result ≡ is_comment line.now }
{
    match line {
        [b'%', ..] => true,
        _ => false,
    }
}

fn is_blank_line(line: &[u8]) -> bool
    ensures { result ≡ list_all is_blank line.now }
{
    line.iter().all(|byte| is_blank_byte(*byte))
}

fn is_skipped_line(line: &[u8]) -> bool
    ensures { result ≡ is_skipped line.now }
{
    is_comment_line(line) || is_blank_line(content_of(line))
}

fn judge_line(
    limits: TextLimits,
    stage: Stage,
    is_first: bool,
    line: &[u8],
) -> Result<Option<(Stage, Option<Cell>)>, MmKind>
    ensures { result ≡ judged limits stage is_first line.now }
{
    let content = content_of(line);
    if (is_first || !is_comment_line(line)) && content.len() > MAX_LINE {
        return Err(MmKind::LineTooLong);
    }
    if !is_first && is_skipped_line(line) {
        return Ok(None);
    }
    let next = next_stage(limits, stage, content)?;
    Ok(Some(next))
}

fn stage_symmetry(stage: Stage) -> bool
    ensures { result ≡ is_symmetric stage }
{
    match stage {
        Stage::AtBanner => false,
        Stage::AtSize { symmetric } | Stage::AtEntries { symmetric, .. } => symmetric,
    }
}

/// Adds the cells of an entry to the block, if the line was one.
fn add_cells(block: &mut Vec<Cell>, stage: Stage, cell: Option<Cell>) -> Result<(), AllocError>
    ensures ok { OnOk result (block.new.items ≡ block.old.items ++ added stage cell) }
    ensures some { OnErr result (IsSome cell) }
    ensures err { OnErr result (block.new.items ≡ block.old.items) }
    ensures lacks { OnErr result (vec_capacity block.old < length block.old.items + 2) }
    ensures grows { vec_capacity block.old ≤ vec_capacity block.new }
{
    match cell {
        Some(cell) => push_cells(block, stage_symmetry(stage), cell),
        None => Ok(()),
    }
}

impl Progress {
    /// The state before the first line.
    pub fn new() -> Progress
        ensures stage { result.stage ≡ Stage.AtBanner }
        ensures lines { result.lines ≡ 0 }
    {
        Progress {
            stage: Stage::AtBanner,
            lines: 0,
        }
    }

    /// A fault of the line that comes next.
    pub fn fault_here(&self, kind: MmKind) -> MmFault
        requires { self.now.lines + 1 < 2 ^ 64 }
        ensures kind { result.kind ≡ kind }
        ensures line { result.line ≡ self.now.lines + 1 }
    {
        MmFault {
            kind,
            line: self.lines + 1,
        }
    }

    /// Judges the next line, which was read to its end, and appends its cells to the block.
    pub fn end_line(
        &mut self,
        limits: TextLimits,
        line: &[u8],
        block: &mut Vec<Cell>,
    ) -> Result<(), MmFault>
        requires { self.old.lines + 1 < 2 ^ 64 }
        ensures ok { OnOk result (AddsLine limits (λ l. l ≡ line.now) self.old block.old.items self.new
            block.new.items) }
        ensures count { OnOk result (self.new.lines ≡ self.old.lines + 1) }
        ensures bound { self.new.lines ≤ self.old.lines + 1 }
        ensures line { IfErr result (λ f. f.line ≡ self.old.lines + 1) }
        ensures err { IfErr result (λ f. (done : List (List ℕ)) (given : List Cell) →
            Keeps limits done self.old.stage given self.old.lines → LineFault limits done line.now f.kind) }
        ensures kept { OnErr result (block.new.items ≡ block.old.items) }
        ensures lacks { IfErr result (λ f. f.kind ≡ MmKind.Memory →
            vec_capacity block.old < length block.old.items + 2) }
        ensures grows { vec_capacity block.old ≤ vec_capacity block.new }
    {
        match judge_line(limits, self.stage, self.lines == 0, line) {
            Err(kind) => Err(self.fault_here(kind)),
            Ok(None) => {
                self.lines += 1;
                Ok(())
            }
            Ok(Some((stage, cell))) => {
                if add_cells(block, stage, cell).is_err() {
                    return Err(self.fault_here(MmKind::Memory));
                }
                self.stage = stage;
                self.lines += 1;
                Ok(())
            }
        }
    }

    /// Passes over a comment.
    pub fn skip_line(&mut self)
        requires { self.old.lines + 1 < 2 ^ 64 }
        ensures stage { self.new.stage ≡ self.old.stage }
        ensures lines { self.new.lines ≡ self.old.lines + 1 }
    {
        self.lines += 1;
    }

    /// What the size line declares, once it was judged.
    pub fn size(&self) -> Option<Size>
        ensures { result ≡ declared_size self.now.stage }
    {
        match self.stage {
            Stage::AtBanner => None,
            Stage::AtSize { .. } => None,
            Stage::AtEntries { size, .. } => Some(size),
        }
    }

    /// The dimensions, where the text has ended and nothing is missing.
    pub fn end_size(&self) -> Result<Size, MmKind>
        ensures ok { IfOk result (λ s. (symmetric : Bool) × (seen : ℕ) ×
            (self.now.stage ≡ Stage.AtEntries symmetric s seen) × (s.entries ≤ seen)) }
        ensures err { IfErr result (λ kind. lack_at self.now.stage ≡ Some kind) }
    {
        match self.stage {
            Stage::AtBanner => Err(MmKind::BadBanner),
            Stage::AtSize { .. } => Err(MmKind::BadSize),
            Stage::AtEntries { size, seen, .. } => {
                if seen < size.entries {
                    Err(MmKind::TooFewEntries)
                } else {
                    Ok(size)
                }
            }
        }
    }
}
