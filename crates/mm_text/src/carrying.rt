//! Joins the lines that two pieces of a text share.
//!
//! What was read of the present line is carried until its LF comes. A line that is too long shows it at once, and of
//! a comment, which may have any length, no more is carried than its first byte. So what is carried fits in a buffer
//! of `CARRY` bytes, which is made once.
ghost use Rattle.std.specs.Prelude.{◌≡◌, ℕ, ◌+◌, ◌<◌, ◌≤◌, ◌^◌, ◌++◌, ◌∷◌, [], ◌==◌, not, ◌&&◌, List, OnOk, OnErr};
ghost use Rattle.std.specs.Prelude.{IfErr, IfOk, length, vec_len, vec_capacity, true, false, take, drop};
ghost use Rattle.mm_text.specs.Lines.{is_comment, IsLine};
ghost use Rattle.mm_text.specs.Stages.{IsCarried, cut_kind, AddsLine, EndsCarried, Keeps, LineFault, Advances};
ghost use Rattle.mm_text.specs.Faults.{Shows};
ghost use Rattle.cells.specs.declared.cell.Cell.{Cell};

use crate::fault::{MmFault, MmKind};
use crate::limits::{CARRY, MAX_LINE, TextLimits};
use crate::line_reader::LineReader;
use crate::progress::{content_of, is_comment_line};
use cells::Cell;

/// Whether the line that begins with these bytes is a comment, if it isn't the first.
fn is_comment_front(carry: &[u8], bytes: &[u8]) -> bool
    ensures { result ≡ is_comment (carry.now ++ bytes.now) }
{
    if carry.is_empty() {
        return is_comment_line(bytes);
    }
    is_comment_line(carry)
}

/// Carries no more than the mark of a comment.
fn carry_mark(carry: &mut Vec<u8>)
    requires { CARRY ≤ vec_capacity carry.old }
    ensures items { carry.new.items ≡ 37 ∷ [] }
    ensures capacity { CARRY ≤ vec_capacity carry.new }
{
    carry.clear();
    carry.push_reserved(b'%');
}

/// Carries these bytes too, if the line isn't too long with them.
fn carry_bytes(carry: &mut Vec<u8>, bytes: &[u8]) -> bool
    requires { CARRY ≤ vec_capacity carry.old }
    ensures carried { result ≡ true → carry.new.items ≡ carry.old.items ++ bytes.now }
    ensures over { result ≡ false → CARRY < length carry.old.items + length bytes.now }
    ensures capacity { CARRY ≤ vec_capacity carry.new }
{
    if bytes.len() > CARRY.saturating_sub(carry.len()) {
        return false;
    }
    // There is room: this call takes no memory and can't fail.
    carry.extend_from_slice(bytes).is_ok()
}

impl LineReader {
    /// Whether the present line, of which this much is there, is a comment.
    fn is_comment_here(&self, bytes: &[u8]) -> bool
        ensures { result ≡ (not (self.now.progress.lines == 0) && is_comment (self.now.carry.items ++ bytes.now)) }
    {
        self.progress.lines != 0 && is_comment_front(self.carry.as_slice(), bytes)
    }

    /// Takes bytes of the present line, none of which ends it.
    pub fn carry_on(&mut self, bytes: &[u8]) -> Result<(), MmFault>
        requires lines { self.old.progress.lines + 1 < 2 ^ 64 }
        ensures progress { self.new.progress ≡ self.old.progress }
        ensures ok { OnOk result ((rest : List ℕ) → IsCarried self.old.progress.lines rest self.old.carry.items →
            IsCarried self.old.progress.lines (rest ++ bytes.now) self.new.carry.items
            × (cut_kind (self.old.progress.lines == 0) (rest ++ bytes.now) ≡ MmKind.TooLong)) }
        ensures kind { IfErr result (λ f. f.kind ≡ MmKind.LineTooLong) }
        ensures line { IfErr result (λ f. f.line ≡ self.old.progress.lines + 1) }
        ensures err { IfErr result (λ f. (rest : List ℕ) → IsCarried self.old.progress.lines rest self.old.carry.items →
            cut_kind (self.old.progress.lines == 0) (rest ++ bytes.now) ≡ MmKind.LineTooLong) }
    {
        if self.is_comment_here(bytes) {
            carry_mark(&mut self.carry);
            return Ok(());
        }
        if !carry_bytes(&mut self.carry, bytes) {
            return Err(self.progress.fault_here(MmKind::LineTooLong));
        }
        if content_of(self.carry.as_slice()).len() > MAX_LINE {
            return Err(self.progress.fault_here(MmKind::LineTooLong));
        }
        Ok(())
    }

    /// Judges the line that is carried, of which these bytes are the end.
    pub fn end_carried(
        &mut self,
        limits: TextLimits,
        bytes: &[u8],
        block: &mut Vec<Cell>,
    ) -> Result<(), MmFault>
        requires lines { self.old.progress.lines + 1 < 2 ^ 64 }
        ensures carry { OnOk result (self.new.carry.items ≡ []) }
        ensures count { OnOk result (self.new.progress.lines ≡ self.old.progress.lines + 1) }
        ensures bound { self.new.progress.lines ≤ self.old.progress.lines + 1 }
        ensures ok { OnOk result (AddsLine limits (EndsCarried self.old.progress.lines self.old.carry.items bytes.now)
            self.old.progress block.old.items self.new.progress block.new.items) }
        ensures line { IfErr result (λ f. f.line ≡ self.old.progress.lines + 1) }
        ensures err { IfErr result (λ f. (rest : List ℕ) (done : List (List ℕ)) (given : List Cell) →
            IsCarried self.old.progress.lines rest self.old.carry.items →
            Keeps limits done self.old.progress.stage given self.old.progress.lines →
            LineFault limits done (rest ++ bytes.now) f.kind) }
        ensures kept { OnErr result (block.new.items ≡ block.old.items) }
        ensures lacks { IfErr result (λ f. f.kind ≡ MmKind.Memory →
            vec_capacity block.old < length block.old.items + 2) }
        ensures grows { vec_capacity block.old ≤ vec_capacity block.new }
    {
        if self.is_comment_here(bytes) {
            self.progress.skip_line();
            self.carry.clear();
            return Ok(());
        }
        if !carry_bytes(&mut self.carry, bytes) {
            return Err(self.progress.fault_here(MmKind::LineTooLong));
        }
        self.progress
            .end_line(limits, self.carry.as_slice(), block)?;
        self.carry.clear();
        Ok(())
    }

    /// Judges the line that ends with these bytes. Where nothing is carried, it is judged in its place.
    pub fn end_in_place(
        &mut self,
        limits: TextLimits,
        bytes: &[u8],
        block: &mut Vec<Cell>,
    ) -> Result<(), MmFault>
        requires lines { self.old.progress.lines + 1 < 2 ^ 64 }
        ensures carry { OnOk result (self.new.carry.items ≡ []) }
        ensures count { OnOk result (self.new.progress.lines ≡ self.old.progress.lines + 1) }
        ensures bound { self.new.progress.lines ≤ self.old.progress.lines + 1 }
        ensures ok { OnOk result (AddsLine limits (EndsCarried self.old.progress.lines self.old.carry.items bytes.now)
            self.old.progress block.old.items self.new.progress block.new.items) }
        ensures line { IfErr result (λ f. f.line ≡ self.old.progress.lines + 1) }
        ensures err { IfErr result (λ f. (rest : List ℕ) (done : List (List ℕ)) (given : List Cell) →
            IsCarried self.old.progress.lines rest self.old.carry.items →
            Keeps limits done self.old.progress.stage given self.old.progress.lines →
            LineFault limits done (rest ++ bytes.now) f.kind) }
        ensures kept { OnErr result (block.new.items ≡ block.old.items) }
        ensures lacks { IfErr result (λ f. f.kind ≡ MmKind.Memory →
            vec_capacity block.old < length block.old.items + 2) }
        ensures grows { vec_capacity block.old ≤ vec_capacity block.new }
    {
        if self.carry.is_empty() {
            return self.progress.end_line(limits, bytes, block);
        }
        self.end_carried(limits, bytes, block)
    }
}
