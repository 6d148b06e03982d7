//! Reads a whole text, from a source or where it lies in memory.
ghost use Rattle.std.specs.Prelude.{◌≡◌, ◌≢◌, ◌⊎◌, ℕ, ◌+◌, ◌<◌, ◌≤◌, ◌^◌, List, [], length, Result};
ghost use Rattle.std.specs.Prelude.{IfOk, IfErr, OnOk, Some};
ghost use Rattle.mm_text.specs.Texts.{Spells, FirstFault};
ghost use Rattle.byte_io.specs.Streams.{Answer, Calls, bytes_of_calls};
ghost use Rattle.mm_text.specs.Faults.{Explains, IsUnread, IsMemoryFault};
ghost use Rattle.mm_text.specs.Stages.{declared_size};
ghost use Rattle.mm_text.specs.declared.size.Size.{Size};
ghost use Rattle.mm_text.specs.declared.stages.Stage.{Stage};

use crate::fault::{MmFault, MmKind};
use crate::file::MmFile;
use crate::limits::{MAX_BYTES, TextLimits};
use crate::line_reader::LineReader;
use crate::text_reader::TextReader;
use byte_io::Source;
use cells::Cell;
use std::alloc::Global;
use std::cmp;

/// Reads a Matrix Market text to the end of the source.
///
/// The text is in the coordinate format (NIST), of field `integer` or `unsigned-integer` and of symmetry `general` or
/// `symmetric`. The answer is the matrix that it spells, or the first fault in reading order; `Memory` on line 1 where
/// there was none for the reader itself, and then nothing was read. After an `Err` the
/// source stands where the reading stopped: some bytes behind the fault may have been read too.
///
/// There are at most `max_bytes + 2` reads. A reading takes time in proportion to the text, and memory for two small
/// buffers and the cells that were read; what the size line promises takes none.
#[tactic(auto, using(crate::proofs::WholeTextLemmas::whole_fault, crate::proofs::WholeTextLemmas::whole_unread))]
pub fn read_matrix<R: Source>(
    alloc: Global,
    r: &mut R,
    limits: TextLimits,
) -> Result<MmFile, MmFault>
    requires failures { R.failure_count r.old + 1 < 2 ^ 64 }
    requires limit { limits.max_bytes ≤ MAX_BYTES }
    ensures ok { IfOk result (λ m. (answers : List Answer) × Calls R.read_gives r.old answers r.new
        × (length answers ≤ limits.max_bytes + 2) × R.at_end r.new
        × Spells (bytes_of_calls answers) limits m.rows m.cols m.cells.items) }
    ensures err { IfErr result (λ f. (answers : List Answer) × Calls R.read_gives r.old answers r.new
        × (length answers ≤ limits.max_bytes + 2)
        × (Explains (bytes_of_calls answers) limits (R.at_end r.new)
        (R.failure_count r.new ≡ R.failure_count r.old + 1) f.kind f.line
        ⊎ IsUnread answers f.kind f.line)) }
    ensures failures { IfErr result (λ f. f.kind ≢ MmKind.Read → R.failure_count r.new ≡ R.failure_count r.old) }
    ensures no_failure { OnOk result (R.failure_count r.new ≡ R.failure_count r.old) }
{
    let mut cells = Vec::new(alloc);
    match TextReader::new(alloc, limits) {
        Err(_) => Err(MmFault {
            kind: MmKind::Memory,
            line: 1,
        }),
        Ok(mut reader) => {
            let more = reader.read_block(r, &mut cells, usize::MAX)?;
            match reader.size() {
                Some(size) if !more => Ok(MmFile {
                    rows: size.rows,
                    cols: size.cols,
                    cells,
                }),
                // No list holds so many cells, and what was read to its end has a size line.
                _ => unreachable!(),
            }
        }
    }
}

/// How many of a text's bytes are within the limit.
fn bytes_allowed(text: &[u8], limits: TextLimits) -> usize
    ensures within { result ≤ length text.now }
    ensures allowed { result ≤ limits.max_bytes }
    ensures cut { result < length text.now → result ≡ limits.max_bytes }
{
    cmp::min(text.len() as u64, limits.max_bytes) as usize
}

/// Judges a text that lies in memory to its end, and appends its cells.
fn judge_text(
    lines: &mut LineReader,
    text: &[u8],
    limits: TextLimits,
    cells: &mut Vec<Cell>,
) -> Result<(), MmFault>
    requires stage { lines.old.progress.stage ≡ Stage.AtBanner }
    requires count { lines.old.progress.lines ≡ 0 }
    requires carry { lines.old.carry.items ≡ [] }
    requires empty { cells.old.items ≡ [] }
    ensures ok { OnOk result ((size : Size) × (declared_size lines.new.progress.stage ≡ Some size)
        × Spells text.now limits size.rows size.cols cells.new.items) }
    ensures err { IfErr result (λ f. Explains text.now limits (Unit {0}) ⊥ f.kind f.line) }
{
    let allowed = &text[..bytes_allowed(text, limits)];
    let taken = lines.take_lines(limits, allowed, cells, usize::MAX)?;
    lines.carry_on(&allowed[taken..])?;
    if allowed.len() < text.len() {
        return Err(lines.progress.fault_here(MmKind::TooLong));
    }
    lines.end_text(limits, cells)
}

/// Reads a Matrix Market text to its end where it lies in memory, as `read_matrix` reads one from a source.
///
/// The answer is the matrix that the text spells, or its first fault in reading order; `Memory` on line 1 where there
/// was none for the reader itself, and on a line's number where there was none for its cells.
///
/// Nothing of the text is copied but the last line, if that has no LF. It takes time in proportion to the text, and
/// memory for that line and the cells.
pub fn read_text(alloc: Global, text: &[u8], limits: TextLimits) -> Result<MmFile, MmFault>
    ensures ok { IfOk result (λ m. Spells text.now limits m.rows m.cols m.cells.items) }
    ensures err { IfErr result (λ f. f.kind ≢ MmKind.Memory → FirstFault text.now limits f.kind f.line) }
    ensures memory { IfErr result (λ f. f.kind ≡ MmKind.Memory →
        IsMemoryFault text.now limits (Unit {0}) f.line ⊎ (f.line ≡ 1)) }
    ensures no_read { IfErr result (λ f. f.kind ≢ MmKind.Read) }
{
    let lack = MmFault {
        kind: MmKind::Memory,
        line: 1,
    };
    let Ok(mut lines) = LineReader::new(alloc) else {
        return Err(lack);
    };
    let mut cells = Vec::new(alloc);
    judge_text(&mut lines, text, limits, &mut cells)?;
    match lines.progress.size() {
        Some(size) => Ok(MmFile {
            rows: size.rows,
            cols: size.cols,
            cells,
        }),
        // What was read to its end has a size line.
        None => unreachable!(),
    }
}
