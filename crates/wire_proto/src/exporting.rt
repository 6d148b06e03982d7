//! The canonical text of a sum, which is the body of a reply: its length first, then its bytes.
//!
//! The length is worked out by a walk over the cells, which ends as soon as no body can carry the text, and the text is
//! written by another, through the buffer of a writer: neither it nor the sum ever stands in memory as a whole.
ghost use Rattle.std.specs.Prelude.{◌≡◌, ℕ, ◌+◌, ◌<◌, ◌≤◌, ◌^◌, length, decimal, MatchOption, OnOk, IfErr};
ghost use Rattle.std.specs.FinMap.{len};
ghost use Rattle.byte_io.specs.Writing.{HasTaken, HasStopped};
ghost use Rattle.merged_cells.specs.Within.{LieWithin};
ghost use Rattle.mm_laws.specs.MatrixText.{matrix_text};
ghost use Rattle.wire_proto.specs.TextSizes.{IsSizeOf};
ghost use Rattle.mm_text.specs.Canonical.{numbers_line};

use byte_io::{Sink, WriteFault};
use merged_cells::MergedCells;
use mm_text::TextWriter;
use plain_engine::ViewedSum;
use wire_frames::MAX_BODY;

/// The bytes of a banner line.
const BANNER: u64 = 49;

/// The bytes of a matrix's text, and its cells.
#[derive(Clone, Copy, Drop)]
pub struct TextSize {
    pub len: u32,
    pub cells: u64,
}

/// How many digits a number has.
fn digits(n: u64) -> u64
    ensures value { result ≡ length (decimal n) }
    ensures few { result ≤ 20 }
{
    let mut buffer = itoa::Buffer::new();
    buffer.format(n).len() as u64
}

/// The bytes of a line of three numbers.
fn line_length(first: u64, second: u64, third: u64) -> u64
    ensures value { result ≡ length (numbers_line first second third) }
    ensures few { result ≤ 63 }
    ensures some { 3 ≤ result }
{
    digits(first) + digits(second) + digits(third) + 3
}

/// The length of a sum's canonical text and the number of its cells, by a walk over these, where a body can carry the
/// text.
pub fn text_size(sum: &ViewedSum, cells: MergedCells<'_>) -> Option<TextSize>
    requires of_sum { cells ≡ sum.now.counts }
    requires within { LieWithin sum.now.rows sum.now.cols cells }
    ensures { MatchOption result (67108864 < length (matrix_text sum.now))
        (λ size. IsSizeOf sum.now size.len size.cells) }
{
    let (rows, cols) = sum.dims();
    let mut len = BANNER;
    let mut count = 0;
    for cell in cells {
        if len > MAX_BODY as u64 {
            return None;
        }
        len += line_length(cell.row + 1, cell.col + 1, cell.count);
        count += 1;
    }
    let size_line = line_length(rows, cols, count);
    len += size_line;
    if len > MAX_BODY as u64 {
        return None;
    }
    Some(TextSize {
        len: len as u32,
        cells: count,
    })
}

/// Writes the canonical text of a sum, its cells by row and then by column.
///
/// At an Err `written` counts from the first byte of the text. It takes no memory and time in proportion to the bytes,
/// and does not flush.
pub(crate) fn write_text<W: Sink>(
    w: &mut W,
    sum: &ViewedSum,
    cells: MergedCells<'_>,
    entries: u64,
) -> Result<(), WriteFault>
    requires ready { W.failure_count w.old + 1 < 2 ^ 64 }
    requires of_sum { cells ≡ sum.now.counts }
    requires within { LieWithin sum.now.rows sum.now.cols cells }
    requires entries { entries ≡ len sum.now.counts }
    ensures ok { OnOk result (HasTaken W.write_takes W.failure_count w.old w.new (matrix_text sum.now)) }
    ensures err { IfErr result (λ fault.
        HasStopped W.write_takes W.failure_count w.old w.new (matrix_text sum.now) fault.written) }
{
    let (rows, cols) = sum.dims();
    let mut writer = TextWriter::new(rows, cols, entries);
    for cell in cells {
        writer.write_cell(w, cell)?;
    }
    writer.finish(w)
}
