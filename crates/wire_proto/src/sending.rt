//! Sends replies.
ghost use Rattle.std.specs.Prelude.{◌≡◌, ◌+◌, ◌<◌, ◌≤◌, ◌^◌, length, IfOk, OnErr};
ghost use Rattle.merged_cells.specs.Within.{LieWithin};
ghost use Rattle.wire_proto.specs.Closing.{Closes, Sends};
ghost use Rattle.wire_proto.specs.LongReplies.{bytes_of};
ghost use Rattle.mm_laws.specs.MatrixText.{matrix_text};
ghost use Rattle.wire_proto.specs.TextSizes.{IsSizeOf};
ghost use Rattle.wire_proto.specs.Replies.{text as text_of, text_reply};

use crate::ended::Ended;
use crate::exporting::{TextSize, text_size, write_text};
use crate::questions::Answer;
use crate::replies::{Short, refused, text_head};
use byte_io::{Sink, write_all};
use merged_cells::MergedCells;
use plain_engine::ViewedSum;
use std::alloc::{AllocError, Global};

/// Writes bytes, and gives how many the session has written with them.
pub fn send<L: Sink>(link: &mut L, bytes: &[u8], written: u128) -> Result<u128, Ended>
    requires ready { L.failure_count link.old + 1 < 2 ^ 64 }
    requires room { written + length bytes.now < 2 ^ 128 }
    ensures { Sends L.write_takes L.failure_count link.old link.new bytes.now written result }
{
    match write_all(link, bytes) {
        Ok(()) => Ok(written + bytes.len() as u128),
        Err(fault) => Err(Ended::WriteFault {
            written: written + fault.written,
        }),
    }
}

/// Sends a short reply.
pub fn send_reply<L: Sink>(link: &mut L, reply: &Short, written: u128) -> Result<u128, Ended>
    requires ready { L.failure_count link.old + 1 < 2 ^ 64 }
    requires room { written + 2 ^ 27 < 2 ^ 128 }
    ensures sends { Sends L.write_takes L.failure_count link.old link.new reply.now.items written result }
    ensures short { length reply.now.items ≤ 2 ^ 27 }
{
    send(link, reply.as_slice(), written)
}

/// Sends a reply that was made before.
pub fn send_answer<L: Sink>(link: &mut L, reply: &Answer, written: u128) -> Result<u128, Ended>
    requires ready { L.failure_count link.old + 1 < 2 ^ 64 }
    requires few { length (bytes_of reply.now) ≤ 2 ^ 27 }
    requires room { written + 2 ^ 27 < 2 ^ 128 }
    ensures { Sends L.write_takes L.failure_count link.old link.new (bytes_of reply.now) written result }
{
    send(link, reply.as_slice(), written)
}

/// Writes the text of a sum, and gives how many bytes the session has written with it.
fn send_cells<L: Sink>(
    link: &mut L,
    sum: &ViewedSum,
    cells: MergedCells<'_>,
    size: TextSize,
    written: u128,
) -> Result<u128, Ended>
    requires ready { L.failure_count link.old + 1 < 2 ^ 64 }
    requires of_sum { cells ≡ sum.now.counts }
    requires within { LieWithin sum.now.rows sum.now.cols cells }
    requires size { IsSizeOf sum.now size.len size.cells }
    requires room { written + size.len < 2 ^ 128 }
    ensures { Sends L.write_takes L.failure_count link.old link.new (matrix_text sum.now) written result }
{
    match write_text(link, sum, cells, size.cells) {
        Ok(()) => Ok(written + size.len as u128),
        Err(fault) => Err(Ended::WriteFault {
            written: written + fault.written,
        }),
    }
}

/// Sends the text of a sum with its head.
fn send_text<L: Sink>(
    link: &mut L,
    sum: &ViewedSum,
    cells: MergedCells<'_>,
    size: TextSize,
    written: u128,
) -> Result<u128, Ended>
    requires ready { L.failure_count link.old + 1 < 2 ^ 64 }
    requires of_sum { cells ≡ sum.now.counts }
    requires within { LieWithin sum.now.rows sum.now.cols cells }
    requires size { IsSizeOf sum.now size.len size.cells }
    requires room { written + 2 ^ 27 < 2 ^ 128 }
    ensures { Sends L.write_takes L.failure_count link.old link.new (text_of (matrix_text sum.now)) written result }
{
    let head = text_head(size.len);
    match send(link, head.as_slice(), written) {
        Ok(sent) => send_cells(link, sum, cells, size, sent),
        Err(fault) => Err(fault),
    }
}

/// Sends the text of a sum, or refuses it as too large. Its cells are gone through twice, side by side in the matrices
/// that it is of: all memory for both walks is taken before the first byte is sent.
///
/// # Errors
///
/// That memory was refused. Nothing was sent then.
pub fn send_sum<L: Sink>(
    alloc: Global,
    link: &mut L,
    sum: &ViewedSum,
    written: u128,
) -> Result<Result<u128, Ended>, AllocError>
    requires ready { L.failure_count link.old + 1 < 2 ^ 64 }
    requires room { written + 2 ^ 27 < 2 ^ 128 }
    ensures sends { IfOk result (λ sent. Sends L.write_takes L.failure_count link.old link.new
        (text_reply (matrix_text sum.now)) written sent) }
    ensures none { OnErr result (link.new ≡ link.old) }
{
    let first = sum.cells(alloc)?;
    let second = sum.cells(alloc)?;
    match text_size(sum, first) {
        Some(size) => Ok(send_text(link, sum, second, size, written)),
        None => Ok(send_reply(link, &refused(40, 0), written)),
    }
}

/// Sends the last reply of a session, and gives how it ended.
pub fn close<L: Sink>(link: &mut L, reply: &Short, written: u128, ended: Ended) -> Ended
    requires ready { L.failure_count link.old + 1 < 2 ^ 64 }
    requires room { written + 2 ^ 27 < 2 ^ 128 }
    ensures { Closes L.write_takes L.failure_count link.old link.new reply.now.items written ended result }
{
    match send(link, reply.as_slice(), written) {
        Ok(_) => ended,
        Err(fault) => fault,
    }
}
