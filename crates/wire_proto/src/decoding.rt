//! Reads replies, as a client does.
//!
//! A reply has one encoding. So a frame is read by its kind, what it would say is encoded again, and only where that
//! gives the same bytes is it a reply.
ghost use Rattle.std.specs.Prelude.{◌≡◌, ◌≤◌, ◌↔◌, length, true, Some, IfSome, IsTrue};
ghost use Rattle.std.specs.Option.{option_map};
ghost use Rattle.wire_frames.specs.Frames.{number_at, head_kind};
ghost use Rattle.wire_proto.specs.Decoding.{Said, said, reply_frame, FitsReply, IsReplyFrame, short_fits, body_says};
ghost use Rattle.wire_proto.specs.Decoding.{value_at, code_at, AreWhole};

use crate::limits::MOST_BYTES;
use crate::replies::{
    Short, accepted, cells_head, counts, lines_head, refused, row_sum, rows_head, saved, stopping,
    text_head, value,
};
use batch_store::Kept;
use bytes::Buf;
use hyper_matrix::RowSum;
use plain_engine::Status;
use wire_frames::{CELL, HEAD, MAX_BODY};

/// What a server answers.
#[derive(Clone, Copy, Debug, PartialEq, Eq)]
pub enum Reply<'a> {
    /// The batch stands at this place, with this total: accepted now, or before.
    Accepted(Kept),
    /// The count of a cell; None where it isn't stored.
    Value(Option<u64>),
    /// The entries of a row, and their total.
    RowSum(RowSum),
    /// How many batches were accepted, and their total.
    Counts(Status),
    /// The canonical text of the sum, or any other bytes.
    Text(&'a [u8]),
    /// So many batches were saved.
    Saved(u64),
    /// The server stops.
    Stopping,
    /// The request was refused.
    Refused { code: u16, detail: u64 },
    /// Cells, 24 bytes each: row, column and count. Whether there are more.
    Cells { more: bool, cells: &'a [u8] },
    /// Rows, 24 bytes each: row, entries and total.
    Rows(&'a [u8]),
    /// Lines of what the server tells of itself, or any other bytes.
    Stats(&'a [u8]),
}

/// Whether a body of this length fits the kind of a reply but a text, cells, rows and lines.
#[tactic(auto, unfolding(crate::specs::Decoding::short_fits))]
fn fits(kind: u8, len: usize) -> bool
    ensures { result ≡ short_fits kind len }
{
    match kind {
        0x81 | 0x83 | 0x84 => len == 16,
        0x82 => len == 9,
        0x86 => len == 8,
        0x87 => len == 0,
        0xff => len == 10,
        _ => false,
    }
}

/// The two numbers of a body.
#[tactic(auto, unfolding(wire_frames::specs::Frames::number_at))]
fn pair_in(body: &[u8]) -> (u64, u64)
    requires { length body.now ≡ 16 }
    ensures first { result.0 ≡ number_at 0 body.now }
    ensures second { result.1 ≡ number_at 8 body.now }
{
    let mut rest = body;
    let first = rest.get_u64();
    let second = rest.get_u64();
    (first, second)
}

/// The number of a body of one number.
#[tactic(auto, unfolding(wire_frames::specs::Frames::number_at))]
fn number_in(body: &[u8]) -> u64
    requires { length body.now ≡ 8 }
    ensures { result ≡ number_at 0 body.now }
{
    let mut rest = body;
    rest.get_u64()
}

/// The count of a body that tells one, or that there is none.
#[tactic(auto, unfolding(wire_frames::specs::Frames::number_at))]
fn value_in(body: &[u8]) -> Option<u64>
    requires { length body.now ≡ 9 }
    ensures { result ≡ value_at body.now }
{
    let mut rest = body;
    let mark = rest.get_u8();
    if mark == 0 {
        return None;
    }
    Some(rest.get_u64())
}

/// The code and the detail of a body.
#[tactic(auto, unfolding(wire_frames::specs::Frames::number_at))]
fn refusal_in(body: &[u8]) -> (u16, u64)
    requires { length body.now ≡ 10 }
    ensures code { result.0 ≡ code_at body.now }
    ensures detail { result.1 ≡ number_at 2 body.now }
{
    let mut rest = body;
    let code = rest.get_u16();
    let detail = rest.get_u64();
    (code, detail)
}

/// What a body of this kind would say, and its encoding.
#[tactic(auto, unfolding(crate::specs::Decoding::short_fits, crate::specs::Decoding::body_says))]
fn open(kind: u8, body: &[u8]) -> (Reply<'static>, Short)
    requires { short_fits kind (length body.now) ≡ true }
    ensures says { said result.0 ≡ body_says kind body.now }
    ensures encoded { result.1.items ≡ reply_frame (said result.0) }
    ensures fits { FitsReply (said result.0) }
{
    match kind {
        0x81 => {
            let (index, total_after) = pair_in(body);
            let kept = Kept { index, total_after };
            (Reply::Accepted(kept), accepted(kept))
        }
        0x82 => {
            let count = value_in(body);
            (Reply::Value(count), value(count))
        }
        0x83 => {
            let (entries, total) = pair_in(body);
            let sum = RowSum { entries, total };
            (Reply::RowSum(sum), row_sum(sum))
        }
        0x84 => {
            let (batches, total) = pair_in(body);
            let status = Status { batches, total };
            (Reply::Counts(status), counts(status))
        }
        0x86 => {
            let batches = number_in(body);
            (Reply::Saved(batches), saved(batches))
        }
        0x87 => (Reply::Stopping, stopping()),
        _ => {
            let (code, detail) = refusal_in(body);
            (Reply::Refused { code, detail }, refused(code, detail))
        }
    }
}

/// The reply that carries a text.
fn text_in(bytes: &[u8]) -> Option<Reply<'_>>
    requires long { 5 ≤ length bytes.now }
    requires kind { head_kind bytes.now ≡ 133 }
    ensures some { IfSome result (λ r. IsReplyFrame bytes.now (said r)) }
    ensures only { (r : Said) → IsReplyFrame bytes.now r → option_map said result ≡ Some r }
{
    let (head, body) = bytes.split_at(HEAD);
    if body.len() > MAX_BODY as usize {
        return None;
    }
    if head == text_head(body.len() as u32).as_slice() {
        Some(Reply::Text(body))
    } else {
        None
    }
}

/// Whether bytes are as many as those of cells or rows that a reply may tell.
fn are_whole(bytes: &[u8]) -> bool
    ensures { IsTrue result ↔ AreWhole bytes.now }
{
    bytes.len() % CELL == 0 && bytes.len() <= MOST_BYTES
}

/// The reply that tells cells.
fn cells_in(bytes: &[u8]) -> Option<Reply<'_>>
    requires long { 5 ≤ length bytes.now }
    requires kind { head_kind bytes.now ≡ 136 }
    ensures some { IfSome result (λ r. IsReplyFrame bytes.now (said r)) }
    ensures only { (r : Said) → IsReplyFrame bytes.now r → option_map said result ≡ Some r }
{
    let (head, body) = bytes.split_at(HEAD);
    let Some((mark, cells)) = body.split_first() else {
        return None;
    };
    if *mark > 1 || !are_whole(cells) {
        return None;
    }
    if head == cells_head(body.len() as u32).as_slice() {
        Some(Reply::Cells {
            more: *mark == 1,
            cells,
        })
    } else {
        None
    }
}

/// The reply that tells rows.
fn rows_in(bytes: &[u8]) -> Option<Reply<'_>>
    requires long { 5 ≤ length bytes.now }
    requires kind { head_kind bytes.now ≡ 137 }
    ensures some { IfSome result (λ r. IsReplyFrame bytes.now (said r)) }
    ensures only { (r : Said) → IsReplyFrame bytes.now r → option_map said result ≡ Some r }
{
    let (head, body) = bytes.split_at(HEAD);
    if !are_whole(body) {
        return None;
    }
    if head == rows_head(body.len() as u32).as_slice() {
        Some(Reply::Rows(body))
    } else {
        None
    }
}

/// The reply that tells lines.
fn lines_in(bytes: &[u8]) -> Option<Reply<'_>>
    requires long { 5 ≤ length bytes.now }
    requires kind { head_kind bytes.now ≡ 138 }
    ensures some { IfSome result (λ r. IsReplyFrame bytes.now (said r)) }
    ensures only { (r : Said) → IsReplyFrame bytes.now r → option_map said result ≡ Some r }
{
    let (head, body) = bytes.split_at(HEAD);
    if body.len() > MAX_BODY as usize {
        return None;
    }
    if head == lines_head(body.len() as u32).as_slice() {
        Some(Reply::Stats(body))
    } else {
        None
    }
}

/// The reply of one whole frame; None where the bytes are anything else, a byte less or more too. Reads a text no
/// further than its head, and takes no memory.
pub fn decode_reply(bytes: &[u8]) -> Option<Reply<'_>>
    ensures some { IfSome result (λ r. IsReplyFrame bytes.now (said r)) }
    ensures only { (r : Said) → IsReplyFrame bytes.now r → option_map said result ≡ Some r }
{
    if bytes.len() < HEAD {
        return None;
    }
    let kind = bytes[4];
    if kind == 0x85 {
        return text_in(bytes);
    }
    if kind == 0x88 {
        return cells_in(bytes);
    }
    if kind == 0x89 {
        return rows_in(bytes);
    }
    if kind == 0x8a {
        return lines_in(bytes);
    }
    let (_, body) = bytes.split_at(HEAD);
    if !fits(kind, body.len()) {
        return None;
    }
    let (reply, encoded) = open(kind, body);
    if encoded.as_slice() == bytes {
        Some(reply)
    } else {
        None
    }
}
