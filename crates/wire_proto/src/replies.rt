//! Short replies, as frames.
ghost use Rattle.std.specs.Prelude.{◌≡◌, ℕ, ◌+◌, ◌<◌, ◌≤◌, ◌++◌, ◌∷◌, [], length};
ghost use Rattle.std.specs.Int.{w16, to_be_bytes};
ghost use Rattle.arrayvec.specs.ArrayVec.{array_vec_len};
ghost use Rattle.wire_frames.specs.Frames.{number, head_bytes, frame};
ghost use Rattle.wire_proto.specs.Replies.{accepted as accepted_reply, value as value_reply, row_sum as row_reply};
ghost use Rattle.wire_proto.specs.Replies.{counts as counts_reply, saved as saved_reply, stopping as stopping_reply};
ghost use Rattle.wire_proto.specs.Replies.{refused as refused_reply};

use crate::limits::SHORT;
use arrayvec::ArrayVec;
use batch_store::Kept;
use hyper_matrix::RowSum;
use plain_engine::Status;

/// A short reply.
pub type Short = ArrayVec<u8, SHORT>;

/// Appends bytes for which there is room.
fn push(out: &mut Short, bytes: &[u8])
    requires { array_vec_len out.old + length bytes.now ≤ 21 }
    ensures items { out.new.items ≡ out.old.items ++ bytes.now }
    ensures len { array_vec_len out.new ≡ array_vec_len out.old + length bytes.now }
{
    match out.try_extend_from_slice(bytes) {
        Ok(()) => {}
        Err(_) => unreachable!(),
    }
}

#[tactic(auto, unfolding(wire_frames::specs::Frames::head_bytes))]
fn start(kind: u8, len: u32) -> Short
    ensures items { result.items ≡ head_bytes kind len }
    ensures len { array_vec_len result ≡ 5 }
{
    let mut out = ArrayVec::new();
    push(&mut out, &len.to_be_bytes());
    push(&mut out, &[kind]);
    out
}

#[tactic(auto, unfolding(wire_frames::specs::Frames::number))]
fn push_number(out: &mut Short, n: u64)
    requires { array_vec_len out.old + 8 ≤ 21 }
    ensures items { out.new.items ≡ out.old.items ++ number n }
    ensures len { array_vec_len out.new ≡ array_vec_len out.old + 8 }
{
    push(out, &n.to_be_bytes());
}

/// A reply of two numbers.
#[tactic(auto, unfolding(wire_frames::specs::Frames::frame, wire_frames::specs::Frames::number))]
fn pair(kind: u8, first: u64, second: u64) -> Short
    ensures { result.items ≡ frame kind (number first ++ number second) }
{
    let mut out = start(kind, 16);
    push_number(&mut out, first);
    push_number(&mut out, second);
    out
}

pub fn accepted(kept: Kept) -> Short
    ensures { result.items ≡ accepted_reply kept }
{
    pair(0x81, kept.index, kept.total_after)
}

#[tactic(auto, unfolding(wire_frames::specs::Frames::frame, wire_frames::specs::Frames::number))]
pub fn value(count: Option<u64>) -> Short
    ensures { result.items ≡ value_reply count }
{
    let mut out = start(0x82, 9);
    match count {
        Some(count) => {
            push(&mut out, &[1]);
            push_number(&mut out, count);
        }
        None => {
            push(&mut out, &[0]);
            push_number(&mut out, 0);
        }
    }
    out
}

pub fn row_sum(sum: RowSum) -> Short
    ensures { result.items ≡ row_reply sum }
{
    pair(0x83, sum.entries, sum.total)
}

pub fn counts(status: Status) -> Short
    ensures { result.items ≡ counts_reply status }
{
    pair(0x84, status.batches, status.total)
}

#[tactic(auto, unfolding(wire_frames::specs::Frames::frame, wire_frames::specs::Frames::number))]
pub fn saved(batches: u64) -> Short
    ensures { result.items ≡ saved_reply batches }
{
    let mut out = start(0x86, 8);
    push_number(&mut out, batches);
    out
}

#[tactic(auto, unfolding(wire_frames::specs::Frames::frame))]
pub fn stopping() -> Short
    ensures { result.items ≡ stopping_reply }
{
    start(0x87, 0)
}

#[tactic(auto, unfolding(wire_frames::specs::Frames::frame, wire_frames::specs::Frames::number))]
pub fn refused(code: u16, detail: u64) -> Short
    ensures { result.items ≡ refused_reply code detail }
{
    let mut out = start(0xff, 10);
    push(&mut out, &code.to_be_bytes());
    push_number(&mut out, detail);
    out
}

/// The head of a reply that carries a text.
#[tactic(auto, unfolding(wire_frames::specs::Frames::frame))]
pub fn text_head(len: u32) -> Short
    ensures { result.items ≡ head_bytes 133 len }
{
    start(0x85, len)
}

/// The head of a reply that tells cells.
pub fn cells_head(len: u32) -> Short
    ensures { result.items ≡ head_bytes 136 len }
{
    start(0x88, len)
}

/// The head of a reply that tells lines.
pub fn lines_head(len: u32) -> Short
    ensures { result.items ≡ head_bytes 138 len }
{
    start(0x8a, len)
}

/// The head of a reply that tells rows.
pub fn rows_head(len: u32) -> Short
    ensures { result.items ≡ head_bytes 137 len }
{
    start(0x89, len)
}
