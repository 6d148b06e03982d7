//! The header of a frame.
ghost use Rattle.std.specs.Prelude.{◌≡◌, ◌<◌, ◌≤◌, length, MatchOption};
ghost use Rattle.wire_frames.specs.Frames.{length_fits, head_fault, head_len, head_kind};
ghost use Rattle.wire_frames.specs.Looks.{Looks};

use crate::limits::{CELL, HEAD, MAX_BODY};
use crate::request::FrameFault;
use bytes::Buf;

/// A header: the length of the body, and its kind.
#[derive(Clone, Copy)]
struct Head {
    len: u32,
    kind: u8,
}

/// What stands at the front of the bytes of a link.
#[derive(Clone, Copy)]
pub enum Look {
    /// Not a whole frame yet.
    Part,
    /// A bad header.
    Bad(FrameFault),
    /// A whole frame.
    Whole { kind: u8, len: u32 },
}

/// The header at the front, where its five bytes are there.
#[tactic(auto, unfolding(crate::specs::Frames::head_len, crate::specs::Frames::head_kind))]
fn head_at(bytes: &[u8]) -> Option<Head>
    ensures { MatchOption result (length bytes.now < 5) (λ h. (5 ≤ length bytes.now) × (h.len ≡ head_len bytes.now) ×
        (h.kind ≡ head_kind bytes.now)) }
{
    if bytes.len() < HEAD {
        return None;
    }
    let mut rest = bytes;
    let len = rest.get_u32();
    Some(Head {
        len,
        kind: bytes[4],
    })
}

#[tactic(auto, unfolding(crate::specs::Frames::length_fits))]
fn fits(head: Head) -> Option<bool>
    ensures { result ≡ length_fits head.kind head.len }
{
    match head.kind {
        1 => Some(head.len >= 16),
        2 => Some(head.len == 16),
        3 => Some(head.len == 8),
        4..=7 => Some(head.len == 0),
        8 => Some(head.len >= 16 && (head.len - 16) % CELL as u32 == 0),
        9 => Some(head.len == 0),
        10 => Some(head.len == 56),
        11 => Some(head.len == 9),
        12 => Some(head.len == 0),
        13 => Some(head.len == 0),
        18 => Some(head.len == 26),
        _ => None,
    }
}

/// What is wrong with a header.
#[tactic(auto, unfolding(crate::specs::Frames::head_fault))]
fn fault_in(head: Head) -> Option<FrameFault>
    ensures { result ≡ head_fault head.kind head.len }
{
    if head.len > MAX_BODY {
        return Some(FrameFault::TooLarge);
    }
    match fits(head) {
        None => Some(FrameFault::UnknownKind),
        Some(false) => Some(FrameFault::BadLength),
        Some(true) => None,
    }
}

/// Judges the front of the bytes of a link. Constant time.
pub fn look_at(bytes: &[u8]) -> Look
    ensures { Looks bytes.now result }
{
    let Some(head) = head_at(bytes) else {
        return Look::Part;
    };
    if let Some(fault) = fault_in(head) {
        return Look::Bad(fault);
    }
    if bytes.len() < HEAD + head.len as usize {
        return Look::Part;
    }
    Look::Whole {
        kind: head.kind,
        len: head.len,
    }
}
