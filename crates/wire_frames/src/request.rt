//! Requests, and the frames that carry them.
ghost use Rattle.std.specs.Prelude.{◌≡◌, ◌<◌, ◌≤◌, ◌↔◌, ◌++◌, length, IfOk, OnOk, Err};
ghost use Rattle.wire_frames.specs.Frames.{number, head_bytes, kind_of, body_of, request_frame, HasWholeCells};

use crate::limits::MAX_BODY;
use bytes::Bytes;
use std::alloc::{AllocError, Global};
use thiserror::Error;

/// What a client asks. Rows and columns count from 0.
///
/// The cells of a `PutCells` are 24 bytes each: row, column and count, of eight bytes, the high one first. A `Range` has
/// the first and the last of its rows and of its columns, and the place, a row and a column, from which on cells are
/// asked for. A `Top` is by total where `by` is 0, and by entries where it is 1. A `Groups` has also the first and the
/// last of its rows, and by how many bits their numbers are shifted to the right.
#[derive(Drop)]
pub enum Request {
    Put {
        client: u64,
        number: u64,
        text: Bytes,
    },
    Cell {
        row: u64,
        col: u64,
    },
    Row {
        row: u64,
    },
    Status,
    Export,
    Save,
    Stop,
    PutCells {
        client: u64,
        number: u64,
        cells: Bytes,
    },
    Stored,
    Range {
        rows: (u64, u64),
        cols: (u64, u64),
        start: (u64, u64),
        most: u64,
    },
    Top {
        by: u8,
        most: u64,
    },
    Stats,
    Fold,
    Groups {
        by: u8,
        shift: u8,
        most: u64,
        rows: (u64, u64),
    },
}

/// What is wrong with the bytes of a link, or that memory ran out.
#[derive(Clone, Copy, Debug, PartialEq, Eq, Error)]
pub enum FrameFault {
    #[error("no memory for a frame")]
    Memory,
    #[error("a frame is longer than it may be")]
    TooLarge,
    #[error("a frame has an unknown kind")]
    UnknownKind,
    #[error("a frame's length isn't one of its kind")]
    BadLength,
}

/// Why a request has no frame, or that memory ran out.
#[derive(Clone, Copy, Debug, PartialEq, Eq, Error)]
pub enum EncodeFault {
    #[error("no memory for a frame")]
    Memory,
    #[error("the frame would be longer than it may be")]
    TooLarge,
}

impl From<AllocError> for EncodeFault {
    ghost use Rattle.wire_frames.specs.declared.request.EncodeFault.TheVariants.{Memory};

    ghost from_gives = { λ _ e. e ≡ Memory };

    fn from(_error: AllocError) -> EncodeFault {
        EncodeFault::Memory
    }
}

/// Appends a number of eight bytes.
#[tactic(auto, unfolding(crate::specs::Frames::number))]
fn push_number(out: &mut Vec<u8>, n: u64) -> Result<(), AllocError>
    ensures { OnOk result (out.new.items ≡ out.old.items ++ number n) }
{
    out.extend_from_slice(&n.to_be_bytes())
}

/// Appends the head of a frame.
#[tactic(auto, unfolding(crate::specs::Frames::head_bytes))]
fn push_head(out: &mut Vec<u8>, kind: u8, len: u32) -> Result<(), AllocError>
    ensures { OnOk result (out.new.items ≡ out.old.items ++ head_bytes kind len) }
{
    out.extend_from_slice(&len.to_be_bytes())?;
    out.extend_from_slice(&[kind])
}

/// The kind of a request's frame.
fn kind(request: &Request) -> u8
    ensures { result ≡ kind_of request.now }
{
    match request {
        Request::Put { .. } => 1,
        Request::Cell { .. } => 2,
        Request::Row { .. } => 3,
        Request::Status => 4,
        Request::Export => 5,
        Request::Save => 6,
        Request::Stop => 7,
        Request::PutCells { .. } => 8,
        Request::Stored => 9,
        Request::Range { .. } => 10,
        Request::Top { .. } => 11,
        Request::Stats => 12,
        Request::Fold => 13,
        Request::Groups { .. } => 18,
    }
}

/// The length of the body.
#[tactic(auto, unfolding(crate::specs::Frames::number))]
fn body_len(request: &Request) -> usize
    ensures { result ≡ length (body_of request.now) }
{
    match request {
        Request::Put { text, .. } => 16 + text.len(),
        Request::PutCells { cells, .. } => 16 + cells.len(),
        Request::Cell { .. } => 16,
        Request::Row { .. } => 8,
        Request::Range { .. } => 56,
        Request::Top { .. } => 9,
        Request::Groups { .. } => 26,
        Request::Status
        | Request::Export
        | Request::Save
        | Request::Stop
        | Request::Stored
        | Request::Stats
        | Request::Fold => 0,
    }
}

/// Appends two numbers.
fn push_pair(out: &mut Vec<u8>, pair: (u64, u64)) -> Result<(), AllocError>
    ensures { OnOk result (out.new.items ≡ out.old.items ++ number pair.0 ++ number pair.1) }
{
    push_number(out, pair.0)?;
    push_number(out, pair.1)
}

/// Appends what a batch is told apart by, and what it is.
fn push_batch(out: &mut Vec<u8>, client: u64, batch: u64, content: &Bytes) -> Result<(), AllocError>
    ensures { OnOk result (out.new.items ≡ out.old.items ++ number client ++ number batch ++ content.now) }
{
    push_pair(out, (client, batch))?;
    out.extend_from_slice(content.as_slice())?;
    Ok(())
}

/// Appends the body.
fn push_body(out: &mut Vec<u8>, request: &Request) -> Result<(), AllocError>
    ensures { OnOk result (out.new.items ≡ out.old.items ++ body_of request.now) }
{
    match request {
        Request::Put {
            client,
            number,
            text,
        } => push_batch(out, *client, *number, text),
        Request::PutCells {
            client,
            number,
            cells,
        } => push_batch(out, *client, *number, cells),
        Request::Cell { row, col } => push_pair(out, (*row, *col)),
        Request::Row { row } => push_number(out, *row),
        Request::Range {
            rows,
            cols,
            start,
            most,
        } => {
            push_pair(out, *rows)?;
            push_pair(out, *cols)?;
            push_pair(out, *start)?;
            push_number(out, *most)
        }
        Request::Top { by, most } => {
            out.extend_from_slice(&[*by])?;
            push_number(out, *most)
        }
        Request::Groups {
            by,
            shift,
            most,
            rows,
        } => {
            out.extend_from_slice(&[*by, *shift])?;
            push_number(out, *most)?;
            push_pair(out, *rows)
        }
        Request::Status
        | Request::Export
        | Request::Save
        | Request::Stop
        | Request::Stored
        | Request::Stats
        | Request::Fold => Ok(()),
    }
}

/// The bytes of a request's frame. TooLarge exactly where its body has more than 67,108,864 bytes.
#[tactic(auto, unfolding(crate::specs::Frames::frame))]
pub fn encode_request(alloc: Global, request: &Request) -> Result<Vec<u8>, EncodeFault>
    requires { HasWholeCells request.now }
    ensures ok { IfOk result (λ v. v.items ≡ request_frame request.now) }
    ensures too_large { (result ≡ Err EncodeFault.TooLarge) ↔ (67108864 < length (body_of request.now)) }
{
    let len = body_len(request);
    if len > MAX_BODY as usize {
        return Err(EncodeFault::TooLarge);
    }
    let mut out = Vec::new(alloc);
    push_head(&mut out, kind(request), len as u32)?;
    push_body(&mut out, request)?;
    Ok(out)
}
