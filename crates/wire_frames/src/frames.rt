//! Cuts the bytes of a link into requests.
ghost use Rattle.std.specs.Prelude.{◌≡◌, ◌++◌, [], ◌+◌, ◌≤◌, length, take, drop, true, Some, IfOk, OnOk, OnErr};
ghost use Rattle.wire_frames.specs.Frames.{NextGives, request_of, range_at, groups_at, pair_at, length_fits};

use crate::heads::{Look, look_at};
use crate::limits::{HEAD, ROOMY};
use crate::request::{FrameFault, Request};
use bytes::{Buf, Bytes, BytesMut};
use std::alloc::{AllocError, Global};
use std::marker::Model;

/// The bytes that a link gave and that aren't handed out yet. Contracts see them as a list of bytes.
///
/// A Put's text and the cells of a PutCells are a view of the buffer: no byte of it is copied. The buffer grows by
/// doubling, so a frame that comes in many pieces takes time in proportion to its bytes, and what a header declares
/// takes no memory. As a frame of more than 4 MiB is handed out, what is left is moved to a new buffer, so that its
/// memory goes with the last view of it. Else the buffer is used again, once the view is gone.
#[derive(Drop)]
pub struct Frames {
    bytes: BytesMut,
    // The most bytes that the buffer has held.
    most: usize,
}

impl Model for Frames {
    ghost use Rattle.std.specs.Prelude.{ℕ, List};

    ghost Value = { List ℕ };

    ghost view = { λ f. f.bytes.items };
}

/// Takes two numbers off the front.
#[tactic(auto, unfolding(crate::specs::Frames::number_at))]
fn get_pair(body: &mut Bytes) -> (u64, u64)
    requires { 16 ≤ length body.old }
    ensures pair { result ≡ pair_at 0 body.old }
    ensures rest { body.new ≡ drop 16 body.old }
    ensures less { length body.new + 16 ≡ length body.old }
{
    let first = body.get_u64();
    let second = body.get_u64();
    (first, second)
}

/// The Range that a body spells.
#[tactic(auto, unfolding(crate::specs::Frames::number_at))]
fn open_range(mut body: Bytes) -> Request
    requires { length body ≡ 56 }
    ensures { result ≡ range_at body }
{
    let rows = get_pair(&mut body);
    let cols = get_pair(&mut body);
    let start = get_pair(&mut body);
    let most = body.get_u64();
    Request::Range {
        rows,
        cols,
        start,
        most,
    }
}

/// The question for groups that a body spells.
#[tactic(auto, unfolding(crate::specs::Frames::number_at))]
fn open_groups(mut body: Bytes) -> Request
    requires { length body ≡ 26 }
    ensures { result ≡ groups_at body }
{
    let by = body.get_u8();
    let shift = body.get_u8();
    let most = body.get_u64();
    let rows = get_pair(&mut body);
    Request::Groups {
        by,
        shift,
        most,
        rows,
    }
}

/// The request that a whole frame spells, of a kind and a length that fit.
#[tactic(auto, unfolding(crate::specs::Frames::request_of, crate::specs::Frames::length_fits, crate::specs::Frames::number_at))]
fn open(kind: u8, mut body: Bytes) -> Request
    requires { length_fits kind (length body) ≡ Some true }
    ensures { result ≡ request_of kind body }
{
    match kind {
        1 => {
            let (client, number) = get_pair(&mut body);
            Request::Put {
                client,
                number,
                text: body,
            }
        }
        2 => {
            let (row, col) = get_pair(&mut body);
            Request::Cell { row, col }
        }
        3 => Request::Row {
            row: body.get_u64(),
        },
        4 => Request::Status,
        5 => Request::Export,
        6 => Request::Save,
        7 => Request::Stop,
        8 => {
            let (client, number) = get_pair(&mut body);
            Request::PutCells {
                client,
                number,
                cells: body,
            }
        }
        9 => Request::Stored,
        10 => open_range(body),
        11 => {
            let by = body.get_u8();
            let most = body.get_u64();
            Request::Top { by, most }
        }
        12 => Request::Stats,
        18 => open_groups(body),
        _ => Request::Fold,
    }
}

/// Takes a whole frame off the front. An Err changes nothing.
fn cut(bytes: &mut BytesMut, kind: u8, len: u32) -> Result<Request, AllocError>
    requires whole { 5 + len ≤ length bytes.old.items }
    requires fits { length_fits kind len ≡ Some true }
    ensures ok { IfOk result (λ r. r ≡ request_of kind (take len (drop 5 bytes.old.items))) }
    ensures rest { OnOk result (bytes.new.items ≡ drop (5 + len) bytes.old.items) }
    ensures err { OnErr result (bytes.new ≡ bytes.old) }
{
    let mut body = bytes.freeze_to(HEAD + len as usize)?;
    body.advance(HEAD);
    Ok(open(kind, body))
}

/// Moves the bytes to a new buffer, if this one held many and few are left; where there is no memory for that, they
/// stay.
fn give_back(alloc: Global, bytes: &mut BytesMut, most: &mut usize)
    ensures { bytes.new.items ≡ bytes.old.items }
{
    if *most <= ROOMY || bytes.len() > ROOMY / 2 {
        return;
    }
    let mut fresh = BytesMut::new(alloc);
    if fresh.extend_from_slice(bytes.as_slice()).is_ok() {
        *most = bytes.len();
        *bytes = fresh;
    }
}

impl Frames {
    /// No bytes. It takes no memory.
    pub fn new(alloc: Global) -> Frames
        ensures { result ≡ [] }
    {
        Frames {
            bytes: BytesMut::new(alloc),
            most: 0,
        }
    }

    /// How many bytes are kept.
    pub fn len(&self) -> usize
        ensures { result ≡ length self.now }
    {
        self.bytes.len()
    }

    /// Takes the next bytes of the link. An Err changes nothing.
    pub fn feed(&mut self, _alloc: Global, piece: &[u8]) -> Result<(), AllocError>
        ensures ok { OnOk result (self.new ≡ self.old ++ piece.now) }
        ensures err { OnErr result (self.new ≡ self.old) }
    {
        self.bytes.extend_from_slice(piece)?;
        self.most = self.most.max(self.bytes.len());
        Ok(())
    }

    /// The next request, once its frame is whole; None where it isn't yet.
    ///
    /// A header is judged as soon as its five bytes are there. A bad one stays at the front, so the same fault is
    /// answered from then on, whatever is fed. Memory changes nothing.
    pub fn next(&mut self, alloc: Global) -> Result<Option<Request>, FrameFault>
        ensures { NextGives self.old result self.new }
    {
        match look_at(self.bytes.as_slice()) {
            Look::Part => Ok(None),
            Look::Bad(fault) => Err(fault),
            Look::Whole { kind, len } => match cut(&mut self.bytes, kind, len) {
                Ok(request) => {
                    give_back(alloc, &mut self.bytes, &mut self.most);
                    Ok(Some(request))
                }
                Err(_) => Err(FrameFault::Memory),
            },
        }
    }
}
