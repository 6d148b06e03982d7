//! One request, and its reply.
ghost use Rattle.std.specs.Prelude.{◌≡◌, ◌+◌, ◌<◌, ◌≤◌, ◌^◌, [], length, OnOk, IfOk};
ghost use Rattle.wire_frames.specs.Frames.{HasWholeCells, request_frame};
ghost use Rattle.ask_server.specs.Asks.{HasAsked, HasGiven};

use crate::fault::AskFault;
use byte_io::{Link, Source, write_all};
use std::alloc::Global;
use wire_frames::{HEAD, Request, encode_request};

/// The longest body of a reply that is read, in bytes: short replies have at most 16.
const MOST: u32 = 64;

/// How many bytes one read takes at most.
const PIECE: usize = 64;

// One read of at most so many bytes, which are appended.
fn read_more<L: Source>(link: &mut L, frame: &mut Vec<u8>, most: usize) -> Result<(), AskFault>
    requires failures { L.failure_count link.old + 1 < 2 ^ 64 }
    requires most { 0 < most }
    ensures read { OnOk result (HasGiven L.read_gives link.old link.new frame.old.items frame.new.items) }
    ensures more { OnOk result (length frame.old.items < length frame.new.items) }
    ensures bound { OnOk result (length frame.new.items ≤ length frame.old.items + most) }
    ensures ok { OnOk result (L.failure_count link.new ≡ L.failure_count link.old) }
{
    let mut piece = [0u8; PIECE];
    let front = &mut piece[..most.min(PIECE)];
    match link.read(front) {
        Ok(0) => Err(AskFault::NoAnswer),
        Ok(count) => {
            frame.extend_from_slice(&front[..count])?;
            Ok(())
        }
        Err(_) => Err(AskFault::NoAnswer),
    }
}

// Reads on until there are so many bytes.
fn read_up_to<L: Source>(link: &mut L, frame: &mut Vec<u8>, count: usize) -> Result<(), AskFault>
    requires failures { L.failure_count link.old + 1 < 2 ^ 64 }
    requires before { length frame.old.items ≤ count }
    ensures read { OnOk result (HasGiven L.read_gives link.old link.new frame.old.items frame.new.items) }
    ensures count { OnOk result (length frame.new.items ≡ count) }
    ensures ok { OnOk result (L.failure_count link.new ≡ L.failure_count link.old) }
{
    while frame.len() < count {
        let most = count - frame.len();
        read_more(link, frame, most)?;
    }
    Ok(())
}

// The length of the body that a head says.
fn body_len(head: &[u8]) -> u32
    requires { length head.now ≡ HEAD }
{
    u32::from_be_bytes([head[0], head[1], head[2], head[3]])
}

// Reads one frame.
fn read_frame<L: Source>(alloc: Global, link: &mut L) -> Result<Vec<u8>, AskFault>
    requires { L.failure_count link.old + 1 < 2 ^ 64 }
    ensures read { IfOk result (λ frame. HasGiven L.read_gives link.old link.new [] frame.items) }
    ensures ok { OnOk result (L.failure_count link.new ≡ L.failure_count link.old) }
{
    let mut frame = Vec::new(alloc);
    read_up_to(link, &mut frame, HEAD)?;
    let len = body_len(&frame);
    if len > MOST {
        return Err(AskFault::BadReply);
    }
    read_up_to(link, &mut frame, HEAD + len as usize)?;
    Ok(frame)
}

/// Sends a request, and reads the frame that is given then, whose body has at most 64 bytes.
///
/// # Errors
///
/// `NoAnswer` where the link failed or ended, `BadReply` where the frame is longer, and `Memory`.
pub fn exchange<L: Link>(
    alloc: Global,
    link: &mut L,
    request: &Request,
) -> Result<Vec<u8>, AskFault>
    requires failures { L.Source.failure_count link.old + 1 < 2 ^ 64 }
    requires cells { HasWholeCells request.now }
    // The link has taken the request's frame, and then has given this one.
    ensures asked { IfOk result (λ frame. HasAsked L.Sink.write_takes L.Sink.failure_count L.Source.read_gives link.old link.new
        (request_frame request.now) frame.items) }
    ensures ok { OnOk result (L.Source.failure_count link.new ≡ L.Source.failure_count link.old) }
{
    let bytes = encode_request(alloc, request)?;
    if write_all(link, &bytes).is_err() {
        return Err(AskFault::NoAnswer);
    }
    read_frame(alloc, link)
}
