//! What a server is asked by words of a command line.
ghost use Rattle.std.specs.Prelude.{◌≡◌, ◌+◌, ◌<◌, ◌≤◌, ◌^◌, ◌++◌, ℕ, List, length, decimal, OnOk, IfOk};
ghost use Rattle.arrayvec.specs.ArrayString.{array_string_len};
ghost use Rattle.byte_io.specs.Writing.{HasTaken};
ghost use Rattle.plain_engine.specs.declared.status.Status.{Status};
ghost use Rattle.wire_frames.specs.Frames.{request_frame};
ghost use Rattle.wire_frames.specs.declared.request.Request.TheVariants as request;
ghost use Rattle.wire_proto.specs.Decoding.{IsReplyFrame};
ghost use Rattle.wire_proto.specs.Decoding.Said.{counts, stopping};
ghost use Rattle.ask_server.specs.Asks.{HasAsked, IsSaveReply, status_line};

use crate::fault::AskFault;
use crate::frames::exchange;
use arrayvec::ArrayString;
use byte_io::{Link, Sink, write_all};
use plain_engine::Status;
use std::alloc::Global;
use wire_frames::Request;
use wire_proto::{Reply, decode_reply};

// More than the bytes of the longest line: two numbers of at most 20 digits, and 16 more.
const LINE_CAPACITY: usize = 64;

// Appends a word and a number.
fn push_number(line: &mut ArrayString<LINE_CAPACITY>, word: &str, n: u64)
    requires room { array_string_len line.old + length word.now + 20 ≤ 64 }
    ensures bytes { line.new.bytes ≡ line.old.bytes ++ (word.now ++ decimal n) }
    ensures short { array_string_len line.new ≤ array_string_len line.old + length word.now + 20 }
{
    let mut digits = itoa::Buffer::new();
    line.push_str(word);
    line.push_str(digits.format(n));
}

// How much a server says that it has accepted.
fn ask_status<L: Link>(alloc: Global, link: &mut L) -> Result<Status, AskFault>
    requires { L.Source.failure_count link.old + 1 < 2 ^ 64 }
    ensures { IfOk result (λ status. (frame : List ℕ)
        × HasAsked L.Sink.write_takes L.Sink.failure_count L.Source.read_gives link.old link.new
        (request_frame request.Status) frame
        × IsReplyFrame frame (counts status)) }
{
    let frame = exchange(alloc, link, &Request::Status)?;
    match decode_reply(&frame) {
        Some(Reply::Counts(status)) => Ok(status),
        Some(Reply::Refused { code, .. }) => Err(AskFault::Refused(code)),
        _ => Err(AskFault::BadReply),
    }
}

// The line of a status.
fn status_line(status: &Status) -> ArrayString<LINE_CAPACITY>
    ensures { result.bytes ≡ status_line status.now }
{
    let mut line = ArrayString::new();
    push_number(&mut line, "batches ", status.batches);
    push_number(&mut line, " total ", status.total);
    line.push_str("\n");
    line
}

/// Asks a server for its status, and writes the line `batches N total T`: how many batches it has accepted, and their
/// total.
///
/// # Errors
///
/// Those of `exchange`; `Refused` where the server refuses, `BadReply` where it answers something else; and `Output`
/// where the line could not be written whole.
pub fn run_status<L: Link, W: Sink>(alloc: Global, link: &mut L, w: &mut W) -> Result<(), AskFault>
    requires failures { L.Source.failure_count link.old + 1 < 2 ^ 64 }
    requires writes { W.failure_count w.old + 1 < 2 ^ 64 }
    ensures { OnOk result ((frame : List ℕ) × (status : Status)
        × HasAsked L.Sink.write_takes L.Sink.failure_count L.Source.read_gives link.old link.new
        (request_frame request.Status) frame
        × IsReplyFrame frame (counts status)
        × HasTaken W.write_takes W.failure_count w.old w.new (status_line status)) }
{
    let status = ask_status(alloc, link)?;
    let line = status_line(&status);
    match write_all(w, line.as_str().as_bytes()) {
        Ok(()) => Ok(()),
        Err(fault) => Err(AskFault::Output(fault)),
    }
}

/// What a server has answered to a save.
#[derive(Clone, Copy, Debug, PartialEq, Eq)]
pub enum Save {
    /// It is made.
    Made,
    /// The server refuses it, by this code.
    Refused(u16),
}

/// Asks a server to save. A server without a snapshot's path refuses by 43.
///
/// # Errors
///
/// Those of `exchange`, and `BadReply` where the server answers something else.
pub fn ask_save<L: Link>(alloc: Global, link: &mut L) -> Result<Save, AskFault>
    requires { L.Source.failure_count link.old + 1 < 2 ^ 64 }
    ensures { IfOk result (λ save. (frame : List ℕ)
        × HasAsked L.Sink.write_takes L.Sink.failure_count L.Source.read_gives link.old link.new
        (request_frame request.Save) frame
        × IsSaveReply frame save) }
{
    let frame = exchange(alloc, link, &Request::Save)?;
    match decode_reply(&frame) {
        Some(Reply::Saved(_)) => Ok(Save::Made),
        Some(Reply::Refused { code, .. }) => Ok(Save::Refused(code)),
        _ => Err(AskFault::BadReply),
    }
}

/// Asks a server to stop. At Ok the server ends once its sessions are served.
///
/// # Errors
///
/// Those of `exchange`; `Refused` where the server doesn't stop, as for want of memory; `BadReply` where it answers
/// something else.
pub fn ask_stop<L: Link>(alloc: Global, link: &mut L) -> Result<(), AskFault>
    requires { L.Source.failure_count link.old + 1 < 2 ^ 64 }
    ensures { OnOk result ((frame : List ℕ)
        × HasAsked L.Sink.write_takes L.Sink.failure_count L.Source.read_gives link.old link.new
        (request_frame request.Stop) frame
        × IsReplyFrame frame stopping) }
{
    let frame = exchange(alloc, link, &Request::Stop)?;
    match decode_reply(&frame) {
        Some(Reply::Stopping) => Ok(()),
        Some(Reply::Refused { code, .. }) => Err(AskFault::Refused(code)),
        _ => Err(AskFault::BadReply),
    }
}
