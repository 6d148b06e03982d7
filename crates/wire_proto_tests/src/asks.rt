//! What a client sends, and the session that answers it.
ghost use Rattle.std.specs.Prelude.{◌≡◌, IfSome};
ghost use Rattle.wire_frames.specs.Frames.{HasWholeCells};

use crate::hex::bytes_of;
use batch_store::Setup;
use bytes::Bytes;
use mm_text::Script;
use plain_engine::PlainEngine;
use std::alloc::Global;
use std::io::Eprint;
use std::process::Abort;
use std::random::RandomSource;
use test_support::{pieces, same_at};
use wire_proto::{Ended, Request, encode_request, serve_engine};

const BANNER: &str = "%%MatrixMarket matrix coordinate integer general\n";

/// A frame of a table: a request, or bytes that are none.
#[derive(Clone, Copy)]
pub enum Ask {
    /// Client, number, and the text after the banner line.
    Put(u64, u64, &'static str),
    /// Client, number, and the whole text.
    Text(u64, u64, &'static str),
    /// Client, number, and the cells.
    Cells(u64, u64, &'static [(u64, u64, u64)]),
    Cell(u64, u64),
    Row(u64),
    Status,
    Export,
    Save,
    Stop,
    Stored,
    /// The first and the last row, the same of columns, the start place, and how many cells.
    Range([(u64, u64); 3], u64),
    /// By what, and how many rows.
    Top(u8, u64),
    Groups(u8, u8, u64, (u64, u64)),
    Stats,
    Fold,
    /// These bytes, in hexadecimal digits.
    Raw(&'static str),
}

/// A session of a table: what is sent, what comes back, how it ends, and what the engine has accepted then.
pub type Session = (&'static [Ask], &'static str, Ended, (u64, u64));

/// The request of a put of a text in two parts.
pub fn put_request(
    rt: &impl Abort,
    alloc: Global,
    pair: (u64, u64),
    front: &str,
    tail: &[u8],
) -> Request
    ensures { HasWholeCells result }
{
    let mut text = Vec::from_slice(alloc, front.as_bytes()).expect(rt, "memory");
    text.extend_from_slice(tail).expect(rt, "memory");
    let bytes = Bytes::copy_from_slice(alloc, text.as_slice());
    drop(text);
    Request::Put {
        client: pair.0,
        number: pair.1,
        text: bytes.expect(rt, "memory"),
    }
}

// The request of a put of cells: row, column and count of each, the high byte first.
fn cells_request(
    rt: &impl Abort,
    alloc: Global,
    pair: (u64, u64),
    list: &[(u64, u64, u64)],
) -> Request
    ensures { HasWholeCells result }
{
    let mut bytes = Vec::new(alloc);
    for (row, col, count) in list {
        let numbers = [row.to_be_bytes(), col.to_be_bytes(), count.to_be_bytes()];
        bytes
            .extend_from_slice(numbers.as_flattened())
            .expect(rt, "memory");
    }
    let cells = Bytes::copy_from_slice(alloc, bytes.as_slice());
    drop(bytes);
    let cells = cells.expect(rt, "memory");
    assert!(rt; cells.len() % 24 == 0);
    Request::PutCells {
        client: pair.0,
        number: pair.1,
        cells,
    }
}

// The request of a frame that has no text and no cells.
fn short_request(ask: Ask) -> Option<Request>
    ensures { IfSome result (λ request. HasWholeCells request) }
{
    match ask {
        Ask::Cell(row, col) => Some(Request::Cell { row, col }),
        Ask::Row(row) => Some(Request::Row { row }),
        Ask::Status => Some(Request::Status),
        Ask::Export => Some(Request::Export),
        Ask::Save => Some(Request::Save),
        Ask::Stop => Some(Request::Stop),
        Ask::Stored => Some(Request::Stored),
        Ask::Range(places, most) => Some(Request::Range {
            rows: places[0],
            cols: places[1],
            start: places[2],
            most,
        }),
        Ask::Top(by, most) => Some(Request::Top { by, most }),
        Ask::Groups(by, shift, most, rows) => Some(Request::Groups {
            by,
            shift,
            most,
            rows,
        }),
        Ask::Stats => Some(Request::Stats),
        Ask::Fold => Some(Request::Fold),
        Ask::Put(..) | Ask::Text(..) | Ask::Cells(..) | Ask::Raw(_) => None,
    }
}

// The bytes of a request's frame.
fn encoded(rt: &impl Abort, alloc: Global, request: Request) -> Vec<u8>
    requires { HasWholeCells request }
{
    let answer = encode_request(alloc, &request);
    drop(request);
    answer.expect(rt, "a frame")
}

/// The bytes of a table's frame.
pub fn frame(rt: &impl Abort, alloc: Global, ask: Ask) -> Vec<u8> {
    let request = match ask {
        Ask::Put(client, number, tail) => {
            put_request(rt, alloc, (client, number), BANNER, tail.as_bytes())
        }
        Ask::Text(client, number, text) => { put_request(rt, alloc, (client, number), text, b"") }
        Ask::Cells(client, number, cells) => cells_request(rt, alloc, (client, number), cells),
        Ask::Raw(digits) => return bytes_of(rt, alloc, digits),
        short => short_request(short).expect(rt, "a request without text"),
    };
    encoded(rt, alloc, request)
}

/// The frames of a table, one after another.
pub fn frames(rt: &impl Abort, alloc: Global, asks: &[Ask]) -> Vec<u8> {
    let mut all = Vec::new(alloc);
    for ask in asks {
        let one = frame(rt, alloc, *ask);
        all.extend_from_slice(one.as_slice()).expect(rt, "memory");
        drop(one);
    }
    all
}

/// A link that gives these frames in pieces of this size.
pub fn link_of(rt: &impl Abort, alloc: Global, asks: &[Ask], size: usize) -> Script
    ensures { result.failures ≡ 0 }
{
    let sent = frames(rt, alloc, asks);
    let list = pieces(alloc, sent.as_slice(), size).expect(rt, "memory");
    drop(sent);
    Script::new(alloc, list, None, None)
}

/// How a session ended, whether all that it wrote is what is expected, and how many batches the engine has accepted
/// then and their total.
pub type Outcome = (Ended, bool, (u64, u64));

/// What becomes of a table's session over an engine: in pieces of this size, with so many reads at most.
pub fn served(
    rt: &impl Abort,
    alloc: Global,
    engine: &mut PlainEngine,
    session: &Session,
    size: usize,
    turns: u64,
) -> Outcome {
    let expected = bytes_of(rt, alloc, session.1);
    let mut link = link_of(rt, alloc, session.0, size);
    let ended = serve_engine(alloc, &mut link, engine, turns);
    let status = engine.status();
    let is_it = link.written() == expected.as_slice();
    drop(link);
    drop(expected);
    (ended, is_it, (status.batches, status.total))
}

/// The same over a new engine.
pub fn served_anew<R: RandomSource + Abort>(
    rt: &R,
    alloc: Global,
    setup: Setup,
    session: &Session,
    size: usize,
    turns: u64,
) -> Outcome {
    let mut engine = PlainEngine::new(rt, alloc, setup).expect(rt, "memory");
    let outcome = served(rt, alloc, &mut engine, session, size, turns);
    drop(engine);
    outcome
}

/// Compares what becomes of each of these sessions over a new engine, in one piece.
pub fn check_sessions<R: RandomSource + Abort + Eprint>(
    rt: &R,
    alloc: Global,
    setup: Setup,
    sessions: &[Session],
) {
    for session in sessions {
        let found = served_anew(rt, alloc, setup, session, usize::MAX, 1_000);
        assert!(rt; same_at(rt, &session.1, &found, &(session.2, true, session.3)));
    }
}
