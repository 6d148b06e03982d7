//! A stream of bytes that is cut into requests.

use crate::show::{say, tell};
use crate::stop::Stop;
use std::alloc::Global;
use wire_frames::{FrameFault, Frames, Request};

/// Client 7 puts 5 at row 0 and column 0 under its number 1, and then asks to stop.
static SENT: &[u8] = b"\0\0\0\x4d\x01\0\0\0\0\0\0\0\x07\0\0\0\0\0\0\0\x01\
%%MatrixMarket matrix coordinate integer general\n3 3 1\n1 1 5\n\
\0\0\0\0\x07";

/// Feeds the bytes of two requests in pieces, and takes the requests off.
pub fn run(rt: &impl Print, alloc: Global) -> Result<(), Stop> {
    let mut frames = Frames::new(alloc);
    let told = run_example(rt, alloc, &mut frames);
    drop(frames);
    told
}

fn run_example(rt: &impl Print, alloc: Global, frames: &mut Frames) -> Result<(), Stop> {
    feed_all(rt, alloc, frames)?;
    for _ in 0..3 {
        show_next(rt, alloc, frames)?;
    }
    Ok(())
}

fn feed_all(rt: &impl Print, alloc: Global, frames: &mut Frames) -> Result<(), Stop> {
    for piece in SENT.chunks(30) {
        feed_at_last(rt, alloc, frames, piece)?;
    }
    Ok(())
}

// Feeds a piece, and again where memory was refused.
fn feed_at_last(
    rt: &impl Print,
    alloc: Global,
    frames: &mut Frames,
    piece: &[u8],
) -> Result<(), Stop> {
    if frames.feed(alloc, piece).is_err() {
        tell(rt, &[("feed refused, bytes", frames.len() as u64)]);
        frames.feed(alloc, piece)?;
    }
    tell(rt, &[("fed, bytes", frames.len() as u64)]);
    Ok(())
}

// Takes the next request off, again where memory was refused.
fn next_at_last(
    rt: &impl Print,
    alloc: Global,
    frames: &mut Frames,
) -> Result<Option<Request>, Stop> {
    match frames.next(alloc) {
        Ok(next) => Ok(next),
        Err(FrameFault::Memory) => {
            tell(rt, &[("next refused, bytes", frames.len() as u64)]);
            frames.next(alloc).map_err(|_| Stop::Fault)
        }
        Err(_) => Err(Stop::Fault),
    }
}

fn show_next(rt: &impl Print, alloc: Global, frames: &mut Frames) -> Result<(), Stop> {
    let next = next_at_last(rt, alloc, frames)?;
    show_request(rt, &next);
    drop(next);
    Ok(())
}

fn show_request(rt: &impl Print, request: &Option<Request>) {
    match request {
        Some(
            Request::Put {
                client,
                number,
                text,
            },
        ) => {
            let bytes = text.len() as u64;
            tell(
                rt,
                &[
                    ("put of client", *client),
                    ("number", *number),
                    ("bytes", bytes),
                ],
            );
        }
        Some(Request::Stop) => say(rt, "stop"),
        Some(_) => say(rt, "other"),
        None => say(rt, "none"),
    }
}
