//! Frames as bytes.

use crate::pool::frames::put_frame;
use crate::sockets::frames::{FOLD, SAVE, STATUS};
use std::alloc::Global;
use std::process::Abort;

/// What a client asks.
#[derive(Clone, Copy)]
pub enum Ask {
    /// A put by this client under this number, of this count below 10.
    Put(u8, u8, u8),
    Status,
    Stored,
    Save,
    Fold,
}

// The bytes that ask what is durable.
const STORED: &[u8] = b"\0\0\0\0\x09";

/// The frames of these requests, one after the other.
pub fn frames(rt: &impl Abort, alloc: Global, asks: &[Ask]) -> Vec<u8> {
    let mut frames = Vec::new(alloc);
    for ask in asks {
        let pushed = match *ask {
            Ask::Put(client, number, count) => {
                frames.extend_from_slice(&put_frame(client, number, count))
            }
            Ask::Status => frames.extend_from_slice(STATUS),
            Ask::Stored => frames.extend_from_slice(STORED),
            Ask::Save => frames.extend_from_slice(SAVE),
            Ask::Fold => frames.extend_from_slice(FOLD),
        };
        pushed.expect(rt, "memory");
    }
    frames
}
