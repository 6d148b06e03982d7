//! Links for the sessions of a pool.

use crate::pool::frames::{TWO_PUTS_AND_A_CELL, put_frame};
use crate::sockets::frames::{FOLD, SAVE};
use byte_io::Script;
use std::alloc::Global;
use std::process::Abort;

/// What each of several links gives, and which of its calls fails.
#[derive(Clone, Copy)]
pub enum Kind {
    /// A Put whose number is the link's.
    Put,
    /// The same, and a Save.
    PutAndSave,
    /// The same Put, and a Fold.
    PutAndFold,
    /// The same Put, and one that each link gives. Read number 0 gives the first, number 1 the second, number 2 the
    /// end; the one with the link's number modulo 4 fails.
    FailedRead,
    /// Two Puts and a Cell that each link gives, in one piece. The link takes as many bytes as its number.
    FailedWrite,
}

// The pieces that a link gives.
fn pieces_of(rt: &impl Abort, alloc: Global, kind: Kind, number: u8) -> Vec<Vec<u8>> {
    let own = put_frame(7, number, 1);
    let shared = put_frame(8, 0, 1);
    let (first, second): (&[u8], &[u8]) = match kind {
        Kind::Put => (&own, &[]),
        Kind::PutAndSave => (&own, SAVE),
        Kind::PutAndFold => (&own, FOLD),
        Kind::FailedRead => (&own, &shared),
        Kind::FailedWrite => (TWO_PUTS_AND_A_CELL, &[]),
    };
    let mut pieces = Vec::new(alloc);
    let piece = first.to_vec(alloc).expect(rt, "memory");
    pieces.push(piece).expect(rt, "memory");
    if !second.is_empty() {
        let piece = second.to_vec(alloc).expect(rt, "memory");
        pieces.push(piece).expect(rt, "memory");
    }
    pieces
}

// The read that fails, and how many bytes are taken.
fn faults_of(kind: Kind, number: u8) -> (Option<u64>, Option<u64>) {
    let number = u64::from(number);
    match kind {
        Kind::Put | Kind::PutAndSave | Kind::PutAndFold => (None, None),
        Kind::FailedRead => (Some(number % 4), None),
        Kind::FailedWrite => (None, Some(number)),
    }
}

/// So many links, with numbers from 0.
pub fn links(rt: &impl Abort, alloc: Global, kind: Kind, count: u8) -> Vec<Script> {
    let mut links = Vec::new(alloc);
    for number in 0..count {
        let pieces = pieces_of(rt, alloc, kind, number);
        let (fail_read, fail_write) = faults_of(kind, number);
        let link = Script::new(alloc, pieces, fail_read, fail_write);
        links.push(link).expect(rt, "memory");
    }
    links
}
