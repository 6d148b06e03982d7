//! Frames as bytes, and what a client is answered to them.

use std::io;
use std::io::{Read, Write};

/// A frame, and the reply to it.
pub type Turn = (&'static [u8], &'static [u8]);

/// A Put of client 7 and number 1, whose text has the count 5 in row 0 and column 0.
pub const FIVE: &[u8] = b"\0\0\0\x4d\x01\0\0\0\0\0\0\0\x07\0\0\0\0\0\0\0\x01\
    %%MatrixMarket matrix coordinate integer general\n3 3 1\n1 1 5\n";

/// The same of client 8 and the count 3.
pub const THREE: &[u8] = b"\0\0\0\x4d\x01\0\0\0\0\0\0\0\x08\0\0\0\0\0\0\0\x01\
    %%MatrixMarket matrix coordinate integer general\n3 3 1\n1 1 3\n";

/// The same of client 7 and the count 6.
pub const SIX: &[u8] = b"\0\0\0\x4d\x01\0\0\0\0\0\0\0\x07\0\0\0\0\0\0\0\x01\
    %%MatrixMarket matrix coordinate integer general\n3 3 1\n1 1 6\n";

/// Accepted as the first batch, and the total is 5.
pub const ACCEPTED_FIRST: &[u8] = b"\0\0\0\x10\x81\0\0\0\0\0\0\0\0\0\0\0\0\0\0\0\x05";

/// Accepted as the second batch, and the total is 8.
pub const ACCEPTED_SECOND: &[u8] = b"\0\0\0\x10\x81\0\0\0\0\0\0\0\x01\0\0\0\0\0\0\0\x08";

/// Refused, since the number stands for another batch.
pub const NUMBER_REUSED: &[u8] = b"\0\0\0\x0a\xff\0\x1e\0\0\0\0\0\0\0\0";

/// The cell in row 0 and column 0, and its count of 8.
pub const CELL: Turn = (
    b"\0\0\0\x10\x02\0\0\0\0\0\0\0\0\0\0\0\0\0\0\0\0",
    b"\0\0\0\x09\x82\x01\0\0\0\0\0\0\0\x08",
);

/// Row 0, and its one entry with a total of 8.
pub const ROW: Turn = (
    b"\0\0\0\x08\x03\0\0\0\0\0\0\0\0",
    b"\0\0\0\x10\x83\0\0\0\0\0\0\0\x01\0\0\0\0\0\0\0\x08",
);

/// A Status.
pub const STATUS: &[u8] = b"\0\0\0\0\x04";

/// Nothing was accepted.
pub const COUNTS_NONE: &[u8] = b"\0\0\0\x10\x84\0\0\0\0\0\0\0\0\0\0\0\0\0\0\0\0";

/// Two batches were accepted, and the total is 8.
pub const COUNTS_TWO: &[u8] = b"\0\0\0\x10\x84\0\0\0\0\0\0\0\x02\0\0\0\0\0\0\0\x08";

/// An Export, and the text with the count 8 in row 0 and column 0.
pub const EXPORT: Turn = (
    b"\0\0\0\0\x05",
    b"\0\0\0\x3d\x85%%MatrixMarket matrix coordinate integer general\n3 3 1\n1 1 8\n",
);

/// A Save.
pub const SAVE: &[u8] = b"\0\0\0\0\x06";

/// A Fold.
pub const FOLD: &[u8] = b"\0\0\0\0\x0d";

/// Two batches were saved.
pub const SAVED_TWO: &[u8] = b"\0\0\0\x08\x86\0\0\0\0\0\0\0\x02";

/// Refused, since there is no place for snapshots.
pub const SAVE_OFF: &[u8] = b"\0\0\0\x0a\xff\0\x2b\0\0\0\0\0\0\0\0";

/// A Stop, and its reply.
pub const STOP: Turn = (b"\0\0\0\0\x07", b"\0\0\0\0\x87");

// Whether a frame is answered so.
fn is_answered<S: Read + Write>(stream: &mut S, turn: &Turn) -> io::Result<bool> {
    stream.write_all(turn.0)?;
    let mut reply = [0u8; 128];
    let Some((front, _)) = reply.split_at_mut_checked(turn.1.len()) else {
        return Ok(false);
    };
    stream.read_exact(front)?;
    Ok(*front == *turn.1)
}

/// Sends frames, each once the one before was answered, and tells whether each was answered so.
pub fn are_answered<S: Read + Write>(stream: &mut S, turns: &[Turn]) -> io::Result<bool> {
    for turn in turns {
        if !is_answered(stream, turn)? {
            return Ok(false);
        }
    }
    Ok(true)
}
