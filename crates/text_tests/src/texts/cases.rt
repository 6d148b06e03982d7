//! A text with its answer, and how it is read.
use mm_text::{Cell, MmFault, MmFile, MmKind, Script, TextLimits, read_matrix, read_text};
use std::alloc::Global;
use std::io::Eprint;
use std::process::Abort;
use test_support::{pieces, same_at};

pub const GENERAL: &str = "%%MatrixMarket matrix coordinate integer general\n";

pub const SYMMETRIC: &str = "%%MatrixMarket matrix coordinate integer symmetric\n";

/// A limit that no short text comes near.
pub const FAR: u64 = 1_000_000;

/// Such limits of bytes and of entries.
pub const WIDE: TextLimits = TextLimits {
    max_bytes: FAR,
    max_entries: FAR,
};

/// What may follow a faulty line, which is the last or not.
pub static FAULTY_LINE_ENDS: &[&str] = &["", "\r", "\n", "\r\n", "\n1 1 1\n"];

/// What may follow the last entry line.
pub static LAST_LINE_ENDS: &[&str] = &["", "\r", "\n", "\r\n", "\n% note\n\n"];

/// Where each row is a whole rest of a text.
pub static NO_END: &[&str] = &[""];

/// What reading a text must give.
#[derive(Clone, Copy, Debug)]
pub enum Expected {
    /// Rows, columns, and the cells in order: row and column, counted from 0, and count.
    File(u64, u64, &'static [(u64, u64, u64)]),
    /// What is wrong, and the number of its line.
    Fault(MmKind, u64),
}

impl Expected {
    fn is_met_by(self, answer: &Result<MmFile, MmFault>) -> bool {
        match (self, answer) {
            (Expected::File(rows, cols, cells), Ok(file)) => {
                file.rows == rows && file.cols == cols && are_equal(cells, file.cells.as_slice())
            }
            (Expected::Fault(kind, line), Err(fault)) => *fault == MmFault { kind, line },
            _ => false,
        }
    }
}

fn are_equal(expected: &[(u64, u64, u64)], cells: &[Cell]) -> bool {
    expected.len() == cells.len()
        && expected
            .iter()
            .zip(cells)
            .all(|(want, cell)| *want == (cell.row, cell.col, cell.count))
}

/// A text in parts, each with how many times it is repeated.
pub type Parts<'a> = &'a [(&'a str, usize)];

// Appends a part so many times.
fn append(rt: &impl Abort, text: &mut Vec<u8>, part: &str, count: usize) {
    for _ in 0..count {
        text.extend_from_slice(part.as_bytes()).expect(rt, "memory");
    }
}

/// The text of these parts, after a front.
pub fn joined(rt: &impl Abort, alloc: Global, front: &str, parts: Parts) -> Vec<u8> {
    let mut text = front.as_bytes().to_vec(alloc).expect(rt, "memory");
    for (part, count) in parts {
        append(rt, &mut text, part, *count);
    }
    text
}

// Whether the bytes give this where they lie.
fn is_read_in_place(alloc: Global, text: &[u8], limits: TextLimits, expected: Expected) -> bool {
    let answer = read_text(alloc, text, limits);
    let is_met = expected.is_met_by(&answer);
    drop(answer);
    is_met
}

/// Whether the bytes give this from a source of single bytes, whose read of this number fails, counted from 0.
pub fn is_read_bytewise(
    rt: &impl Abort,
    alloc: Global,
    text: &[u8],
    limits: TextLimits,
    fail_read: Option<u64>,
    expected: Expected,
) -> bool {
    assert!(rt; limits.max_bytes <= 1 << 63);
    let pieces = pieces(alloc, text, 1).expect(rt, "memory");
    let mut source = Script::new(alloc, pieces, fail_read, None);
    let answer = read_matrix(alloc, &mut source, limits);
    drop(source);
    let is_met = expected.is_met_by(&answer);
    drop(answer);
    is_met
}

/// Checks a text of these parts in both ways.
pub fn check(
    rt: &(impl Abort + Eprint),
    alloc: Global,
    front: &str,
    parts: Parts,
    limits: TextLimits,
    expected: Expected,
) {
    let text = joined(rt, alloc, front, parts);
    let in_place = is_read_in_place(alloc, &text, limits, expected);
    let bytewise = is_read_bytewise(rt, alloc, &text, limits, None, expected);
    drop(text);
    let place = (front, parts, limits, expected);
    assert!(rt; same_at(rt, &place, &[in_place, bytewise], &[true; 2]));
}

// Checks a line with each of the ends.
fn check_line(
    rt: &(impl Abort + Eprint),
    alloc: Global,
    front: &str,
    line: &str,
    ends: &[&str],
    expected: Expected,
) {
    for end in ends {
        check(rt, alloc, front, &[(line, 1), (end, 1)], WIDE, expected);
    }
}

/// Lines, or rests of texts, each with what the whole text must give.
pub type Rows = &'static [(&'static str, Expected)];

/// Checks each row of a table after a front that all have, with each of the ends.
pub fn check_rows(
    rt: &(impl Abort + Eprint),
    alloc: Global,
    front: &str,
    ends: &[&str],
    rows: Rows,
) {
    for (line, expected) in rows {
        check_line(rt, alloc, front, line, ends, *expected);
    }
}

/// Texts in parts, each with the most bytes and the most entries that it may have, and what it must give.
pub type LimitedRows = &'static [(Parts<'static>, u64, u64, Expected)];

/// Checks each text of a table, after a front that all have.
pub fn check_limited(rt: &(impl Abort + Eprint), alloc: Global, front: &str, rows: LimitedRows) {
    for (parts, max_bytes, max_entries, expected) in rows {
        let limits = TextLimits {
            max_bytes: *max_bytes,
            max_entries: *max_entries,
        };
        check(rt, alloc, front, parts, limits, *expected);
    }
}
