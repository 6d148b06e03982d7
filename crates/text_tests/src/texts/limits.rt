//! The limits of a text and of a line, kept to the byte and to the entry, and passed by one.
use crate::texts::cases::Expected::{Fault, File};
use crate::texts::cases::{FAR, GENERAL, LimitedRows, check_limited};
use mm_text::MmKind::{
    BadBanner, BadEntry, BadSize, LineTooLong, TooFewEntries, TooLong, TooManyEntries,
};

/// The banner line without its LF: 48 bytes.
const BANNER: &str = "%%MatrixMarket matrix coordinate integer general";

/// Whole texts.
static WHOLE: LimitedRows = &[
    (&[("\n", 1)], 1, FAR, Fault(BadBanner, 1)),
    (&[("\n", 1)], 0, FAR, Fault(TooLong, 1)),
    // A banner of 1,024 bytes, and of one more.
    (
        &[(BANNER, 1), (" ", 976), ("\r\n1 1 0\n", 1)],
        FAR,
        FAR,
        File(1, 1, &[]),
    ),
    (
        &[(BANNER, 1), (" ", 977), ("\r\n1 1 0\n", 1)],
        FAR,
        FAR,
        Fault(LineTooLong, 1),
    ),
];

/// Texts after a banner line of 49 bytes.
static BYTES: LimitedRows = &[
    // The text's lines end in bytes 49, 55 and 61.
    (
        &[("3 3 1\n1 1 5\n", 1)],
        9223372036854775808,
        FAR,
        File(3, 3, &[(0, 0, 5)]),
    ),
    (&[("3 3 1\n1 1 5\n", 1)], 61, FAR, File(3, 3, &[(0, 0, 5)])),
    (&[("3 3 1\n1 1 5\n", 1)], 60, FAR, Fault(TooLong, 3)),
    (&[("3 3 1\n1 1 5\n", 1)], 54, FAR, Fault(TooLong, 2)),
    (&[("3 3 1\n1 1 5\n", 1)], 48, FAR, Fault(TooLong, 1)),
    // A line's words are judged at its LF, where the limit comes first.
    (&[("x x\n", 1)], 53, FAR, Fault(BadSize, 2)),
    (&[("x x\n", 1)], 52, FAR, Fault(TooLong, 2)),
    // Byte 1,025 of a line shows that it is too long; there too the limit comes first.
    (&[(" ", 1100)], 1074, FAR, Fault(LineTooLong, 2)),
    (&[(" ", 1100)], 1073, FAR, Fault(TooLong, 2)),
];

/// The same, with the most entries that they may declare. What is declared takes no memory.
static ENTRIES: LimitedRows = &[
    (&[("3 3 1\n1 1 5\n", 1)], FAR, 1, File(3, 3, &[(0, 0, 5)])),
    (&[("3 3 1\n1 1 5\n", 1)], FAR, 0, Fault(TooManyEntries, 2)),
    (
        &[("3 3 18446744073709551615\n1 1 5\n", 1)],
        FAR,
        18446744073709551615,
        Fault(TooFewEntries, 4),
    ),
];

/// Lines of about 1,024 bytes, which is the most but for comments.
static LINES: LimitedRows = &[
    (
        &[("\t", 1024), ("\r\n1 1 0\n", 1)],
        FAR,
        FAR,
        File(1, 1, &[]),
    ),
    (
        &[(" ", 1025), ("\n1 1 0\n", 1)],
        FAR,
        FAR,
        Fault(LineTooLong, 2),
    ),
    (
        &[("%", 1), ("x", 4999), ("\n1 1 0\n", 1)],
        FAR,
        FAR,
        File(1, 1, &[]),
    ),
    (
        &[("2 3 1\n1 1 ", 1), ("0", 1019), ("7\r", 1)],
        FAR,
        FAR,
        File(2, 3, &[(0, 0, 7)]),
    ),
    (
        &[("2 3 1\n1 1 ", 1), ("0", 1020), ("7", 1)],
        FAR,
        FAR,
        Fault(LineTooLong, 3),
    ),
    // A line that is too long bears no other fault.
    (
        &[("2 3 1\n", 1), ("x", 1024), ("\n", 1)],
        FAR,
        FAR,
        Fault(BadEntry, 3),
    ),
    (
        &[("2 3 1\n", 1), ("x", 1025), ("\n", 1)],
        FAR,
        FAR,
        Fault(LineTooLong, 3),
    ),
];

#[test]
fn texts_are_limited(rt: HostRuntime) {
    check_limited(&rt, rt.alloc(), "", WHOLE);
    check_limited(&rt, rt.alloc(), GENERAL, BYTES);
    check_limited(&rt, rt.alloc(), GENERAL, ENTRIES);
}

#[test]
fn lines_are_limited(rt: HostRuntime) {
    check_limited(&rt, rt.alloc(), GENERAL, LINES);
}
