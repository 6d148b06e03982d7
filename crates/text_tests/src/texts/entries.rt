//! Entry lines, and what comes between them and after them.
use crate::texts::cases::Expected::{Fault, File};
use crate::texts::cases::{FAULTY_LINE_ENDS, GENERAL, LAST_LINE_ENDS, NO_END, Rows, check_rows};
use mm_text::MmKind::{
    BadEntry, ExtraText, IndexOutOfRange, Negative, NumberTooLarge, TooFewEntries,
};

/// The one entry line of a matrix of three rows and four columns.
static FAULTY: Rows = &[
    // Row.
    ("x 1 7", Fault(BadEntry, 3)),
    ("-1 1 7", Fault(BadEntry, 3)),
    ("1.0 1 7", Fault(BadEntry, 3)),
    ("18446744073709551616 1 7", Fault(NumberTooLarge, 3)),
    ("0 1 7", Fault(IndexOutOfRange, 3)),
    ("4 1 7", Fault(IndexOutOfRange, 3)),
    ("18446744073709551615 1 7", Fault(IndexOutOfRange, 3)),
    // Column.
    ("1", Fault(BadEntry, 3)),
    ("1 x 7", Fault(BadEntry, 3)),
    ("1 0 7", Fault(IndexOutOfRange, 3)),
    ("1 5 7", Fault(IndexOutOfRange, 3)),
    // Count: a minus and digits.
    ("1 1 -0", Fault(Negative, 3)),
    ("1 1 -18446744073709551616", Fault(Negative, 3)),
    ("1 1 --1", Fault(BadEntry, 3)),
    ("1 1 -1.0", Fault(BadEntry, 3)),
    ("1 1 - 1", Fault(BadEntry, 3)),
    // Count: no number, or one above 64 bits.
    ("1 1 \t", Fault(BadEntry, 3)),
    ("1 1 ++1", Fault(BadEntry, 3)),
    ("1 1 0x1", Fault(BadEntry, 3)),
    ("1 1 1e3", Fault(BadEntry, 3)),
    ("1 1 99999999999999999999x", Fault(BadEntry, 3)),
    ("1 1 +18446744073709551616", Fault(NumberTooLarge, 3)),
    ("1 1 018446744073709551616", Fault(NumberTooLarge, 3)),
    (
        "1 1 340282366920938463463374607431768211457",
        Fault(NumberTooLarge, 3),
    ),
    // A fourth word.
    ("1 1 7 %", Fault(BadEntry, 3)),
    // Of two faults, the left one.
    ("x 0 -5", Fault(BadEntry, 3)),
    ("0", Fault(IndexOutOfRange, 3)),
    ("1 18446744073709551616", Fault(NumberTooLarge, 3)),
    ("1 1 -5 7", Fault(Negative, 3)),
    // No comment.
    (" %1 1 7", Fault(BadEntry, 3)),
    // Other bytes are no blanks and no digits.
    ("1 1 7\r\r", Fault(BadEntry, 3)),
    ("1 1\u{b}7", Fault(BadEntry, 3)),
    ("1 1\u{a0}7 7", Fault(BadEntry, 3)),
    ("1 1 7\0", Fault(BadEntry, 3)),
    ("1 1 \u{667}", Fault(BadEntry, 3)),
    ("1 1 /", Fault(BadEntry, 3)),
    ("1 1 :", Fault(BadEntry, 3)),
    ("1 1234567: 1", Fault(BadEntry, 3)),
];

/// The one entry line of such a matrix.
static GOOD: Rows = &[
    ("3 4 7", File(3, 4, &[(2, 3, 7)])),
    ("+3 +2 +7", File(3, 4, &[(2, 1, 7)])),
    ("03 000000000000000000002 +007", File(3, 4, &[(2, 1, 7)])),
    ("\t \t3\t\t2   7 \t", File(3, 4, &[(2, 1, 7)])),
    ("1 1 00", File(3, 4, &[(0, 0, 0)])),
    (
        "1 1 018446744073709551615",
        File(3, 4, &[(0, 0, 18446744073709551615)]),
    ),
];

static TEXTS: Rows = &[
    // The cells come in the order of the lines, and repeated ones stay.
    (
        "3 4 4\n3 4 1\n1 1 2\n% note\n\n1 1 2\r\n \t\r\n%\n1 2 0",
        File(3, 4, &[(2, 3, 1), (0, 0, 2), (0, 0, 2), (0, 1, 0)]),
    ),
    (
        "1152921504606846976 1152921504606846976 1\n1152921504606846976 1098765432109876543 1\n",
        File(
            1152921504606846976,
            1152921504606846976,
            &[(1152921504606846975, 1098765432109876542, 1)],
        ),
    ),
    (
        "1152921504606846976 1152921504606846976 1\n1 1152921504606846977 1\n",
        Fault(IndexOutOfRange, 3),
    ),
    // Too few: a fault of the text's end.
    ("3 4 1", Fault(TooFewEntries, 2)),
    ("3 4 2\n1 1 5\r", Fault(TooFewEntries, 3)),
    ("3 4 2\n1 1 5\n \t", Fault(TooFewEntries, 4)),
    ("3 4 2\n% note\n\r\n1 1 5\n\r", Fault(TooFewEntries, 6)),
    // The words of a last line without LF come before what is missing after it.
    ("3 4 3\n1 1 5\n1 1 -5", Fault(Negative, 4)),
    // After the declared entries come blank lines and comments at most.
    (
        "3 4 1\n1 1 5\n\n \t\n% note\n \r\n\n",
        File(3, 4, &[(0, 0, 5)]),
    ),
    ("3 4 0\n1 1 5", Fault(ExtraText, 3)),
    ("3 4 1\n1 1 5\n0 9 -5 7\n", Fault(ExtraText, 4)),
    ("3 4 1\n1 1 5\n\n% note\n x \n", Fault(ExtraText, 6)),
    ("3 4 1\n1 1 5\n\0", Fault(ExtraText, 4)),
    // Of faults in two lines, that of the first.
    ("3 4 2\n1 1 1\n1 x 1\n1 1 1\n", Fault(BadEntry, 4)),
    ("3 4 1\n1 1 -1\n1 1 1\n", Fault(Negative, 3)),
];

const ONE_ENTRY: &str = "%%MatrixMarket matrix coordinate integer general\n3 4 1\n";

#[test]
fn faulty_entries(rt: HostRuntime) {
    check_rows(&rt, rt.alloc(), ONE_ENTRY, FAULTY_LINE_ENDS, FAULTY);
}

#[test]
fn entries(rt: HostRuntime) {
    check_rows(&rt, rt.alloc(), ONE_ENTRY, LAST_LINE_ENDS, GOOD);
    check_rows(&rt, rt.alloc(), GENERAL, NO_END, TEXTS);
}
