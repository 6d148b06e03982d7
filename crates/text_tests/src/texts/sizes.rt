//! Size lines, and what may come before them.
use crate::texts::cases::Expected::{Fault, File};
use crate::texts::cases::{FAULTY_LINE_ENDS, GENERAL, NO_END, Rows, check_rows};
use mm_text::MmKind::{BadDimension, BadSize, NumberTooLarge, TooManyEntries};

/// Size lines of a general matrix, where at most 1,000,000 entries may be declared.
static FAULTY: Rows = &[
    // Rows.
    ("x 3 0", Fault(BadSize, 2)),
    ("-3 3 0", Fault(BadSize, 2)),
    ("++3 3 0", Fault(BadSize, 2)),
    ("3.0 3 0", Fault(BadSize, 2)),
    ("3, 3, 0", Fault(BadSize, 2)),
    ("18446744073709551616x 3 0", Fault(BadSize, 2)),
    ("018446744073709551616 3 0", Fault(NumberTooLarge, 2)),
    ("0 3 0", Fault(BadDimension, 2)),
    ("1152921504606846977 3 0", Fault(BadDimension, 2)),
    // Columns.
    ("3 \t ", Fault(BadSize, 2)),
    ("3 x 0", Fault(BadSize, 2)),
    ("3 18446744073709551616 0", Fault(NumberTooLarge, 2)),
    ("3 0 0", Fault(BadDimension, 2)),
    ("3 1152921504606846977 0", Fault(BadDimension, 2)),
    // Entries. A minus has no fault of its own here.
    ("3 3", Fault(BadSize, 2)),
    ("3 3 -1", Fault(BadSize, 2)),
    ("3 3 18446744073709551616", Fault(NumberTooLarge, 2)),
    ("3 3 1000001", Fault(TooManyEntries, 2)),
    // A fourth word.
    ("3 3 0 % note", Fault(BadSize, 2)),
    // Of two faults, the left one.
    ("x 0 0", Fault(BadSize, 2)),
    ("0", Fault(BadDimension, 2)),
    ("0 18446744073709551616 0", Fault(BadDimension, 2)),
    ("3 3 1000001 0", Fault(TooManyEntries, 2)),
    // Neither a comment nor a blank line.
    (" % note", Fault(BadSize, 2)),
    ("\r\r", Fault(BadSize, 2)),
    // Other bytes are no blanks and no digits.
    ("3 3\r0", Fault(BadSize, 2)),
    ("3\u{b}3 0", Fault(BadSize, 2)),
    ("3\u{a0}3 0 0", Fault(BadSize, 2)),
    ("3 3 0\0", Fault(BadSize, 2)),
    ("\u{663} 3 0", Fault(BadSize, 2)),
];

static TEXTS: Rows = &[
    ("3 4 0", File(3, 4, &[])),
    ("3 4 0\r\n", File(3, 4, &[])),
    (
        "1152921504606846976 1 0\n",
        File(1152921504606846976, 1, &[]),
    ),
    (
        "1 1152921504606846976 0\n",
        File(1, 1152921504606846976, &[]),
    ),
    ("003 000000000000000000004 +0\n", File(3, 4, &[])),
    (" \t3\t \t4  0\t \r\n", File(3, 4, &[])),
    // Blank lines and comments before it.
    (
        "%\n% note\n\n \t \n\r\n \r\n% note\r\n%\rnote\n3 4 0\n",
        File(3, 4, &[]),
    ),
    ("\n% note\nx\n", Fault(BadSize, 4)),
    // It is missing: a fault of the text's end.
    ("% note", Fault(BadSize, 2)),
    ("% note\n\n \t\r\n%\n", Fault(BadSize, 6)),
    // Of faults in two lines, that of the first.
    ("0 3 1\nx\n", Fault(BadDimension, 2)),
];

#[test]
fn sizes(rt: HostRuntime) {
    check_rows(&rt, rt.alloc(), GENERAL, FAULTY_LINE_ENDS, FAULTY);
    check_rows(&rt, rt.alloc(), GENERAL, NO_END, TEXTS);
}
