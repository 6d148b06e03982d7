//! Symmetric texts.
use crate::texts::cases::Expected::{Fault, File};
use crate::texts::cases::{FAULTY_LINE_ENDS, NO_END, Rows, SYMMETRIC, check_rows};
use mm_text::MmKind::{
    BadDimension, BadSize, ExtraText, IndexOutOfRange, NotSquare, NumberTooLarge, TooFewEntries,
    TooManyEntries,
};

static FAULTY_SIZES: Rows = &[
    ("2 3 0", Fault(NotSquare, 2)),
    ("1 1152921504606846976 0", Fault(NotSquare, 2)),
    // What the rows and the columns bear by themselves comes before it.
    ("2 x 0", Fault(BadSize, 2)),
    ("2 1152921504606846977 0", Fault(BadDimension, 2)),
    ("2 18446744073709551616 0", Fault(NumberTooLarge, 2)),
    // What follows them comes after it.
    ("2 3", Fault(NotSquare, 2)),
    ("2 3 1000001", Fault(NotSquare, 2)),
    ("2 2 1000001", Fault(TooManyEntries, 2)),
];

static TEXTS: Rows = &[
    // Below the diagonal, above it, and on it.
    ("3 3 1\n2 1 4\n", File(3, 3, &[(1, 0, 4), (0, 1, 4)])),
    ("3 3 1\n1 3 4\n", File(3, 3, &[(0, 2, 4), (2, 0, 4)])),
    ("3 3 2\n2 2 4\n2 2 4\n", File(3, 3, &[(1, 1, 4), (1, 1, 4)])),
    // The same pair twice, from both sides.
    (
        "3 3 2\n2 1 4\n\n1 2 5\n% note\n",
        File(3, 3, &[(1, 0, 4), (0, 1, 4), (0, 1, 5), (1, 0, 5)]),
    ),
    // Lines are declared, and not cells.
    ("3 3 2\n2 1 4\n", Fault(TooFewEntries, 4)),
    ("3 3 1\n2 1 4\n1 2 4\n", Fault(ExtraText, 4)),
    ("3 3 1\n1 4 4\n", Fault(IndexOutOfRange, 3)),
];

#[test]
fn symmetric_texts(rt: HostRuntime) {
    check_rows(&rt, rt.alloc(), SYMMETRIC, FAULTY_LINE_ENDS, FAULTY_SIZES);
    check_rows(&rt, rt.alloc(), SYMMETRIC, NO_END, TEXTS);
}
