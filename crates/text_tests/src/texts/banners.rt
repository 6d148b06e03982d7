//! Banner lines.
use crate::texts::cases::Expected::{Fault, File};
use crate::texts::cases::{FAULTY_LINE_ENDS, NO_END, Rows, check_rows};
use mm_text::MmKind::{BadBanner, BadSize, Unsupported};

/// Whole lines.
static FAULTY: Rows = &[
    // Line 1 is judged also where it is blank.
    ("", Fault(BadBanner, 1)),
    (" \t", Fault(BadBanner, 1)),
    // The first word, which begins at the first byte.
    ("2 3 1", Fault(BadBanner, 1)),
    (
        "%MatrixMarket matrix coordinate integer general",
        Fault(BadBanner, 1),
    ),
    (
        "%% MatrixMarket matrix coordinate integer general",
        Fault(BadBanner, 1),
    ),
    (
        " %%MatrixMarket matrix coordinate integer general",
        Fault(BadBanner, 1),
    ),
    (
        "\u{feff}%%MatrixMarket matrix coordinate integer general",
        Fault(BadBanner, 1),
    ),
    // The second to the fifth.
    (
        "%%MatrixMarket vector coordinate integer general",
        Fault(BadBanner, 1),
    ),
    (
        "%%MatrixMarket matrix list integer general",
        Fault(BadBanner, 1),
    ),
    (
        "%%MatrixMarket matrix coordinate int general",
        Fault(BadBanner, 1),
    ),
    (
        "%%MatrixMarket matrix coordinate integer",
        Fault(BadBanner, 1),
    ),
    (
        "%%MatrixMarket matrix coordinate integer diagonal",
        Fault(BadBanner, 1),
    ),
    // A sixth.
    (
        "%%MatrixMarket matrix coordinate integer symmetric % note",
        Fault(BadBanner, 1),
    ),
    // A bad word before one that isn't supported.
    (
        "%%MatrixMarket matrix list real general",
        Fault(BadBanner, 1),
    ),
    // Other bytes are no blanks, and only ASCII letters have a case.
    (
        "%%MatrixMarket matrix coordinate integer general\r\r",
        Fault(BadBanner, 1),
    ),
    (
        "%%MatrixMarket matrix coordinate integer\u{a0}general",
        Fault(BadBanner, 1),
    ),
    (
        "%%MatrixMar\u{212a}et matrix coordinate integer general",
        Fault(BadBanner, 1),
    ),
    (
        "%%MatrixMarket matrix ARRAY integer general",
        Fault(Unsupported, 1),
    ),
    (
        "%%MatrixMarket matrix coordinate Real general",
        Fault(Unsupported, 1),
    ),
    (
        "%%MatrixMarket matrix coordinate complex general",
        Fault(Unsupported, 1),
    ),
    (
        "%%MatrixMarket matrix coordinate pAtTeRn general",
        Fault(Unsupported, 1),
    ),
    (
        "%%MatrixMarket matrix coordinate integer skew-symmetric",
        Fault(Unsupported, 1),
    ),
    (
        "%%MatrixMarket matrix coordinate unsigned-integer hermitian",
        Fault(Unsupported, 1),
    ),
    // Before one that is bad.
    (
        "%%MatrixMarket matrix array float diagonal",
        Fault(Unsupported, 1),
    ),
];

/// Whole texts.
static TEXTS: Rows = &[
    (
        "%%MATRIXMARKET MATRIX COORDINATE INTEGER GENERAL\r\n2 3 1\n2 3 7\n",
        File(2, 3, &[(1, 2, 7)]),
    ),
    (
        "%%MatrixMarket \t matrix   coordinate\t\tUnsigned-INTEGER general  \t\r\n2 3 1\n2 3 7\n",
        File(2, 3, &[(1, 2, 7)]),
    ),
    // Where nothing follows, the size line is missing at the end of the text.
    (
        "%%MatrixMarket matrix coordinate integer general\r",
        Fault(BadSize, 1),
    ),
    (
        "%%MatrixMarket matrix coordinate integer general\n",
        Fault(BadSize, 2),
    ),
    // The banner is line 1.
    (
        "% note\n%%MatrixMarket matrix coordinate integer general\n2 3 0\n",
        Fault(BadBanner, 1),
    ),
    // The first line's fault comes first.
    (
        "%%MatrixMarket matrix coordinate real general\n0 0 0\n",
        Fault(Unsupported, 1),
    ),
    // After the banner, its like is a comment.
    (
        "%%MatrixMarket matrix coordinate integer general\n%%MatrixMarket matrix array real general\n2 3 0\n",
        File(2, 3, &[]),
    ),
];

#[test]
fn banners(rt: HostRuntime) {
    check_rows(&rt, rt.alloc(), "", FAULTY_LINE_ENDS, FAULTY);
    check_rows(&rt, rt.alloc(), "", NO_END, TEXTS);
}
