//! Batches made of texts, and the parts of a batch.
use batch_store::{Batch, BatchFault};
use mm_text::{MmFile, Script, TextLimits, read_matrix};
use std::alloc::Global;
use std::process::Abort;
use test_batches::{Cells, batch, small_setup};
use test_support::{holds_at, same, same_at};

const WIDE: TextLimits = TextLimits {
    max_bytes: 1_000_000,
    max_entries: 1_000_000,
};

// The file of a text that follows the banner.
fn file(rt: &impl Abort, alloc: Global, tail: &str) -> MmFile {
    let mut text = Vec::new(alloc);
    let banner = b"%%MatrixMarket matrix coordinate integer general\n";
    text.extend_from_slice(banner).expect(rt, "memory");
    text.extend_from_slice(tail.as_bytes()).expect(rt, "memory");
    let mut pieces = Vec::new(alloc);
    pieces.push(text).expect(rt, "memory");
    let mut script = Script::new(alloc, pieces, None, None);
    let answer = read_matrix(alloc, &mut script, WIDE);
    drop(script);
    answer.expect(rt, "a file")
}

static FAULTS: &[(&str, Option<BatchFault>)] = &[
    ("3 3 0\n", None),
    // Fewer rows, fewer columns, both; one row more, one column more, also beside fewer of the other.
    ("2 3 0\n", None),
    ("3 2 0\n", None),
    ("1 1 1\n1 1 5\n", None),
    ("4 3 0\n", Some(BatchFault::DimensionsTooLarge)),
    ("3 4 0\n", Some(BatchFault::DimensionsTooLarge)),
    ("4 2 0\n", Some(BatchFault::DimensionsTooLarge)),
    ("2 4 0\n", Some(BatchFault::DimensionsTooLarge)),
    // Two counts of 2^63, and one less.
    (
        "3 3 2\n1 1 9223372036854775808\n1 2 9223372036854775808\n",
        Some(BatchFault::SumTooLarge),
    ),
    (
        "3 3 2\n1 1 9223372036854775808\n1 2 9223372036854775807\n",
        None,
    ),
    (
        "2 2 2\n1 1 9223372036854775808\n1 2 9223372036854775808\n",
        Some(BatchFault::SumTooLarge),
    ),
    // Dimensions are judged first.
    (
        "4 3 2\n1 1 9223372036854775808\n1 2 9223372036854775808\n",
        Some(BatchFault::DimensionsTooLarge),
    ),
];

#[test]
fn files_are_judged(rt: HostRuntime) {
    let setup = small_setup().expect(&rt, "a setup");
    for (tail, expected) in FAULTS {
        let file = file(&rt, rt.alloc(), tail);
        let found = Batch::make(rt.alloc(), &setup, 7, 1, &file).err();
        drop(file);
        assert!(rt; same_at(&rt, tail, &found, expected));
    }
}

#[test]
fn a_batch_has_each_place_once(rt: HostRuntime) {
    let file = file(&rt, rt.alloc(), "3 3 3\n2 1 4\n2 3 0\n2 1 5\n");
    let answer = Batch::make(
        rt.alloc(),
        &small_setup().expect(&rt, "a setup"),
        7,
        1,
        &file,
    );
    drop(file);
    let b = answer.expect(&rt, "a batch");
    let fields = (b.client, b.number, b.total);
    let counts = (b.matrix.entries(), b.matrix.get(1, 0), b.matrix.get(1, 2));
    let concerns = [b.concerns(0, 1), b.concerns(0, 2), b.concerns(1, 2)];
    drop(b);
    let want = ((7, 1, 9), (2, Some(9), Some(0)), [true, false, true]);
    assert!(rt; same(&rt, &(fields, counts, concerns), &want));
}

/// A batch, and of its part in each of so many shards the number of cells and the total; None where no cell lies there.
type Parts = (Cells, &'static [Option<(u64, u64)>]);

const ROWS: Cells = &[(0, 0, 5), (0, 1, 0), (2, 0, 4)];

static PARTS: &[Parts] = &[
    (&[], &[None]),
    (&[], &[None, None]),
    // A stored zero is a cell.
    (&[(1, 0, 0)], &[None, Some((1, 0))]),
    (ROWS, &[Some((3, 9))]),
    (ROWS, &[Some((3, 9)), None]),
    (ROWS, &[Some((2, 5)), None, Some((1, 4))]),
    (ROWS, &[Some((2, 5)), None, Some((1, 4)), None, None]),
];

// Whether a batch has these parts, also where a growth was refused the first time.
fn has_shares(rt: &impl Abort, alloc: Global, b: &Batch, want: &[Option<(u64, u64)>]) -> bool {
    let k = want.len() as u64;
    if k == 0 {
        return false;
    }
    let parts = match b.parts(alloc, k) {
        Ok(parts) => parts,
        Err(_) => b.parts(alloc, k).expect(rt, "memory"),
    };
    let mut are_wanted = parts.len() == want.len();
    for (part, expected) in parts.iter().zip(want) {
        let found = match part {
            Some(part) => Some((part.entries(), part.total())),
            None => None,
        };
        are_wanted = are_wanted && found == *expected;
    }
    drop(parts);
    are_wanted
}

#[test]
fn a_batch_is_cut_by_rows(rt: HostRuntime) {
    let setup = small_setup().expect(&rt, "a setup");
    for (cells, want) in PARTS {
        let b = batch(rt.alloc(), &setup, (7, 1), cells).expect(&rt, "a batch");
        let has = has_shares(&rt, rt.alloc(), &b, want);
        drop(b);
        assert!(rt; holds_at(&rt, &(cells, want), has));
    }
}
