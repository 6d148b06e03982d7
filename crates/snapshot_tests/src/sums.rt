//! Sums of a text (`run_sum`) over devices in memory, each of whose reads and writes fails in turn.
ghost use Rattle.std.specs.Prelude.{◌≡◌};

use crate::sources::source;
use byte_io::{Script, Sink, Source, WriteFault};
use mm_sum::{SumFault, run_sum};
use mm_text::{MmFault, MmKind};
use std::alloc::Global;
use std::io::Eprint;
use std::process::Abort;
use test_support::same_at;

/// A text of 79 bytes, and its sum.
const TEXT: &str =
    "%%MatrixMarket matrix coordinate integer general\n3 3 4\n1 1 5\n3 2 7\n1 1 2\n2 3 0\n";

const SUM: &str = "%%MatrixMarket matrix coordinate integer general\n3 3 3\n1 1 7\n2 3 0\n3 2 7\n";

const FITS: &str =
    "%%MatrixMarket matrix coordinate integer general\n2 2 2\n2 1 1\n1 2 18446744073709551614\n";

const SUM_THAT_FITS: &str =
    "%%MatrixMarket matrix coordinate integer general\n2 2 2\n1 2 18446744073709551614\n2 1 1\n";

const PASSES: &str =
    "%%MatrixMarket matrix coordinate integer general\n2 2 2\n2 1 1\n1 2 18446744073709551615\n";

const PASSES_AND_IS_FAULTY: &str =
    "%%MatrixMarket matrix coordinate integer general\n2 2 2\n2 1 1\n1 2 18446744073709551615\nx";

/// A text, the cuts, the read of seven bytes that fails, and how many bytes the sink takes.
type Case<'a> = (&'a str, &'a [u64], Option<u64>, Option<u64>);

/// How a sum ended, the failures of its source and of its sink, and whether what was written is what is expected.
type Ended = (Result<(), SumFault>, [u64; 2], bool);

// What becomes of a case, of which these bytes are expected.
fn ended(rt: &impl Abort, alloc: Global, case: &Case, written: &[u8]) -> Ended {
    let mut input = source(rt, alloc, case.0.as_bytes(), 7, case.2);
    let mut sink = Script::new(alloc, Vec::new(alloc), None, case.3);
    let outcome = run_sum(alloc, &mut input, &mut sink, case.1);
    let failures = [Source::failures(&input), Sink::failures(&sink)];
    let is_written = sink.written() == written;
    drop(input);
    drop(sink);
    (outcome, failures, is_written)
}

// Compares what becomes of a case. On success the sum is expected, and else nothing.
fn check(
    rt: &(impl Abort + Eprint),
    alloc: Global,
    case: &Case,
    outcome: Result<(), SumFault>,
    failures: [u64; 2],
    sum: &str,
) {
    let found = ended(rt, alloc, case, sum.as_bytes());
    assert!(rt; same_at(rt, case, &found, &(outcome, failures, true)));
}

fn text_fault(kind: MmKind, line: u64) -> Result<(), SumFault> {
    Err(SumFault::Text(MmFault { kind, line }))
}

#[test]
fn a_text_is_summed(rt: HostRuntime) {
    let case = (TEXT, [2u64].as_slice(), None, None);
    check(&rt, rt.alloc(), &case, Ok(()), [0, 0], SUM);
    let case = (FITS, [1u64, 2, 3].as_slice(), None, None);
    check(&rt, rt.alloc(), &case, Ok(()), [0, 0], SUM_THAT_FITS);
}

#[test]
fn faults_of_a_text(rt: HostRuntime) {
    let case = (PASSES, [2u64].as_slice(), None, None);
    let passes = Err(SumFault::SumTooLarge);
    check(&rt, rt.alloc(), &case, passes, [0, 0], "");
    // A later fault of the text comes first.
    let case = (PASSES_AND_IS_FAULTY, [2u64].as_slice(), None, None);
    let fault = text_fault(MmKind::ExtraText, 5);
    check(&rt, rt.alloc(), &case, fault, [0, 0], "");
}

static BAD_CUTS: &[&[u64]] = &[
    &[1, 2, 3, 4, 5, 6, 7, 8],
    &[0],
    &[1, 1_099_511_627_777],
    &[4, 4],
];

// No call is made, though the first of each would fail.
#[test]
fn cuts_are_judged_before_anything_is_read(rt: HostRuntime) {
    for cuts in BAD_CUTS {
        let case = (TEXT, *cuts, Some(0), Some(0));
        check(&rt, rt.alloc(), &case, Err(SumFault::BadCuts), [0, 0], "");
    }
}

// The lines of the text end in bytes 49, 55, 61, 67, 73 and 79.
#[test]
fn reads_that_fail(rt: HostRuntime) {
    for (read, line) in [
        (0, 1),
        (6, 1),
        (7, 2),
        (8, 3),
        (9, 4),
        (10, 5),
        (11, 6),
        (12, 7),
    ] {
        let case = (TEXT, [2u64].as_slice(), Some(read), None);
        let fault = text_fault(MmKind::Read, line);
        check(&rt, rt.alloc(), &case, fault, [1, 0], "");
    }
    let case = (TEXT, [2u64].as_slice(), Some(13), None);
    check(&rt, rt.alloc(), &case, Ok(()), [0, 0], SUM);
}

#[test]
fn writes_that_fail(rt: HostRuntime) {
    for room in 0..SUM.len() {
        let case = (TEXT, [2u64].as_slice(), None, Some(room as u64));
        let front = SUM.as_bytes().get(..room).unwrap_or(&[]);
        let found = ended(&rt, rt.alloc(), &case, front);
        let fault = SumFault::Output(WriteFault {
            written: room as u128,
        });
        assert!(rt; same_at(&rt, &room, &found, &(Err(fault), [0, 1], true)));
    }
}
