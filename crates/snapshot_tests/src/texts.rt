//! Sums of several texts in memory (`run_sum_of`), whose openings, reads and writes fail in turn.
ghost use Rattle.std.specs.Prelude.{◌≡◌, ◌≤◌, ⊤};

use crate::sources::source;
use byte_io::{DeviceFault, Script, Source, WriteFault};
use mm_sum::{OpenFault, Texts, TextsFault, run_sum_of};
use mm_text::{MmFault, MmKind};
use std::alloc::Global;
use std::io::Eprint;
use std::process::Abort;
use test_support::{same, same_at};

const FIRST: &str = "%%MatrixMarket matrix coordinate integer general\n3 3 2\n1 1 5\n3 2 7\n";

const SECOND: &str = "%%MatrixMarket matrix coordinate integer symmetric\n3 3 2\n2 1 4\n1 1 1\n";

const THIRD: &str = "%%MatrixMarket matrix coordinate integer general\n3 3 1\n2 3 0\n";

/// The sum of the three.
const ALL: &str =
    "%%MatrixMarket matrix coordinate integer general\n3 3 5\n1 1 6\n1 2 4\n2 1 4\n2 3 0\n3 2 7\n";

const OTHER: &str = "%%MatrixMarket matrix coordinate integer general\n3 4 1\n1 4 1\n";

const FAULTY: &str = "%%MatrixMarket matrix coordinate integer general\n3 4 1\n1 5 1\n";

const MOST: &str =
    "%%MatrixMarket matrix coordinate integer general\n3 3 1\n3 3 18446744073709551615\n";

/// Texts of scripts, one of which may not be opened.
#[derive(Drop)]
struct Scripts {
    current: Script,
    // The next one is the last.
    later: Vec<Script>,
    opened: u64,
    refused: Option<(u64, OpenFault)>,
    failures: u64,
    ghost counted: { current.failures ≤ failures },
}

impl Source for Scripts {
    ghost read_gives = { λ s answer t. ⊤ };

    ghost at_end = { λ s. ⊤ };

    ghost failure_count = { λ s. s.failures };

    fn read(&mut self, buf: &mut [u8]) -> Result<usize, DeviceFault> {
        match Source::read(&mut self.current, buf) {
            Ok(count) => Ok(count),
            Err(fault) => {
                self.failures += 1;
                Err(fault)
            }
        }
    }

    fn failures(&self) -> u64 {
        self.failures
    }
}

impl Texts for Scripts {
    ghost open_gives = { λ s answer t. ⊤ };

    fn open_next(&mut self) -> Result<(), OpenFault> {
        let text = self.opened;
        self.opened = text.wrapping_add(1);
        if let Some((at, fault)) = self.refused {
            if at == text {
                return Err(fault);
            }
        }
        let Some(next) = self.later.pop() else {
            return Err(OpenFault::NotFound);
        };
        if Source::failures(&next) != 0 {
            return Err(OpenFault::OpenFailed);
        }
        self.current = next;
        Ok(())
    }
}

/// Texts, the one that may not be opened, the one whose first read fails, and how many bytes the sink takes.
type Case<'a> = (
    &'a [&'a str],
    Option<(u64, OpenFault)>,
    Option<usize>,
    Option<u64>,
);

// The texts of a case in pieces of seven bytes.
fn make_scripts(rt: &impl Abort, alloc: Global, case: &Case) -> Scripts
    ensures { result.failures ≡ 0 }
{
    let mut later = Vec::new(alloc);
    for (text, bytes) in case.0.iter().enumerate().rev() {
        let fail_read = if case.2 == Some(text) { Some(0) } else { None };
        let script = source(rt, alloc, bytes.as_bytes(), 7, fail_read);
        later.push(script).expect(rt, "memory");
    }
    Scripts {
        current: Script::new(alloc, Vec::new(alloc), None, None),
        later,
        opened: 0,
        refused: case.1,
        failures: 0,
    }
}

/// How a sum ended, how many texts were opened, or tried, and whether what was written is what is expected.
type Ended = (Result<(), TextsFault>, u64, bool);

// What becomes of a case, of which these bytes are expected.
fn ended(rt: &impl Abort, alloc: Global, case: &Case, cuts: &[u64], written: &[u8]) -> Ended {
    let count = case.0.len() as u64;
    assert!(rt; count != 0);
    let mut input = make_scripts(rt, alloc, case);
    let mut sink = Script::new(alloc, Vec::new(alloc), None, case.3);
    let outcome = run_sum_of(alloc, &mut input, count, &mut sink, cuts);
    let opened = input.opened;
    let is_written = sink.written() == written;
    drop(input);
    drop(sink);
    (outcome, opened, is_written)
}

// Compares what becomes of a case. On success the sum of the first three texts is expected, and else nothing.
fn check(
    rt: &(impl Abort + Eprint),
    alloc: Global,
    case: &Case,
    outcome: Result<(), TextsFault>,
    opened: u64,
) {
    let sum = if outcome.is_ok() { ALL } else { "" };
    let found = ended(rt, alloc, case, &[2], sum.as_bytes());
    assert!(rt; same_at(rt, case, &found, &(outcome, opened, true)));
}

const TEXTS: &[&str] = &[FIRST, SECOND, THIRD];

#[test]
fn texts_are_summed(rt: HostRuntime) {
    check(&rt, rt.alloc(), &(TEXTS, None, None, None), Ok(()), 3);
    let turned = [THIRD, FIRST, SECOND];
    check(&rt, rt.alloc(), &(&turned, None, None, None), Ok(()), 3);
}

#[test]
fn faults_of_texts(rt: HostRuntime) {
    let fault = MmFault {
        kind: MmKind::IndexOutOfRange,
        line: 3,
    };
    let case = (&[FIRST, FAULTY][..], None, None, None);
    check(&rt, rt.alloc(), &case, Err(TextsFault::Text(1, fault)), 2);
    let case = (&[FIRST, OTHER, SECOND][..], None, None, None);
    let differs = Err(TextsFault::DimensionsDiffer(1));
    check(&rt, rt.alloc(), &case, differs, 2);
    let case = (&[MOST, FIRST][..], None, None, None);
    check(&rt, rt.alloc(), &case, Err(TextsFault::SumTooLarge), 2);
    // A later fault of a text comes first.
    let case = (&[MOST, FIRST, OTHER][..], None, None, None);
    let differs = Err(TextsFault::DimensionsDiffer(2));
    check(&rt, rt.alloc(), &case, differs, 3);
}

#[test]
fn each_text_fails_in_turn(rt: HostRuntime) {
    for text in 0..3u64 {
        for fault in [OpenFault::NotFound, OpenFault::OpenFailed] {
            let case = (TEXTS, Some((text, fault)), None, None);
            let told = Err(TextsFault::File(text, fault));
            check(&rt, rt.alloc(), &case, told, text + 1);
        }
        let case = (TEXTS, Some((text, OpenFault::Memory)), None, None);
        check(&rt, rt.alloc(), &case, Err(TextsFault::Memory), text + 1);
        let fault = MmFault {
            kind: MmKind::Read,
            line: 1,
        };
        let case = (TEXTS, None, Some(text as usize), None);
        check(
            &rt,
            rt.alloc(),
            &case,
            Err(TextsFault::Text(text, fault)),
            text + 1,
        );
    }
}

#[test]
fn writes_that_fail(rt: HostRuntime) {
    for room in 0..ALL.len() {
        let case = (TEXTS, None, None, Some(room as u64));
        let front = ALL.as_bytes().get(..room).unwrap_or(&[]);
        let found = ended(&rt, rt.alloc(), &case, &[1, 2, 3], front);
        let fault = WriteFault {
            written: room as u128,
        };
        let wanted = (Err(TextsFault::Output(fault)), 3, true);
        assert!(rt; same_at(&rt, &room, &found, &wanted));
    }
}

#[test]
fn cuts_are_judged_before_anything_is_opened(rt: HostRuntime) {
    let case = (TEXTS, Some((0, OpenFault::NotFound)), None, None);
    let found = ended(&rt, rt.alloc(), &case, &[4, 4], b"");
    assert!(rt; same(&rt, &found, &(Err(TextsFault::BadCuts), 0, true)));
}
