//! Several snapshots as one text (`run_export_of`).

use crate::exports::given::{Given, MARK, MOST, NONE, Refusal, WIDE};
use crate::snapshots::bytes::{ONE, TWO};
use byte_io::{Script, WriteFault};
use snap_export::{ExportFault, run_export_of};
use snap_file::{FileFault, SnapFault};
use snap_report::CheckFault;
use std::alloc::Global;
use std::io::Eprint;
use std::process::Abort;
use test_support::same_at;

/// The sum of `ONE` and `TWO`.
const BOTH: &str = "%%MatrixMarket matrix coordinate integer general\n3 3 2\n1 1 13\n3 2 0\n";

const OF_NONE: &str = "%%MatrixMarket matrix coordinate integer general\n3 3 0\n";

const OF_MOST: &str =
    "%%MatrixMarket matrix coordinate integer general\n3 3 1\n2 3 18446744073709551615\n";

/// How an export ended, whether what was written is what is expected, and how many files were loaded, or tried.
type Ended = (Result<(), ExportFault>, bool, u64);

// How an export of these files ends into a sink that takes so many bytes, and of which these are expected.
fn ended(
    rt: &impl Abort,
    alloc: Global,
    files: &[&[u8]],
    refused: Option<(u64, Refusal)>,
    room: Option<u64>,
    written: &[u8],
) -> Ended {
    let count = files.len() as u64;
    assert!(rt; count != 0);
    let mut given = Given::new(files, refused);
    let mut sink = Script::new(alloc, Vec::new(alloc), None, room);
    let outcome = run_export_of(alloc, &mut given, count, &mut sink);
    let is_written = sink.written() == written;
    drop(sink);
    (outcome, is_written, given.loaded)
}

// Compares how an export ends. On success the text is expected, and else nothing.
fn check(
    rt: &(impl Abort + Eprint),
    alloc: Global,
    files: &[&[u8]],
    outcome: Result<(), ExportFault>,
    text: &str,
    loaded: u64,
) {
    let found = ended(rt, alloc, files, None, None, text.as_bytes());
    assert!(rt; same_at(rt, &text, &found, &(outcome, true, loaded)));
}

#[test]
fn snapshots_are_summed(rt: HostRuntime) {
    let alloc = rt.alloc();
    check(&rt, alloc, &[NONE, TWO, NONE, ONE], Ok(()), BOTH, 4);
    check(&rt, alloc, &[NONE], Ok(()), OF_NONE, 1);
    check(&rt, alloc, &[NONE, MOST], Ok(()), OF_MOST, 2);
}

#[test]
fn faults_of_files(rt: HostRuntime) {
    let alloc = rt.alloc();
    let differs = Err(ExportFault::DimensionsDiffer(1));
    check(&rt, alloc, &[ONE, WIDE, MARK], differs, "", 2);
    let mark = FileFault::Snap(SnapFault::BadMark);
    let bad = Err(ExportFault::File(1, CheckFault::File(mark)));
    check(&rt, alloc, &[WIDE, MARK, ONE], bad, "", 2);
    let passes = Err(ExportFault::SumTooLarge);
    check(&rt, alloc, &[ONE, NONE, MOST, TWO], passes, "", 4);
    // A later fault of a file comes first.
    let differs = Err(ExportFault::DimensionsDiffer(2));
    check(&rt, alloc, &[MOST, MOST, WIDE], differs, "", 3);
}

#[test]
fn files_that_are_not_loaded(rt: HostRuntime) {
    for file in 0..3u64 {
        let refused = Some((file, Refusal::Busy));
        let busy = ended(&rt, rt.alloc(), &[ONE, TWO, NONE], refused, None, b"");
        let fault = ExportFault::File(file, CheckFault::File(FileFault::Busy));
        assert!(rt; same_at(&rt, &file, &busy, &(Err(fault), true, file + 1)));
        let refused = Some((file, Refusal::Memory));
        let lacks = ended(&rt, rt.alloc(), &[ONE, TWO, NONE], refused, None, b"");
        assert!(rt;
            same_at(
                &rt,
                &file,
                &lacks,
                &(Err(ExportFault::Memory), true, file + 1)
            )
        );
    }
}

#[test]
fn writes_that_fail(rt: HostRuntime) {
    for room in 0..BOTH.len() {
        let front = BOTH.as_bytes().get(..room).unwrap_or(&[]);
        let found = ended(&rt, rt.alloc(), &[ONE, TWO], None, Some(room as u64), front);
        let fault = ExportFault::Output(WriteFault {
            written: room as u128,
        });
        assert!(rt; same_at(&rt, &room, &found, &(Err(fault), true, 2)));
    }
}
