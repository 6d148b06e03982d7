//! Starts that are refused, and those of which a call fails.
ghost use Rattle.std.specs.Prelude.{◌≡◌};

use crate::examples::{b1, b2, head, head_behind, small_setup, twice};
use crate::folder::{Call, TestFolder};
use crate::starts::{Made, file_of, front, joined, start_in};
use batch_store::Setup;
use log_blocks::LogKind::{BadMark, Damaged, HeadCheck, Truncated};
use log_blocks::{LogFault, LogKind};
use log_disk::MemoryDisk;
use log_page::PAGE;
use log_start::StartFault;
use log_start::StartFault::{EntryDiffers, Gap, LinkDiffers, NotFresh};
use std::alloc::{AllocError, Global};
use std::io::Eprint;
use std::process::Abort;
use std::random::RandomSource;
use test_support::{same, same_at};

/// What a start answers, as client and total of each batch: of the file of a log or none, behind a snapshot of these
/// batches, where these calls of the folder and of a new file fail.
fn started<R: Abort + RandomSource>(
    rt: &R,
    alloc: Global,
    setup: &Setup,
    known: &[(u64, u64)],
    folder: &mut TestFolder,
) -> Result<Vec<(u64, u64)>, StartFault>
    requires { folder.old.failed ≡ 0 }
{
    let Made {
        rows,
        bytes: _,
        durable: _,
        next: _,
        page: _,
        number: _,
    } = start_in(rt, alloc, setup, known, folder)?;
    Ok(rows)
}

/// A file of so many bytes of two pages, a snapshot beside it, and why a start is refused.
#[derive(Drop)]
struct Refused {
    pages: [[u8; PAGE]; 2],
    length: usize,
    known: &'static [(u64, u64)],
    why: StartFault,
}

/// The bytes of two pages.
const BOTH: usize = 2 * PAGE;

/// A log of two pages that doesn't belong to a snapshot.
fn row(pages: [[u8; PAGE]; 2], known: &'static [(u64, u64)], why: StartFault) -> Refused {
    Refused {
        pages,
        length: BOTH,
        known,
        why,
    }
}

/// So many bytes of two pages that are no log.
fn no_log(pages: [[u8; PAGE]; 2], length: usize, kind: LogKind, page: u64) -> Refused {
    Refused {
        pages,
        length,
        known: &[],
        why: StartFault::Log(LogFault { kind, page }),
    }
}

/// A page with a bit of its last byte changed.
fn spoilt(page: [u8; PAGE]) -> [u8; PAGE] {
    let mut changed = page;
    changed[PAGE - 1] = 1;
    changed
}

/// Starts on each of these files, whose folder is called twice and no more.
fn expect_refused<R: Abort + Eprint + RandomSource>(
    rt: &R,
    alloc: Global,
    rows: &[Refused],
) -> Result<(), AllocError> {
    for row in rows {
        let bytes = joined(alloc, &row.pages)?;
        let file = file_of(rt, alloc, front(rt, &bytes, row.length));
        let mut folder = TestFolder::new(alloc, Some(file), None, None);
        let got = started(rt, alloc, &small_setup(rt), row.known, &mut folder);
        assert!(rt; same_at(rt, &row.why, &got.is_err(), &true));
        assert!(rt; same(rt, &got, &Err(row.why)));
        assert!(rt; same(rt, &&folder.calls[..], &&[Call::SyncNames, Call::Find][..]));
    }
    Ok(())
}

#[test]
fn logs_of_other_snapshots_are_refused(rt: HostRuntime) -> Result<(), AllocError> {
    let behind = [head_behind(), b2()];
    let fresh = [head(), b1()];
    let doubled = [head(), twice()];
    let rows = [
        row(behind, &[], Gap { first: 1 }),
        row(behind, &[(8, 3)], LinkDiffers),
        row(behind, &[(7, 4)], LinkDiffers),
        row(fresh, &[(7, 4)], EntryDiffers { at: 0 }),
        row(behind, &[(7, 5), (9, 3)], EntryDiffers { at: 1 }),
        row(doubled, &[], NotFresh { at: 1 }),
        row(doubled, &[(7, 5)], NotFresh { at: 1 }),
    ];
    expect_refused(&rt, rt.alloc(), &rows)
}

#[test]
fn damaged_logs_are_refused(rt: HostRuntime) -> Result<(), AllocError> {
    let rows = [
        no_log([head(), b1()], 4095, Truncated, 0),
        no_log([b1(), head()], BOTH, BadMark, 0),
        no_log([spoilt(head()), b1()], BOTH, HeadCheck, 0),
        no_log([head(), spoilt(b1())], BOTH, Damaged, 1),
        no_log([head(), b2()], BOTH, Damaged, 1),
        no_log([head(), head()], BOTH, Damaged, 1),
    ];
    expect_refused(&rt, rt.alloc(), &rows)
}

// A head of more rows or of more columns than the setup of the start.
#[test]
fn logs_of_a_larger_setup_are_refused(rt: HostRuntime) -> Result<(), AllocError> {
    let alloc = rt.alloc();
    let bytes = joined(alloc, &[head(), b1()])?;
    let setups = [
        Setup::new(2, 3, &[2, 4], 2, 100, 10),
        Setup::new(3, 2, &[2, 4], 2, 100, 10),
    ];
    for made in setups {
        let setup = made.expect(&rt, "a setup");
        let file = file_of(&rt, alloc, &bytes);
        let mut folder = TestFolder::new(alloc, Some(file), None, None);
        let got = started(&rt, alloc, &setup, &[], &mut folder);
        assert!(rt; same(&rt, &got, &Err(StartFault::SetupDiffers)));
    }
    Ok(())
}

/// A call that fails: of the folder, or of the file that it makes; and what is answered then.
const FAILS: [(Option<u64>, Option<u64>, StartFault); 7] = [
    (Some(0), None, StartFault::Sync),
    (Some(1), None, StartFault::Create),
    (Some(2), None, StartFault::Create),
    (None, Some(0), StartFault::Write),
    (None, Some(1), StartFault::Sync),
    (Some(3), None, StartFault::Rename),
    (Some(4), None, StartFault::Rename),
];

#[test]
fn calls_of_a_beginning_fail(rt: HostRuntime) {
    let alloc = rt.alloc();
    let setup = small_setup(&rt);
    for (folder_fails, disk_fails, why) in FAILS {
        let mut folder = TestFolder::new(alloc, None, folder_fails, disk_fails);
        let got = started(&rt, alloc, &setup, &[(7, 5)], &mut folder);
        assert!(rt; same(&rt, &got, &Err(why)));
    }
    let mut folder = TestFolder::new(alloc, None, Some(5), Some(2));
    let got = started(&rt, alloc, &setup, &[], &mut folder);
    assert!(rt; same(&rt, &got.is_ok(), &true));
}

// First the reads fail, and then the calls that settle the file: a cut, a read and a write of the last block's page,
// and the sync.
#[test]
fn calls_of_a_file_fail(rt: HostRuntime) -> Result<(), AllocError> {
    let alloc = rt.alloc();
    let setup = small_setup(&rt);
    let bytes = joined(alloc, &[head(), b1()])?;
    let mut is_unread = false;
    let mut unsettled: u64 = 0;
    for at in 0..64 {
        let file = MemoryDisk::new(alloc, &bytes, at, Some(at))?;
        let mut folder = TestFolder::new(alloc, Some(file), None, None);
        match started(&rt, alloc, &setup, &[], &mut folder) {
            Err(StartFault::Log(fault)) => {
                assert!(rt; same(&rt, &fault.kind, &LogKind::Read));
                assert!(rt; same(&rt, &unsettled, &0));
                is_unread = true;
            }
            Err(fault) => {
                assert!(rt; same(&rt, &fault, &StartFault::Sync));
                unsettled = unsettled.saturating_add(1);
            }
            Ok(rows) => {
                assert!(rt; same(&rt, &&rows[..], &&[(7, 5)][..]));
                break;
            }
        }
    }
    assert!(rt; same(&rt, &is_unread, &true));
    assert!(rt; same(&rt, &unsettled, &4));
    Ok(())
}
