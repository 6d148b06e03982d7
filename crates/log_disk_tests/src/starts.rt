//! Starts that go on.
ghost use Rattle.std.specs.Prelude.{◌≡◌, List, []};

use crate::disk::Untold;
use crate::examples::{
    b1, b2, b12, head, head_behind, head_behind_both, head_of_book, list_of, small_setup,
};
use crate::folder::{Call, TestFolder};
use batch_store::{BookList, Setup};
use log_disk::{LogDisk, MemoryDisk};
use log_page::PAGE;
use log_start::{LogOwner, StartFault, Started, start_log};
use snap_file::{Identity, NO_WINDOW};
use std::alloc::{AllocError, Global};
use std::io::Eprint;
use std::process::Abort;
use std::random::RandomSource;
use test_support::{holds_at, same};

/// The calls of a start that goes on with a file, and those of one that begins a log.
const GOES_ON: [Call; 2] = [Call::SyncNames, Call::Find];

const BEGINS: [Call; 5] = [
    Call::SyncNames,
    Call::Find,
    Call::MakeNew,
    Call::TakeName,
    Call::SyncNames,
];

/// The pages, one behind another.
pub fn joined(alloc: Global, pages: &[[u8; PAGE]]) -> Result<Vec<u8>, AllocError> {
    let mut bytes = Vec::new(alloc);
    for page in pages {
        bytes.extend_from_slice(page)?;
    }
    Ok(bytes)
}

/// The first so many of these bytes.
pub fn front<'a>(rt: &impl Abort, bytes: &'a [u8], count: usize) -> &'a [u8] {
    assert!(rt; count <= bytes.len());
    &bytes[..count]
}

/// A file of these bytes, all durable.
pub fn file_of(rt: &impl Abort, alloc: Global, bytes: &[u8]) -> MemoryDisk {
    MemoryDisk::new(alloc, bytes, 1, None).expect(rt, "a file")
}

/// Client and total of each batch of a list.
pub fn rows_of(rt: &impl Abort, alloc: Global, list: &BookList) -> Vec<(u64, u64)> {
    let mut rows = Vec::new(alloc);
    for batch in &list.batches {
        rows.push((batch.client, batch.total)).expect(rt, "a row");
    }
    rows
}

/// What a start has made: the list's rows, the bytes of the log's file and those that are durable, the place of the
/// next batch and the page of its block, and the number of the file.
#[derive(Drop)]
pub struct Made {
    pub rows: Vec<(u64, u64)>,
    pub bytes: Vec<u8>,
    pub durable: Vec<u8>,
    pub next: u64,
    pub page: u64,
    pub number: u64,
}

fn copy_of(rt: &impl Abort, alloc: Global, bytes: &[u8]) -> Vec<u8> {
    let mut copy = Vec::new(alloc);
    copy.extend_from_slice(bytes).expect(rt, "bytes");
    copy
}

fn made_of(rt: &impl Abort, alloc: Global, started: &Started<Untold>) -> Made {
    let disk = &started.log.file.disk.disk;
    let mark = started.log.writer.mark();
    Made {
        rows: rows_of(rt, alloc, &started.list),
        bytes: copy_of(rt, alloc, disk.bytes()),
        durable: copy_of(rt, alloc, disk.durable_bytes()),
        next: mark.next,
        page: mark.page,
        number: started.log.file.number,
    }
}

/// Two books.
const BOOK: Identity = Identity {
    book_high: 0x0011_2233_4455_6677,
    book_low: 0x8899_aabb_ccdd_eeff,
    window: NO_WINDOW,
};

const OTHER: Identity = Identity {
    book_high: 0,
    book_low: 1,
    window: NO_WINDOW,
};

/// An owner whose snapshot doesn't say whose it is, of a book that isn't known.
fn nobody() -> LogOwner {
    LogOwner {
        known: Identity::unknown(),
        drawn: Identity::unknown(),
        must_be_there: false,
    }
}

/// Starts the log of a folder behind a snapshot of these clients and counts.
pub fn start_in<R: Abort + RandomSource>(
    rt: &R,
    alloc: Global,
    setup: &Setup,
    known: &[(u64, u64)],
    folder: &mut TestFolder,
) -> Result<Made, StartFault>
    requires { folder.old.failed ≡ 0 }
{
    start_of(rt, alloc, setup, &nobody(), known, folder)
}

/// Starts the log so for an owner.
pub fn start_of<R: Abort + RandomSource>(
    rt: &R,
    alloc: Global,
    setup: &Setup,
    owner: &LogOwner,
    known: &[(u64, u64)],
    folder: &mut TestFolder,
) -> Result<Made, StartFault>
    requires { folder.old.failed ≡ 0 }
{
    let list = list_of(rt, alloc, setup, known);
    let started = start_log(folder, alloc, setup, owner, list)?;
    Ok(made_of(rt, alloc, &started))
}

/// What a start has made, and the folder then.
#[derive(Drop)]
struct Run {
    made: Made,
    folder: TestFolder,
}

/// Starts the log of a file, or of none, behind such a snapshot.
fn start<R: Abort + RandomSource>(
    rt: &R,
    alloc: Global,
    known: &[(u64, u64)],
    stored: Option<MemoryDisk>,
) -> Run {
    let setup = small_setup(rt);
    let mut folder = TestFolder::new(alloc, stored, None, None);
    let made = start_in(rt, alloc, &setup, known, &mut folder).expect(rt, "a start");
    Run { made, folder }
}

/// Whether a run has made this list, the log's file has just these bytes, all durable, its next block is to stand
/// behind them, and these are the calls of the folder.
fn has_made<R: Abort + Eprint>(
    rt: &R,
    run: &Run,
    rows: &[(u64, u64)],
    bytes: &[u8],
    calls: &[Call],
) -> bool {
    let made = &run.made;
    same(rt, &&made.rows[..], &rows)
        && holds_at(rt, &"bytes", made.bytes.as_slice() == bytes)
        && holds_at(rt, &"durable", made.durable.as_slice() == bytes)
        && same(
            rt,
            &(made.next, made.page),
            &(rows.len() as u64, (bytes.len() / PAGE) as u64),
        )
        && same(rt, &&run.folder.calls[..], &calls)
        && same(rt, &run.folder.named, &Some(made.number))
}

#[test]
fn logs_are_begun(rt: HostRuntime) {
    let alloc = rt.alloc();
    let none = start(&rt, alloc, &[], None);
    assert!(rt; has_made(&rt, &none, &[], &head(), &BEGINS));
    let one = start(&rt, alloc, &[(7, 5)], None);
    assert!(rt; has_made(&rt, &one, &[(7, 5)], &head_behind(), &BEGINS));
    let both = [(7, 5), (8, 3)];
    let two = start(&rt, alloc, &both, None);
    assert!(rt; has_made(&rt, &two, &both, &head_behind_both(), &BEGINS));
}

// A log that is begun is of the snapshot's book, else of the drawn one.
#[test]
fn begun_logs_say_whose_they_are(rt: HostRuntime) {
    let alloc = rt.alloc();
    let setup = small_setup(&rt);
    let unknown = Identity::unknown();
    let page = head_of_book();
    for (known, drawn) in [(BOOK, OTHER), (unknown, BOOK)] {
        let owner = LogOwner {
            known,
            drawn,
            must_be_there: false,
        };
        let mut folder = TestFolder::new(alloc, None, None, None);
        let made = start_of(&rt, alloc, &setup, &owner, &[], &mut folder).expect(&rt, "a start");
        assert!(rt; holds_at(&rt, &known, made.bytes.as_slice() == page.as_slice()));
    }
}

// A log of another book isn't gone on with, and none is begun where one must be there.
#[test]
fn logs_of_others_and_missing_logs_are_refused(rt: HostRuntime) {
    let alloc = rt.alloc();
    let setup = small_setup(&rt);
    let owner = LogOwner {
        known: OTHER,
        drawn: OTHER,
        must_be_there: true,
    };
    let others = Some(file_of(&rt, alloc, &head_of_book()));
    let mut folder = TestFolder::new(alloc, others, None, None);
    let refused = start_of(&rt, alloc, &setup, &owner, &[], &mut folder).err();
    assert!(rt; same(&rt, &refused, &Some(StartFault::OtherBook)));
    let mut folder = TestFolder::new(alloc, None, None, None);
    let refused = start_of(&rt, alloc, &setup, &owner, &[], &mut folder).err();
    assert!(rt; same(&rt, &refused, &Some(StartFault::NotFound)));
    assert!(rt; same(&rt, &&folder.calls[..], &&GOES_ON[..]));
}

#[test]
fn whole_logs_go_on(rt: HostRuntime) -> Result<(), AllocError> {
    let alloc = rt.alloc();
    let both = [(7, 5), (8, 3)];
    let alone = file_of(&rt, alloc, &head());
    assert!(rt;
        has_made(
            &rt,
            &start(&rt, alloc, &[], Some(alone)),
            &[],
            &head(),
            &GOES_ON
        )
    );
    let two = joined(alloc, &[head(), b1(), b2()])?;
    let known: [&[(u64, u64)]; 3] = [&[], &[(7, 5)], &both];
    for list in known {
        let run = start(&rt, alloc, list, Some(file_of(&rt, alloc, &two)));
        assert!(rt; has_made(&rt, &run, &both, &two, &GOES_ON));
    }
    let one = joined(alloc, &[head(), b12()])?;
    let run = start(&rt, alloc, &[(7, 5)], Some(file_of(&rt, alloc, &one)));
    assert!(rt; has_made(&rt, &run, &both, &one, &GOES_ON));
    Ok(())
}

// A log behind a snapshot, at whose end it begins.
#[test]
fn logs_behind_a_snapshot_go_on(rt: HostRuntime) -> Result<(), AllocError> {
    let alloc = rt.alloc();
    let bytes = joined(alloc, &[head_behind(), b2()])?;
    let run = start(&rt, alloc, &[(7, 5)], Some(file_of(&rt, alloc, &bytes)));
    assert!(rt; has_made(&rt, &run, &[(7, 5), (8, 3)], &bytes, &GOES_ON));
    Ok(())
}

// The last block has lost its last byte that isn't 00, so it is cut off, with the pages of 00 behind it.
#[test]
fn torn_blocks_are_cut_off(rt: HostRuntime) -> Result<(), AllocError> {
    let alloc = rt.alloc();
    let two = joined(alloc, &[head(), b1(), b2()])?;
    let one = joined(alloc, &[head(), b1()])?;
    let torn = file_of(&rt, alloc, front(&rt, &two, 2 * PAGE + 79));
    let run_torn = start(&rt, alloc, &[], Some(torn));
    assert!(rt; has_made(&rt, &run_torn, &[(7, 5)], &one, &GOES_ON));
    let roomy = file_of(
        &rt,
        alloc,
        &joined(alloc, &[head(), b1(), [0; PAGE], [0; PAGE]])?,
    );
    let run_roomy = start(&rt, alloc, &[], Some(roomy));
    assert!(rt; has_made(&rt, &run_roomy, &[(7, 5)], &one, &GOES_ON));
    Ok(())
}

// A block that a life wrote and never synced, or the head of a new log, is in memory alone when its program is killed.
#[test]
fn what_is_in_memory_alone_is_made_durable(rt: HostRuntime) -> Result<(), AllocError> {
    let alloc = rt.alloc();
    let one = joined(alloc, &[head(), b1()])?;
    let mut disk = file_of(&rt, alloc, &head());
    assert!(rt; !disk.is_in_doubt() && disk.failures() == 0);
    assert!(rt; disk.write_at(PAGE as u64, &b1()).is_ok());
    let killed = disk.kill(alloc, None)?;
    assert!(rt; killed.durable_bytes() == head().as_slice());
    let run_one = start(&rt, alloc, &[], Some(killed));
    assert!(rt; has_made(&rt, &run_one, &[(7, 5)], &one, &GOES_ON));
    let mut disk = file_of(&rt, alloc, &[]);
    assert!(rt; !disk.is_in_doubt() && disk.failures() == 0);
    assert!(rt; disk.write_at(0, &head()).is_ok());
    let run_head = start(&rt, alloc, &[], Some(disk.kill(alloc, None)?));
    assert!(rt; has_made(&rt, &run_head, &[], &head(), &GOES_ON));
    Ok(())
}

// A log that ends before the snapshot does would give the next batch a place that is taken.
#[test]
fn logs_that_end_before_the_snapshot_are_begun_anew(rt: HostRuntime) -> Result<(), AllocError> {
    let alloc = rt.alloc();
    let both = [(7, 5), (8, 3)];
    let short: [Vec<u8>; 3] = [
        joined(alloc, &[head()])?,
        joined(alloc, &[head_behind()])?,
        joined(alloc, &[head(), b1()])?,
    ];
    for bytes in &short {
        let run = start(&rt, alloc, &both, Some(file_of(&rt, alloc, bytes)));
        assert!(rt; has_made(&rt, &run, &both, &head_behind_both(), &BEGINS));
    }
    Ok(())
}

/// Starts the log of a folder, of one batch, and appends a block of one. Answers the bytes of its file that are
/// durable.
fn append_one<R: Abort + RandomSource>(
    rt: &R,
    alloc: Global,
    setup: &Setup,
    folder: &mut TestFolder,
) -> Result<Vec<u8>, StartFault>
    requires { folder.old.failed ≡ 0 }
{
    let list = list_of(rt, alloc, setup, &[]);
    let started = start_log(folder, alloc, setup, &nobody(), list)?;
    let mut log = started.log;
    let mark = log.writer.mark();
    assert!(rt; mark.next == 1 && mark.page == 2 && log.writer.room() == 0);
    assert!(rt; !log.file.disk.is_in_doubt() && log.file.disk.failures() == 0);
    assert!(rt; log.writer.append(&mut log.file.disk, &b2(), 1, 1).is_ok());
    Ok(copy_of(rt, alloc, log.file.disk.disk.durable_bytes()))
}

// The next block goes behind the last one.
#[test]
fn started_logs_are_appended_to(rt: HostRuntime) -> Result<(), AllocError> {
    let alloc = rt.alloc();
    let setup = small_setup(&rt);
    let two = joined(alloc, &[head(), b1(), b2()])?;
    let torn = file_of(&rt, alloc, front(&rt, &two, 2 * PAGE + 79));
    let mut folder = TestFolder::new(alloc, Some(torn), None, None);
    let durable = append_one(&rt, alloc, &setup, &mut folder).expect(&rt, "a start");
    assert!(rt; durable.as_slice() == two.as_slice());
    Ok(())
}
