//! The bytes that a log writes, and the room that its blocks take.
ghost use Rattle.std.specs.Prelude.{◌≡◌, ◌≤◌};
ghost use Rattle.stored_log.specs.Kept.{number_of};

use batch_store::{Batch, Book};
use log_desk::{Log, RoomFault};
use log_disk::MemoryDisk;
use log_folder::MemoryLogFolder;
use log_page::PAGE;
use snap_file::Identity;
use std::alloc::Global;
use std::process::Abort;
use std::random::RandomSource;
use std::sync::Arc;
use stored_log::{StoredLog, begin_stored};
use test_batches::{b1, b2, head, one_cell, small_setup};

/// A log with nothing before it.
pub fn begun<R: Abort + RandomSource>(
    rt: &R,
    alloc: Global,
    folder: &mut MemoryLogFolder,
) -> StoredLog<MemoryDisk>
    requires { folder.old.calls.failed ≡ 0 }
    ensures failures { folder.new.calls.failed ≡ 0 }
    ensures made { folder.new.made ≡ number_of result.in_use }
{
    let setup = small_setup().expect(rt, "a setup");
    let book = Book::new(rt, alloc, &setup).expect(rt, "memory");
    let list = book.book_list(alloc).expect(rt, "memory");
    begin_stored(folder, alloc, &setup, Identity::unknown(), &list).expect(rt, "a log")
}

/// Makes room for the block of a batch, and writes it.
pub fn put(log: &mut StoredLog<MemoryDisk>, batch: Arc<Batch>) -> bool
    ensures { number_of log.new.in_use ≡ number_of log.old.in_use }
{
    let batches = [batch];
    let pages = StoredLog::<MemoryDisk>::pages_of(&batches);
    if log.is_failed() || log.make_room(pages).is_err() {
        return false;
    }
    log.append(&batches).is_ok()
}

/// Whether a file has these pages, zeros after them up to so many pages, and nothing more, all of it durable.
fn has_pages(log: &StoredLog<MemoryDisk>, pages: &[[u8; PAGE]], count: usize) -> bool
    requires { count ≤ 1000 }
{
    let Some(disk) = log.disk() else {
        return false;
    };
    if disk.durable_bytes() != disk.bytes() || disk.bytes().len() != PAGE * count {
        return false;
    }
    let mut rest = disk.bytes();
    for page in pages {
        if rest.len() < PAGE {
            return false;
        }
        let (first, after) = rest.split_at(PAGE);
        if first != page.as_slice() {
            return false;
        }
        rest = after;
    }
    rest.iter().all(|byte| *byte == 0)
}

// Room is written in calls of 16 pages at most. A file has at most 268,435,456 pages.
#[test]
fn blocks_take_their_room(rt: HostRuntime) {
    let alloc = rt.alloc();
    let setup = small_setup().expect(&rt, "a setup");
    let mut folder = MemoryLogFolder::new(alloc, None, 1, None, None);
    let mut log = begun(&rt, alloc, &mut folder);
    assert!(rt; has_pages(&log, &[head()], 1));
    assert!(rt; !log.is_failed() && log.make_room(19).is_ok());
    assert!(rt; has_pages(&log, &[head()], 20));
    assert!(rt;
        put(
            &mut log,
            one_cell(alloc, &setup, 7, 5).expect(&rt, "a batch")
        )
    );
    assert!(rt; has_pages(&log, &[head(), b1()], 20));
    assert!(rt;
        put(
            &mut log,
            one_cell(alloc, &setup, 8, 3).expect(&rt, "a batch")
        )
    );
    assert!(rt; has_pages(&log, &[head(), b1(), b2()], 20));
    assert!(rt; !log.is_failed() && log.make_room(268_435_456) == Err(RoomFault::Full));
    assert!(rt; log.room() == 17);
    drop(log);
}
