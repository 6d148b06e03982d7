//! Logs that are whole, torn or damaged: the blocks that are found in their bytes, and the batches that are read.
ghost use Rattle.std.specs.Prelude.{◌<◌, ◌^◌};

use byte_io::Counted;
use log_blocks::{LogFault, LogKind, find_blocks};
use log_page::{PAGE, seal_page};
use log_read::{all_batches, read_log};
use std::alloc::Global;
use std::process::Abort;
use test_batches::{b1, b2, b12, head};
use test_support::same_at;

/// The place after the last batch, the page after the last block, the page where that begins, and how many pages after
/// it aren't empty; or the fault and its page.
type Found = Result<(u64, u64, u64, u64), (LogKind, u64)>;

/// How many batches and blocks, and how many pages after them aren't empty; or the fault and its page.
type Read = Result<(usize, usize, u64), (LogKind, u64)>;

/// The bytes of a log of two pages.
const BYTES: usize = 3 * PAGE;

/// A head and two pages.
fn log_of(first: &[u8; PAGE], second: &[u8; PAGE]) -> [u8; BYTES] {
    let mut bytes = [0; BYTES];
    let (front, rest) = bytes.split_at_mut(PAGE);
    front.copy_from_slice(&head());
    let (middle, back) = rest.split_at_mut(PAGE);
    middle.copy_from_slice(first);
    back.copy_from_slice(second);
    bytes
}

/// What is found in the pages after the head.
fn found_in(bytes: &[u8; BYTES]) -> Found {
    match find_blocks(&bytes[PAGE..], 0) {
        Ok(scan) => Ok((scan.place(), scan.page(), scan.last(), scan.used())),
        Err(LogFault { kind, page }) => Err((kind, page)),
    }
}

/// What is read of these bytes, of which at most so many may come.
fn read_of(rt: &impl Abort, alloc: Global, bytes: &[u8], most: u64) -> Read
    requires { most < 2 ^ 50 }
{
    match read_log(alloc, &mut Counted::new(bytes), most) {
        Ok(file) => {
            let batches = all_batches(alloc, &file.blocks).expect(rt, "memory");
            Ok((batches.len(), file.blocks.len(), file.rest))
        }
        Err(LogFault { kind, page }) => Err((kind, page)),
    }
}

/// More bytes than the logs have.
const MOST: u64 = 1 << 40;

/// The page with another byte in the place of its last count.
fn with_count(page: [u8; PAGE], count: u8) -> [u8; PAGE] {
    let mut changed = page;
    changed[79] = count;
    changed
}

/// A whole page whose block says that it has no batch.
fn no_batches() -> [u8; PAGE] {
    let mut page = [0; PAGE];
    seal_page(&mut page, 1, 0, 1);
    page
}

// A byte that became 00 looks like a block in the making, which isn't read. One that became another is damage, and so is
// one of each of two blocks.
#[test]
fn blocks_are_found_and_read(rt: HostRuntime) {
    for (first, second, found, read) in [
        (b1(), b2(), Ok((2, 3, 2, 0)), Ok((2, 2, 0))),
        (b12(), [0; PAGE], Ok((2, 2, 1, 0)), Ok((2, 1, 0))),
        (b1(), with_count(b2(), 0), Ok((1, 2, 1, 1)), Ok((1, 1, 1))),
        (
            b1(),
            with_count(b2(), 2),
            Err((LogKind::Damaged, 2)),
            Err((LogKind::Damaged, 2)),
        ),
        (
            with_count(b1(), 0),
            with_count(b2(), 0),
            Err((LogKind::Damaged, 2)),
            Err((LogKind::Damaged, 2)),
        ),
        (
            b1(),
            no_batches(),
            Err((LogKind::BadBlock, 2)),
            Err((LogKind::BadBlock, 2)),
        ),
    ] {
        let bytes = log_of(&first, &second);
        assert!(rt; same_at(&rt, &"found", &found_in(&bytes), &found));
        assert!(rt; same_at(&rt, &"read", &read_of(&rt, rt.alloc(), &bytes, MOST), &read));
    }
}

// Too many bytes come before what is wrong with those that may come.
#[test]
fn other_files_are_refused(rt: HostRuntime) {
    let twice = log_of(&b1(), &b1());
    for (bytes, most, why) in [
        (&twice[..PAGE - 1], MOST, (LogKind::Truncated, 0)),
        (&twice[PAGE..], MOST, (LogKind::BadMark, 0)),
        (&twice[..], MOST, (LogKind::Damaged, 2)),
        (&twice[..], 12_287, (LogKind::TooLong, 2)),
    ] {
        let got = read_of(&rt, rt.alloc(), bytes, most);
        assert!(rt; same_at(&rt, &why, &got, &Err(why)));
    }
}
