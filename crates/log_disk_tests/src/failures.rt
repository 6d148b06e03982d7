//! A log of whose disk each call fails in turn: what it answers, and what a loss of power leaves of it then.

use crate::appends::{begun, put};
use log_blocks::find_blocks;
use log_desk::{Log, RoomFault};
use log_disk::Picks;
use log_folder::MemoryLogFolder;
use log_page::PAGE;
use std::alloc::Global;
use std::process::Abort;
use std::random::RandomSource;
use test_batches::{one_cell, small_setup};
use test_support::same_at;

/// What a log answers to a first call for room, whether it takes each of two batches, and whether it has failed then.
type Answers = (Result<(), RoomFault>, [bool; 2], bool);

const FULL: Answers = (Err(RoomFault::Full), [true, true], false);

const NONE: Answers = (Ok(()), [false, false], true);

const FIRST: Answers = (Ok(()), [true, false], true);

/// Which call of the disk fails, and the answers then. The calls are, from 2, after those for the head: zeros are
/// written and synced, a block is, and both again. Where the zeros aren't written the disk is full.
const ROWS: [(u64, Answers); 9] = [
    (2, FULL),
    (3, (Err(RoomFault::Failed), [false, false], true)),
    (4, NONE),
    (5, NONE),
    (6, (Ok(()), [true, false], false)),
    (7, FIRST),
    (8, FIRST),
    (9, FIRST),
    (10, (Ok(()), [true, true], false)),
];

/// How many batches are read of the bytes of a file.
fn batches_in(bytes: &[u8]) -> Option<u64> {
    if bytes.len() < PAGE || bytes.len() > 1 << 30 {
        return None;
    }
    match find_blocks(&bytes[PAGE..], 0) {
        Ok(scan) => Some(scan.place()),
        Err(_) => None,
    }
}

/// The answers of a log of whose disk this call fails, and how many batches are read after a loss of power.
fn failing<R: Abort + RandomSource>(
    rt: &R,
    alloc: Global,
    call: u64,
    seed: u64,
) -> (Answers, Option<u64>) {
    let setup = small_setup().expect(rt, "a setup");
    let mut folder = MemoryLogFolder::new(alloc, None, seed, None, Some(call));
    let mut log = begun(rt, alloc, &mut folder);
    assert!(rt; !log.is_failed());
    let room = log.make_room(1);
    let first = put(
        &mut log,
        one_cell(alloc, &setup, 7, 5).expect(rt, "a batch"),
    );
    let second = put(
        &mut log,
        one_cell(alloc, &setup, 8, 3).expect(rt, "a batch"),
    );
    let disk = log.disk().expect(rt, "a disk");
    let left = disk
        .crash(alloc, &mut Picks::new(seed), None)
        .expect(rt, "memory");
    let read = batches_in(left.bytes());
    drop(left);
    let is_failed = log.is_failed();
    drop(log);
    ((room, [first, second], is_failed), read)
}

// A batch that wasn't taken may be there, where its write or sync has failed.
#[test]
fn each_call_of_a_disk_fails_in_turn(rt: HostRuntime) {
    for (call, answers) in ROWS {
        for seed in 0..16u64 {
            let (got, read) = failing(&rt, rt.alloc(), call, seed);
            assert!(rt; same_at(&rt, &call, &got, &answers));
            let least = got.1.iter().filter(|taken| **taken).count() as u64;
            let is_kept = read == Some(least) || (got.2 && read == least.checked_add(1));
            assert!(rt; same_at(&rt, &(call, seed, read), &is_kept, &true));
        }
    }
}
