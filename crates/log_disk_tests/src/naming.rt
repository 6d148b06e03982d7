//! A new log that takes the name of an old one.

use log_disk::MemoryDisk;
use log_folder::{MemoryLogFolder, NumberedFile, RotateFault, begin_named};
use std::alloc::Global;
use std::io::Eprint;
use std::process::Abort;
use test_support::{holds_at, same_at};

const OLD: [u8; 4096] = [65; 4096];

const NEW: [u8; 4096] = [66; 4096];

/// What fails, of the folder's calls or of those of the new file, and the fault then.
struct Row {
    folder: Option<u64>,
    disk: Option<u64>,
    fault: Option<RotateFault>,
}

/// The calls are: the new file is made, written and synced, it takes the name, and the names are synced.
const ROWS: [Row; 8] = [
    Row {
        folder: Some(0),
        disk: None,
        fault: Some(RotateFault::Create),
    },
    Row {
        folder: None,
        disk: Some(0),
        fault: Some(RotateFault::Write),
    },
    Row {
        folder: None,
        disk: Some(1),
        fault: Some(RotateFault::Sync),
    },
    Row {
        folder: Some(1),
        disk: None,
        fault: Some(RotateFault::Rename),
    },
    Row {
        folder: Some(2),
        disk: None,
        fault: Some(RotateFault::Rename),
    },
    Row {
        folder: Some(3),
        disk: None,
        fault: None,
    },
    Row {
        folder: None,
        disk: Some(2),
        fault: None,
    },
    Row {
        folder: None,
        disk: None,
        fault: None,
    },
];

/// Whether what stands under the name after all calls fits the answer. The old file has the number 0, the new one 1; a
/// loss of power may leave so many others there.
fn fits(
    answer: &Result<NumberedFile<MemoryDisk>, RotateFault>,
    named: Option<u64>,
    others: usize,
) -> bool {
    match answer {
        Ok(file) => {
            named == Some(1)
                && others == 0
                && file.number == 1
                && file.disk.durable_bytes() == NEW.as_slice()
        }
        Err(RotateFault::Rename) => {
            (named == Some(0) && others == 0) || (named == Some(1) && others == 1)
        }
        Err(_) => named == Some(0) && others == 0,
    }
}

/// Whether the answer and what stands are those of the row, for this seed; and whether the new file stands there.
fn run(rt: &(impl Abort + Eprint), alloc: Global, row: &Row, seed: u64) -> (bool, bool) {
    let old = MemoryDisk::new(alloc, &OLD, seed, None).expect(rt, "memory");
    let mut folder = MemoryLogFolder::new(alloc, Some(old), seed, row.folder, row.disk);
    let answer = begin_named(&mut folder, &NEW);
    let fits = fits(&answer, folder.named(), folder.older().len());
    let place = (row.folder, row.disk, seed);
    let holds = holds_at(rt, &place, fits) && same_at(rt, &place, &answer.err(), &row.fault);
    (holds, folder.named() == Some(1))
}

#[test]
fn each_call_fails_in_turn(rt: HostRuntime) {
    for row in &ROWS {
        for seed in 0..16u64 {
            let (holds, _) = run(&rt, rt.alloc(), row, seed);
            assert!(rt; holds);
        }
    }
}

#[test]
fn a_rename_that_fails_may_be_done(rt: HostRuntime) {
    let mut done = 0u64;
    for seed in 0..64u64 {
        let (_, is_new) = run(&rt, rt.alloc(), &ROWS[3], seed);
        if is_new && done < 64 {
            done += 1;
        }
    }
    assert!(rt; done > 0 && done < 64);
}
