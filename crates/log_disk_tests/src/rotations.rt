//! A new log that takes the name of the one in use.

use crate::appends::{begun, put};
use log_desk::Log;
use log_folder::{MemoryLogFolder, RotateFault};
use std::alloc::Global;
use std::process::Abort;
use std::random::RandomSource;
use stored_log::{abandon_stored, name_stored};
use test_batches::{one_cell, small_setup};
use test_support::same_at;

/// What the naming of a new log answers, and whether the log in use is failed then.
type Answer = (Result<(), RotateFault>, bool);

/// Makes a log, and a new one with a block beside it, which takes the name. Answers that, and the number of the file
/// that has the name. The calls of the folder are, from 0: the two files are made, the second takes the name, and the
/// names are synced.
fn rotate<R: Abort + RandomSource>(
    rt: &R,
    alloc: Global,
    fail_at: Option<u64>,
) -> (Answer, Option<u64>) {
    let mut folder = MemoryLogFolder::new(alloc, None, 1, fail_at, None);
    let mut in_use = begun(rt, alloc, &mut folder);
    let mut new = begun(rt, alloc, &mut folder);
    let batch = one_cell(alloc, &small_setup().expect(rt, "a setup"), 7, 5).expect(rt, "a batch");
    assert!(rt; put(&mut new, batch));
    assert!(rt; !new.is_failed());
    let answer = name_stored(&mut folder, &mut in_use, new);
    ((answer, in_use.is_failed()), folder.named())
}

const FAILED: Answer = (Err(RotateFault::Rename), true);

// Where the rename or the sync has failed, either file may have the name.
#[test]
fn a_new_log_takes_the_name_or_fails_the_one_in_use(rt: HostRuntime) {
    for (fail_at, answer) in [
        (None, (Ok(()), false)),
        (Some(2u64), FAILED),
        (Some(3), FAILED),
    ] {
        let (got, named) = rotate(&rt, rt.alloc(), fail_at);
        assert!(rt; same_at(&rt, &fail_at, &got, &answer));
        assert!(rt; got.1 || named == Some(2));
    }
}

#[test]
fn a_new_log_may_be_given_up(rt: HostRuntime) {
    let alloc = rt.alloc();
    let mut folder = MemoryLogFolder::new(alloc, None, 1, None, None);
    let mut in_use = begun(&rt, alloc, &mut folder);
    let new = begun(&rt, alloc, &mut folder);
    abandon_stored(&mut folder, new);
    let batch = one_cell(alloc, &small_setup().expect(&rt, "a setup"), 7, 5).expect(&rt, "a batch");
    assert!(rt; put(&mut in_use, batch));
    assert!(rt; folder.named() == None);
    drop(in_use);
}
