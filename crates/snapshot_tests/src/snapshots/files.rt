//! Real files, in a folder of their own below the system's one for temporary files.

use crate::snapshots::bytes::{BOTH, MAX_BYTES, ONE, WRITTEN_BOTH, WRITTEN_ONE, read};
use snap_file::{FileFault, SaveFault, SnapFault, Snapshot, load, lock, save, try_save};
use std::fs::Permissions;
use std::os::unix::fs::{MetadataExt, PermissionsExt, symlink};
use std::process::Abort;
use std::{fs, io};
use test_support::same;

fn saved(rt: &HostRuntime, path: &str, snapshot: &Snapshot) -> Result<(), SaveFault> {
    // Any use of it gives the facts that it keeps.
    let list = &snapshot.list;
    save(rt, rt.alloc(), path, snapshot.origin, &snapshot.setup, list)
}

// How many batches a file has, folded ones too.
fn loaded_batches(rt: &HostRuntime, path: &str) -> Result<usize, FileFault> {
    match load(rt, rt.alloc(), path, MAX_BYTES) {
        Ok(snapshot) => {
            let list = &snapshot.list;
            let batches = list.folded.len().saturating_add(list.batches.len());
            drop(snapshot);
            Ok(batches)
        }
        Err(fault) => Err(fault),
    }
}

// Whether a file has these bytes.
fn holds(rt: &HostRuntime, path: &str, bytes: &[u8]) -> bool {
    match fs::read(rt, path) {
        Ok(held) => {
            let is_same = held.as_slice() == bytes;
            drop(held);
            is_same
        }
        Err(_) => false,
    }
}

// Whether a file has these bytes and is loaded, and nothing is left of the file that was written first.
fn is_whole(rt: &HostRuntime, path: &str, bytes: &[u8], batches: usize) -> bool {
    let unfinished = loaded_batches(rt, "/tmp/hhm_snap_file_saved.new");
    holds(rt, path, bytes)
        && loaded_batches(rt, path) == Ok(batches)
        && unfinished == Err(FileFault::NotFound)
}

#[test]
fn what_is_saved_is_loaded(rt: HostRuntime) {
    let path = "/tmp/hhm_snap_file_saved";
    for (bytes, written, batches) in [(BOTH, WRITTEN_BOTH, 2), (ONE, WRITTEN_ONE, 1)] {
        let snapshot = read(&rt, rt.alloc(), bytes, bytes.len());
        let answer = saved(&rt, path, &snapshot);
        drop(snapshot);
        assert!(rt; same(&rt, &answer, &Ok(())));
        assert!(rt; is_whole(&rt, path, written, batches));
    }
    fs::remove_file(&rt, path).expect(&rt, "removed");
}

#[test]
fn a_save_without_its_folder_fails(rt: HostRuntime) {
    let snapshot = read(&rt, rt.alloc(), ONE, ONE.len());
    let absent = "/tmp/hhm_snap_file_no_folder/file";
    let answer = saved(&rt, absent, &snapshot);
    drop(snapshot);
    assert!(rt; same(&rt, &answer, &Err(SaveFault::Create)));
}

// Saves under a name of a folder, which can't be made a file, and returns whether a file is left beside it.
fn saved_as_folder(
    rt: &HostRuntime,
    snapshot: &Snapshot,
) -> io::Result<(Result<(), SaveFault>, bool)> {
    fs::create_dir_all(rt, "/tmp/hhm_snap_file_folder/inner")?;
    let answer = saved(rt, "/tmp/hhm_snap_file_folder", snapshot);
    Ok((answer, fs::exists(rt, "/tmp/hhm_snap_file_folder.new")?))
}

#[test]
fn a_folder_is_not_replaced(rt: HostRuntime) {
    let snapshot = read(&rt, rt.alloc(), ONE, ONE.len());
    let answer = saved_as_folder(&rt, &snapshot).expect(&rt, "saved");
    drop(snapshot);
    assert!(rt; same(&rt, &answer, &(Err(SaveFault::Rename), false)));
}

// Saves while a folder has the other name.
fn saved_beside_folder(
    rt: &HostRuntime,
    path: &str,
    snapshot: &Snapshot,
) -> io::Result<Result<(), SaveFault>> {
    fs::create_dir_all(rt, "/tmp/hhm_snap_file_kept.new")?;
    let answer = saved(rt, path, snapshot);
    fs::remove_dir(rt, "/tmp/hhm_snap_file_kept.new")?;
    Ok(answer)
}

#[test]
fn a_save_that_fails_leaves_the_file(rt: HostRuntime) {
    let snapshot = read(&rt, rt.alloc(), ONE, ONE.len());
    let path = "/tmp/hhm_snap_file_kept";
    fs::write(&rt, path, b"as it was".as_slice()).expect(&rt, "written");
    let answer = saved_beside_folder(&rt, path, &snapshot).expect(&rt, "saved");
    drop(snapshot);
    assert!(rt; same(&rt, &answer, &Err(SaveFault::Create)));
    assert!(rt; holds(&rt, path, b"as it was"));
    fs::remove_file(&rt, path).expect(&rt, "removed");
}

// Saves while a link to the other file has the name of the new one.
fn saved_beside_link(
    rt: &HostRuntime,
    path: &str,
    other: &str,
    snapshot: &Snapshot,
) -> io::Result<Result<(), SaveFault>> {
    fs::write(rt, other, b"as it was".as_slice())?;
    symlink(rt, other, "/tmp/hhm_snap_file_linked.new")?;
    Ok(saved(rt, path, snapshot))
}

// Whether the saved file holds the snapshot, the other is as it was, and the first is no link. Both are removed.
fn left_beside_link(rt: &HostRuntime, path: &str, other: &str) -> io::Result<[bool; 3]> {
    let holds_one = holds(rt, path, WRITTEN_ONE);
    let is_as_before = holds(rt, other, b"as it was");
    let is_file = fs::symlink_metadata(rt, path)?.is_file();
    fs::remove_file(rt, path)?;
    fs::remove_file(rt, other)?;
    Ok([holds_one, is_as_before, is_file])
}

#[test]
fn a_link_beside_is_not_followed(rt: HostRuntime) {
    let snapshot = read(&rt, rt.alloc(), ONE, ONE.len());
    let (path, other) = ("/tmp/hhm_snap_file_linked", "/tmp/hhm_snap_file_other");
    let answer = saved_beside_link(&rt, path, other, &snapshot).expect(&rt, "saved");
    drop(snapshot);
    let left = left_beside_link(&rt, path, other).expect(&rt, "saved");
    assert!(rt; same(&rt, &(answer, left), &(Ok(()), [true; 3])));
}

// The mode of what is saved over a file of this mode.
fn mode_after(rt: &HostRuntime, snapshot: &Snapshot, mode: u32) -> io::Result<u32> {
    let path = "/tmp/hhm_snap_file_mode";
    fs::write(rt, path, b"as it was".as_slice())?;
    fs::set_permissions(rt, path, Permissions::from_mode(mode))?;
    let answer = saved(rt, path, snapshot);
    let after = fs::metadata(rt, path)?.mode() & 0o7777;
    fs::remove_file(rt, path)?;
    Ok(if answer.is_ok() { after } else { 0 })
}

#[test]
fn a_mode_is_kept(rt: HostRuntime) {
    let snapshot = read(&rt, rt.alloc(), ONE, ONE.len());
    for mode in [0o600, 0o640, 0o444, 0o666, 0o700] {
        let found = mode_after(&rt, &snapshot, mode).expect(&rt, "saved");
        assert!(rt; same(&rt, &found, &mode));
    }
    drop(snapshot);
}

// What is no snapshot, and why. Devices aren't opened.
static NONE: &[(&str, FileFault)] = &[
    ("/tmp/hhm_snap_file_nothing", FileFault::NotFound),
    ("/tmp", FileFault::Snap(SnapFault::Read)),
    ("/dev/null", FileFault::OpenFailed),
    ("/dev/zero", FileFault::OpenFailed),
];

#[test]
fn what_is_no_snapshot_is_told(rt: HostRuntime) {
    for (path, fault) in NONE {
        assert!(rt; same(&rt, &loaded_batches(&rt, *path), &Err(*fault)));
    }
}

// How a call for the lock of a path ended: whether it was got, or why not.
fn lock_told(rt: &HostRuntime, path: &str) -> Result<bool, FileFault> {
    match lock(rt, rt.alloc(), path) {
        Ok(held) => {
            let is_held = held.is_some();
            drop(held);
            Ok(is_held)
        }
        Err(fault) => Err(fault),
    }
}

// The same while the lock is held, and once it was given back.
fn told_twice(rt: &HostRuntime, path: &str) -> Result<[Result<bool, FileFault>; 2], FileFault> {
    let held = lock(rt, rt.alloc(), path)?;
    let beside = lock_told(rt, path);
    drop(held);
    Ok([beside, lock_told(rt, path)])
}

#[test]
fn one_holds_the_lock_of_a_path(rt: HostRuntime) {
    let path = "/tmp/hhm_snap_file_locked";
    let told = told_twice(&rt, path);
    assert!(rt; same(&rt, &told, &Ok([Err(FileFault::Busy), Ok(true)])));
    assert!(rt; holds(&rt, "/tmp/hhm_snap_file_locked.lock", b""));
    fs::remove_file(&rt, "/tmp/hhm_snap_file_locked.lock").expect(&rt, "removed");
}

// Paths whose lock can't be had: in no folder, of a folder, and of a device.
static UNLOCKED: &[&str] = &["/tmp/hhm_snap_file_no_folder/file", "/tmp", "/dev/null"];

#[test]
fn a_lock_that_cannot_be_had_is_none(rt: HostRuntime) {
    for path in UNLOCKED {
        assert!(rt; same(&rt, &lock_told(&rt, *path), &Ok(false)));
    }
}

#[test]
fn a_save_is_tried_where_it_can_be_made(rt: HostRuntime) {
    let path = "/tmp/hhm_snap_file_tried";
    assert!(rt; same(&rt, &try_save(&rt, rt.alloc(), path), &Ok(())));
    assert!(rt; same(&rt, &loaded_batches(&rt, path), &Err(FileFault::NotFound)));
    let unfinished = loaded_batches(&rt, "/tmp/hhm_snap_file_tried.new");
    assert!(rt; same(&rt, &unfinished, &Err(FileFault::NotFound)));
    let absent = "/tmp/hhm_snap_file_no_folder/file";
    let answer = try_save(&rt, rt.alloc(), absent);
    assert!(rt; same(&rt, &answer, &Err(SaveFault::Create)));
}
