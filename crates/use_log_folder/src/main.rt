//! Makes the calls of a log's folder and of its files where it runs, and tells what stands after each. It is for tests
//! alone: no clause can say what a real file holds.
#![tactic(auto)]

ghost use Rattle.std.specs.Prelude.{◌≡◌, ◌+◌, ◌<◌, ◌^◌, ℕ, slice_index, false};

mod stop;

use crate::stop::Stop;
use log_disk::LogDisk;
use log_folder::{FileDisk, FileLogFolder, LogFolder, give_name, make_with_head};
use snap_file::FileFault;
use std::alloc::Global;
use std::fs::{self, File};
use std::process::ExitCode;

const PATH: &str = "a.log";

const NEW: &str = "a.log.new";

fn main(rt: HostRuntime) -> ExitCode {
    match run(&rt, rt.alloc()) {
        Ok(()) => say(&rt, "done"),
        Err(stop) => say(&rt, stop.words()),
    }
    ExitCode::SUCCESS
}

/// Tells these words on a line of their own.
fn say(rt: &impl Print, words: &str) {
    let _ = println!(rt; "{words}");
}

/// Tells the length of a file, and its first byte, if it is there.
fn show(rt: &HostRuntime, name: &str) {
    match fs::read(rt, name) {
        Ok(bytes) => {
            let (length, first) = (bytes.len(), bytes.first().copied().unwrap_or(0));
            let _ = println!(rt; "  {name}: {length} bytes, the first {first}");
        }
        Err(_) => {
            let _ = println!(rt; "  {name}: none");
        }
    }
}

/// Tells what stands under both names.
fn show_both(rt: &HostRuntime, when: &str) {
    say(rt, when);
    show(rt, PATH);
    show(rt, NEW);
}

fn run(rt: &HostRuntime, alloc: Global) -> Result<(), Stop> {
    // An earlier run may have left it.
    let _ = fs::remove_file(rt, PATH);
    try_locks(rt, alloc)?;
    let mut folder = FileLogFolder::open(rt, alloc, PATH, None)?;
    folder.sync_names()?;
    say(
        rt,
        if folder.find()?.is_none() {
            "no log"
        } else {
            "a log"
        },
    );
    let mut first = make_with_head(&mut folder, &[65; 4096])?;
    show_both(rt, "made");
    give_name(&mut folder, &first)?;
    show_both(rt, "named");
    use_disk(rt, &mut first.disk)?;
    show_both(rt, "cut");
    let second = make_with_head(&mut folder, &[66; 4096])?;
    show_both(rt, "made anew");
    drop(second);
    folder.remove_new();
    show_both(rt, "removed");
    let third = make_with_head(&mut folder, &[67; 4096])?;
    give_name(&mut folder, &third)?;
    show_both(rt, "named anew");
    // As long as it is open its file is locked.
    drop(third);
    match folder.find()? {
        Some(found) => {
            let length = found.length;
            let _ = println!(rt; "found {length} bytes");
        }
        None => say(rt, "no log"),
    }
    Ok(())
}

/// Takes the lock of the log's path twice.
fn try_locks(rt: &HostRuntime, alloc: Global) -> Result<(), Stop> {
    let one = snap_file::lock(rt, alloc, PATH)?;
    say(rt, if one.is_some() { "locked" } else { "no lock" });
    match snap_file::lock(rt, alloc, PATH) {
        Err(FileFault::Busy) => say(rt, "busy"),
        _ => say(rt, "not busy"),
    }
    drop(one);
    Ok(())
}

/// A page of zeros.
fn blank_page() -> [u8; 4096]
    ensures { (j : ℕ) → slice_index result j ≡ 0 }
{
    [0; 4096]
}

/// Writes behind the end of a file, reads over the new end, writes zeros, and cuts all of it off again.
fn use_disk(rt: &HostRuntime, disk: &mut FileDisk<File>) -> Result<(), Stop>
    requires sound { disk.old.in_doubt ≡ false }
    requires failures { disk.old.failures + 1 < 2 ^ 64 }
{
    disk.write_at(8192, b"xyz")?;
    disk.sync()?;
    let mut bytes = [1; 8];
    disk.read_at(8190, &mut bytes)?;
    let _ = println!(rt; "read {bytes:?}");
    disk.fill(8192, &blank_page())?;
    disk.sync()?;
    disk.read_at(8190, &mut bytes)?;
    let _ = println!(rt; "read {bytes:?}");
    show(rt, PATH);
    disk.cut(4096)?;
    disk.sync()?;
    Ok(())
}
