//! Which process holds the lock of a path.

use std::alloc::Alloc;
use std::fs;
use std::os::unix::fs::MetadataExt;
use std::rt::Files;

/// Where Linux lists the locks of files.
const LOCKS: &str = "/proc/locks";

/// The kind of the locks that hhm takes, as it is listed.
const KIND: &str = "FLOCK";

/// A device's two numbers, of which the list has each apart (makedev(3)).
fn parts_of(device: u64) -> (u64, u64) {
    let major = (device >> 8 & 0xfff) | (device >> 32 & 0xffff_f000);
    let minor = (device & 0xff) | (device >> 12 & 0xffff_ff00);
    (major, minor)
}

// The process of a line, where that lists a lock of this file: `1: FLOCK ADVISORY WRITE PROCESS FILE 0 EOF`.
fn process_in(line: &str, file: &str) -> Option<u64> {
    let mut words = line.split_ascii_whitespace();
    let _number = words.next()?;
    if words.next()? != KIND {
        return None;
    }
    let _advisory = words.next()?;
    let _way = words.next()?;
    let process = words.next()?;
    if words.next()? != file {
        return None;
    }
    process.parse::<u64>().ok()
}

/// The process that holds the lock of a path, that of the file whose name has `.lock` behind it. None where that can't be
/// known, as on a system without such a list, or where the process is in another container.
pub fn holder_of<R: Files + Alloc>(rt: &R, path: &str) -> Option<u64> {
    let name = format!(in rt.alloc(); "{path}.lock").ok()?;
    let found = fs::metadata(rt, name.as_str()).ok()?;
    let (major, minor) = parts_of(found.dev());
    let inode = found.ino();
    let file = format!(in rt.alloc(); "{major:02x}:{minor:02x}:{inode}").ok()?;
    let list = fs::read_to_string(rt, LOCKS).ok()?;
    let process = list
        .lines()
        .find_map(|line| process_in(line, file.as_str()))?;
    // 0 is a process of another container.
    if process == 0 { None } else { Some(process) }
}
