//! Standard streams that are closed.

use std::fs::{File, OpenOptions};
use std::os::fd::AsRawFd;

/// The numbers of standard input and of standard error, the last of the standard streams.
const INPUT: i32 = 0;

const ERROR: i32 = 2;

/// The null device, opened for writing or for reading, if it has got no higher number than this.
fn null_device(rt: &HostRuntime, writes: bool, last: i32) -> Option<File> {
    let file = OpenOptions::new()
        .read(!writes)
        .write(writes)
        .open(rt, "/dev/null")
        .ok()?;
    if file.as_raw_fd() > last {
        return None;
    }
    Some(file)
}

/// What stands in for standard streams that were closed before the program began. A file that is opened gets the lowest
/// free number: without this a log might get that of standard output, and a line would be written over its head. A read
/// or write of a stream that was closed fails as before.
#[derive(Drop)]
pub struct ClosedStreams {
    _input: Option<File>,
    _outputs: [Option<File>; 2],
}

impl ClosedStreams {
    /// Takes the numbers of the closed ones, for as long as this lives. Call it before any file is opened.
    pub fn take(rt: &HostRuntime) -> ClosedStreams {
        ClosedStreams {
            _input: null_device(rt, true, INPUT),
            _outputs: [null_device(rt, false, ERROR), null_device(rt, false, ERROR)],
        }
    }
}
