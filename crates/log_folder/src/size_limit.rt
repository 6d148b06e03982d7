//! The system's limit of the size of files (`ulimit -f`).
ghost use Rattle.std.specs.Prelude.{◌≡◌, length, take, IfOk};

use libc::types::rlimit;
use std::io;

/// What Linux's getrlimit is asked: how many bytes a file that the process writes may have.
const RLIMIT_FSIZE: i32 = 1;

/// How many bytes a file may have.
fn most_bytes() -> u64 {
    let mut limit = rlimit {
        rlim_cur: u64::MAX,
        rlim_max: u64::MAX,
    };
    if libc::getrlimit(RLIMIT_FSIZE, &mut limit) != 0 {
        return u64::MAX;
    }
    limit.rlim_cur
}

/// A write that the limit doesn't allow.
pub(crate) fn too_large() -> io::Error {
    io::Error::from_raw_os_error(libc::EFBIG)
}

/// The first of these bytes, as many as the limit allows at this place of a file. By default a write beyond the limit
/// ends the process, by the signal SIGXFSZ: whoever writes looks here first.
///
/// # Errors
///
/// That of the system where the limit allows none of them.
pub fn within_limit(at: u64, bytes: &[u8]) -> io::Result<&[u8]>
    ensures front { IfOk result (λ within. within.now ≡ take (length within.now) bytes.now) }
{
    let allowed = most_bytes().saturating_sub(at);
    if allowed >= bytes.len() as u64 {
        return Ok(bytes);
    }
    if allowed == 0 {
        return Err(too_large());
    }
    Ok(bytes.get(..allowed as usize).unwrap_or(bytes))
}
