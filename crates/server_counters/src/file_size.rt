//! How large the system lets files be (`ulimit -f`).

use libc::types::rlimit;

/// What Linux's getrlimit is asked: how many bytes a file that the process writes may have.
const RLIMIT_FSIZE: i32 = 1;

/// How many bytes a file that the process writes may have; 2^64 - 1 where that isn't limited.
pub fn most_file_bytes() -> u64 {
    let mut limit = rlimit {
        rlim_cur: u64::MAX,
        rlim_max: u64::MAX,
    };
    if libc::getrlimit(RLIMIT_FSIZE, &mut limit) != 0 {
        return u64::MAX;
    }
    limit.rlim_cur
}
