//! Words for what the system refuses, from a fixed list.

/// What Linux answers where a quota of the disk is used up.
const EDQUOT: i32 = 122;

/// The word for an error of the system, by its number.
pub fn word_of_error(error: i32) -> &'static str {
    match error {
        libc::ENOSPC => "no-space",
        EDQUOT => "quota",
        libc::EFBIG => "file-size",
        libc::EACCES | libc::EPERM => "permission",
        libc::EROFS => "read-only",
        libc::ENOENT | libc::ENOTDIR => "no-folder",
        libc::EIO => "device",
        _ => "other",
    }
}
