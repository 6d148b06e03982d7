//! Bytes as a device gives them.
ghost use Rattle.std.specs.Prelude.{◌≡◌};

use byte_io::Script;
use std::alloc::Global;
use std::process::Abort;
use test_support::pieces;

/// A script that gives these bytes in pieces of `size`, and whose reads fail from `fail_read` on.
pub fn source(
    rt: &impl Abort,
    alloc: Global,
    bytes: &[u8],
    size: usize,
    fail_read: Option<u64>,
) -> Script
    ensures { result.failures ≡ 0 }
{
    let list = pieces(alloc, bytes, size).expect(rt, "memory");
    Script::new(alloc, list, fail_read, None)
}
