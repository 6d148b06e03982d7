//! Snapshots in memory, as files that keep them.
ghost use Rattle.std.specs.Prelude.{◌≡◌, ◌≢◌, ⊤, IfSome};
ghost use Rattle.snap_file.specs.declared.fault.FileFault.{FileFault};
ghost use Rattle.snap_file.specs.declared.fault.SnapFault.{SnapFault};
ghost use Rattle.snap_report.specs.Logged.{IsReadFault};
ghost use Rattle.snap_report.specs.declared.fault.CheckFault.{CheckFault};

use byte_io::Script;
use snap_export::SnapshotFiles;
use snap_file::{FileFault, Snapshot, read_snapshot};
use snap_report::CheckFault;
use std::alloc::Global;
use test_support::pieces;

/// No cut, 1 shard, limit 2^64 - 1, at most 1 batch; 1 batch, total 2^64 - 1. Then client 1, number 1, 1 cell: row 1,
/// column 2, count 2^64 - 1.
pub static MOST: &[u8] = b"HHMSNAP\n\0\0\0\x01\
\0\0\0\0\0\0\0\x03\0\0\0\0\0\0\0\x03\
\0\x01\xff\xff\xff\xff\xff\xff\xff\xff\0\0\0\0\0\0\0\x01\
\0\0\0\0\0\0\0\x01\xff\xff\xff\xff\xff\xff\xff\xff\
\0\0\0\0\0\0\0\x01\0\0\0\0\0\0\0\x01\0\0\0\0\0\0\0\x01\
\0\0\0\0\0\0\0\x01\0\0\0\0\0\0\0\x02\xff\xff\xff\xff\xff\xff\xff\xff";

/// 3 rows, 3 columns, no cut, 1 shard, limit 1, at most 1 batch; no batch, total 0.
pub static NONE: &[u8] = b"HHMSNAP\n\0\0\0\x01\
\0\0\0\0\0\0\0\x03\0\0\0\0\0\0\0\x03\
\0\x01\0\0\0\0\0\0\0\x01\0\0\0\0\0\0\0\x01\
\0\0\0\0\0\0\0\0\0\0\0\0\0\0\0\0";

/// The same with 4 columns, so that sizes differ.
pub static WIDE: &[u8] = b"HHMSNAP\n\0\0\0\x01\
\0\0\0\0\0\0\0\x03\0\0\0\0\0\0\0\x04\
\0\x01\0\0\0\0\0\0\0\x01\0\0\0\0\0\0\0\x01\
\0\0\0\0\0\0\0\0\0\0\0\0\0\0\0\0";

/// No snapshot: its mark is another.
pub static MARK: &[u8] = b"HHMSNAQ\n\0\0\0\x01";

/// Why a file isn't loaded.
#[derive(Clone, Copy)]
pub enum Refusal {
    Busy,
    Memory,
}

/// Files of these bytes, one of which may not be loaded.
#[derive(Drop)]
pub struct Given<'a> {
    files: &'a [&'a [u8]],
    pub loaded: u64,
    refused: Option<(u64, Refusal)>,
}

impl<'a> Given<'a> {
    pub fn new(files: &'a [&'a [u8]], refused: Option<(u64, Refusal)>) -> Given<'a> {
        Given {
            files,
            loaded: 0,
            refused,
        }
    }
}

/// The bytes as a source gives them, in pieces of seven.
fn script(alloc: Global, bytes: &[u8]) -> Option<Script>
    ensures { IfSome result (λ script. script.failures ≡ 0) }
{
    match pieces(alloc, bytes, 7) {
        Ok(list) => Some(Script::new(alloc, list, None, None)),
        Err(_) => None,
    }
}

/// A fault of a file as it is told.
fn told(fault: FileFault) -> CheckFault
    requires { fault ≢ FileFault.Snap SnapFault.Memory }
    ensures { result ≢ CheckFault.Memory → IsReadFault result }
{
    CheckFault::from(fault)
}

impl<'a> SnapshotFiles for Given<'a> {
    ghost load_gives = { λ s max_bytes answer t. ⊤ };

    fn load_next(&mut self, alloc: Global, max_bytes: u64) -> Result<Snapshot, CheckFault> {
        let file = self.loaded;
        self.loaded = file.wrapping_add(1);
        if let Some((at, refusal)) = self.refused {
            if at == file {
                return match refusal {
                    Refusal::Busy => Err(CheckFault::File(FileFault::Busy)),
                    Refusal::Memory => Err(CheckFault::Memory),
                };
            }
        }
        let Some(bytes) = self.files.get(file as usize) else {
            return Err(CheckFault::File(FileFault::NotFound));
        };
        let Some(mut source) = script(alloc, *bytes) else {
            return Err(CheckFault::Memory);
        };
        match read_snapshot(alloc, &mut source, max_bytes) {
            Ok(snapshot) => Ok(snapshot),
            Err(fault) => Err(told(FileFault::from(fault))),
        }
    }
}
