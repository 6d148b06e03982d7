//! Reads snapshots.
ghost use Rattle.std.specs.Prelude.{◌≡◌, ◌+◌, ◌<◌, ◌^◌, [], IfOk, IfErr};
ghost use Rattle.std.specs.Arc.{arc_value};
ghost use Rattle.crc32c.specs.Remainders.{all_ones};
ghost use Rattle.batch_store.specs.Books.{accepted_in};
ghost use Rattle.snap_file.specs.declared.fault.SnapFault.{SnapFault};
ghost use Rattle.snap_file.specs.Outcomes.{snapshot_task, ReadsSnapshot, Stops};

use crate::batch::read_batches;
use crate::fault::SnapFault;
use crate::past::{Front, Past, read_front};
use crate::reader::ByteReader;
use crate::snapshot::Snapshot;
use batch_store::{BookList, Pieces};
use byte_io::Source;
use hyper_matrix::Hyper;
use std::alloc::{AllocError, Global};
use std::sync::Arc;

impl From<AllocError> for SnapFault {
    ghost use Rattle.std.specs.Prelude.{◌≡◌};
    ghost use Rattle.snap_file.specs.declared.fault.SnapFault.TheVariants.{Memory};

    ghost from_gives = { λ _ e. e ≡ Memory };

    fn from(_: AllocError) -> SnapFault {
        SnapFault::Memory
    }
}

// Makes a matrix ready to be shared, as one piece.
fn share(alloc: Global, m: &Hyper) -> Result<Arc<Pieces>, SnapFault>
    ensures ok { IfOk result (λ shared. (arc_value shared).whole ≡ m.now) }
    ensures err { IfErr result (λ f. f ≡ SnapFault.Memory) }
{
    match Pieces::one(alloc, m) {
        Ok(shared) => Ok(shared),
        Err(_) => Err(SnapFault::Memory),
    }
}

// Reads a snapshot from `r` to its end, by a reader that has read nothing.
fn read_whole<R: Source>(
    alloc: Global,
    reader: &mut ByteReader,
    r: &mut R,
) -> Result<Snapshot, SnapFault>
    requires failures { R.failure_count r.old + 1 < 2 ^ 64 }
    requires pending { reader.old.pending ≡ [] }
    requires taken { reader.old.taken ≡ 0 }
    requires remainder { reader.old.remainder ≡ all_ones }
    ensures ok { IfOk result (λ snapshot.
        ReadsSnapshot R.read_gives R.failure_count
        (R.at_end r.new) reader.old.max_bytes r.old r.new snapshot.origin snapshot.setup
        (accepted_in snapshot.list)) }
    ensures err { IfErr result (λ fault.
        Stops R.read_gives R.failure_count (R.at_end r.new) (snapshot_task reader.old.max_bytes) r.old r.new fault) }
{
    let head = read_front(alloc, reader, r)?;
    let batches = read_batches(alloc, reader, r, &head)?;
    let Front { head, origin, past } = head;
    let Past { base, folded, .. } = past;
    let base = share(alloc, &base)?;
    reader.expect_end(r)?;
    let list = BookList {
        base,
        folded,
        batches,
    };
    Ok(Snapshot {
        origin,
        setup: head.setup,
        list,
    })
}

/// Reads a snapshot of any version from `r` to its end, of at most `max_bytes` bytes, in at most `max_bytes + 2`
/// reads.
///
/// Takes time in proportion to the bytes, and for each batch in the logarithm of their number. The memory is that of
/// the list, 64 KiB that are read at once, and a place in a tree for each pair of client and number. By a number that
/// the file declares room for at most 4,096 cells is made. `r` must have failed less than 2^64 - 1
/// times before.
///
/// # Errors
///
/// The first fault of the bytes in the order of the format, each as soon as its bytes are there: `BadMark`,
/// `BadVersion`, `BadHead`, `BadBatch`, `OutOfOrder`, `RepeatedNumber`, `TotalDiffers`, `BadCheck` where a checksum
/// isn't that of all bytes before it, `ExtraBytes`, `Truncated` where the source ended, and `TooLong` at byte
/// `max_bytes + 1`. `Read` where a read failed, and `Memory` where a growth was refused: before any read, or behind the
/// head, where what was judged bears no fault (the total may not have been judged) and each byte that was asked for was
/// needed. What was read has been read, and nothing of it is kept.
pub fn read_snapshot<R: Source>(
    alloc: Global,
    r: &mut R,
    max_bytes: u64,
) -> Result<Snapshot, SnapFault>
    requires { R.failure_count r.old + 1 < 2 ^ 64 }
    // The source ended, and what it gave is a file of exactly this origin, setup and list.
    ensures ok { IfOk result (λ snapshot.
        ReadsSnapshot R.read_gives R.failure_count
        (R.at_end r.new) max_bytes r.old r.new snapshot.origin snapshot.setup (accepted_in snapshot.list)) }
    // What it gave has this first fault; or a read failed; or memory was refused, and up to there no fault shows.
    ensures err { IfErr result (λ fault.
        Stops R.read_gives R.failure_count (R.at_end r.new) (snapshot_task max_bytes) r.old r.new fault) }
{
    let mut reader = ByteReader::new(alloc, max_bytes)?;
    read_whole(alloc, &mut reader, r)
}
