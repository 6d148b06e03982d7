//! Reads the batches of a block from a source of its bytes, by the parts that read those of a snapshot.
ghost use Rattle.std.specs.Prelude.{◌≡◌, ℕ, ◌+◌, ◌<◌, ◌^◌, List, [], ◌∷◌, ◌++◌, IfOk, OnOk, IfErr};
ghost use Rattle.batch_store.specs.Batches.{Submission, values};
ghost use Rattle.snap_file.specs.Table.{Reading};
ghost use Rattle.snap_file.specs.Outcomes.{Task, HasJudged, IsBehindHead, Stops};
ghost use Rattle.log_batches.specs.Tables.{one_batch, counted_batches};

use batch_store::Batch;
use byte_io::Source;
use snap_file::{ByteReader, CellTally, Head, SnapFault, push_batch, read_entries};
use std::alloc::Global;
use std::sync::Arc;

/// Reads one more batch, whose counts may come to the head's total.
fn read_one<R: Source>(
    alloc: Global,
    reader: &mut ByteReader,
    r: &mut R,
    head: &Head,
    tally: &mut CellTally,
    batches: &mut Vec<Arc<Batch>>,
) -> Result<(), SnapFault>
    requires failures { R.failure_count r.old + 1 < 2 ^ 64 }
    ensures ok { OnOk result ((s : R) (task : Task) (k : List Submission → Reading) →
        HasJudged R.read_gives R.failure_count task s r.old reader.old
        (one_batch head.now (values batches.old.items) k) →
        HasJudged R.read_gives R.failure_count task s r.new reader.new (k (values batches.new.items))) }
    ensures err { IfErr result (λ f. (s : R) (task : Task) (k : List Submission → Reading) →
        ((list : List Submission) → IsBehindHead (k list)) →
        HasJudged R.read_gives R.failure_count task s r.old reader.old
        (one_batch head.now (values batches.old.items) k) →
        Stops R.read_gives R.failure_count (R.at_end r.new) task s r.new f) }
    ensures no_failure { OnOk result (R.failure_count r.new ≡ R.failure_count r.old) }
{
    let (client, number) = reader.next_pair(r)?;
    let count = reader.next_u64(r)?;
    tally.counted = 0;
    let matrix = read_entries(alloc, reader, r, head, head.total, tally, count)?;
    push_batch(alloc, batches, client, number, matrix)?;
    Ok(())
}

/// Reads the number of the batches, and so many.
pub(crate) fn read_list<R: Source>(
    alloc: Global,
    reader: &mut ByteReader,
    r: &mut R,
    head: &Head,
    tally: &mut CellTally,
) -> Result<Vec<Arc<Batch>>, SnapFault>
    requires failures { R.failure_count r.old + 1 < 2 ^ 64 }
    ensures ok { IfOk result (λ list. (s : R) (task : Task) (k : List Submission → Reading) →
        HasJudged R.read_gives R.failure_count task s r.old reader.old (counted_batches head.now k) →
        HasJudged R.read_gives R.failure_count task s r.new reader.new (k (values list.items))) }
    ensures err { IfErr result (λ f. (s : R) (task : Task) (k : List Submission → Reading) →
        ((list : List Submission) → IsBehindHead (k list)) →
        HasJudged R.read_gives R.failure_count task s r.old reader.old (counted_batches head.now k) →
        Stops R.read_gives R.failure_count (R.at_end r.new) task s r.new f) }
    ensures no_failure { OnOk result (R.failure_count r.new ≡ R.failure_count r.old) }
{
    let count = reader.next_u64_in(r, 1, u64::MAX, SnapFault::BadBatch)?;
    let mut batches = Vec::new(alloc);
    'batches: for i in 0..count {
        read_one(alloc, reader, r, head, tally, &mut batches)?;
    }
    Ok(batches)
}
