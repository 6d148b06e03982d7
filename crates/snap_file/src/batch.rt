//! Reads the batches of a file that aren't folded.
//!
//! The pairs of client and number are kept in a tree, whose time no choice of pairs can spoil.
ghost use Rattle.std.specs.Prelude.{◌≡◌, ℕ, ◌+◌, ◌<◌, ◌≤◌, ◌^◌, ◌||◌, List, [], ◌∷◌, ◌++◌, false, IfOk, OnOk, IfErr};
ghost use Rattle.std.specs.BTreeSet.{BTreeSet};
ghost use Rattle.batch_store.specs.Accepted.{accepted};
ghost use Rattle.batch_store.specs.Batches.{submission, values, entries_of};
ghost use Rattle.batch_store.specs.declared.verdict.Entry.{Entry};
ghost use Rattle.snap_file.specs.Spelling.{stands_in};
ghost use Rattle.snap_file.specs.Table.{Reading, Progress, batch, rest_of, end, contents};
ghost use Rattle.snap_file.specs.Outcomes.{Task, HasJudged, IsBehindHead, Stops};
ghost use Rattle.snap_file.specs.Lists.{HasPairs, progress_in, progress_of};
ghost use Rattle.snap_file.specs.declared.fault.SnapFault.{SnapFault};

use crate::entries::read_entries;
use crate::fault::SnapFault;
use crate::past::{Front, Past, has_pair, note_pair};
use crate::reader::{ByteReader, refuse};
use crate::tally::CellTally;
use batch_store::Batch;
use byte_io::Source;
use hyper_matrix::Hyper;
use std::alloc::Global;
use std::collections::BTreeSet;
use std::sync::Arc;

/// The batches that were read, the pairs of client and number among them, and the tally of their cells.
#[derive(Drop)]
pub struct BatchList {
    pub batches: Vec<Arc<Batch>>,
    pub pairs: BTreeSet<(u64, u64)>,
    pub tally: CellTally,
}

/// Appends a batch of these parts.
///
/// # Errors
///
/// `Memory`: a growth was refused.
pub fn push_batch(
    alloc: Global,
    batches: &mut Vec<Arc<Batch>>,
    client: u64,
    number: u64,
    matrix: Hyper,
) -> Result<(), SnapFault>
    ensures ok { OnOk result (values batches.new.items ≡ values batches.old.items ++
        submission client number matrix ∷ []) }
    ensures err { IfErr result (λ f. f ≡ SnapFault.Memory) }
{
    let total = matrix.total();
    let batch = Batch {
        client,
        number,
        matrix,
        total,
    };
    let shared = match Arc::new(alloc, batch) {
        Ok(shared) => shared,
        Err(_) => return Err(SnapFault::Memory),
    };
    match batches.push(shared) {
        Ok(()) => Ok(()),
        Err(_) => Err(SnapFault::Memory),
    }
}

// Notes the pair of a batch, and tells whether it is a folded one's or was there.
fn note_batch(
    past: &Past,
    pairs: &mut BTreeSet<(u64, u64)>,
    client: u64,
    number: u64,
) -> Result<bool, SnapFault>
    requires { HasPairs past.now.pairs past.now.folded.items }
    ensures told { IfOk result (λ repeated. (es : List Entry) → HasPairs pairs.old es →
        (repeated ≡ stands_in client number (past.now.folded.items ++ es))) }
    ensures noted { IfOk result (λ repeated. repeated ≡ false → (es : List Entry) (e : Entry) →
        HasPairs pairs.old es → e.client ≡ client → e.number ≡ number → HasPairs pairs.new (es ++ e ∷ [])) }
    // A folded pair takes no memory.
    ensures err { IfErr result (λ f. (f ≡ SnapFault.Memory) × ((es : List Entry) → HasPairs pairs.old es →
        (stands_in client number (past.now.folded.items ++ es) ≡ false))) }
{
    if has_pair(&past.pairs, client, number) {
        return Ok(true);
    }
    note_pair(pairs, client, number)
}

/// Reads one more batch.
fn read_batch<R: Source>(
    alloc: Global,
    reader: &mut ByteReader,
    r: &mut R,
    front: &Front,
    list: &mut BatchList,
) -> Result<(), SnapFault>
    requires failures { R.failure_count r.old + 1 < 2 ^ 64 }
    requires counted { list.old.tally.counted ≤ front.now.head.total }
    requires folded { HasPairs front.now.past.pairs front.now.past.folded.items }
    requires pairs { HasPairs list.old.pairs (entries_of (values list.old.batches.items)) }
    ensures counted { OnOk result (list.new.tally.counted ≤ front.now.head.total) }
    ensures pairs { OnOk result (HasPairs list.new.pairs (entries_of (values list.new.batches.items))) }
    ensures ok { OnOk result ((s : R) (task : Task) (k : Progress → Reading) →
        HasJudged R.read_gives R.failure_count task s r.old reader.old
        (batch front.now.head (progress_of front.now.past list.old) k) →
        HasJudged R.read_gives R.failure_count task s r.new reader.new
        (k (progress_of front.now.past list.new))) }
    ensures err { IfErr result (λ f. (s : R) (task : Task) (k : Progress → Reading) →
        ((p : Progress) → IsBehindHead (k p)) →
        HasJudged R.read_gives R.failure_count task s r.old reader.old
        (batch front.now.head (progress_of front.now.past list.old) k) →
        Stops R.read_gives R.failure_count (R.at_end r.new) task s r.new f) }
    ensures no_failure { OnOk result (R.failure_count r.new ≡ R.failure_count r.old) }
{
    let (client, number) = reader.next_pair(r)?;
    let repeated = note_batch(&front.past, &mut list.pairs, client, number)?;
    refuse(repeated, SnapFault::RepeatedNumber)?;
    let count = reader.next_u64(r)?;
    let most = front.head.total;
    let matrix = read_entries(alloc, reader, r, &front.head, most, &mut list.tally, count)?;
    push_batch(alloc, &mut list.batches, client, number, matrix)?;
    Ok(())
}

/// Reads all batches that aren't folded; their counts and the folded totals together are to be the head's total.
pub fn read_batches<R: Source>(
    alloc: Global,
    reader: &mut ByteReader,
    r: &mut R,
    front: &Front,
) -> Result<Vec<Arc<Batch>>, SnapFault>
    requires failures { R.failure_count r.old + 1 < 2 ^ 64 }
    requires counted { front.now.past.counted ≤ front.now.head.total }
    requires folded { HasPairs front.now.past.pairs front.now.past.folded.items }
    ensures ok { IfOk result (λ list. (s : R) (task : Task) →
        HasJudged R.read_gives R.failure_count task s r.old reader.old
        (rest_of front.now.head front.now.origin (progress_in front.now.past)) →
        HasJudged R.read_gives R.failure_count task s r.new reader.new
        (end (contents front.now.origin front.now.head.setup
        (accepted front.now.past.base.counts front.now.past.folded.items (values list.items))))) }
    ensures err { IfErr result (λ f. (s : R) (task : Task) →
        HasJudged R.read_gives R.failure_count task s r.old reader.old
        (rest_of front.now.head front.now.origin (progress_in front.now.past)) →
        Stops R.read_gives R.failure_count (R.at_end r.new) task s r.new f) }
    ensures no_failure { OnOk result (R.failure_count r.new ≡ R.failure_count r.old) }
{
    let mut list = BatchList {
        batches: Vec::new(alloc),
        pairs: BTreeSet::new(alloc),
        tally: CellTally::new(alloc, front.past.counted),
    };
    'batches: for _i in 0..front.head.batches {
        read_batch(alloc, reader, r, front, &mut list)?;
        reader.next_check_in(r, front.head.version)?;
    }
    let differs = list.tally.counted != front.head.total;
    refuse(differs, SnapFault::TotalDiffers)?;
    Ok(list.batches)
}
