//! Reads what stands before the batches of a file: the head, and what is folded, entries first and then their sum.
ghost use Rattle.std.specs.Prelude.{◌≡◌, ℕ, ◌+◌, ◌<◌, ◌≤◌, ◌^◌, List, [], ◌∷◌, ◌++◌, false, IfOk, OnOk, IfErr};
ghost use Rattle.std.specs.Prelude.{◌==◌, ◌&&◌, not, length};
ghost use Rattle.std.specs.FinMap.{empty};
ghost use Rattle.std.specs.BTreeSet.{BTreeSet};
ghost use Rattle.hyper_matrix.specs.Matrix.{matrix};
ghost use Rattle.batch_store.specs.Accepted.{accepted};
ghost use Rattle.batch_store.specs.declared.verdict.Entry.{Entry};
ghost use Rattle.snap_file.specs.Spelling.{stands_in};
ghost use Rattle.snap_file.specs.Table.{Reading, Progress, head, entry, entries_behind, base, past, with_entry};
ghost use Rattle.snap_file.specs.Table.{nothing_yet, folded_past, origin_by, check_in, checked};
ghost use Rattle.snap_file.specs.Outcomes.{Task, HasJudged, IsBehindHead, Stops};
ghost use Rattle.snap_file.specs.Lists.{HasPairs, progress_in};
ghost use Rattle.snap_file.specs.declared.fault.SnapFault.{SnapFault};

use crate::entries::read_entries;
use crate::fault::SnapFault;
use crate::head::{Head, read_head, read_origin};
use crate::limits::OLD_VERSION;
use crate::origin::Origin;
use crate::reader::{ByteReader, refuse};
use crate::tally::{CellTally, passes};
use batch_store::Entry;
use byte_io::Source;
use hyper_matrix::Hyper;
use std::alloc::Global;
use std::collections::BTreeSet;

/// The folded batches that were read: their entries, the pairs of client and number among them, the sum of their
/// totals, and the matrix that they were folded into.
#[derive(Drop)]
pub struct Past {
    pub base: Hyper,
    pub folded: Vec<Entry>,
    pub pairs: BTreeSet<(u64, u64)>,
    pub counted: u64,
}

/// What stands before the batches.
#[derive(Drop)]
pub struct Front {
    pub head: Head,
    pub origin: Origin,
    pub past: Past,
}

/// Whether a pair is among those that were noted.
pub fn has_pair(pairs: &BTreeSet<(u64, u64)>, client: u64, number: u64) -> bool
    ensures { (es : List Entry) → HasPairs pairs.now es → (result ≡ stands_in client number es) }
{
    pairs.contains(&(client, number))
}

/// Notes a pair, and tells whether it was there.
pub fn note_pair(
    pairs: &mut BTreeSet<(u64, u64)>,
    client: u64,
    number: u64,
) -> Result<bool, SnapFault>
    ensures told { IfOk result (λ repeated. (es : List Entry) → HasPairs pairs.old es →
        (repeated ≡ stands_in client number es)) }
    ensures noted { OnOk result ((es : List Entry) (e : Entry) → HasPairs pairs.old es →
        e.client ≡ client → e.number ≡ number →
        HasPairs pairs.new (es ++ e ∷ [])) }
    // Only a new pair takes memory.
    ensures err { IfErr result (λ f. (f ≡ SnapFault.Memory) × ((es : List Entry) → HasPairs pairs.old es →
        (stands_in client number es ≡ false))) }
{
    match pairs.insert((client, number)) {
        Ok(added) => Ok(!added),
        Err(_) => Err(SnapFault::Memory),
    }
}

/// Reads the entry of one more folded batch.
fn read_entry<R: Source>(
    reader: &mut ByteReader,
    r: &mut R,
    head: &Head,
    past: &mut Past,
) -> Result<(), SnapFault>
    requires failures { R.failure_count r.old + 1 < 2 ^ 64 }
    requires counted { past.old.counted ≤ head.now.total }
    requires pairs { HasPairs past.old.pairs past.old.folded.items }
    ensures counted { OnOk result (past.new.counted ≤ head.now.total) }
    ensures pairs { OnOk result (HasPairs past.new.pairs past.new.folded.items) }
    ensures base { OnOk result (past.new.base ≡ past.old.base) }
    ensures ok { OnOk result ((s : R) (task : Task) (k : Progress → Reading) →
        HasJudged R.read_gives R.failure_count task s r.old reader.old
        (entry head.now (progress_in past.old) k) →
        HasJudged R.read_gives R.failure_count task s r.new reader.new (k (progress_in past.new))) }
    ensures err { IfErr result (λ f. (s : R) (task : Task) (k : Progress → Reading) →
        ((p : Progress) → IsBehindHead (k p)) →
        HasJudged R.read_gives R.failure_count task s r.old reader.old
        (entry head.now (progress_in past.old) k) →
        Stops R.read_gives R.failure_count (R.at_end r.new) task s r.new f) }
    ensures no_failure { OnOk result (R.failure_count r.new ≡ R.failure_count r.old) }
{
    let (client, number) = reader.next_pair(r)?;
    let repeated = note_pair(&mut past.pairs, client, number)?;
    refuse(repeated, SnapFault::RepeatedNumber)?;
    let (cells, total) = reader.next_pair(r)?;
    let over = passes(head.total, past.counted, total);
    refuse(over, SnapFault::TotalDiffers)?;
    let entry = Entry {
        client,
        number,
        cells,
        total,
    };
    match past.folded.push(entry) {
        Err(_) => Err(SnapFault::Memory),
        Ok(()) => {
            past.counted += total;
            Ok(())
        }
    }
}

/// Reads the entries of so many folded batches.
fn read_folded<R: Source>(
    reader: &mut ByteReader,
    r: &mut R,
    head: &Head,
    past: &mut Past,
    count: u64,
) -> Result<(), SnapFault>
    requires failures { R.failure_count r.old + 1 < 2 ^ 64 }
    requires counted { past.old.counted ≤ head.now.total }
    requires pairs { HasPairs past.old.pairs past.old.folded.items }
    ensures counted { OnOk result (past.new.counted ≤ head.now.total) }
    ensures pairs { OnOk result (HasPairs past.new.pairs past.new.folded.items) }
    ensures base { OnOk result (past.new.base ≡ past.old.base) }
    ensures ok { OnOk result ((s : R) (task : Task) (k : Progress → Reading) →
        HasJudged R.read_gives R.failure_count task s r.old reader.old
        (entries_behind head.now count (progress_in past.old) k) →
        HasJudged R.read_gives R.failure_count task s r.new reader.new (k (progress_in past.new))) }
    ensures err { IfErr result (λ f. (s : R) (task : Task) (k : Progress → Reading) →
        ((p : Progress) → IsBehindHead (k p)) →
        HasJudged R.read_gives R.failure_count task s r.old reader.old
        (entries_behind head.now count (progress_in past.old) k) →
        Stops R.read_gives R.failure_count (R.at_end r.new) task s r.new f) }
    ensures no_failure { OnOk result (R.failure_count r.new ≡ R.failure_count r.old) }
{
    for i in 0..count {
        read_entry(reader, r, head, past)?;
    }
    Ok(())
}

// Whether a base of so many cells has nothing that was folded.
fn is_unfounded(folded: &[Entry], count: u64) -> bool
    ensures { result ≡ ((length folded.now == 0) && not (count == 0)) }
{
    folded.is_empty() && count != 0
}

/// Reads the matrix that the batches were folded into. Its counts come to their totals together.
fn read_base<R: Source>(
    alloc: Global,
    reader: &mut ByteReader,
    r: &mut R,
    head: &Head,
    past: &Past,
) -> Result<Hyper, SnapFault>
    requires failures { R.failure_count r.old + 1 < 2 ^ 64 }
    ensures dims { IfOk result (λ m. (m.rows ≡ head.now.setup.rows) × (m.cols ≡ head.now.setup.cols)) }
    ensures ok { IfOk result (λ m. (s : R) (task : Task) (k : Progress → Reading) →
        HasJudged R.read_gives R.failure_count task s r.old reader.old
        (base head.now (progress_in past.now) k) →
        HasJudged R.read_gives R.failure_count task s r.new reader.new
        (k (record { state = accepted m.counts past.now.folded.items []; counted = past.now.counted }))) }
    ensures err { IfErr result (λ f. (s : R) (task : Task) (k : Progress → Reading) →
        ((p : Progress) → IsBehindHead (k p)) →
        HasJudged R.read_gives R.failure_count task s r.old reader.old
        (base head.now (progress_in past.now) k) →
        Stops R.read_gives R.failure_count (R.at_end r.new) task s r.new f) }
    ensures no_failure { OnOk result (R.failure_count r.new ≡ R.failure_count r.old) }
{
    let count = reader.next_u64(r)?;
    let unfounded = is_unfounded(&past.folded, count);
    refuse(unfounded, SnapFault::BadBatch)?;
    let most = past.counted;
    let mut tally = CellTally::new(alloc, 0);
    let m = read_entries(alloc, reader, r, head, most, &mut tally, count)?;
    let differs = tally.counted != most;
    refuse(differs, SnapFault::TotalDiffers)?;
    Ok(m)
}

/// Reads what is folded in a file of this version: how many batches, their entries, and their sum.
fn read_into<R: Source>(
    alloc: Global,
    reader: &mut ByteReader,
    r: &mut R,
    head: &Head,
    past: &mut Past,
) -> Result<(), SnapFault>
    requires failures { R.failure_count r.old + 1 < 2 ^ 64 }
    requires few { head.now.batches ≤ head.now.setup.max_batches }
    requires nothing { progress_in past.old ≡ nothing_yet }
    requires pairs { HasPairs past.old.pairs past.old.folded.items }
    ensures counted { OnOk result (past.new.counted ≤ head.now.total) }
    ensures pairs { OnOk result (HasPairs past.new.pairs past.new.folded.items) }
    ensures dims { OnOk result ((past.new.base.rows ≡ head.now.setup.rows) ×
        (past.new.base.cols ≡ head.now.setup.cols)) }
    ensures ok { OnOk result ((s : R) (task : Task) (k : Progress → Reading) →
        HasJudged R.read_gives R.failure_count task s r.old reader.old (folded_past head.now k) →
        HasJudged R.read_gives R.failure_count task s r.new reader.new (k (progress_in past.new))) }
    ensures err { IfErr result (λ f. (s : R) (task : Task) (k : Progress → Reading) →
        ((p : Progress) → IsBehindHead (k p)) →
        HasJudged R.read_gives R.failure_count task s r.old reader.old (folded_past head.now k) →
        Stops R.read_gives R.failure_count (R.at_end r.new) task s r.new f) }
    ensures no_failure { OnOk result (R.failure_count r.new ≡ R.failure_count r.old) }
{
    let most = head.setup.max_batches() - head.batches;
    let count = reader.next_u64_in(r, 0, most, SnapFault::BadHead)?;
    read_folded(reader, r, head, past, count)?;
    past.base = read_base(alloc, reader, r, head, past)?;
    Ok(())
}

/// Reads what is folded. In a file of the old version that is nothing.
fn read_past<R: Source>(
    alloc: Global,
    reader: &mut ByteReader,
    r: &mut R,
    head: &Head,
) -> Result<Past, SnapFault>
    requires failures { R.failure_count r.old + 1 < 2 ^ 64 }
    requires few { head.now.batches ≤ head.now.setup.max_batches }
    ensures counted { IfOk result (λ p. p.counted ≤ head.now.total) }
    ensures pairs { IfOk result (λ p. HasPairs p.pairs p.folded.items) }
    ensures dims { IfOk result (λ p. (p.base.rows ≡ head.now.setup.rows) × (p.base.cols ≡ head.now.setup.cols)) }
    ensures ok { IfOk result (λ p. (s : R) (task : Task) (k : Progress → Reading) →
        HasJudged R.read_gives R.failure_count task s r.old reader.old (past head.now k) →
        HasJudged R.read_gives R.failure_count task s r.new reader.new (k (progress_in p))) }
    ensures err { IfErr result (λ f. (s : R) (task : Task) (k : Progress → Reading) →
        ((p : Progress) → IsBehindHead (k p)) →
        HasJudged R.read_gives R.failure_count task s r.old reader.old (past head.now k) →
        Stops R.read_gives R.failure_count (R.at_end r.new) task s r.new f) }
    ensures no_failure { OnOk result (R.failure_count r.new ≡ R.failure_count r.old) }
{
    let mut past = Past {
        base: Hyper::new(alloc, head.setup.rows(), head.setup.cols()),
        folded: Vec::new(alloc),
        pairs: BTreeSet::new(alloc),
        counted: 0,
    };
    if head.version == OLD_VERSION {
        return Ok(past);
    }
    read_into(alloc, reader, r, head, &mut past)?;
    Ok(past)
}

/// Reads the head, whose the file is, and the checksum of both.
fn read_checked_head<R: Source>(
    reader: &mut ByteReader,
    r: &mut R,
) -> Result<(Head, Origin), SnapFault>
    requires failures { R.failure_count r.old + 1 < 2 ^ 64 }
    ensures few { IfOk result (λ f. f.0.batches ≤ f.0.setup.max_batches) }
    ensures ok { IfOk result (λ f. (s : R) (task : Task) (k : Head → Origin → Reading) →
        HasJudged R.read_gives R.failure_count task s r.old reader.old
        (head (λ h. origin_by h.version (λ o. check_in h.version (λ _. k h o)))) →
        HasJudged R.read_gives R.failure_count task s r.new reader.new (k f.0 f.1)) }
    ensures err { IfErr result (λ f. (s : R) (task : Task) (k : Head → Origin → Reading) →
        HasJudged R.read_gives R.failure_count task s r.old reader.old
        (head (λ h. origin_by h.version (λ o. check_in h.version (λ _. k h o)))) →
        Stops R.read_gives R.failure_count (R.at_end r.new) task s r.new f) }
    ensures no_failure { OnOk result (R.failure_count r.new ≡ R.failure_count r.old) }
{
    let head = read_head(reader, r)?;
    let origin = read_origin(reader, r, head.version)?;
    reader.next_check_in(r, head.version)?;
    Ok((head, origin))
}

/// Reads what is folded and its checksum.
fn read_checked_past<R: Source>(
    alloc: Global,
    reader: &mut ByteReader,
    r: &mut R,
    head: &Head,
) -> Result<Past, SnapFault>
    requires failures { R.failure_count r.old + 1 < 2 ^ 64 }
    requires few { head.now.batches ≤ head.now.setup.max_batches }
    ensures counted { IfOk result (λ p. p.counted ≤ head.now.total) }
    ensures pairs { IfOk result (λ p. HasPairs p.pairs p.folded.items) }
    ensures dims { IfOk result (λ p. (p.base.rows ≡ head.now.setup.rows) × (p.base.cols ≡ head.now.setup.cols)) }
    ensures ok { IfOk result (λ p. (s : R) (task : Task) (k : Progress → Reading) →
        HasJudged R.read_gives R.failure_count task s r.old reader.old
        (checked head.now.version (past head.now) k) →
        HasJudged R.read_gives R.failure_count task s r.new reader.new (k (progress_in p))) }
    ensures err { IfErr result (λ f. (s : R) (task : Task) (k : Progress → Reading) →
        ((p : Progress) → IsBehindHead (k p)) →
        HasJudged R.read_gives R.failure_count task s r.old reader.old
        (checked head.now.version (past head.now) k) →
        Stops R.read_gives R.failure_count (R.at_end r.new) task s r.new f) }
    ensures no_failure { OnOk result (R.failure_count r.new ≡ R.failure_count r.old) }
{
    let past = read_past(alloc, reader, r, head)?;
    reader.next_check_in(r, head.version)?;
    Ok(past)
}

/// Reads what stands before the batches.
pub fn read_front<R: Source>(
    alloc: Global,
    reader: &mut ByteReader,
    r: &mut R,
) -> Result<Front, SnapFault>
    requires failures { R.failure_count r.old + 1 < 2 ^ 64 }
    ensures counted { IfOk result (λ f. f.past.counted ≤ f.head.total) }
    ensures pairs { IfOk result (λ f. HasPairs f.past.pairs f.past.folded.items) }
    ensures dims { IfOk result (λ f. (f.past.base.rows ≡ f.head.setup.rows) × (f.past.base.cols ≡ f.head.setup.cols)) }
    ensures ok { IfOk result (λ f. (s : R) (task : Task) (k : Head → Origin → Progress → Reading) →
        HasJudged R.read_gives R.failure_count task s r.old reader.old
        (head (λ h. origin_by h.version (λ o. check_in h.version (λ _. checked h.version (past h) (k h o))))) →
        HasJudged R.read_gives R.failure_count task s r.new reader.new
        (k f.head f.origin (progress_in f.past))) }
    ensures err { IfErr result (λ f. (s : R) (task : Task) (k : Head → Origin → Progress → Reading) →
        ((h : Head) (o : Origin) (p : Progress) → IsBehindHead (k h o p)) →
        HasJudged R.read_gives R.failure_count task s r.old reader.old
        (head (λ h. origin_by h.version (λ o. check_in h.version (λ _. checked h.version (past h) (k h o))))) →
        Stops R.read_gives R.failure_count (R.at_end r.new) task s r.new f) }
    ensures no_failure { OnOk result (R.failure_count r.new ≡ R.failure_count r.old) }
{
    let first = read_checked_head(reader, r)?;
    let past = read_checked_past(alloc, reader, r, &first.0)?;
    let (head, origin) = first;
    Ok(Front { head, origin, past })
}
