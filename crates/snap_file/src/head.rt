//! Reads the head of a file, and whose the file is.
ghost use Rattle.std.specs.Prelude.{◌≡◌, ◌≢◌, ℕ, ◌+◌, ◌<◌, ◌≤◌, ◌^◌, List, [], length, take, Result, IfOk, OnOk, IfErr};
ghost use Rattle.cells.specs.Bounds.{IsDimension};
ghost use Rattle.layer_cascade.specs.Cuts.{AreCuts};
ghost use Rattle.batch_store.specs.Setups.{Setting, setting};
ghost use Rattle.snap_file.specs.Table.{Reading, head, setup_fields, cuts_behind, named, origin_by};
ghost use Rattle.snap_file.specs.Spelling.{most_batches_of};
ghost use Rattle.snap_file.specs.Outcomes.{Task, HasJudged, Stops};

use crate::fault::SnapFault;
use crate::limits::{MARK, OLD_MAX_BATCHES, OLD_VERSION, VERSION};
use crate::origin::{Identity, Origin};
use crate::reader::ByteReader;
use batch_store::{MAX_BATCHES, MAX_SHARDS, Setup};
use byte_io::Source;
use cells::MAX_DIMENSION;
use layer_cascade::{MAX_CUT, MAX_CUTS};

/// What the head of a file says: the setup, its version, how many batches stand in it that aren't folded, and the total
/// of all batches.
#[derive(Drop)]
pub struct Head {
    pub setup: Setup,
    pub version: u32,
    pub batches: u64,
    pub total: u64,
}

// The setup of values that lie within their ranges, with the first so many of the cuts.
fn setup_of(
    rows: u64,
    cols: u64,
    cuts: [u64; MAX_CUTS],
    cut_count: usize,
    shards: u64,
    limit: u64,
    max_batches: u64,
) -> Setup
    requires few { cut_count ≤ 7 }
    requires dims { IsDimension rows × IsDimension cols }
    requires cuts { AreCuts (take cut_count cuts) }
    requires shards { (1 ≤ shards) × (shards ≤ 64) }
    requires limit { 1 ≤ limit }
    requires batches { (1 ≤ max_batches) × (max_batches ≤ 2 ^ 30) }
    ensures { result ≡ setting rows cols (take cut_count cuts) shards limit max_batches }
{
    let listed = &cuts[..cut_count];
    match Setup::new(rows, cols, listed, shards, limit, max_batches) {
        Ok(setup) => setup,
        Err(_) => unreachable!(),
    }
}

/// Reads so many cuts.
fn read_cuts<R: Source>(
    reader: &mut ByteReader,
    r: &mut R,
    count: u8,
) -> Result<[u64; MAX_CUTS], SnapFault>
    requires failures { R.failure_count r.old + 1 < 2 ^ 64 }
    requires few { count ≤ 7 }
    ensures cuts { IfOk result (λ cuts. AreCuts (take count cuts)) }
    ensures ok { IfOk result (λ cuts. (s : R) (task : Task) (k : List ℕ → Reading) →
        HasJudged R.read_gives R.failure_count task s r.old reader.old (cuts_behind count 1 [] k) →
        HasJudged R.read_gives R.failure_count task s r.new reader.new (k (take count cuts))) }
    ensures err { IfErr result (λ f. (s : R) (task : Task) (k : List ℕ → Reading) →
        HasJudged R.read_gives R.failure_count task s r.old reader.old (cuts_behind count 1 [] k) →
        Stops R.read_gives R.failure_count (R.at_end r.new) task s r.new f) }
    ensures no_failure { OnOk result (R.failure_count r.new ≡ R.failure_count r.old) }
{
    let mut cuts = [0u64; MAX_CUTS];
    let mut least = 1u64;
    for i in 0..count as usize {
        let cut = reader.next_u64_in(r, least, MAX_CUT, SnapFault::BadHead)?;
        cuts[i] = cut;
        least = cut + 1;
    }
    Ok(cuts)
}

// The most batches that a setup may allow in a file of this version.
fn most_batches(version: u32) -> u64
    ensures value { result ≡ most_batches_of version }
    ensures fits { result ≤ 2 ^ 30 }
{
    if version == VERSION {
        MAX_BATCHES
    } else {
        OLD_MAX_BATCHES
    }
}

/// Reads the setup, which is to allow so many batches at most.
fn read_setup<R: Source>(reader: &mut ByteReader, r: &mut R, most: u64) -> Result<Setup, SnapFault>
    requires failures { R.failure_count r.old + 1 < 2 ^ 64 }
    requires most { most ≤ 2 ^ 30 }
    ensures ok { IfOk result (λ setup. (s : R) (task : Task) (k : Setting → Reading) →
        HasJudged R.read_gives R.failure_count task s r.old reader.old (setup_fields most k) →
        HasJudged R.read_gives R.failure_count task s r.new reader.new (k setup)) }
    ensures err { IfErr result (λ f. (s : R) (task : Task) (k : Setting → Reading) →
        HasJudged R.read_gives R.failure_count task s r.old reader.old (setup_fields most k) →
        Stops R.read_gives R.failure_count (R.at_end r.new) task s r.new f) }
    ensures no_failure { OnOk result (R.failure_count r.new ≡ R.failure_count r.old) }
{
    let rows = reader.next_u64_in(r, 1, MAX_DIMENSION, SnapFault::BadHead)?;
    let cols = reader.next_u64_in(r, 1, MAX_DIMENSION, SnapFault::BadHead)?;
    let cut_count = reader.next_u8_in(r, 0, MAX_CUTS as u8, SnapFault::BadHead)?;
    let cuts = read_cuts(reader, r, cut_count)?;
    let shards = reader.next_u8_in(r, 1, MAX_SHARDS as u8, SnapFault::BadHead)?;
    let limit = reader.next_u64_in(r, 1, u64::MAX, SnapFault::BadHead)?;
    let max_batches = reader.next_u64_in(r, 1, most, SnapFault::BadHead)?;
    Ok(setup_of(
        rows,
        cols,
        cuts,
        cut_count as usize,
        shards as u64,
        limit,
        max_batches,
    ))
}

/// Reads the head.
pub fn read_head<R: Source>(reader: &mut ByteReader, r: &mut R) -> Result<Head, SnapFault>
    requires failures { R.failure_count r.old + 1 < 2 ^ 64 }
    ensures few { IfOk result (λ h. h.batches ≤ h.setup.max_batches) }
    ensures ok { IfOk result (λ h. (s : R) (task : Task) (k : Head → Reading) →
        HasJudged R.read_gives R.failure_count task s r.old reader.old (head k) →
        HasJudged R.read_gives R.failure_count task s r.new reader.new (k h)) }
    ensures err { IfErr result (λ f. (s : R) (task : Task) (k : Head → Reading) →
        HasJudged R.read_gives R.failure_count task s r.old reader.old (head k) →
        Stops R.read_gives R.failure_count (R.at_end r.new) task s r.new f) }
    ensures no_failure { OnOk result (R.failure_count r.new ≡ R.failure_count r.old) }
{
    let _mark = reader.next_u64_in(r, MARK, MARK, SnapFault::BadMark)?;
    let version = reader.next_u32_in(r, OLD_VERSION, VERSION, SnapFault::BadVersion)?;
    let most = most_batches(version);
    let setup = read_setup(reader, r, most)?;
    let batches = reader.next_u64_in(r, 0, setup.max_batches(), SnapFault::BadHead)?;
    let total = reader.next_u64_in(r, 0, setup.limit(), SnapFault::BadHead)?;
    Ok(Head {
        setup,
        version,
        batches,
        total,
    })
}

/// Reads whose a file is, as version 4 has it.
fn read_named<R: Source>(reader: &mut ByteReader, r: &mut R) -> Result<Origin, SnapFault>
    requires failures { R.failure_count r.old + 1 < 2 ^ 64 }
    ensures ok { IfOk result (λ o. (s : R) (task : Task) (k : Origin → Reading) →
        HasJudged R.read_gives R.failure_count task s r.old reader.old (named k) →
        HasJudged R.read_gives R.failure_count task s r.new reader.new (k o)) }
    ensures err { IfErr result (λ f. (s : R) (task : Task) (k : Origin → Reading) →
        HasJudged R.read_gives R.failure_count task s r.old reader.old (named k) →
        Stops R.read_gives R.failure_count (R.at_end r.new) task s r.new f) }
    ensures no_failure { OnOk result (R.failure_count r.new ≡ R.failure_count r.old) }
{
    let (book_high, book_low) = reader.next_pair(r)?;
    let window = reader.next_u64(r)?;
    let flag = reader.next_u8_in(r, 0, 1, SnapFault::BadHead)?;
    let has_log = flag == 1;
    let identity = Identity {
        book_high,
        book_low,
        window,
    };
    Ok(Origin { identity, has_log })
}

/// Reads whose a file of this version is.
pub fn read_origin<R: Source>(
    reader: &mut ByteReader,
    r: &mut R,
    version: u32,
) -> Result<Origin, SnapFault>
    requires failures { R.failure_count r.old + 1 < 2 ^ 64 }
    ensures ok { IfOk result (λ o. (s : R) (task : Task) (k : Origin → Reading) →
        HasJudged R.read_gives R.failure_count task s r.old reader.old (origin_by version k) →
        HasJudged R.read_gives R.failure_count task s r.new reader.new (k o)) }
    ensures err { IfErr result (λ f. (s : R) (task : Task) (k : Origin → Reading) →
        HasJudged R.read_gives R.failure_count task s r.old reader.old (origin_by version k) →
        Stops R.read_gives R.failure_count (R.at_end r.new) task s r.new f) }
    ensures no_failure { OnOk result (R.failure_count r.new ≡ R.failure_count r.old) }
{
    if version != VERSION {
        return Ok(Origin::unknown());
    }
    let origin = read_named(reader, r)?;
    Ok(origin)
}
