//! Fields of numbers, read from a source in pieces.
ghost use Rattle.std.specs.Prelude.{◌≡◌, ℕ, ◌+◌, ◌-◌, ◌<◌, ◌≤◌, ◌^◌, List, [], ◌++◌, length, take, drop, Result};
ghost use Rattle.std.specs.Prelude.{Ok, Err, IfOk, OnOk, IfErr, OnErr, IfSome, IsTrue, IsFalse, true, false};
ghost use Rattle.std.specs.Int.{Width, w8, w32, w64, byte_len, from_be_bytes};
ghost use Rattle.crc32c.specs.Remainders.{all_ones, complement};
ghost use Rattle.snap_file.specs.Table.{Reading, Contents, number, refuse_if, outside, field_in, check, check_in, end};
ghost use Rattle.snap_file.specs.Outcomes.{Task, snapshot_task, HasJudged, HasAsked, HasEnded, HasFailed, IsOfBytes, Stops, ReadsSnapshot};
ghost use Rattle.snap_file.specs.Outcomes.{piece_bytes, IsPassed};
ghost use Rattle.snap_file.specs.Tallies.{IsAhead};
ghost use Rattle.snap_file.specs.declared.limits.TheConstants.{CELL_BYTES};
ghost use Rattle.byte_io.specs.Buffers.{Fills};
ghost use Rattle.snap_file.specs.declared.fault.SnapFault.{SnapFault};

use crate::fault::SnapFault;
use crate::limits::{CELL_BYTES, CHECKED_VERSION};
use byte_io::{DeviceFault, READ_CAPACITY, ReadBuffer, Source};
use cells::Cell;
use crc32c::Crc;
use std::alloc::{AllocError, Global};
use std::marker::Model;

/// Bytes that came from a source and were not judged yet, and the checksum of those that were. Each call is to be given
/// the same source.
#[derive(Drop)]
pub struct ByteReader {
    buffer: ReadBuffer,
    crc: Crc,
    taken: u64,
    max_bytes: u64,
}

impl Model for ByteReader {
    ghost use Rattle.std.specs.Prelude.{◌≤◌};
    ghost use Rattle.snap_file.specs.Outcomes.{ReaderState};

    ghost Value = { ReaderState };

    ghost view = { λ r. record { pending = r.buffer; taken = r.taken; remainder = r.crc; max_bytes = r.max_bytes } };

    ghost invariant = { λ r. r.taken ≤ r.max_bytes };
}

/// The judgement of a field.
pub fn refuse(test: bool, kind: SnapFault) -> Result<(), SnapFault>
    ensures ok { OnOk result (test ≡ false) }
    ensures err { IfErr result (λ f. (f ≡ kind) × (test ≡ true)) }
{
    if test { Err(kind) } else { Ok(()) }
}

/// How many bytes a field needs: all of its own, or the one that is too many.
fn bytes_wanted(width: usize, room: u64) -> usize
    requires { (1 ≤ width) × (width ≤ 8) }
    ensures most { result ≤ width }
    ensures some { 1 ≤ result }
    ensures within { result ≤ room + 1 }
    ensures whole { width ≤ room → result ≡ width }
    ensures beyond { room < width → result ≡ room + 1 }
{
    if room < width as u64 {
        room as usize + 1
    } else {
        width
    }
}

/// Whether a number is not from `low` to `high`.
fn is_outside(n: u64, low: u64, high: u64) -> bool
    ensures { result ≡ outside low high n }
{
    n < low || n > high
}

fn u64_at(p: &[u8]) -> u64
    requires { length p.now ≡ 8 }
    ensures { result ≡ from_be_bytes w64 p.now }
{
    match p.first_chunk::<8>() {
        Some(number) => u64::from_be_bytes(*number),
        None => unreachable!(),
    }
}

fn u32_at(p: &[u8]) -> u32
    requires { length p.now ≡ 4 }
    ensures { result ≡ from_be_bytes w32 p.now }
{
    u32::from_be_bytes([p[0], p[1], p[2], p[3]])
}

fn u8_at(p: &[u8]) -> u8
    requires { length p.now ≡ 1 }
    ensures { result ≡ from_be_bytes w8 p.now }
{
    p[0]
}

impl ByteReader {
    /// A reader that has read nothing.
    pub fn new(alloc: Global, max_bytes: u64) -> Result<ByteReader, AllocError>
        ensures pending { IfOk result (λ reader. reader.pending ≡ []) }
        ensures taken { IfOk result (λ reader. reader.taken ≡ 0) }
        ensures remainder { IfOk result (λ reader. reader.remainder ≡ all_ones) }
        ensures limit { IfOk result (λ reader. reader.max_bytes ≡ max_bytes) }
    {
        let buffer = ReadBuffer::new(alloc)?;
        Ok(ByteReader {
            buffer,
            crc: Crc::new(),
            taken: 0,
            max_bytes,
        })
    }

    /// Begins anew, as a reader that has read nothing: what was pending is forgotten. Takes no memory.
    pub fn restart(&mut self, max_bytes: u64)
        ensures pending { self.new.pending ≡ [] }
        ensures taken { self.new.taken ≡ 0 }
        ensures remainder { self.new.remainder ≡ all_ones }
        ensures limit { self.new.max_bytes ≡ max_bytes }
    {
        let count = self.len();
        self.buffer.consume(count);
        self.crc = Crc::new();
        self.taken = 0;
        self.max_bytes = max_bytes;
    }

    /// How many bytes were judged.
    pub fn taken(&self) -> u64
        ensures { result ≡ self.now.taken }
    {
        self.taken
    }

    /// How many bytes are pending.
    fn len(&self) -> usize
        ensures { result ≡ length self.now.pending }
    {
        self.buffer.pending().len()
    }

    /// How many bytes may still be judged.
    fn room(&self) -> u64
        ensures { result + self.now.taken ≡ self.now.max_bytes }
    {
        self.max_bytes - self.taken
    }

    /// One read, behind what is pending.
    fn fill<R: Source>(&mut self, r: &mut R) -> Result<usize, DeviceFault>
        requires failures { R.failure_count r.old + 1 < 2 ^ 64 }
        requires short { length self.old.pending < 8 }
        ensures taken { self.new.taken ≡ self.old.taken }
        ensures remainder { self.new.remainder ≡ self.old.remainder }
        ensures limit { self.new.max_bytes ≡ self.old.max_bytes }
        ensures ok { IfOk result (λ n. Fills R.read_gives r.old r.new self.old.pending self.new.pending n) }
        ensures most { IfOk result (λ n. n ≤ piece_bytes) }
        ensures end { IfOk result (λ n. n ≡ 0 → R.at_end r.new) }
        ensures err { IfErr result (λ e. R.read_gives r.old (Err e) r.new × (self.new.pending ≡ self.old.pending)) }
        ensures no_failure { OnOk result (R.failure_count r.new ≡ R.failure_count r.old) }
        ensures failure { OnErr result (R.failure_count r.new ≡ R.failure_count r.old + 1) }
    {
        self.buffer.fill(r, READ_CAPACITY)
    }

    /// Reads until so many bytes are pending (true), or the source has ended (false).
    fn need<R: Source>(&mut self, r: &mut R, want: usize) -> Result<bool, SnapFault>
        requires failures { R.failure_count r.old + 1 < 2 ^ 64 }
        requires want { want ≤ 8 }
        requires room { self.old.taken + want ≤ self.old.max_bytes + 1 }
        ensures taken { self.new.taken ≡ self.old.taken }
        ensures remainder { self.new.remainder ≡ self.old.remainder }
        ensures limit { self.new.max_bytes ≡ self.old.max_bytes }
        ensures yes { IfOk result (λ b. IsTrue b → want ≤ length self.new.pending) }
        ensures no { IfOk result (λ b. IsFalse b → length self.new.pending < want) }
        ensures read { IfOk result (λ b. IsTrue b → (s : R) (task : Task) (left : Reading) →
            HasJudged R.read_gives R.failure_count task s r.old self.old left →
            HasAsked R.read_gives R.failure_count task s r.new self.new left want) }
        ensures ended { IfOk result (λ b. IsFalse b → (s : R) (task : Task) (left : Reading) →
            HasJudged R.read_gives R.failure_count task s r.old self.old left →
            HasEnded R.read_gives R.failure_count (R.at_end r.new) task s r.new self.new left) }
        ensures err { IfErr result (λ f. (f ≡ SnapFault.Read) × ((s : R) (task : Task) (left : Reading) →
            HasJudged R.read_gives R.failure_count task s r.old self.old left →
            HasFailed R.read_gives R.failure_count task s r.new want left)) }
        ensures no_failure { OnOk result (R.failure_count r.new ≡ R.failure_count r.old) }
    {
        'pieces: while self.len() < want {
            match self.fill(r) {
                Ok(0) => return Ok(false),
                Ok(_) => {}
                Err(_) => return Err(SnapFault::Read),
            }
        }
        Ok(true)
    }

    /// Reads until a field of so many bytes is pending.
    fn need_field<R: Source>(&mut self, r: &mut R, width: usize) -> Result<(), SnapFault>
        requires failures { R.failure_count r.old + 1 < 2 ^ 64 }
        requires width { (1 ≤ width) × (width ≤ 8) }
        ensures pending { OnOk result (width ≤ length self.new.pending) }
        ensures room { OnOk result (self.new.taken + width ≤ self.new.max_bytes) }
        ensures ok { OnOk result ((s : R) (task : Task) (left : Reading) →
            HasJudged R.read_gives R.failure_count task s r.old self.old left →
            HasAsked R.read_gives R.failure_count task s r.new self.new left width) }
        ensures err { IfErr result (λ f. (s : R) (task : Task) (w : Width) (k : ℕ → Reading) → byte_len w ≡ width →
            HasJudged R.read_gives R.failure_count task s r.old self.old (number w k) →
            Stops R.read_gives R.failure_count (R.at_end r.new) task s r.new f) }
        ensures no_failure { OnOk result (R.failure_count r.new ≡ R.failure_count r.old) }
    {
        let room = self.room();
        let want = bytes_wanted(width, room);
        match self.need(r, want) {
            Err(fault) => Err(fault),
            Ok(false) => Err(SnapFault::Truncated),
            Ok(true) => {
                if room < width as u64 {
                    Err(SnapFault::TooLong)
                } else {
                    Ok(())
                }
            }
        }
    }

    /// The checksum of all bytes that were judged.
    fn sum(&self) -> u32
        ensures { result ≡ complement self.now.remainder }
    {
        self.crc.value()
    }

    /// Goes on behind so many bytes, which were judged.
    #[inline(always)]
    fn pass(&mut self, count: usize)
        requires pending { count ≤ length self.old.pending }
        requires room { self.old.taken + count ≤ self.old.max_bytes }
        ensures { IsPassed self.old self.new count }
    {
        self.crc.add(&self.buffer.pending()[..count]);
        self.buffer.consume(count);
        self.taken += count as u64;
    }

    /// The number in the next 8 bytes.
    fn take_u64(&mut self) -> u64
        requires pending { 8 ≤ length self.old.pending }
        requires room { self.old.taken + 8 ≤ self.old.max_bytes }
        ensures value { result ≡ from_be_bytes w64 (take 8 self.old.pending) }
        ensures passed { IsPassed self.old self.new 8 }
    {
        let n = u64_at(&self.buffer.pending()[..8]);
        self.pass(8);
        n
    }

    /// The number in the next 4 bytes.
    fn take_u32(&mut self) -> u32
        requires pending { 4 ≤ length self.old.pending }
        requires room { self.old.taken + 4 ≤ self.old.max_bytes }
        ensures value { result ≡ from_be_bytes w32 (take 4 self.old.pending) }
        ensures passed { IsPassed self.old self.new 4 }
    {
        let n = u32_at(&self.buffer.pending()[..4]);
        self.pass(4);
        n
    }

    /// The number in the next 1 bytes.
    fn take_u8(&mut self) -> u8
        requires pending { 1 ≤ length self.old.pending }
        requires room { self.old.taken + 1 ≤ self.old.max_bytes }
        ensures value { result ≡ from_be_bytes w8 (take 1 self.old.pending) }
        ensures passed { IsPassed self.old self.new 1 }
    {
        let n = u8_at(&self.buffer.pending()[..1]);
        self.pass(1);
        n
    }

    /// The next field of 8 bytes.
    pub fn next_u64<R: Source>(&mut self, r: &mut R) -> Result<u64, SnapFault>
        requires { R.failure_count r.old + 1 < 2 ^ 64 }
        ensures ok { IfOk result (λ n. (s : R) (task : Task) (k : ℕ → Reading) →
            HasJudged R.read_gives R.failure_count task s r.old self.old (number w64 k) →
            HasJudged R.read_gives R.failure_count task s r.new self.new (k n)) }
        ensures err { IfErr result (λ f. (s : R) (task : Task) (k : ℕ → Reading) →
            HasJudged R.read_gives R.failure_count task s r.old self.old (number w64 k) →
            Stops R.read_gives R.failure_count (R.at_end r.new) task s r.new f) }
        ensures no_failure { OnOk result (R.failure_count r.new ≡ R.failure_count r.old) }
    {
        self.need_field(r, 8)?;
        Ok(self.take_u64())
    }

    /// The cell whose three fields are next, where all their bytes came and none is one too many.
    #[inline(always)]
    pub fn cell_ahead(&self) -> Option<Cell>
        ensures { IfSome result (IsAhead self.now) }
    {
        let bytes = self.buffer.pending();
        if bytes.len() < CELL_BYTES || self.room() < CELL_BYTES as u64 {
            return None;
        }
        Some(Cell {
            row: u64_at(&bytes[..8]),
            col: u64_at(&bytes[8..16]),
            count: u64_at(&bytes[16..24]),
        })
    }

    /// Goes on behind a cell that is next.
    #[inline(always)]
    pub fn pass_cell(&mut self)
        requires pending { CELL_BYTES ≤ length self.old.pending }
        requires room { self.old.taken + CELL_BYTES ≤ self.old.max_bytes }
        ensures { IsPassed self.old self.new CELL_BYTES }
    {
        self.pass(CELL_BYTES);
    }

    /// The next two fields of 8 bytes.
    pub fn next_pair<R: Source>(&mut self, r: &mut R) -> Result<(u64, u64), SnapFault>
        requires { R.failure_count r.old + 1 < 2 ^ 64 }
        ensures ok { IfOk result (λ p. (s : R) (task : Task) (k : ℕ → ℕ → Reading) →
            HasJudged R.read_gives R.failure_count task s r.old self.old (number w64 (λ n. number w64 (k n))) →
            HasJudged R.read_gives R.failure_count task s r.new self.new (k p.0 p.1)) }
        ensures err { IfErr result (λ f. (s : R) (task : Task) (k : ℕ → ℕ → Reading) →
            HasJudged R.read_gives R.failure_count task s r.old self.old (number w64 (λ n. number w64 (k n))) →
            Stops R.read_gives R.failure_count (R.at_end r.new) task s r.new f) }
        ensures no_failure { OnOk result (R.failure_count r.new ≡ R.failure_count r.old) }
    {
        let first = self.next_u64(r)?;
        let second = self.next_u64(r)?;
        Ok((first, second))
    }

    /// The next field of 8 bytes, which is to be from `low` to `high`.
    pub fn next_u64_in<R: Source>(
        &mut self,
        r: &mut R,
        low: u64,
        high: u64,
        kind: SnapFault,
    ) -> Result<u64, SnapFault>
        requires failures { R.failure_count r.old + 1 < 2 ^ 64 }
        requires judged { IsOfBytes kind }
        ensures bounds { IfOk result (λ n. (low ≤ n) × (n ≤ high)) }
        ensures ok { IfOk result (λ n. (s : R) (task : Task) (k : ℕ → Reading) →
            HasJudged R.read_gives R.failure_count task s r.old self.old (field_in w64 low high kind k) →
            HasJudged R.read_gives R.failure_count task s r.new self.new (k n)) }
        ensures err { IfErr result (λ f. (s : R) (task : Task) (k : ℕ → Reading) →
            HasJudged R.read_gives R.failure_count task s r.old self.old (field_in w64 low high kind k) →
            Stops R.read_gives R.failure_count (R.at_end r.new) task s r.new f) }
        ensures no_failure { OnOk result (R.failure_count r.new ≡ R.failure_count r.old) }
    {
        let n = self.next_u64(r)?;
        let wrong = is_outside(n, low, high);
        refuse(wrong, kind)?;
        Ok(n)
    }

    /// The next field of 4 bytes.
    pub fn next_u32<R: Source>(&mut self, r: &mut R) -> Result<u32, SnapFault>
        requires { R.failure_count r.old + 1 < 2 ^ 64 }
        ensures ok { IfOk result (λ n. (s : R) (task : Task) (k : ℕ → Reading) →
            HasJudged R.read_gives R.failure_count task s r.old self.old (number w32 k) →
            HasJudged R.read_gives R.failure_count task s r.new self.new (k n)) }
        ensures err { IfErr result (λ f. (s : R) (task : Task) (k : ℕ → Reading) →
            HasJudged R.read_gives R.failure_count task s r.old self.old (number w32 k) →
            Stops R.read_gives R.failure_count (R.at_end r.new) task s r.new f) }
        ensures no_failure { OnOk result (R.failure_count r.new ≡ R.failure_count r.old) }
    {
        self.need_field(r, 4)?;
        Ok(self.take_u32())
    }

    /// The next field of 4 bytes, which is to be from `low` to `high`.
    pub fn next_u32_in<R: Source>(
        &mut self,
        r: &mut R,
        low: u32,
        high: u32,
        kind: SnapFault,
    ) -> Result<u32, SnapFault>
        requires failures { R.failure_count r.old + 1 < 2 ^ 64 }
        requires judged { IsOfBytes kind }
        ensures bounds { IfOk result (λ n. (low ≤ n) × (n ≤ high)) }
        ensures ok { IfOk result (λ n. (s : R) (task : Task) (k : ℕ → Reading) →
            HasJudged R.read_gives R.failure_count task s r.old self.old (field_in w32 low high kind k) →
            HasJudged R.read_gives R.failure_count task s r.new self.new (k n)) }
        ensures err { IfErr result (λ f. (s : R) (task : Task) (k : ℕ → Reading) →
            HasJudged R.read_gives R.failure_count task s r.old self.old (field_in w32 low high kind k) →
            Stops R.read_gives R.failure_count (R.at_end r.new) task s r.new f) }
        ensures no_failure { OnOk result (R.failure_count r.new ≡ R.failure_count r.old) }
    {
        let n = self.next_u32(r)?;
        let wrong = is_outside(n as u64, low as u64, high as u64);
        refuse(wrong, kind)?;
        Ok(n)
    }

    /// The next field of 1 bytes.
    pub fn next_u8<R: Source>(&mut self, r: &mut R) -> Result<u8, SnapFault>
        requires { R.failure_count r.old + 1 < 2 ^ 64 }
        ensures ok { IfOk result (λ n. (s : R) (task : Task) (k : ℕ → Reading) →
            HasJudged R.read_gives R.failure_count task s r.old self.old (number w8 k) →
            HasJudged R.read_gives R.failure_count task s r.new self.new (k n)) }
        ensures err { IfErr result (λ f. (s : R) (task : Task) (k : ℕ → Reading) →
            HasJudged R.read_gives R.failure_count task s r.old self.old (number w8 k) →
            Stops R.read_gives R.failure_count (R.at_end r.new) task s r.new f) }
        ensures no_failure { OnOk result (R.failure_count r.new ≡ R.failure_count r.old) }
    {
        self.need_field(r, 1)?;
        Ok(self.take_u8())
    }

    /// The next field of 1 bytes, which is to be from `low` to `high`.
    pub fn next_u8_in<R: Source>(
        &mut self,
        r: &mut R,
        low: u8,
        high: u8,
        kind: SnapFault,
    ) -> Result<u8, SnapFault>
        requires failures { R.failure_count r.old + 1 < 2 ^ 64 }
        requires judged { IsOfBytes kind }
        ensures bounds { IfOk result (λ n. (low ≤ n) × (n ≤ high)) }
        ensures ok { IfOk result (λ n. (s : R) (task : Task) (k : ℕ → Reading) →
            HasJudged R.read_gives R.failure_count task s r.old self.old (field_in w8 low high kind k) →
            HasJudged R.read_gives R.failure_count task s r.new self.new (k n)) }
        ensures err { IfErr result (λ f. (s : R) (task : Task) (k : ℕ → Reading) →
            HasJudged R.read_gives R.failure_count task s r.old self.old (field_in w8 low high kind k) →
            Stops R.read_gives R.failure_count (R.at_end r.new) task s r.new f) }
        ensures no_failure { OnOk result (R.failure_count r.new ≡ R.failure_count r.old) }
    {
        let n = self.next_u8(r)?;
        let wrong = is_outside(n as u64, low as u64, high as u64);
        refuse(wrong, kind)?;
        Ok(n)
    }

    /// The next field of 4 bytes, which is to be the checksum of all bytes before it.
    fn next_check<R: Source>(&mut self, r: &mut R) -> Result<(), SnapFault>
        requires { R.failure_count r.old + 1 < 2 ^ 64 }
        ensures ok { OnOk result ((s : R) (task : Task) (k : Unit {0} → Reading) →
            HasJudged R.read_gives R.failure_count task s r.old self.old (check k) →
            HasJudged R.read_gives R.failure_count task s r.new self.new (k tt)) }
        ensures err { IfErr result (λ f. (s : R) (task : Task) (k : Unit {0} → Reading) →
            HasJudged R.read_gives R.failure_count task s r.old self.old (check k) →
            Stops R.read_gives R.failure_count (R.at_end r.new) task s r.new f) }
        ensures no_failure { OnOk result (R.failure_count r.new ≡ R.failure_count r.old) }
    {
        let due = self.sum();
        let n = self.next_u32(r)?;
        let wrong = n != due;
        refuse(wrong, SnapFault::BadCheck)?;
        Ok(())
    }

    /// The checksum that a file of this version has next: none before version 3.
    pub fn next_check_in<R: Source>(
        &mut self,
        r: &mut R,
        file_version: u32,
    ) -> Result<(), SnapFault>
        requires { R.failure_count r.old + 1 < 2 ^ 64 }
        ensures ok { OnOk result ((s : R) (task : Task) (k : Unit {0} → Reading) →
            HasJudged R.read_gives R.failure_count task s r.old self.old (check_in file_version k) →
            HasJudged R.read_gives R.failure_count task s r.new self.new (k tt)) }
        ensures err { IfErr result (λ f. (s : R) (task : Task) (k : Unit {0} → Reading) →
            HasJudged R.read_gives R.failure_count task s r.old self.old (check_in file_version k) →
            Stops R.read_gives R.failure_count (R.at_end r.new) task s r.new f) }
        ensures no_failure { OnOk result (R.failure_count r.new ≡ R.failure_count r.old) }
    {
        if file_version < CHECKED_VERSION {
            return Ok(());
        }
        self.next_check(r)?;
        Ok(())
    }

    /// Reads on to the end of the source, at which no byte may be left.
    pub fn expect_end<R: Source>(&mut self, r: &mut R) -> Result<(), SnapFault>
        requires { R.failure_count r.old + 1 < 2 ^ 64 }
        ensures ok { OnOk result ((s : R) (max_bytes : ℕ) (contents : Contents) →
            HasJudged R.read_gives R.failure_count (snapshot_task max_bytes) s r.old self.old (end contents) →
            ReadsSnapshot R.read_gives R.failure_count
            (R.at_end r.new) max_bytes s r.new contents.origin contents.setup contents.state) }
        ensures err { IfErr result (λ f. (s : R) (max_bytes : ℕ) (contents : Contents) →
            HasJudged R.read_gives R.failure_count (snapshot_task max_bytes) s r.old self.old (end contents) →
            Stops R.read_gives R.failure_count (R.at_end r.new) (snapshot_task max_bytes) s r.new f) }
    {
        let room = self.room();
        match self.need(r, 1) {
            Err(fault) => Err(fault),
            Ok(false) => Ok(()),
            Ok(true) => {
                if room == 0 {
                    Err(SnapFault::TooLong)
                } else {
                    Err(SnapFault::ExtraBytes)
                }
            }
        }
    }
}
