//! The bytes of a source as pages.
ghost use Rattle.std.specs.Prelude.{◌≡◌, ℕ, ◌+◌, ◌/◌, ◌<◌, ◌≤◌, ◌^◌, List, [], ◌++◌, length, take, drop, IfOk, OnOk};
ghost use Rattle.std.specs.Prelude.{IfErr, IsTrue, IsFalse, slice_index};
ghost use Rattle.log_page.specs.Pages.{IsBytes};
ghost use Rattle.log_read.specs.Given.{HasDrained, HasEnded, HasFailed, HasNext, IsAt};

use byte_io::{READ_CAPACITY, ReadBuffer, Source};
use log_blocks::LogKind;
use log_page::PAGE;
use std::alloc::{AllocError, Global};
use std::cmp;

/// The bytes that came from a source and weren't handed on yet, how many came in all, and how many may come.
#[derive(Drop)]
pub struct PageSource {
    buffer: ReadBuffer,
    came: u64,
    max_bytes: u64,
}

/// How many bytes to ask for, where so many may come.
fn bytes_wanted(room: u64) -> usize
    ensures some { 0 < room → 0 < result }
    ensures most { result ≤ room }
{
    cmp::min(room, READ_CAPACITY as u64) as usize
}

/// How many bytes of a page are there, where so many are pending.
fn bytes_of_page(pending: usize) -> usize
    ensures most { result ≤ 4096 }
    ensures within { result ≤ pending }
    ensures short { pending < 4096 → result ≡ pending }
    ensures long { 4096 ≤ pending → result ≡ 4096 }
{
    cmp::min(pending, PAGE)
}

/// Copies the first bytes of a page, and 00 behind them.
fn copy_page(bytes: &[u8], page: &mut [u8; PAGE])
    ensures long { length page.new ≡ 4096 }
    ensures bytes { IsBytes page.new }
    ensures same { (k : ℕ) → k < 4096 → slice_index page.new k ≡ slice_index bytes.now k }
{
    for i in 0..PAGE {
        page[i] = if i < bytes.len() { bytes[i] } else { 0 };
    }
}

impl PageSource {
    /// One read, of no more than the byte that is one too many. It answers how many bytes came: none at the end.
    fn fill<R: Source>(&mut self, r: &mut R) -> Result<usize, LogKind>
        requires failures { R.failure_count r.old + 1 < 2 ^ 64 }
        requires short { length self.old.buffer < 4096 }
        requires within { self.old.came ≤ self.old.max_bytes }
        requires limit { self.old.max_bytes < 2 ^ 50 }
        ensures limit { self.new.max_bytes ≡ self.old.max_bytes }
        ensures within { OnOk result (self.new.came ≤ self.new.max_bytes) }
        ensures came { IfOk result (λ n. self.new.came ≡ self.old.came + n) }
        ensures grows { IfOk result (λ n. length self.new.buffer ≡ length self.old.buffer + n) }
        ensures no_failure { OnOk result (R.failure_count r.new ≡ R.failure_count r.old) }
        ensures some { IfOk result (λ n. 0 < n → (s : R) (done : List ℕ) →
            IsAt R.read_gives R.failure_count s r.old self.old done →
            IsAt R.read_gives R.failure_count s r.new self.new done) }
        ensures end { IfOk result (λ n. n ≡ 0 → (s : R) (done : List ℕ) →
            IsAt R.read_gives R.failure_count s r.old self.old done →
            HasEnded R.read_gives R.failure_count (R.at_end r.new) self.old.max_bytes s r.new
            (done ++ self.new.buffer)) }
        ensures err { IfErr result (λ kind. (s : R) (done : List ℕ) →
            IsAt R.read_gives R.failure_count s r.old self.old done →
            HasFailed R.read_gives R.failure_count self.old.max_bytes s r.new kind) }
    {
        let room = self.max_bytes - self.came + 1;
        let most = bytes_wanted(room);
        match self.buffer.fill(r, most) {
            Err(_) => Err(LogKind::Read),
            Ok(n) => {
                self.came += n as u64;
                if self.came > self.max_bytes {
                    return Err(LogKind::TooLong);
                }
                Ok(n)
            }
        }
    }

    /// Reads until a page is pending (true), or the source has ended (false).
    fn need<R: Source>(&mut self, r: &mut R) -> Result<bool, LogKind>
        requires failures { R.failure_count r.old + 1 < 2 ^ 64 }
        requires within { self.old.came ≤ self.old.max_bytes }
        requires limit { self.old.max_bytes < 2 ^ 50 }
        ensures limit { self.new.max_bytes ≡ self.old.max_bytes }
        ensures within { OnOk result (self.new.came ≤ self.new.max_bytes) }
        ensures came { OnOk result (self.new.came + length self.old.buffer ≡ self.old.came + length self.new.buffer) }
        ensures no_failure { OnOk result (R.failure_count r.new ≡ R.failure_count r.old) }
        ensures long { IfOk result (λ b. IsTrue b → 4096 ≤ length self.new.buffer) }
        ensures short { IfOk result (λ b. IsFalse b → length self.new.buffer < 4096) }
        ensures yes { IfOk result (λ b. IsTrue b → (s : R) (done : List ℕ) →
            IsAt R.read_gives R.failure_count s r.old self.old done →
            IsAt R.read_gives R.failure_count s r.new self.new done) }
        ensures no { IfOk result (λ b. IsFalse b → (s : R) (done : List ℕ) →
            IsAt R.read_gives R.failure_count s r.old self.old done →
            HasEnded R.read_gives R.failure_count (R.at_end r.new) self.old.max_bytes s r.new
            (done ++ self.new.buffer)) }
        ensures err { IfErr result (λ kind. (s : R) (done : List ℕ) →
            IsAt R.read_gives R.failure_count s r.old self.old done →
            HasFailed R.read_gives R.failure_count self.old.max_bytes s r.new kind) }
    {
        'pieces: while self.buffer.pending().len() < PAGE {
            match self.fill(r) {
                Err(kind) => return Err(kind),
                Ok(0) => return Ok(false),
                Ok(_) => {}
            }
        }
        Ok(true)
    }

    /// A source of which nothing was read.
    pub fn new(alloc: Global, max_bytes: u64) -> Result<PageSource, AllocError>
        ensures { IfOk result (λ source. (source.buffer ≡ []) × (source.came ≡ 0) × (source.max_bytes ≡ max_bytes)) }
    {
        let buffer = ReadBuffer::new(alloc)?;
        Ok(PageSource {
            buffer,
            came: 0,
            max_bytes,
        })
    }

    /// The next page, with 00 behind the end of the bytes. It answers how many bytes of it came: fewer than a page has
    /// only where the source has ended.
    pub fn next<R: Source>(&mut self, r: &mut R, page: &mut [u8; PAGE]) -> Result<usize, LogKind>
        requires failures { R.failure_count r.old + 1 < 2 ^ 64 }
        requires within { self.old.came ≤ self.old.max_bytes }
        requires limit { self.old.max_bytes < 2 ^ 50 }
        ensures limit { self.new.max_bytes ≡ self.old.max_bytes }
        ensures within { OnOk result (self.new.came ≤ self.new.max_bytes) }
        ensures no_failure { OnOk result (R.failure_count r.new ≡ R.failure_count r.old) }
        ensures most { IfOk result (λ n. n ≤ 4096) }
        ensures bytes { OnOk result (IsBytes page.new) }
        ensures long { OnOk result (length page.new ≡ 4096) }
        ensures consumed { IfOk result (λ n. self.new.came + length self.old.buffer ≡
            self.old.came + length self.new.buffer + n) }
        ensures ok { IfOk result (λ n. (s : R) (done : List ℕ) →
            IsAt R.read_gives R.failure_count s r.old self.old done →
            HasNext R.read_gives R.failure_count (R.at_end r.new) s r.new self.new done n page.new) }
        ensures err { IfErr result (λ kind. (s : R) (done : List ℕ) →
            IsAt R.read_gives R.failure_count s r.old self.old done →
            HasFailed R.read_gives R.failure_count self.old.max_bytes s r.new kind) }
    {
        match self.need(r) {
            Err(kind) => Err(kind),
            Ok(_) => Ok(self.hand_on(page)),
        }
    }

    // Hands on the first bytes that are pending: those of a page, or as many as there are.
    fn hand_on(&mut self, page: &mut [u8; PAGE]) -> usize
        ensures limit { self.new.max_bytes ≡ self.old.max_bytes }
        ensures came { self.new.came ≡ self.old.came }
        ensures most { result ≤ 4096 }
        ensures within { result ≤ length self.old.buffer }
        ensures short { length self.old.buffer < 4096 → result ≡ length self.old.buffer }
        ensures long { 4096 ≤ length self.old.buffer → result ≡ 4096 }
        ensures buffer { self.new.buffer ≡ drop result self.old.buffer }
        ensures page_long { length page.new ≡ 4096 }
        ensures bytes { IsBytes page.new }
        ensures same { (k : ℕ) → k < 4096 → slice_index page.new k ≡ slice_index (take result self.old.buffer) k }
    {
        let pending = self.buffer.pending();
        let count = bytes_of_page(pending.len());
        copy_page(&pending[..count], page);
        self.buffer.consume(count);
        count
    }

    // Passes over what is pending, and reads once.
    fn skip<R: Source>(&mut self, r: &mut R) -> Result<usize, LogKind>
        requires failures { R.failure_count r.old + 1 < 2 ^ 64 }
        requires within { self.old.came ≤ self.old.max_bytes }
        requires limit { self.old.max_bytes < 2 ^ 50 }
        ensures limit { self.new.max_bytes ≡ self.old.max_bytes }
        ensures within { OnOk result (self.new.came ≤ self.new.max_bytes) }
        ensures came { IfOk result (λ n. self.new.came ≡ self.old.came + n) }
        ensures no_failure { OnOk result (R.failure_count r.new ≡ R.failure_count r.old) }
        ensures some { IfOk result (λ n. 0 < n → (s : R) (done : List ℕ) →
            IsAt R.read_gives R.failure_count s r.old self.old done →
            IsAt R.read_gives R.failure_count s r.new self.new (done ++ self.old.buffer)) }
        ensures end { IfOk result (λ n. n ≡ 0 → (s : R) (done : List ℕ) →
            IsAt R.read_gives R.failure_count s r.old self.old done →
            HasEnded R.read_gives R.failure_count (R.at_end r.new) self.old.max_bytes s r.new
            ((done ++ self.old.buffer) ++ self.new.buffer)) }
        ensures err { IfErr result (λ kind. (s : R) (done : List ℕ) →
            IsAt R.read_gives R.failure_count s r.old self.old done →
            HasFailed R.read_gives R.failure_count self.old.max_bytes s r.new kind) }
    {
        let count = self.buffer.pending().len();
        self.buffer.consume(count);
        match self.fill(r) {
            Ok(n) => Ok(n),
            Err(kind) => Err(kind),
        }
    }

    /// Reads to the end of the source, and forgets what comes. More bytes than may come are `TooLong`.
    pub fn drain<R: Source>(&mut self, r: &mut R) -> Result<(), LogKind>
        requires failures { R.failure_count r.old + 1 < 2 ^ 64 }
        requires within { self.old.came ≤ self.old.max_bytes }
        requires limit { self.old.max_bytes < 2 ^ 50 }
        ensures limit { self.new.max_bytes ≡ self.old.max_bytes }
        ensures ok { OnOk result ((s : R) (done : List ℕ) →
            IsAt R.read_gives R.failure_count s r.old self.old done →
            HasDrained R.read_gives R.failure_count (R.at_end r.new) self.old.max_bytes s r.new
            (done ++ self.old.buffer)) }
        ensures err { IfErr result (λ kind. (s : R) (done : List ℕ) →
            IsAt R.read_gives R.failure_count s r.old self.old done →
            HasFailed R.read_gives R.failure_count self.old.max_bytes s r.new kind) }
    {
        'pieces: loop {
            match self.skip(r) {
                Err(kind) => return Err(kind),
                Ok(0) => return Ok(()),
                Ok(_) => {}
            }
        }
    }

    /// The page of the byte that is one too many.
    pub fn last_page(&self) -> u64
        ensures { result ≡ self.now.max_bytes / 4096 }
    {
        self.max_bytes / PAGE as u64
    }
}
