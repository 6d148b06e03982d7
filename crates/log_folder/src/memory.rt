//! A log's folder in memory, which fails where it is told to.
ghost use Rattle.std.specs.Prelude.{◌≡◌, ◌⊎◌, ℕ, ◌+◌, ◌<◌, ◌^◌, Option, Some, ⊤, OnOk, false};
ghost use Rattle.log_folder.specs.Memory.{IsAmong, IsLeft};

use crate::calls::{FoundFile, LogFolder, NumberedFile};
use byte_io::DeviceFault;
use log_disk::{LogDisk, MemoryDisk, Picks};
use std::alloc::{AllocError, Global};

/// The file under a name, and what else a loss of power may leave there.
#[derive(Drop)]
struct Names {
    named: Option<u64>,
    older: Vec<Option<u64>>,
}

/// The calls so far, which one fails, and how many have failed.
#[derive(Drop)]
struct Calls {
    // After 2^64 - 1 calls they are counted no further.
    made: u64,
    fail_at: Option<u64>,
    failed: u64,
}

/// A folder in memory, which tells what stands under the name, for tests. One call of it fails, the one that `new` was
/// told, and each for which there is no memory; a rename that fails so may be done all the same.
///
/// It lends its files out, each once, and doesn't see what becomes of them. What a loss of power leaves is one of the
/// files that `named` and `older` number, as a loss of power leaves that.
#[derive(Drop)]
pub struct MemoryLogFolder {
    alloc: Global,
    // The file under the name, for who opens it.
    stored: Option<MemoryDisk>,
    names: Names,
    // The number of the new file.
    made: Option<u64>,
    next: u64,
    picks: Picks,
    calls: Calls,
    // Which call of each new file fails.
    disk_fail_at: Option<u64>,
}

/// Whether a number is among these.
fn is_among(names: &[Option<u64>], number: u64) -> bool
    ensures { result ≡ false → IsAmong (Some number) names.now → ⊥ }
{
    for i in 0..names.len() {
        if names[i] == Some(number) {
            return true;
        }
    }
    false
}

impl Names {
    /// Whether a loss of power may leave the file of this number.
    fn has(&self, number: u64) -> bool
        ensures { result ≡ false → IsLeft self.now.named self.now.older.items (Some number) → ⊥ }
    {
        self.named == Some(number) || is_among(&self.older, number)
    }

    /// Puts a file in the place of the one under the name. An Err, for want of memory, changed nothing.
    fn put(&mut self, number: u64) -> Result<(), AllocError>
        ensures done { OnOk result (self.new.named ≡ Some number) }
        ensures either { (self.new.named ≡ self.old.named) ⊎ (self.new.named ≡ Some number) }
        ensures crash { (x : Option ℕ) → IsLeft self.new.named self.new.older.items x →
            IsLeft self.old.named self.old.older.items x ⊎ (x ≡ Some number) }
    {
        self.older.push(self.named)?;
        self.named = Some(number);
        Ok(())
    }

    /// Puts it there or not.
    fn put_perhaps(&mut self, number: u64, is_done: bool)
        ensures either { (self.new.named ≡ self.old.named) ⊎ (self.new.named ≡ Some number) }
        ensures crash { (x : Option ℕ) → IsLeft self.new.named self.new.older.items x →
            IsLeft self.old.named self.old.older.items x ⊎ (x ≡ Some number) }
    {
        if is_done {
            let _ = self.put(number);
        }
    }

    /// Makes the name durable.
    fn sync(&mut self)
        ensures named { self.new.named ≡ self.old.named }
        ensures durable { (x : Option ℕ) → IsLeft self.new.named self.new.older.items x → x ≡ self.new.named }
        ensures crash { (x : Option ℕ) → IsLeft self.new.named self.new.older.items x →
            IsLeft self.old.named self.old.older.items x }
    {
        self.older.clear();
    }
}

impl Calls {
    /// Counts a call, and tells whether it is the one that fails.
    fn next_fails(&mut self) -> bool
        ensures { self.new.failed ≡ self.old.failed }
    {
        let fails = self.fail_at == Some(self.made);
        self.made = self.made.saturating_add(1);
        fails
    }

    /// Counts a call that failed.
    fn fail(&mut self) -> DeviceFault
        requires { self.old.failed + 1 < 2 ^ 64 }
        ensures { self.new.failed ≡ self.old.failed + 1 }
    {
        self.failed += 1;
        DeviceFault
    }
}

impl MemoryLogFolder {
    /// A folder with this file under the name, which is durable there and has the number 0, or with none. Its call
    /// number `fail_at`, counted from 0, fails, and call number `disk_fail_at` of each file that it makes. What a
    /// failed call leaves follows from the seed.
    pub fn new(
        alloc: Global,
        stored: Option<MemoryDisk>,
        seed: u64,
        fail_at: Option<u64>,
        disk_fail_at: Option<u64>,
    ) -> MemoryLogFolder
        ensures { result.calls.failed ≡ 0 }
    {
        let named = if stored.is_some() { Some(0) } else { None };
        let older = Vec::new(alloc);
        MemoryLogFolder {
            alloc,
            stored,
            names: Names { named, older },
            made: None,
            next: 1,
            picks: Picks::new(seed),
            calls: Calls {
                made: 0,
                fail_at,
                failed: 0,
            },
            disk_fail_at,
        }
    }

    /// The number of the file under the name.
    pub fn named(&self) -> Option<u64>
        ensures { result ≡ self.now.names.named }
    {
        self.names.named
    }

    /// The numbers of the files that a loss of power may leave under the name beside that one.
    pub fn older(&self) -> &[Option<u64>]
        ensures { result.now ≡ self.now.names.older.items }
    {
        &self.names.older
    }
}

impl LogFolder for MemoryLogFolder {
    type Disk = MemoryDisk;

    ghost tells = { λ s. ⊤ };

    ghost stored = { λ s disk. s.stored ≡ Some disk };

    ghost named = { λ s. s.names.named };

    ghost made = { λ s. s.made };

    ghost may_name = { λ s x. IsLeft s.names.named s.names.older.items x };

    ghost call_gives = { λ s call answer t. ⊤ };

    ghost failure_count = { λ s. s.calls.failed };

    ghost files_tell = { λ folder. (λ told. told, λ told. told) };

    /// A file that is lent already isn't found, and one that has failed.
    fn find(&mut self) -> Result<Option<FoundFile<MemoryDisk>>, DeviceFault> {
        if self.calls.next_fails() {
            return Err(self.calls.fail());
        }
        let Some(number) = self.names.named else {
            return Ok(None);
        };
        let Some(disk) = self.stored.take() else {
            return Err(self.calls.fail());
        };
        if disk.failures() != 0 || disk.is_in_doubt() {
            return Err(self.calls.fail());
        }
        let length = disk.bytes().len() as u64;
        let file = NumberedFile { disk, number };
        Ok(Some(FoundFile { file, length }))
    }

    #[tactic(auto, using(crate::proofs::Fresh::pends, crate::proofs::Fresh::empty, crate::proofs::Fresh::loss))]
    fn make_new(&mut self) -> Result<NumberedFile<MemoryDisk>, DeviceFault> {
        let number = self.next;
        if self.calls.next_fails() || number == u64::MAX || self.names.has(number) {
            return Err(self.calls.fail());
        }
        let seed = self.picks.below(1 << 30) as u64;
        let Ok(disk) = MemoryDisk::new(self.alloc, &[], seed, self.disk_fail_at) else {
            return Err(self.calls.fail());
        };
        self.made = Some(number);
        self.next = number + 1;
        Ok(NumberedFile { disk, number })
    }

    fn take_name(&mut self, file: &NumberedFile<MemoryDisk>) -> Result<(), DeviceFault> {
        if self.calls.next_fails() {
            let is_done = self.picks.below(2) == 1;
            self.names.put_perhaps(file.number, is_done);
            return Err(self.calls.fail());
        }
        match self.names.put(file.number) {
            Ok(()) => Ok(()),
            Err(_) => Err(self.calls.fail()),
        }
    }

    fn sync_names(&mut self) -> Result<(), DeviceFault> {
        if self.calls.next_fails() {
            return Err(self.calls.fail());
        }
        self.names.sync();
        Ok(())
    }

    fn remove_new(&mut self) {
        self.made = None;
    }

    fn failures(&self) -> u64 {
        self.calls.failed
    }
}
