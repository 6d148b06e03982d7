//! A folder in memory, which fails where it is told to.
ghost use Rattle.std.specs.Prelude.{◌≡◌, ◌≢◌, ℕ, ◌+◌, ◌-◌, ◌<◌, ◌≤◌, ◌^◌, List, [], ◌∷◌, ◌++◌, length, Option, Some, None};
ghost use Rattle.std.specs.Prelude.{IsSome, IfSome, IfNone, OnOk, OnErr, IsTrue, ◌↔◌, not, filter, bytes_eq, vec_len, false};
ghost use Rattle.std.specs.Prelude.{string_bytes, slice_index_or, option_copied, vec_capacity};
ghost use Rattle.std.specs.Ordering.{nat_cmp};
ghost use Rattle.std.specs.Cmp.Lexicographic.{slice_cmp};
ghost use Rattle.std.specs.FinMap.{get, find};
ghost use Rattle.byte_io.specs.Streams.{Answer, answer_of};
ghost use Rattle.file_folder.specs.Files.{IsMoved};
ghost use Rattle.file_folder.specs.Memory.{listed, files_of, first_name, next_call, IsMemoryWrite};

use crate::calls::Folder;
use byte_io::DeviceFault;
use std::alloc::{AllocError, Global};

/// A folder in memory, which tells its files. One call of it fails, the one that `new` was told, and each for which
/// there is no memory; a failed call changes no file.
#[derive(Drop)]
pub struct MemoryFolder {
    alloc: Global,
    // The first under a name counts.
    files: Vec<(String, Vec<u8>)>,
    // Whether the first of all is the file last created.
    is_created: bool,
    calls: u64,
    fail_at: Option<u64>,
    failures: u64,
}

/// Where the first file of this name stands.
fn position_of(files: &[(String, Vec<u8>)], name: &str) -> Option<usize>
    ensures none { IfNone result (find (slice_cmp nat_cmp) name.now (listed files.now) ≡ None) }
    ensures within { IfSome result (λ i. i < length files.now) }
    ensures named { IfSome result (λ i. (d : _) → string_bytes (slice_index_or files.now i d).0 ≡ name.now) }
    ensures found { IfSome result (λ i. (d : _) → find (slice_cmp nat_cmp) name.now (listed files.now) ≡
        Some ((slice_index_or files.now i d).1.items)) }
{
    for (i, file) in files.iter().enumerate() {
        if name == file.0.as_str() {
            return Some(i);
        }
    }
    None
}

/// Puts an empty file before all others.
fn put_first(
    alloc: Global,
    files: &mut Vec<(String, Vec<u8>)>,
    name: &str,
) -> Result<(), AllocError>
    ensures ok { OnOk result (listed files.new.items ≡ (name.now, []) ∷ listed files.old.items) }
    ensures err { OnErr result (files.new.items ≡ files.old.items) }
{
    let made = String::from_str(alloc, name)?;
    match files.insert(0, (made, Vec::new(alloc))) {
        Ok(()) => Ok(()),
        Err(_) => Err(AllocError),
    }
}

/// Appends bytes to the first file.
fn append_first(files: &mut Vec<(String, Vec<u8>)>, bytes: &[u8]) -> Result<(), AllocError>
    requires { 0 < vec_len files.old }
    ensures ok { OnOk result ((name front : List ℕ) (rest : List (List ℕ × List ℕ)) →
        listed files.old.items ≡ (name, front) ∷ rest →
        listed files.new.items ≡ (name, front ++ bytes.now) ∷ rest) }
    ensures err { OnErr result (listed files.new.items ≡ listed files.old.items) }
{
    let first = &mut files[0];
    first.1.extend_from_slice(bytes)
}

/// Takes out all files of this name, and gives the bytes of the first.
fn take_out(files: &mut Vec<(String, Vec<u8>)>, name: &str) -> Option<Vec<u8>>
    ensures none { IfNone result (find (slice_cmp nat_cmp) name.now (listed files.old.items) ≡ None) }
    ensures some { IfSome result (λ bytes.
        find (slice_cmp nat_cmp) name.now (listed files.old.items) ≡ Some bytes.items) }
    ensures rest { IfSome result (λ _. listed files.new.items ≡
        filter (λ e. not (bytes_eq e.0 name.now)) (listed files.old.items)) }
    ensures room { IfSome result (λ _. vec_len files.new < vec_capacity files.new) }
{
    let at = position_of(files, name)?;
    let (_, bytes) = files.remove(at);
    files.retain(|file| file.0.as_str() != name);
    Some(bytes)
}

/// Moves the first file under `from` to `to`, before all others.
fn move_first(
    alloc: Global,
    files: &mut Vec<(String, Vec<u8>)>,
    from: &str,
    to: &str,
) -> Result<(), AllocError>
    requires { IsSome (get (files_of files.old.items) from.now) }
    ensures ok { OnOk result (IsMoved from.now to.now (files_of files.old.items) (files_of files.new.items)) }
    ensures err { OnErr result (files.new.items ≡ files.old.items) }
{
    let name = String::from_str(alloc, to)?;
    let Some(bytes) = take_out(files, from) else {
        unreachable!();
    };
    match files.insert(0, (name, bytes)) {
        Ok(()) => Ok(()),
        Err(_) => unreachable!(),
    }
}

impl MemoryFolder {
    /// A folder of these files, the first where a name stands twice, whose call number `fail_at`, counted from 0,
    /// fails.
    ///
    /// What is written is kept in memory of `alloc`, of which this call takes none. After 2^64 - 1 calls they are
    /// counted no further.
    pub fn new(alloc: Global, files: Vec<(String, Vec<u8>)>, fail_at: Option<u64>) -> MemoryFolder
        ensures files { result.files.items ≡ files.items }
        ensures created { result.is_created ≡ false }
        ensures calls { result.calls ≡ 0 }
        ensures fail_at { result.fail_at ≡ fail_at }
        ensures failures { result.failures ≡ 0 }
    {
        MemoryFolder {
            alloc,
            files,
            is_created: false,
            calls: 0,
            fail_at,
            failures: 0,
        }
    }

    /// The bytes of the file under a name. Looks through all files.
    pub fn file(&self, name: &str) -> Option<&[u8]>
        ensures { option_copied result ≡ get (files_of self.now.files.items) name.now }
    {
        let at = position_of(&self.files, name)?;
        Some(self.files[at].1.as_slice())
    }

    /// Counts a call, and tells whether it is the one that fails.
    fn is_refused(&mut self) -> bool
        ensures told { IsTrue result ↔ (self.old.fail_at ≡ Some self.old.calls) }
        ensures called { self.new ≡ record self.old { calls = next_call self.old.calls } }
    {
        let refused = self.fail_at == Some(self.calls);
        self.calls = self.calls.saturating_add(1);
        refused
    }

    /// Counts a call that fails.
    fn fail(&mut self) -> DeviceFault
        requires { self.old.failures + 1 < 2 ^ 64 }
        ensures { self.new ≡ record self.old { failures = self.old.failures + 1 } }
    {
        self.failures += 1;
        DeviceFault
    }
}

impl Folder for MemoryFolder {
    ghost files = { λ s. Some (files_of s.files.items) };

    ghost last_created = { λ s. first_name s.is_created (listed s.files.items) };

    ghost write_takes = { λ s offered answer t. IsMemoryWrite offered answer
        (first_name s.is_created (listed s.files.items)) (first_name t.is_created (listed t.files.items))
        (files_of s.files.items) (files_of t.files.items) };

    ghost call_gives = { λ s call answer t. t.calls ≡ next_call s.calls };

    ghost failure_count = { λ s. s.failures };

    ghost write_appends = { λ s t offered answer name h created. h.written name created };

    fn create(&mut self, name: &str) -> Result<(), DeviceFault> {
        self.is_created = false;
        if self.is_refused() {
            return Err(self.fail());
        }
        if put_first(self.alloc, &mut self.files, name).is_err() {
            return Err(self.fail());
        }
        self.is_created = true;
        Ok(())
    }

    fn write(&mut self, buf: &[u8]) -> Result<usize, DeviceFault> {
        if self.is_refused() || append_first(&mut self.files, buf).is_err() {
            return Err(self.fail());
        }
        Ok(buf.len())
    }

    fn sync(&mut self) -> Result<(), DeviceFault> {
        if self.is_refused() {
            return Err(self.fail());
        }
        Ok(())
    }

    fn rename(&mut self, from: &str, to: &str) -> Result<(), DeviceFault> {
        if self.is_refused() || move_first(self.alloc, &mut self.files, from, to).is_err() {
            return Err(self.fail());
        }
        self.is_created = false;
        Ok(())
    }

    fn failures(&self) -> u64 {
        self.failures
    }
}
