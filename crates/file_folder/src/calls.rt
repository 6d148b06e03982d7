//! The calls of a folder.
//!
//! As of a device, one call is a relation between what stands before it, its answer and what stands after it. A real
//! folder doesn't tell its files, since nobody knows them beforehand; of such a one the contracts say when it failed.
ghost use Rattle.std.specs.Prelude.{◌≡◌, ℕ, ◌+◌, ◌<◌, ◌≤◌, ◌^◌, List, length, Option, Some, None, IsSome, IfSome, IfOk};
ghost use Rattle.std.specs.Prelude.{OnOk, OnErr};
ghost use Rattle.std.specs.FinMap.{get};
ghost use Rattle.byte_io.specs.Streams.{Answer, answer_of};
ghost use Rattle.file_folder.specs.Files.{Files, WhereTold, KeepsOthers, IsMade, IsWritten, IsMoved};
ghost use Rattle.file_folder.specs.Calls.{FolderCall, Done, create, sync, rename};

use byte_io::DeviceFault;

/// A folder: a file is made in it, written and synced, and gets its name.
///
/// Contracts see the files, where the folder tells them, and the name last created: none at first, after a `create`
/// that failed, and after a `rename` that succeeded. A call answers `DeviceFault` exactly where it adds one to
/// `failures`, and at most 2^64 - 1 calls may fail.
pub trait Folder {
    // The files, or None where the folder doesn't tell them.
    ghost files: { Self → Option Files };

    // The name last created.
    ghost last_created: { Self → Option (List ℕ) };

    // What a call of `write` that is offered these bytes may answer, with those that it took, and what it leaves.
    ghost write_takes: { Self → List ℕ → Answer → Self → Type 0 };

    // What any other call may answer, and what it leaves.
    ghost call_gives: { Self → FolderCall → Done → Self → Type 0 };

    // How many calls have failed.
    ghost failure_count: { Self → ℕ };

    /// Makes the file empty, in the place of one that has its name. After an Err it may be there or not.
    fn create(&mut self, name: &str) -> Result<(), DeviceFault>
        requires { failure_count self.old + 1 < 2 ^ 64 }
        ensures answer { call_gives self.old (create name.now) result self.new }
        ensures made { OnOk result (WhereTold (IsMade name.now) (files self.old) (files self.new)) }
        ensures not_made { OnErr result (WhereTold (KeepsOthers name.now) (files self.old) (files self.new)) }
        ensures created { OnOk result (last_created self.new ≡ Some name.now) }
        ensures none_created { OnErr result (last_created self.new ≡ None) }
        ensures ok { OnOk result (failure_count self.new ≡ failure_count self.old) }
        ensures err { OnErr result (failure_count self.new ≡ failure_count self.old + 1) };

    /// Appends bytes from the front of `buf` to the file last created, and answers how many, which may be fewer than
    /// all and even none. After an Err nothing is known of that file.
    fn write(&mut self, buf: &[u8]) -> Result<usize, DeviceFault>
        requires failures { failure_count self.old + 1 < 2 ^ 64 }
        requires created { IsSome (last_created self.old) }
        ensures bound { IfOk result (λ n. n ≤ length buf.now) }
        ensures takes { write_takes self.old buf.now (answer_of result buf.now) self.new }
        ensures ok { OnOk result (failure_count self.new ≡ failure_count self.old) }
        ensures err { OnErr result (failure_count self.new ≡ failure_count self.old + 1) };

    /// Brings the file last created to where it outlasts a crash. After an Err nothing is known of that file.
    fn sync(&mut self) -> Result<(), DeviceFault>
        requires failures { failure_count self.old + 1 < 2 ^ 64 }
        requires created { IsSome (last_created self.old) }
        ensures answer { call_gives self.old sync result self.new }
        ensures same { OnOk result (files self.new ≡ files self.old) }
        ensures others { OnErr result ((name : List ℕ) → last_created self.old ≡ Some name →
            WhereTold (KeepsOthers name) (files self.old) (files self.new)) }
        ensures created { last_created self.new ≡ last_created self.old }
        ensures ok { OnOk result (failure_count self.new ≡ failure_count self.old) }
        ensures err { OnErr result (failure_count self.new ≡ failure_count self.old + 1) };

    /// Moves the file `from`, which is there, over the name `to`. An Err changed nothing.
    fn rename(&mut self, from: &str, to: &str) -> Result<(), DeviceFault>
        requires failures { failure_count self.old + 1 < 2 ^ 64 }
        requires is_there { IfSome (files self.old) (λ m. IsSome (get m from.now)) }
        ensures answer { call_gives self.old (rename from.now to.now) result self.new }
        ensures moved { OnOk result (WhereTold (IsMoved from.now to.now) (files self.old) (files self.new)) }
        ensures none_created { OnOk result (last_created self.new ≡ None) }
        ensures same { OnErr result (files self.new ≡ files self.old) }
        ensures created { OnErr result (last_created self.new ≡ last_created self.old) }
        ensures ok { OnOk result (failure_count self.new ≡ failure_count self.old) }
        ensures err { OnErr result (failure_count self.new ≡ failure_count self.old + 1) };

    /// How many calls have failed.
    fn failures(&self) -> u64
        ensures { result ≡ failure_count self.now };

    // What a write takes stands behind what the file last created had, and that stays the file last created.
    ghost write_appends: { (s t : Self) (offered : List ℕ) (answer : Answer) (name : List ℕ) →
        write_takes s offered answer t → last_created s ≡ Some name →
        (last_created t ≡ Some name) × WhereTold (IsWritten name answer) (files s) (files t) };
}
