//! The calls of a log's folder.
//!
//! As of a device, one call is a relation between what stands before it, its answer and what stands after it. A real
//! folder doesn't tell its files, since nobody knows them beforehand; of such a one the contracts say which calls were
//! made, and which failed.
ghost use Rattle.std.specs.Prelude.{◌≡◌, ◌⊎◌, ◌↔◌, ℕ, ◌+◌, ◌<◌, ◌^◌, List, length, Option, Some, None, IfSome};
ghost use Rattle.std.specs.Prelude.{IfNone, IfOk, OnOk, OnErr, false};
ghost use Rattle.file_folder.specs.Calls.{Done};
ghost use Rattle.log_folder.specs.Names.{LogCall, find, make_new, take_name, sync_names, done_of, KeepsName};
ghost use Rattle.log_folder.specs.Names.{IsFreshFile, IsDurable, MayName};

use byte_io::DeviceFault;
use log_disk::LogDisk;

/// A file of a log, with the number that the folder gave it. Each file that a folder makes or finds has a number of its
/// own.
#[derive(Drop)]
pub struct NumberedFile<D> {
    pub disk: D,
    pub number: u64,
}

/// The file that stands under the name, and how many bytes it had when it was found.
#[derive(Drop)]
pub struct FoundFile<D> {
    pub file: NumberedFile<D>,
    pub length: u64,
}

/// The folder of one log: the file under its name, and the new one beside it, which has `.new` behind the name.
///
/// Contracts see the number of the file that stands under the name, and which files a loss of power may leave there:
/// one that stood there before a rename may come back until the folder is synced. What a loss of power leaves of a
/// file's bytes says the file. A call answers `DeviceFault` exactly where it adds one to `failures`, and at most
/// 2^64 - 1 calls may fail.
pub trait LogFolder {
    /// A file of the folder.
    type Disk: LogDisk + Drop;

    // Whether the folder tells what stands under the name, which doesn't change.
    ghost tells: { Self → Type 0 };

    // What an opening of the file under the name gives.
    ghost stored: { Self → Self.Disk → Type 0 };

    // The number of the file under the name, if one stands there.
    ghost named: { Self → Option ℕ };

    // The number of the new file, if one stands beside the name.
    ghost made: { Self → Option ℕ };

    // Which file a loss of power at this moment, or in the call that led to it, may leave under the name.
    ghost may_name: { Self → Option ℕ → Type 0 };

    // What a call may answer, and what it leaves.
    ghost call_gives: { Self → LogCall → Done → Self → Type 0 };

    // How many calls have failed.
    ghost failure_count: { Self → ℕ };

    /// Opens the file under the name, None where nothing stands there.
    fn find(&mut self) -> Result<Option<FoundFile<Self::Disk>>, DeviceFault>
        requires { failure_count self.old + 1 < 2 ^ 64 }
        ensures answer { call_gives self.old find (done_of result) self.new }
        ensures tells { tells self.old ↔ tells self.new }
        ensures found { tells self.old → IfOk result (λ found. IfSome found (λ f.
            stored self.old f.file.disk × (named self.old ≡ Some f.file.number)
            × (f.length ≡ length (Self.Disk.written f.file.disk)))) }
        // Files that tell what they hold are those of a folder that tells.
        ensures teller { (disk : Self.Disk) → Self.Disk.tells disk → tells self.old }
        ensures none { tells self.old → IfOk result (λ found. IfNone found (named self.old ≡ None)) }
        ensures same { tells self.old → KeepsName named may_name self.old self.new }
        ensures sound { IfOk result (λ found. IfSome found (λ f.
            (Self.Disk.in_doubt f.file.disk ≡ false) × (Self.Disk.failure_count f.file.disk ≡ 0))) }
        ensures ok { OnOk result (failure_count self.new ≡ failure_count self.old) }
        ensures err { OnErr result (failure_count self.new ≡ failure_count self.old + 1) };

    /// Makes the new file, empty, in the place of what stands under its name. It gets the access of the file that it is
    /// to replace.
    fn make_new(&mut self) -> Result<NumberedFile<Self::Disk>, DeviceFault>
        requires { failure_count self.old + 1 < 2 ^ 64 }
        ensures answer { call_gives self.old make_new (done_of result) self.new }
        ensures tells { tells self.old ↔ tells self.new }
        ensures told { tells self.old → IfOk result (λ file. Self.Disk.tells file.disk) }
        ensures file { IfOk result (λ file. Self.Disk.tells file.disk →
            IsFreshFile Self.Disk.written Self.Disk.may_leave file.disk) }
        ensures made { tells self.old → IfOk result (λ file. made self.new ≡ Some file.number) }
        ensures unused { tells self.old → IfOk result (λ file. may_name self.old (Some file.number) → ⊥) }
        ensures same { tells self.old → KeepsName named may_name self.old self.new }
        ensures sound { IfOk result (λ file.
            (Self.Disk.in_doubt file.disk ≡ false) × (Self.Disk.failure_count file.disk ≡ 0)) }
        ensures ok { OnOk result (failure_count self.new ≡ failure_count self.old) }
        ensures err { OnErr result (failure_count self.new ≡ failure_count self.old + 1) };

    /// Gives the new file the name. It is durable already: whatever a loss of power leaves under the name has all of
    /// its bytes. After an Err either may stand there.
    fn take_name(&mut self, file: &NumberedFile<Self::Disk>) -> Result<(), DeviceFault>
        requires failures { failure_count self.old + 1 < 2 ^ 64 }
        requires made { tells self.old → made self.old ≡ Some file.now.number }
        requires durable { tells self.old → IsDurable Self.Disk.written Self.Disk.may_leave file.now.disk }
        ensures answer { call_gives self.old (take_name file.now.number) result self.new }
        ensures tells { tells self.old ↔ tells self.new }
        ensures moved { tells self.old → OnOk result (named self.new ≡ Some file.now.number) }
        ensures unsure { tells self.old →
            OnErr result ((named self.new ≡ named self.old) ⊎ (named self.new ≡ Some file.now.number)) }
        ensures crash { tells self.old → MayName may_name self.old self.new file.now.number }
        ensures lost { OnErr result Self.Disk.lost_name }
        ensures ok { OnOk result (failure_count self.new ≡ failure_count self.old) }
        ensures err { OnErr result (failure_count self.new ≡ failure_count self.old + 1) };

    /// Makes the name durable: from then on a loss of power leaves the file that stands there. So it does with the name
    /// of the snapshot beside which the log stands, if there is one.
    fn sync_names(&mut self) -> Result<(), DeviceFault>
        requires { failure_count self.old + 1 < 2 ^ 64 }
        ensures answer { call_gives self.old sync_names result self.new }
        ensures tells { tells self.old ↔ tells self.new }
        ensures durable { tells self.old → OnOk result ((x : Option ℕ) → may_name self.new x → x ≡ named self.new) }
        ensures same { tells self.old → KeepsName named may_name self.old self.new }
        ensures stored { tells self.old → (disk : Self.Disk) → stored self.new disk → stored self.old disk }
        ensures lost { OnErr result Self.Disk.lost_name }
        ensures ok { OnOk result (failure_count self.new ≡ failure_count self.old) }
        ensures err { OnErr result (failure_count self.new ≡ failure_count self.old + 1) };

    /// Removes the new file, if it is there and that can be done, so that it takes no room.
    fn remove_new(&mut self)
        ensures tells { tells self.old ↔ tells self.new }
        ensures same { tells self.old → KeepsName named may_name self.old self.new }
        ensures failures { failure_count self.new ≡ failure_count self.old };

    /// How many calls have failed.
    fn failures(&self) -> u64
        ensures { result ≡ failure_count self.now };

    // A folder tells what stands under the name where its files tell what they hold.
    ghost files_tell: { (folder : Self) → tells folder ↔ Self.Disk.telling };
}
