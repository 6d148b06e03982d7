//! The calls of a log's file: what a read gives, and what a loss of power may leave.
//!
//! The file is seen as what is written, which is what a read gives; as the files that a loss of power may leave at this
//! moment; and as the bytes that the next sync makes durable. A real file doesn't tell them, since nobody knows them
//! beforehand; of such a one the contracts say when it failed.
ghost use Rattle.std.specs.Prelude.{◌≡◌, ℕ, ◌+◌, ◌<◌, ◌≤◌, ◌^◌, List, length, slice_index, OnOk, OnErr, Bool};
ghost use Rattle.std.specs.Prelude.{true, false};
ghost use Rattle.log_disk.specs.Disk.{Holds, HoldsSome, IsCut, MayBeCut, Follows, Elapses};

use byte_io::DeviceFault;

/// The file of a log. Behind its end a file is 00 without end.
///
/// A call answers `DeviceFault` exactly where it adds one to `failures`, and at most 2^64 - 1 calls may fail. Once a
/// `write_at`, a `cut` or a `sync` has failed, nobody knows what the file has, or what of it is durable: it is in
/// doubt, and no other call may be made. Only who opens the file anew finds out.
pub trait LogDisk {
    // Whether files of this type tell what they hold, where whoever made one says that it does.
    ghost telling: { Type 0 };

    // Whether the file tells what it holds. A file that tells goes on so.
    ghost tells: { Self → Type 0 };

    // The bytes that a read gives.
    ghost written: { Self → List ℕ };

    // What a loss of power at this moment may leave.
    ghost may_leave: { Self → List ℕ → Type 0 };

    // The byte was written since the file was opened or last synced, so that a sync makes it durable. Of a byte that
    // was written before a sync that failed, or before the file was opened, a sync says nothing.
    ghost is_fresh: { Self → ℕ → Type 0 };

    // The moment, as a number that doesn't fall.
    ghost moment: { Self → ℕ };

    // What a loss of power at some moment from that one on might have left, during a call or between two.
    ghost left_since: { Self → ℕ → List ℕ → Type 0 };

    // How many calls have failed.
    ghost failure_count: { Self → ℕ };

    // Whether a write, a cut or a sync has failed.
    ghost in_doubt: { Self → Bool };

    // A folder of such files has answered a failure to a rename, or to a sync of its names.
    ghost lost_name: { Type 0 };

    /// Reads bytes of the file into the whole of `buf`, 00 behind the end. After an Err nothing is known of `buf`.
    fn read_at(&mut self, at: u64, buf: &mut [u8]) -> Result<(), DeviceFault>
        requires working { in_doubt self.old ≡ false }
        requires failures { failure_count self.old + 1 < 2 ^ 64 }
        ensures read { tells self.old → OnOk result ((j : ℕ) → j < length buf.new →
            slice_index buf.new j ≡ slice_index (written self.old) (at + j)) }
        ensures tells { tells self.old → tells self.new }
        ensures same { tells self.old → written self.new ≡ written self.old }
        ensures still { tells self.old → (i : ℕ) → is_fresh self.old i → is_fresh self.new i }
        ensures crash { tells self.old → (left : List ℕ) → may_leave self.new left → may_leave self.old left }
        ensures time { tells self.old → Elapses (moment self.old) (moment self.new)
            (left_since self.old) (left_since self.new) (may_leave self.new) }
        ensures sound { in_doubt self.new ≡ false }
        ensures ok { OnOk result (failure_count self.new ≡ failure_count self.old) }
        ensures err { OnErr result (failure_count self.new ≡ failure_count self.old + 1) };

    /// Writes all of the bytes over what is there, and past the end. Until a sync a loss of power may leave each byte
    /// as it was before or as it was written. After an Err any of them may be there.
    fn write_at(&mut self, at: u64, bytes: &[u8]) -> Result<(), DeviceFault>
        requires working { in_doubt self.old ≡ false }
        requires failures { failure_count self.old + 1 < 2 ^ 64 }
        ensures written { tells self.old → OnOk result (Holds at bytes.now (written self.old) (written self.new)) }
        ensures part { tells self.old → OnErr result (HoldsSome at bytes.now (written self.old) (written self.new)) }
        ensures tells { tells self.old → tells self.new }
        ensures fresh { tells self.old → OnOk result ((j : ℕ) → j < length bytes.now → is_fresh self.new (at + j)) }
        ensures still { tells self.old → OnOk result ((i : ℕ) → is_fresh self.old i → is_fresh self.new i) }
        ensures crash { tells self.old → Follows (HoldsSome at bytes.now) (may_leave self.old) (may_leave self.new) }
        ensures time { tells self.old → Elapses (moment self.old) (moment self.new)
            (left_since self.old) (left_since self.new) (may_leave self.new) }
        ensures sound { OnOk result (in_doubt self.new ≡ false) }
        ensures doubt { OnErr result (in_doubt self.new ≡ true) }
        ensures ok { OnOk result (failure_count self.new ≡ failure_count self.old) }
        ensures err { OnErr result (failure_count self.new ≡ failure_count self.old + 1) };

    /// Writes zeros, as `write_at` writes bytes. An Err leaves the file in use, as a disk without room does: whoever
    /// writes zeros over 00 alone knows what the file has, however many of them were written.
    fn fill(&mut self, at: u64, zeros: &[u8]) -> Result<(), DeviceFault>
        requires working { in_doubt self.old ≡ false }
        requires failures { failure_count self.old + 1 < 2 ^ 64 }
        requires zeros { (j : ℕ) → slice_index zeros.now j ≡ 0 }
        ensures written { tells self.old → OnOk result (Holds at zeros.now (written self.old) (written self.new)) }
        ensures part { tells self.old → OnErr result (HoldsSome at zeros.now (written self.old) (written self.new)) }
        ensures tells { tells self.old → tells self.new }
        ensures crash { tells self.old → Follows (HoldsSome at zeros.now) (may_leave self.old) (may_leave self.new) }
        ensures time { tells self.old → Elapses (moment self.old) (moment self.new)
            (left_since self.old) (left_since self.new) (may_leave self.new) }
        ensures sound { in_doubt self.new ≡ false }
        ensures ok { OnOk result (failure_count self.new ≡ failure_count self.old) }
        ensures err { OnErr result (failure_count self.new ≡ failure_count self.old + 1) };

    /// Cuts the file to a length, if it is longer. After an Err any byte from there on may be gone.
    fn cut(&mut self, len: u64) -> Result<(), DeviceFault>
        requires working { in_doubt self.old ≡ false }
        requires failures { failure_count self.old + 1 < 2 ^ 64 }
        ensures cut { tells self.old → OnOk result (IsCut len (written self.old) (written self.new)) }
        ensures part { tells self.old → OnErr result (MayBeCut len (written self.old) (written self.new)) }
        ensures tells { tells self.old → tells self.new }
        ensures fresh { tells self.old → OnOk result ((i : ℕ) → len ≤ i → is_fresh self.new i) }
        ensures still { tells self.old → OnOk result ((i : ℕ) → is_fresh self.old i → is_fresh self.new i) }
        ensures crash { tells self.old → Follows (MayBeCut len) (may_leave self.old) (may_leave self.new) }
        ensures time { tells self.old → Elapses (moment self.old) (moment self.new)
            (left_since self.old) (left_since self.new) (may_leave self.new) }
        ensures sound { OnOk result (in_doubt self.new ≡ false) }
        ensures doubt { OnErr result (in_doubt self.new ≡ true) }
        ensures ok { OnOk result (failure_count self.new ≡ failure_count self.old) }
        ensures err { OnErr result (failure_count self.new ≡ failure_count self.old + 1) };

    /// Makes each byte that is fresh durable, and the length: a loss of power leaves them from then on.
    fn sync(&mut self) -> Result<(), DeviceFault>
        requires working { in_doubt self.old ≡ false }
        requires failures { failure_count self.old + 1 < 2 ^ 64 }
        ensures same { tells self.old → written self.new ≡ written self.old }
        ensures durable { tells self.old → OnOk result ((left : List ℕ) → may_leave self.new left →
            (i : ℕ) → is_fresh self.old i → slice_index left i ≡ slice_index (written self.old) i) }
        ensures long { tells self.old → OnOk result ((left : List ℕ) → may_leave self.new left →
            length (written self.old) ≤ length left) }
        ensures tells { tells self.old → tells self.new }
        ensures crash { tells self.old → (left : List ℕ) → may_leave self.new left → may_leave self.old left }
        ensures time { tells self.old → Elapses (moment self.old) (moment self.new)
            (left_since self.old) (left_since self.new) (may_leave self.new) }
        ensures sound { OnOk result (in_doubt self.new ≡ false) }
        ensures doubt { OnErr result (in_doubt self.new ≡ true) }
        ensures ok { OnOk result (failure_count self.new ≡ failure_count self.old) }
        ensures err { OnErr result (failure_count self.new ≡ failure_count self.old + 1) };

    /// How many calls have failed.
    fn failures(&self) -> u64
        ensures { result ≡ failure_count self.now };

    /// Whether a write, a cut or a sync has failed.
    fn is_in_doubt(&self) -> bool
        ensures { result ≡ in_doubt self.now };

    // This moment is one of those since an earlier one.
    ghost counts_now: { (file : Self) (t : ℕ) (left : List ℕ) → t ≤ moment file → may_leave file left →
        left_since file t left };

    // Since this moment there is no other.
    ghost only_now: { (file : Self) (left : List ℕ) → left_since file (moment file) left → may_leave file left };
}
