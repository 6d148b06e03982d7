//! What the checksum is, and which changes of bytes change it for certain.
ghost use Rattle.std.specs.Prelude.{◌≡◌, ◌≢◌, ℕ, List};
ghost use Rattle.crc32c.specs.Remainders.{complement, checksum_of};
ghost use Rattle.crc32c.specs.Changes.{low_bits, bits_of, IsBurst, IsBytes, IsPair, HasOddChanges};
ghost use Rattle.crc32c.specs.Division.{IsDivided};

/// The checksum, each bit turned over, is the remainder of a division by the generator: of the bits of the bytes, to
/// whose first 32 ones are added, times x^32.
pub fn checksums_are_remainders()
    ensures { (bytes : List ℕ) → IsBytes bytes → (quotient : List ℕ) ×
        IsDivided (bits_of bytes) quotient (low_bits 32 (complement (checksum_of bytes))) }
{}

/// A change of 1 to 32 successive bits is found, wherever they stand and however many bytes there are. Of each byte
/// the lowest bit comes first.
pub fn bursts_are_found()
    ensures { (old new : List ℕ) → IsBytes old → IsBytes new → IsBurst 32 old new →
        checksum_of old ≢ checksum_of new }
{}

/// A change of an odd number of bits is found: of one, of three, wherever they stand.
pub fn odd_changes_are_found()
    ensures { (old new : List ℕ) → IsBytes old → IsBytes new → HasOddChanges old new →
        checksum_of old ≢ checksum_of new }
{}

/// A change of two bits is found where at most 32,766 stand between them, as it is within 4,096 bytes.
pub fn pairs_are_found()
    ensures { (old new : List ℕ) → IsBytes old → IsBytes new → IsPair 32766 old new →
        checksum_of old ≢ checksum_of new }
{}
