//! Laws of the definitions.
ghost use Rattle.std.specs.Prelude.{◌≡◌, ◌≢◌, ℕ, ◌+◌, ◌<◌, ◌≤◌, ◌⊎◌, List, [], ◌++◌, length};
ghost use Rattle.byte_io.specs.Streams.{Answer, bytes_of_calls};
ghost use Rattle.batch_store.specs.Accepted.{Accepted};
ghost use Rattle.batch_store.specs.Setups.{Setting};
ghost use Rattle.snap_file.specs.Spelling.{IsBytes, IsSnapshot};
ghost use Rattle.snap_file.specs.declared.origin.Origin.{Origin};
ghost use Rattle.snap_file.specs.Outcomes.{snapshot_task, FirstFaultAt, IsMemoryFault};
ghost use Rattle.snap_file.specs.declared.fault.SnapFault.{SnapFault};

/// Bytes have one first fault at most, at one place.
pub fn one_first_fault()
    ensures { (max_bytes : ℕ) (bytes : List ℕ) (p q : ℕ) (j k : SnapFault) →
        FirstFaultAt max_bytes bytes p j → FirstFaultAt max_bytes bytes q k → (p ≡ q) × (j ≡ k) }
{}

/// Bytes are a snapshot of one origin, one setup and one accepted state at most: in whichever versions they are read,
/// equal bytes mean the same.
pub fn one_snapshot_spelled()
    ensures { (max_bytes : ℕ) (bytes : List ℕ) (o q : Origin) (s t : Setting) (a b : Accepted) →
        IsSnapshot max_bytes bytes o s a → IsSnapshot max_bytes bytes q t b → (o ≡ q) × (s ≡ t) × (a ≡ b) }
{}

/// A snapshot has no fault.
pub fn snapshot_or_faulty()
    ensures { (max_bytes : ℕ) (bytes : List ℕ) (o : Origin) (s : Setting) (a : Accepted) (place : ℕ)
        (kind : SnapFault) → IsSnapshot max_bytes bytes o s a → FirstFaultAt max_bytes bytes place kind → ⊥ }
{}

/// Bytes are a snapshot, or have a first fault.
pub fn every_file_is_a_snapshot_or_has_a_fault()
    ensures { (max_bytes : ℕ) (bytes : List ℕ) → IsBytes bytes →
        ((o : Origin) × (s : Setting) × (a : Accepted) × IsSnapshot max_bytes bytes o s a)
        ⊎ ((place : ℕ) × (kind : SnapFault) × FirstFaultAt max_bytes bytes place kind) }
{}

/// No snapshot is a proper front of another, whatever the limits.
pub fn no_snapshot_begins_another()
    ensures { (m n : ℕ) (bytes more : List ℕ) (o q : Origin) (s t : Setting) (a b : Accepted) →
        IsSnapshot m bytes o s a → IsSnapshot n (bytes ++ more) q t b → more ≡ [] }
{}

/// A fault that shows within the bytes stays the first, however they go on.
pub fn shown_fault_stays()
    ensures { (max_bytes : ℕ) (bytes more : List ℕ) (place : ℕ) (kind : SnapFault) →
        FirstFaultAt max_bytes bytes place kind → place ≤ length bytes →
        FirstFaultAt max_bytes (bytes ++ more) place kind }
{}

/// Where memory was refused, the first fault of what was read shows in its last 65,536 bytes at the earliest, and not
/// in the head.
pub fn refused_memory_hides_no_early_fault()
    ensures { (max_bytes : ℕ) (answers : List Answer) (place : ℕ) (kind : SnapFault) →
        IsMemoryFault (snapshot_task max_bytes) answers → FirstFaultAt max_bytes (bytes_of_calls answers) place kind →
        (length (bytes_of_calls answers) < place + 65536)
        × (kind ≢ SnapFault.BadMark) × (kind ≢ SnapFault.BadVersion) × (kind ≢ SnapFault.BadHead) }
{}
