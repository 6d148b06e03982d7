//! Laws of the cascade, in terms of the definitions alone.
//!
//! Each is a function without parameters whose `ensures` is the law. They hold for all layers with a cut for each but
//! the last.
ghost use Rattle.std.specs.Prelude.{◌≡◌, ℕ, ◌+◌, List, length, ◌↔◌};
ghost use Rattle.hyper_matrix.specs.Counts.{Counts, ewise_add};
ghost use Rattle.layer_cascade.specs.Cascade.{cascade, cascades, KeepsCuts, CascadesTo};
ghost use Rattle.layer_compaction.specs.Shared.{content};

/// What the layers hold together grows by exactly what is added.
pub fn cascades_add()
    ensures { (layers : List Counts) (cuts : List ℕ) (m : Counts) →
        length layers ≡ length cuts + 1 → content (cascade layers cuts m) ≡ ewise_add (content layers) m }
{}

/// Each layer but the last keeps its cut.
pub fn cascades_keep_cuts()
    ensures { (layers : List Counts) (cuts : List ℕ) (m : Counts) →
        KeepsCuts layers cuts → KeepsCuts (cascade layers cuts m) cuts }
{}

/// An addition to layers has exactly one outcome, and `cascade` is that outcome: the cascade ends at the least place
/// that is the last or where the matrix and the layers up to it have at most the cut of entries. All below is then
/// empty, and all above as before.
pub fn cascades_end_once()
    ensures { (layers : List Counts) (cuts : List ℕ) (m : Counts) (after : List Counts) →
        length layers ≡ length cuts + 1 → CascadesTo layers cuts m after ↔ (after ≡ cascade layers cuts m) }
{}

/// Matrices added one after another leave the same content, whatever the cuts: what was there and the sum of them all.
pub fn cascades_add_all()
    ensures { (layers : List Counts) (cuts : List ℕ) (ms : List Counts) → length layers ≡ length cuts + 1 →
        content (cascades layers cuts ms) ≡ ewise_add (content layers) (content ms) }
{}
