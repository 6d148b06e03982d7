//! Laws of joins.
ghost use Rattle.std.specs.Prelude.{◌≡◌, ◌≢◌, List};
ghost use mathlib.Core.List.{IsPrefix};
ghost use Rattle.batch_store.specs.Setups.{Setting};
ghost use Rattle.batch_store.specs.Batches.{Submission};
ghost use Rattle.batch_store.specs.Books.{Listing};
ghost use Rattle.snap_file.specs.Origins.{IsOtherBook};
ghost use Rattle.snap_file.specs.declared.origin.Identity.{Identity};
ghost use Rattle.log_head.specs.declared.head.LogHead.{LogHead};
ghost use Rattle.log_join.specs.Joins.{Joins, RefusesJoin, known_entries};
ghost use Rattle.log_join.specs.declared.fault.JoinFault.{JoinFault};

/// A snapshot and a log have one refusal at most beside want of memory, and none where they make a list, of which there
/// is one.
pub fn a_join_has_one_outcome()
    ensures one { (s : Setting) (i : Identity) (v : Listing) (h : LogHead) (bs : List Submission) (f g : JoinFault) →
        f ≢ JoinFault.Memory → g ≢ JoinFault.Memory → RefusesJoin s i v h bs f → RefusesJoin s i v h bs g → f ≡ g }
    ensures list { (s : Setting) (v : Listing) (h : LogHead) (bs : List Submission) (a b : Listing) →
        Joins s v h bs a → Joins s v h bs b → a ≡ b }
    ensures no_fault { (s : Setting) (i : Identity) (v : Listing) (h : LogHead) (bs : List Submission) (list : Listing)
        (f : JoinFault) → f ≢ JoinFault.Memory → (IsOtherBook i h.identity → ⊥) → Joins s v h bs list →
        RefusesJoin s i v h bs f → ⊥ }
{}

/// What is joined begins with all that the snapshot has.
pub fn joined_lists_go_on()
    ensures { (s : Setting) (v : Listing) (h : LogHead) (bs : List Submission) (list : Listing) →
        Joins s v h bs list → IsPrefix (known_entries v) (known_entries list) }
{}
