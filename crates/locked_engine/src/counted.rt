//! What answers that puts were given say of what a close hands out.
ghost use Rattle.std.specs.Prelude.{◌≡◌, ◌≤◌, true, List, Some, length};
ghost use Rattle.batch_store.specs.declared.verdict.Entry.{Entry};
ghost use Rattle.batch_store.specs.declared.verdict.Kept.{Kept};
ghost use Rattle.batch_store.specs.Setups.{Setting};
ghost use Rattle.batch_store.specs.Accepted.{Accepted, batch_at, entries_in};
ghost use Rattle.batch_store.specs.Batches.{Submission};
ghost use Rattle.batch_store.specs.Books.{AreAccepted};
ghost use Rattle.batch_store.specs.Verdicts.{same_pair};
ghost use Rattle.locked_engine.specs.Counted.{Answered, CountsOnce};
ghost use Rattle.locked_engine.specs.Given.{AreKnown, Given, IsGiven};
ghost use Rattle.locked_engine.specs.Opened.{HasFolded};
ghost use Rattle.locked_engine.specs.Told.{AreShown};
ghost use Rattle.locked_engine.specs.Views.{SeatView};

/// Where what each of these seats was shown begins what was accepted (`Engine::close`, clause `shown`): a batch whose
/// put from one of them was answered Ok (`Engine::put`, clauses `told`, `later`) counts once there, at the place of the
/// reply; and two such batches of one client and number, put from any of the seats, have one entry and one reply.
pub fn answers_count_once()
    ensures counted { (v : Setting) (seats : List SeatView) (a : Accepted) (e : Entry) (k : Kept) → AreAccepted v a →
        AreShown seats (entries_in a) → Answered v seats e k → CountsOnce (entries_in a) e k }
    ensures same { (v : Setting) (seats : List SeatView) (a : Accepted) (e f : Entry) (k l : Kept) → AreAccepted v a →
        AreShown seats (entries_in a) → Answered v seats e k → Answered v seats f l → same_pair e f ≡ true →
        (e ≡ f) × (k ≡ l) }
{}

/// Where what each of these seats knows begins all batches (`Engine::close`, clause `known`): a batch that one of them
/// had accepted first (`Engine::put`, clauses `ok`, `knows`) is among all at the index of its reply. It is the batch
/// itself and not its entry alone. Where it isn't folded the book has it at that index.
pub fn accepted_batches_stay()
    ensures given { (o : Accepted) (seats : List SeatView) (all : List Submission) (b : Submission) (k : Kept) →
        AreKnown seats all → Given o seats b k → IsGiven o b all k }
    ensures stands { (o : Accepted) (seats : List SeatView) (all : List Submission) (a : Accepted) (b : Submission)
        (k : Kept) → AreKnown seats all → HasFolded o all a → Given o seats b k → length a.folded ≤ k.index →
        batch_at a k.index ≡ Some b }
{}
