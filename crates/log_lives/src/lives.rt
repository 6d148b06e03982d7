//! One list over all lives.
ghost use Rattle.std.specs.Prelude.{◌≡◌, ℕ, List, [], ◌∷◌};
ghost use Rattle.std.specs.List.{IsDistinct};
ghost use mathlib.Core.List.{IsPrefix};
ghost use Rattle.batch_store.specs.declared.verdict.Entry.{Entry};
ghost use Rattle.batch_store.specs.declared.verdict.Verdict.TheVariants.{Fresh, Known};
ghost use Rattle.batch_store.specs.Verdicts.{verdict_of, same_pair, kept};
ghost use Rattle.log_lives.specs.Lives.{Log, Answer, World, Event, Begins, Runs, IsAmong, IsTaken, Outcome, at_first};
ghost use Rattle.log_lives.specs.Lives.{restored, a_loss_of_power};

/// However many kills, losses of power, failures and starts a run has: each start gives a list that begins the book of
/// the life before; no client and number stands twice in a book; and every batch that any life acknowledged stands in
/// it at its place, so that a repeat of it is answered what it was answered then. Whatever a loss of power leaves, at
/// any moment, a start takes, and gives a list that begins the book and has every batch that was acknowledged.
pub fn stays_one_list()
    ensures starts { (limit most : ℕ) (es : List Event) (w u : World) (list : List Entry) →
        Runs limit most at_first es w → Begins w list u → IsPrefix list w.book }
    ensures distinct { (limit most : ℕ) (es : List Event) (w : World) → Runs limit most at_first es w →
        IsDistinct same_pair w.book }
    ensures acknowledged { (limit most : ℕ) (es : List Event) (w : World) (a : Answer) →
        Runs limit most at_first es w → IsAmong a w.answers → verdict_of limit most w.book a.entry ≡ Known a.kept }
    ensures taken { (limit most : ℕ) (es : List Event) (w : World) (s : List Entry) (l : Log) →
        Runs limit most at_first es w → Outcome w s l → IsTaken s l }
    ensures left { (limit most : ℕ) (es : List Event) (w : World) (s : List Entry) (l : Log) →
        Runs limit most at_first es w → Outcome w s l → IsPrefix (restored s l) w.book }
    ensures left_acknowledged { (limit most : ℕ) (es : List Event) (w : World) (s : List Entry) (l : Log) (a : Answer) →
        Runs limit most at_first es w → Outcome w s l → IsAmong a w.answers →
        verdict_of limit most (restored s l) a.entry ≡ Known a.kept }
{}

/// Such runs are there: a batch that an empty book takes is written, synced and acknowledged, power is lost, and the
/// next start hands it out.
pub fn an_acknowledged_batch_outlives_a_loss_of_power()
    ensures { (limit most : ℕ) (b : Entry) → verdict_of limit most [] b ≡ Fresh →
        (w : World) × Runs limit most at_first (a_loss_of_power b) w × (w.book ≡ b ∷ [])
        × (w.answers ≡ record { entry = b; kept = kept 0 b.total } ∷ []) }
{}
