//! What others do with the log in its turn.
ghost use Rattle.std.specs.Prelude.{◌≡◌, ℕ, true, false};
ghost use mathlib.Core.List.{IsPrefix};
ghost use Rattle.log_desk.specs.Standings.{IsNamed};

use crate::durable::Durable;
use crate::log::Log;
use locked_engine::Named;

/// Work with the log that lasts no longer than a turn, as that of a save which puts a fresh log in its place. What
/// comes of it is a `T`.
pub trait TurnWork<N: Named, L: Log, T> {
    // What it answers.
    ghost gives: { Self → T → Type 0 };

    /// Works with the log, and with what is durable in it. No thread uses the log meanwhile. Whoever puts a fresh log
    /// in its place, also of one that has failed, has given it the name, gives what it has as durable, no less than
    /// before, and makes as many pages ready in it as are promised.
    fn run(self, log: &mut L, durable: &mut Durable<N, L>, promised: u64) -> T
        requires durable { L.failed log.old ≡ false → L.durable log.old ≡ durable.old }
        requires named { L.failed log.old ≡ false → IsNamed N.log (L.has_name log.old) }
        requires told { L.failed log.old ≡ true → L.has_failed }
        ensures later { IsPrefix durable.old durable.new }
        ensures durable { L.failed log.new ≡ false → L.durable log.new ≡ durable.new }
        ensures named { L.failed log.new ≡ false → IsNamed N.log (L.has_name log.new) }
        ensures told { L.failed log.new ≡ true → L.has_failed }
        ensures gives { gives self result };
}
