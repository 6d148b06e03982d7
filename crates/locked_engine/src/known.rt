//! What is known of the accepted batches: that these begin them. It exists in proofs alone, and takes no memory.
ghost use Rattle.std.specs.Prelude.{◌≡◌, ◌++◌};
ghost use mathlib.Core.List.{IsPrefix};
ghost use Rattle.locked_engine.specs.Histories.{given_in};

use crate::history::{HistoryRule, Line};
use crate::names::Named;
use logbook::Seen;
use std::marker::{Model, PhantomData};

/// A beginning of the batches of the history, behind those that the engine was opened with and that weren't folded then.
///
/// Contracts see these batches.
#[derive(Drop)]
pub struct Known<N: Named> {
    seen: Seen<Line, u64, HistoryRule>,
    of: PhantomData<N>,
}

impl<N: Named> Model for Known<N> {
    ghost use Rattle.std.specs.Prelude.{◌≡◌, ◌++◌, List};
    ghost use Rattle.std.specs.Coded.{coded_list};
    ghost use Rattle.batch_store.specs.Batches.{Submission, coded_submission};
    ghost use Rattle.locked_engine.specs.Histories.{given_in};

    ghost Value = { List Submission };

    ghost coded = { coded_list coded_submission };

    ghost view = { λ a. N.opened.list ++ given_in a.seen.log };

    ghost invariant = { λ a. a.seen.book ≡ N.history };
}

impl<N: Named> Known<N> {
    /// What has been seen of the history.
    pub(crate) fn make(seen: Seen<Line, u64, HistoryRule>) -> Known<N>
        requires { seen.book ≡ N.history }
        ensures { result ≡ N.opened.list ++ given_in seen.log }
    {
        Known {
            seen,
            of: PhantomData,
        }
    }

    /// What it has seen of the history.
    pub(crate) fn seen(&self) -> &Seen<Line, u64, HistoryRule>
        ensures book { result.now.book ≡ N.history }
        ensures batches { self.now ≡ N.opened.list ++ given_in result.now.log }
    {
        &self.seen
    }

    /// The same again.
    pub fn again(&self) -> Known<N>
        ensures { result ≡ self.now }
    {
        Known::make(self.seen.again())
    }

    /// Takes in what else is known. The longer begins with the other.
    pub fn learn(&mut self, other: &Known<N>)
        ensures later { IsPrefix self.old self.new }
        ensures no_less { IsPrefix other.now self.new }
    {
        self.seen.learn(&other.seen);
    }
}
