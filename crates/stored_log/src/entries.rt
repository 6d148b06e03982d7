//! The entries of a log, which only clauses read.
ghost use Rattle.std.specs.Prelude.{◌≡◌, List, ◌++◌};
ghost use Rattle.std.specs.Borrow.{ftrue};
ghost use Rattle.std.specs.Coded.{coded_list};
ghost use Rattle.batch_store.specs.declared.verdict.Entry.{Entry};
ghost use Rattle.batch_store.specs.Accepted.{entries_in};
ghost use Rattle.batch_store.specs.Batches.{entries_of, values};
ghost use Rattle.batch_store.specs.Books.{accepted_in};
ghost use Rattle.batch_store.specs.Verdicts.{coded_entry};

use batch_store::{Batch, BookList};
use std::marker::Model;
use std::sync::Arc;

/// What a log has told as durable, in order. It has no bytes: only clauses read it.
#[derive(Drop)]
pub struct Told {
    pub ghost entries: { List Entry } by { coded_list coded_entry },
}

impl Model for Told {
    ghost also_owns = { λ _. ftrue };
}

// It owns nothing, so a log goes to another thread with it. The check proves this, as it does each `unsafe impl`.
unsafe impl Send for Told {}

impl Told {
    /// The entries that the caller's clauses name.
    pub fn new() -> Told
        ghost known: { List Entry }
        ensures { result.entries ≡ known }
    {
        Told {}
    }

    fn of_list(_list: &BookList) -> Told
        ghost known: { List Entry }
        ensures { result.entries ≡ known }
    {
        Told::new()
    }

    fn of_batches(&self, _batches: &[Arc<Batch>]) -> Told
        ghost known: { List Entry }
        ensures { result.entries ≡ known }
    {
        Told::new()
    }

    /// All that a list tells.
    pub fn all_of(list: &BookList) -> Told
        ensures { result.entries ≡ entries_in (accepted_in list.now) }
    {
        Told::of_list(list)
    }

    /// With the entries of these batches behind them.
    pub fn then(&self, batches: &[Arc<Batch>]) -> Told
        ensures { result.entries ≡ self.now.entries ++ entries_of (values batches.now) }
    {
        self.of_batches(batches)
    }
}
