//! All that a book has accepted, as it is handed out for a snapshot.

use crate::batch::Batch;
use crate::pieces::Pieces;
use crate::verdict::Entry;
use std::marker::Model;
use std::sync::Arc;

/// What was accepted, in order: the entries of the folded batches and the matrix that they were folded into, and
/// behind them the batches that are kept whole.
///
/// Contracts see the three. The base's total is the sum of the folded entries' totals, and where nothing is folded it
/// is empty. The base and the batches are shared with the book: nothing is copied but 32 bytes of each folded entry.
#[derive(Drop)]
pub struct BookList {
    /// The sum of the folded batches.
    pub base: Arc<Pieces>,
    /// Their entries, in the order of their acceptance.
    pub folded: Vec<Entry>,
    /// The batches behind them.
    pub batches: Vec<Arc<Batch>>,
}

impl Model for BookList {
    ghost use Rattle.std.specs.Arc.{arc_value};
    ghost use Rattle.batch_store.specs.Accepted.{IsBase};
    ghost use Rattle.batch_store.specs.Batches.{values};
    ghost use Rattle.batch_store.specs.Books.{Listing, listing, coded_listing};

    ghost Value = { Listing };

    ghost coded = { coded_listing };

    ghost view = { λ a. listing (arc_value a.base).whole a.folded.items (values a.batches.items) };

    ghost invariant = { λ a. IsBase (arc_value a.base).whole.counts a.folded.items };
}
