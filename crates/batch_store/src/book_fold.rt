//! The first batches of a book that aren't folded, whose base is made outside the book's lock.
ghost use Rattle.std.specs.Prelude.{◌≡◌, ◌<◌, ◌^◌, IfOk, IfSome, length};
ghost use Rattle.std.specs.Arc.{arc_value};
ghost use Rattle.cells.specs.Bounds.{IsDimension};
ghost use Rattle.hyper_matrix.specs.Counts.{ewise_add, total};
ghost use Rattle.hyper_matrix.specs.Matrix.{matrix};
ghost use Rattle.layer_compaction.specs.Due.{numbers_of};
ghost use Rattle.batch_store.specs.Accepted.{list_sum};
ghost use Rattle.batch_store.specs.Batches.{values};
ghost use Rattle.batch_store.specs.Books.{HaveDims};
ghost use Rattle.batch_store.specs.BookFolds.{front_of, due_fold};

use crate::batch::Batch;
use crate::batch_sum::with_batches;
use crate::fold_place::{BasePlace, ShardBase};
use crate::pieces::Pieces;
use boxcar::tag::{Names, Tag};
use hyper_matrix::Hyper;
use std::alloc::{AllocError, Global};
use std::marker::Model;
use std::sync::Arc;

/// A base, and batches that are to go into it. Contracts see the batches, and the base with them.
#[derive(Drop)]
pub struct Front {
    rows: u64,
    cols: u64,
    base: Arc<Pieces>,
    batches: Vec<Arc<Batch>>,
}

impl Model for Front {
    ghost use Rattle.std.specs.Prelude.{◌≡◌};
    ghost use Rattle.std.specs.Arc.{arc_value};
    ghost use Rattle.hyper_matrix.specs.Counts.{ewise_add};
    ghost use Rattle.hyper_matrix.specs.Matrix.{matrix};
    ghost use Rattle.batch_store.specs.Accepted.{list_sum};
    ghost use Rattle.batch_store.specs.Batches.{values};
    ghost use Rattle.batch_store.specs.Books.{HaveDims};
    ghost use Rattle.batch_store.specs.BookFolds.{FrontSum, front_of, coded_front};
    ghost use Rattle.cells.specs.Bounds.{IsDimension};

    ghost Value = { FrontSum };

    ghost coded = { coded_front };

    ghost view = { λ f. front_of (values f.batches.items) (matrix f.rows f.cols
        (ewise_add (arc_value f.base).whole.counts (list_sum (values f.batches.items)))) };

    ghost invariant = { λ f. IsDimension f.rows × IsDimension f.cols × ((arc_value f.base).whole.rows ≡ f.rows)
        × ((arc_value f.base).whole.cols ≡ f.cols) × HaveDims f.rows f.cols (values f.batches.items) };
}

impl Front {
    pub(crate) fn new(rows: u64, cols: u64, base: Arc<Pieces>, batches: Vec<Arc<Batch>>) -> Front
        requires dims { IsDimension rows × IsDimension cols }
        requires rows { (arc_value base).whole.rows ≡ rows }
        requires cols { (arc_value base).whole.cols ≡ cols }
        requires all { HaveDims rows cols (values batches.items) }
        ensures { result ≡ front_of (values batches.items)
            (matrix rows cols (ewise_add (arc_value base).whole.counts (list_sum (values batches.items)))) }
    {
        Front {
            rows,
            cols,
            base,
            batches,
        }
    }

    // The batches.
    fn batches(&self) -> &[Arc<Batch>]
        ensures { values result.now ≡ self.now.list }
    {
        &self.batches
    }

    // The batches alone.
    fn into_batches(self) -> Vec<Arc<Batch>>
        ensures { values result.items ≡ self.list }
    {
        self.batches
    }

    // The sum, in as many pieces as the base.
    fn pieces(&self, alloc: Global, made: &[ShardBase]) -> Result<Pieces, AllocError>
        ensures { IfOk result (λ p. p.whole ≡ self.now.sum) }
    {
        let none = Hyper::new(alloc, self.rows, self.cols);
        let added = with_batches(alloc, none, &self.batches)?;
        let pieces = self.base.with_added(alloc, &added, made)?;
        Ok(pieces)
    }
}

// The numbers of the sum.
struct OfFront;

impl Names<Front> for OfFront {
    ghost use Rattle.layer_compaction.specs.Due.{numbers_of};

    ghost numbers = { λ f. numbers_of f.sum };
}

/// The first batches of a book that aren't folded, its base, and the place for the base with them. The book and whoever
/// makes that base share it: whoever has it needs no lock. The batches aren't freed before both have let go of it.
///
/// Contracts see the batches, and the numbers of the base that is due.
#[derive(Drop)]
pub struct BookFold {
    front: Front,
    place: BasePlace,
}

impl Model for BookFold {
    ghost use Rattle.std.specs.Prelude.{◌≡◌};
    ghost use Rattle.layer_compaction.specs.Due.{numbers_of};
    ghost use Rattle.batch_store.specs.BookFolds.{DueFold, due_fold, coded_due_fold};

    ghost Value = { DueFold };

    ghost coded = { coded_due_fold };

    ghost view = { λ d. due_fold d.front.list d.place };

    ghost invariant = { λ d. d.place ≡ numbers_of d.front.sum };
}

impl BookFold {
    // With an empty place. It takes no memory.
    pub(crate) fn begin(front: Front) -> BookFold
        ensures { result ≡ due_fold front.list (numbers_of front.sum) }
    {
        let tag = Tag::of::<Front, OfFront>(&front);
        let place = BasePlace::empty(&tag);
        BookFold { front, place }
    }

    // The batches.
    pub(crate) fn batches(&self) -> &[Arc<Batch>]
        ensures { values result.now ≡ self.now.list }
    {
        self.front.batches()
    }

    // The batches alone.
    pub(crate) fn into_batches(self) -> Vec<Arc<Batch>>
        ensures { values result.items ≡ self.list }
    {
        self.front.into_batches()
    }

    // The base with the batches, if it was made. It waits for nobody.
    pub(crate) fn base(&self) -> Option<&Arc<Pieces>>
        ensures { IfSome result (λ base. numbers_of (arc_value base.now).whole ≡ self.now.told) }
    {
        self.place.base()
    }

    /// How many batches are to be folded. Constant time.
    pub fn len(&self) -> usize
        ensures { result ≡ length self.now.list }
    {
        self.batches().len()
    }

    /// Adds the base and the batches up, piece by piece, and puts the sum in its place, where the book finds it. What was
    /// made for a shard is its piece, where it has the same cells: so a cell is in memory once. It waits for nobody, and
    /// nobody for it.
    ///
    /// # Errors
    ///
    /// A growth was refused. All is as before, and it can be called again.
    pub fn run(&self, alloc: Global, made: &[ShardBase]) -> Result<(), AllocError> {
        let pieces = self.front.pieces(alloc, made)?;
        let base = Arc::new(alloc, pieces)?;
        self.place.fill(base);
        Ok(())
    }
}
