//! Lists of accepted batches, as a snapshot has them.
ghost use Rattle.std.specs.Prelude.{◌≡◌, IfOk};
ghost use Rattle.std.specs.Arc.{arc_value};
ghost use Rattle.batch_store.specs.Books.{AreAccepted, accepted_in};

use crate::batches::one_cell;
use batch_store::{Batch, Book, BookList, CellsFault, Setup, Verdict};
use std::alloc::{AllocError, Global};
use std::random::RandomSource;
use std::sync::Arc;

// Accepts a batch that is fresh.
fn accept(book: &mut Book, setup: &Setup, batch: Arc<Batch>) -> Result<(), AllocError>
    requires setup { book.old.setup ≡ setup.now }
    requires rows { (arc_value batch).matrix.rows ≡ setup.now.rows }
    requires cols { (arc_value batch).matrix.cols ≡ setup.now.cols }
    ensures { book.new.setup ≡ setup.now }
{
    match book.look(&batch) {
        Verdict::Fresh => {
            book.reserve(&batch)?;
            let _ = book.admit(batch);
            Ok(())
        }
        Verdict::Known(_)
        | Verdict::NumberReused
        | Verdict::OverTotal { accepted: _ }
        | Verdict::BookFull => Ok(()),
    }
}

/// The list of batches of one cell, of these clients and counts.
pub fn list_of(
    rt: &impl RandomSource,
    alloc: Global,
    setup: &Setup,
    rows: &[(u64, u64)],
) -> Result<BookList, CellsFault>
    ensures { IfOk result (λ list. AreAccepted setup.now (accepted_in list)) }
{
    let Ok(mut book) = Book::new(rt, alloc, setup) else {
        return Err(CellsFault::Memory);
    };
    'rows: for (client, count) in rows {
        let batch = one_cell(alloc, setup, *client, *count)?;
        if accept(&mut book, setup, batch).is_err() {
            return Err(CellsFault::Memory);
        }
    }
    match book.book_list(alloc) {
        Ok(list) => Ok(list),
        Err(_) => Err(CellsFault::Memory),
    }
}
