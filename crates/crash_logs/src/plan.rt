//! What is put, over all lives.
ghost use Rattle.std.specs.Prelude.{◌≡◌, IfOk};
ghost use Rattle.std.specs.Arc.{arc_value};
ghost use Rattle.batch_store.specs.Books.{AreAccepted, accepted_in};

use crate::stop::Stop;
use batch_store::{Batch, Book, BookList, Setup, Verdict};
use cells::Cell;
use std::alloc::{AllocError, Global};
use std::random::RandomSource;
use std::sync::Arc;

/// How many batches there are.
const BATCHES: usize = 8;

/// How many cells the batches of two pages have.
const MANY: u64 = 200;

/// The batches in the order in which they are put.
#[derive(Drop)]
pub struct Plan {
    pub alloc: Global,
    pub setup: Setup,
    pub batches: Vec<Arc<Batch>>,
}

/// The cells of a batch: of the third and the seventh so many that they take two pages, and of the others one.
fn cells_of(alloc: Global, n: usize) -> Result<Vec<Cell>, AllocError> {
    let count = if n % 4 == 2 { MANY } else { 1 };
    let mut cells = Vec::new(alloc);
    for at in 0..count {
        cells.push(Cell {
            row: at,
            col: n as u64,
            count: at % 7 + 1,
        })?;
    }
    Ok(cells)
}

/// The batch at a place: number 1 of a client of its own.
fn batch_at(alloc: Global, setup: &Setup, n: usize) -> Result<Arc<Batch>, Stop>
    ensures rows { IfOk result (λ b. (arc_value b).matrix.rows ≡ setup.now.rows) }
    ensures cols { IfOk result (λ b. (arc_value b).matrix.cols ≡ setup.now.cols) }
{
    let cells = cells_of(alloc, n)?;
    match Batch::from_cells(alloc, setup, n as u64, 1, &cells) {
        Ok(batch) => Ok(batch),
        Err(_) => Err(Stop::Memory),
    }
}

// Accepts a batch that is fresh.
fn accept(book: &mut Book, setup: &Setup, batch: Arc<Batch>) -> Result<(), AllocError>
    requires setup { book.old.setup ≡ setup.now }
    requires rows { (arc_value batch).matrix.rows ≡ setup.now.rows }
    requires cols { (arc_value batch).matrix.cols ≡ setup.now.cols }
    ensures { book.new.setup ≡ setup.now }
{
    match book.look(&batch) {
        Verdict::Fresh => {
            book.reserve(&batch)?;
            let _ = book.admit(batch);
        }
        Verdict::Known(_)
        | Verdict::NumberReused
        | Verdict::OverTotal { accepted: _ }
        | Verdict::BookFull => {}
    }
    Ok(())
}

// Accepts the batch at a place.
fn accept_at(book: &mut Book, alloc: Global, setup: &Setup, n: usize) -> Result<(), Stop>
    requires { book.old.setup ≡ setup.now }
    ensures { book.new.setup ≡ setup.now }
{
    let batch = batch_at(alloc, setup, n)?;
    accept(book, setup, batch)?;
    Ok(())
}

// Accepts the first so many batches.
fn accept_all(book: &mut Book, alloc: Global, setup: &Setup, count: usize) -> Result<(), Stop>
    requires { book.old.setup ≡ setup.now }
    ensures { book.new.setup ≡ setup.now }
{
    'places: for n in 0..count {
        accept_at(book, alloc, setup, n)?;
    }
    Ok(())
}

// All that a book has.
fn listed(book: &Book, alloc: Global) -> Result<BookList, Stop>
    ensures { IfOk result (λ list. AreAccepted book.now.setup (accepted_in list)) }
{
    match book.book_list(alloc) {
        Ok(list) => Ok(list),
        Err(_) => Err(Stop::Memory),
    }
}

// The list of a book of the first so many batches. The book has one way out, since each is proved for itself.
fn list_in<R: RandomSource>(
    rt: &R,
    alloc: Global,
    setup: &Setup,
    count: usize,
) -> Result<BookList, Stop>
    ensures { IfOk result (λ list. AreAccepted setup.now (accepted_in list)) }
{
    let mut book = Book::new(rt, alloc, setup)?;
    let list = match accept_all(&mut book, alloc, setup, count) {
        Ok(()) => listed(&book, alloc),
        Err(stop) => Err(stop),
    };
    drop(book);
    list
}

impl Plan {
    pub fn new(alloc: Global) -> Result<Plan, Stop> {
        let Ok(setup) = Setup::new(1000, 1000, &[2, 4], 2, 1_000_000, 10) else {
            return Err(Stop::Memory);
        };
        let mut batches = Vec::new(alloc);
        for n in 0..BATCHES {
            let batch = batch_at(alloc, &setup, n)?;
            if batches.push(batch).is_err() {
                return Err(Stop::Memory);
            }
        }
        Ok(Plan {
            alloc,
            setup,
            batches,
        })
    }

    /// The list of a snapshot of the first so many.
    pub fn list_of<R: RandomSource>(&self, rt: &R, count: usize) -> Result<BookList, Stop>
        ensures { IfOk result (λ list. AreAccepted self.now.setup (accepted_in list)) }
    {
        list_in(rt, self.alloc, &self.setup, count)
    }

    /// The batches from one place to another.
    pub fn part(&self, from: usize, to: usize) -> &[Arc<Batch>] {
        if from <= to && to <= self.batches.len() {
            &self.batches[from..to]
        } else {
            &[]
        }
    }

    /// How many batches a list has, each of which must be the one of its place.
    pub fn count_of(&self, list: &BookList) -> Result<usize, Stop> {
        for (place, batch) in list.batches.iter().enumerate() {
            match self.batches.get(place) {
                Some(due) if due.entry() == batch.entry() => {}
                _ => return Err(Stop::Differs(place)),
            }
        }
        Ok(list.batches.len())
    }
}
