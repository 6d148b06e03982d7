//! Folding an engine of one thread, what it lists before and after, and the engine that its last list makes.
ghost use Rattle.std.specs.Prelude.{◌≡◌, IfOk};
ghost use Rattle.std.specs.Arc.{arc_value};
ghost use Rattle.batch_store.specs.Books.{HaveDims, listed_in};

use crate::examples::{batch, small_setup};
use crate::plain::{engine_of, put, put_at_last};
use crate::show::{say, show_book_list, show_engine, show_put, tell};
use crate::stop::Stop;
use batch_store::{Batch, BookList, Setup};
use plain_engine::{LoadFault, PlainEngine};
use std::alloc::{AllocError, Global};
use std::random::RandomSource;
use std::sync::Arc;

/// Folds the first of two batches, puts the second behind it, and loads what is listed then.
pub fn run(rt: &(impl RandomSource + Print), alloc: Global) -> Result<(), Stop> {
    let setup = small_setup()?;
    let first = batch(alloc, &setup, 1)?;
    let second = match batch(alloc, &setup, 2) {
        Ok(second) => second,
        Err(stop) => {
            drop(first);
            return Err(stop);
        }
    };
    let told = match engine_of(rt, alloc, setup, &first) {
        Ok(engine) => run_example(rt, alloc, engine, &first, &second),
        Err(stop) => Err(stop),
    };
    drop(second);
    drop(first);
    told
}

fn run_example(
    rt: &(impl RandomSource + Print),
    alloc: Global,
    engine: PlainEngine,
    first: &Arc<Batch>,
    second: &Arc<Batch>,
) -> Result<(), Stop>
    requires first_rows { (arc_value first.now).matrix.rows ≡ engine.setup.rows }
    requires first_cols { (arc_value first.now).matrix.cols ≡ engine.setup.cols }
    requires second_rows { (arc_value second.now).matrix.rows ≡ engine.setup.rows }
    requires second_cols { (arc_value second.now).matrix.cols ≡ engine.setup.cols }
{
    if show_list(rt, alloc, &engine).is_err() {
        drop(engine);
        return Err(Stop::SetUp);
    }
    let mut engine = fold_at_last(rt, alloc, engine)?;
    let told = go_on(rt, alloc, &mut engine, first, second);
    drop(engine);
    told
}

fn list_at_last(
    rt: &impl Print,
    alloc: Global,
    engine: &PlainEngine,
) -> Result<BookList, AllocError>
    ensures { IfOk result (λ list. list ≡ listed_in engine.now.setup engine.now.book.state) }
{
    match engine.book_list(alloc) {
        Ok(list) => Ok(list),
        Err(_) => {
            say(rt, "book list refused");
            engine.book_list(alloc)
        }
    }
}

fn show_list(rt: &impl Print, alloc: Global, engine: &PlainEngine) -> Result<(), AllocError> {
    let list = list_at_last(rt, alloc, engine)?;
    show_book_list(rt, &list);
    drop(list);
    Ok(())
}

// Folds an engine that was handed back, and tells what stood.
fn fold_again(rt: &impl Print, alloc: Global, engine: PlainEngine) -> Result<PlainEngine, Stop>
    ensures { IfOk result (λ e. e.setup ≡ engine.setup) }
{
    tell(rt, &[("fold refused, folded", engine.folded())]);
    show_engine(rt, &engine);
    match engine.fold(alloc) {
        Ok(folded) => Ok(folded),
        Err(handed_back) => {
            drop(handed_back);
            Err(Stop::Fault)
        }
    }
}

// Folds an engine, and where memory was refused again with the engine that was handed back.
fn fold_at_last(rt: &impl Print, alloc: Global, engine: PlainEngine) -> Result<PlainEngine, Stop>
    ensures { IfOk result (λ e. e.setup ≡ engine.setup) }
{
    match engine.fold(alloc) {
        Ok(folded) => Ok(folded),
        Err((engine, _)) => fold_again(rt, alloc, engine),
    }
}

// Tells what is folded, puts the second batch behind, and the first once more, which is known again; and loads what is
// listed.
fn go_on(
    rt: &(impl RandomSource + Print),
    alloc: Global,
    engine: &mut PlainEngine,
    first: &Arc<Batch>,
    second: &Arc<Batch>,
) -> Result<(), Stop>
    requires first_rows { (arc_value first.now).matrix.rows ≡ engine.old.setup.rows }
    requires first_cols { (arc_value first.now).matrix.cols ≡ engine.old.setup.cols }
    requires second_rows { (arc_value second.now).matrix.rows ≡ engine.old.setup.rows }
    requires second_cols { (arc_value second.now).matrix.cols ≡ engine.old.setup.cols }
{
    tell(rt, &[("folded", engine.folded())]);
    show_engine(rt, engine);
    put_at_last(rt, alloc, engine, second)?;
    let repeat = put(alloc, engine, first)?;
    show_put(rt, &repeat);
    show_load(rt, alloc, engine)
}

// The engine that the list of this one makes.
fn show_load(
    rt: &(impl RandomSource + Print),
    alloc: Global,
    engine: &PlainEngine,
) -> Result<(), Stop> {
    // This call tells that its base and its batches have the setup's dimensions.
    let setup = engine.setup();
    let list = list_at_last(rt, alloc, engine)?;
    show_book_list(rt, &list);
    let told = show_loaded(rt, alloc, setup, &list);
    drop(list);
    told
}

// Loads a list, and tells what the engine holds.
fn show_loaded(
    rt: &(impl RandomSource + Print),
    alloc: Global,
    setup: Setup,
    list: &BookList,
) -> Result<(), Stop>
    requires rows { list.now.base.rows ≡ setup.rows }
    requires cols { list.now.base.cols ≡ setup.cols }
    requires dims { HaveDims setup.rows setup.cols list.now.list }
{
    let loaded = load_at_last(rt, alloc, setup, list)?;
    tell(rt, &[("loaded folded", loaded.folded())]);
    show_engine(rt, &loaded);
    drop(loaded);
    Ok(())
}

fn load_at_last(
    rt: &(impl RandomSource + Print),
    alloc: Global,
    setup: Setup,
    list: &BookList,
) -> Result<PlainEngine, Stop>
    requires rows { list.now.base.rows ≡ setup.rows }
    requires cols { list.now.base.cols ≡ setup.cols }
    requires dims { HaveDims setup.rows setup.cols list.now.list }
{
    match PlainEngine::from_folded(rt, alloc, setup, list) {
        Ok(loaded) => Ok(loaded),
        Err(LoadFault::Memory) => {
            say(rt, "load refused");
            PlainEngine::from_folded(rt, alloc, setup, list).map_err(|_| Stop::Fault)
        }
        Err(_) => Err(Stop::Fault),
    }
}
