//! A put through the engine of one thread.
ghost use Rattle.std.specs.Prelude.{◌≡◌, IfOk};
ghost use Rattle.std.specs.Arc.{arc_value};

use crate::examples::{batch, small_setup};
use crate::show::{show_engine, show_put, tell};
use crate::stop::Stop;
use batch_store::{Batch, Kept, Setup};
use plain_engine::{PlainEngine, PutFault};
use std::alloc::{AllocError, Global};
use std::random::RandomSource;
use std::sync::Arc;

/// Puts a batch, puts it once more, and reads it.
pub fn run(rt: &(impl RandomSource + Print), alloc: Global) -> Result<(), Stop> {
    let setup = small_setup()?;
    let mut engine = PlainEngine::new(rt, alloc, setup)?;
    let told = run_example(rt, alloc, &setup, &mut engine);
    drop(engine);
    told
}

fn run_example(
    rt: &impl Print,
    alloc: Global,
    setup: &Setup,
    engine: &mut PlainEngine,
) -> Result<(), Stop>
    requires { engine.old.setup ≡ setup.now }
{
    let b = batch(alloc, setup, 1)?;
    if let Err(stop) = put_at_last(rt, alloc, engine, &b) {
        drop(b);
        return Err(stop);
    }
    let answer = put(alloc, engine, &b);
    drop(b);
    let repeat = answer?;
    show_put(rt, &repeat);
    show_reads(rt, engine);
    Ok(())
}

/// An engine of one batch.
pub fn engine_of(
    rt: &impl RandomSource,
    alloc: Global,
    setup: Setup,
    b: &Arc<Batch>,
) -> Result<PlainEngine, Stop>
    requires rows { (arc_value b.now).matrix.rows ≡ setup.rows }
    requires cols { (arc_value b.now).matrix.cols ≡ setup.cols }
    ensures { IfOk result (λ e. e.setup ≡ setup) }
{
    let mut engine = PlainEngine::new(rt, alloc, setup)?;
    match put(alloc, &mut engine, b) {
        Ok(Ok(_)) => Ok(engine),
        _ => {
            drop(engine);
            Err(Stop::SetUp)
        }
    }
}

/// Puts a batch of the engine's dimensions, which is shared.
pub fn put(
    alloc: Global,
    engine: &mut PlainEngine,
    b: &Arc<Batch>,
) -> Result<Result<Kept, PutFault>, AllocError>
    requires rows { (arc_value b.now).matrix.rows ≡ engine.old.setup.rows }
    requires cols { (arc_value b.now).matrix.cols ≡ engine.old.setup.cols }
    ensures { engine.new.setup ≡ engine.old.setup }
{
    let shared = Arc::try_clone(b)?;
    Ok(engine.put(alloc, shared))
}

/// Puts a batch, and again where memory was refused, and tells what stands after each.
pub fn put_at_last(
    rt: &impl Print,
    alloc: Global,
    engine: &mut PlainEngine,
    b: &Arc<Batch>,
) -> Result<(), Stop>
    requires rows { (arc_value b.now).matrix.rows ≡ engine.old.setup.rows }
    requires cols { (arc_value b.now).matrix.cols ≡ engine.old.setup.cols }
    ensures { engine.new.setup ≡ engine.old.setup }
{
    let mut answer = put(alloc, engine, b)?;
    if answer == Err(PutFault::Memory) {
        show_put(rt, &answer);
        show_engine(rt, engine);
        answer = put(alloc, engine, b)?;
    }
    show_put(rt, &answer);
    show_engine(rt, engine);
    Ok(())
}

// What the engine answers on the first cell and its row, without memory.
fn show_reads(rt: &impl Print, engine: &PlainEngine) {
    if let Some(count) = engine.cell(0, 0) {
        tell(rt, &[("row", 0), ("column", 0), ("count", count)]);
    }
    let row = engine.row(0);
    tell(
        rt,
        &[("row", 0), ("entries", row.entries), ("total", row.total)],
    );
}
