//! The sum, the list and the views of an engine of one thread, and the engine that its list makes.
ghost use Rattle.std.specs.Prelude.{◌≡◌, IfOk};
ghost use Rattle.batch_store.specs.Batches.{values};
ghost use Rattle.batch_store.specs.Books.{HaveDims};

use crate::examples::{batch, small_setup};
use crate::plain::engine_of;
use crate::show::{say, show_cells, show_engine, tell};
use crate::stop::Stop;
use batch_store::{Batch, Setup, Shard, ShardView};
use hyper_matrix::Hyper;
use plain_engine::{LoadFault, PlainEngine};
use std::alloc::{AllocError, Global};
use std::random::RandomSource;
use std::sync::Arc;

/// Reads all that an engine of one batch tells for memory, and loads what it lists.
pub fn run(rt: &(impl RandomSource + Print), alloc: Global) -> Result<(), Stop> {
    let setup = small_setup()?;
    let b = batch(alloc, &setup, 1)?;
    let answer = engine_of(rt, alloc, setup, &b);
    drop(b);
    let engine = answer?;
    let told = show_reads(rt, alloc, &engine);
    drop(engine);
    told
}

fn show_reads(
    rt: &(impl RandomSource + Print),
    alloc: Global,
    engine: &PlainEngine,
) -> Result<(), Stop> {
    show_view(rt, alloc, engine)?;
    show_export(rt, alloc, engine)?;
    show_load(rt, alloc, engine)
}

// The view of the second shard.
fn show_view(rt: &impl Print, alloc: Global, engine: &PlainEngine) -> Result<(), Stop> {
    let Some(shard) = engine.shard(1) else {
        return Err(Stop::Fault);
    };
    let view = view_at_last(rt, alloc, shard)?;
    let told = show_sum(rt, alloc, &view);
    drop(view);
    told?;
    Ok(())
}

fn show_sum(rt: &impl Print, alloc: Global, view: &ShardView) -> Result<(), AllocError> {
    let sum = sum_at_last(rt, alloc, view)?;
    tell(rt, &[("view of batches", view.record_len())]);
    show_cells(rt, &sum);
    drop(sum);
    Ok(())
}

fn view_at_last(rt: &impl Print, alloc: Global, shard: &Shard) -> Result<ShardView, AllocError> {
    match shard.view(alloc) {
        Ok(view) => Ok(view),
        Err(_) => {
            say(rt, "view refused");
            shard.view(alloc)
        }
    }
}

fn sum_at_last(rt: &impl Print, alloc: Global, view: &ShardView) -> Result<Hyper, AllocError> {
    match view.sum(alloc) {
        Ok(sum) => Ok(sum),
        Err(_) => {
            say(rt, "sum refused");
            view.sum(alloc)
        }
    }
}

fn show_export(rt: &impl Print, alloc: Global, engine: &PlainEngine) -> Result<(), Stop> {
    let sum = export_at_last(rt, alloc, engine)?;
    tell(rt, &[("export of entries", sum.entries())]);
    show_cells(rt, &sum);
    drop(sum);
    Ok(())
}

fn export_at_last(
    rt: &impl Print,
    alloc: Global,
    engine: &PlainEngine,
) -> Result<Hyper, AllocError> {
    match engine.export(alloc) {
        Ok(sum) => Ok(sum),
        Err(_) => {
            say(rt, "export refused");
            engine.export(alloc)
        }
    }
}

// The engine that the batches of this one make.
fn show_load(
    rt: &(impl RandomSource + Print),
    alloc: Global,
    engine: &PlainEngine,
) -> Result<(), Stop> {
    // This call tells that its batches have the setup's dimensions.
    let setup = engine.setup();
    let list = list_at_last(rt, alloc, engine)?;
    tell(rt, &[("list of batches", list.len() as u64)]);
    let told = show_loaded(rt, alloc, setup, &list);
    drop(list);
    told
}

fn list_at_last(
    rt: &impl Print,
    alloc: Global,
    engine: &PlainEngine,
) -> Result<Vec<Arc<Batch>>, AllocError>
    ensures { IfOk result (λ list. values list.items ≡ engine.now.book.state.list) }
{
    match engine.batches(alloc) {
        Ok(list) => Ok(list),
        Err(_) => {
            say(rt, "list refused");
            engine.batches(alloc)
        }
    }
}

// Loads a list, and tells what the engine holds.
fn show_loaded(
    rt: &(impl RandomSource + Print),
    alloc: Global,
    setup: Setup,
    list: &[Arc<Batch>],
) -> Result<(), Stop>
    requires { HaveDims setup.rows setup.cols (values list.now) }
{
    let loaded = load_at_last(rt, alloc, setup, list)?;
    show_engine(rt, &loaded);
    drop(loaded);
    Ok(())
}

fn load_at_last(
    rt: &(impl RandomSource + Print),
    alloc: Global,
    setup: Setup,
    list: &[Arc<Batch>],
) -> Result<PlainEngine, Stop>
    requires { HaveDims setup.rows setup.cols (values list.now) }
{
    match PlainEngine::from_batches(rt, alloc, setup, list) {
        Ok(loaded) => Ok(loaded),
        Err(LoadFault::Memory) => {
            say(rt, "load refused");
            PlainEngine::from_batches(rt, alloc, setup, list).map_err(|_| Stop::Fault)
        }
        Err(_) => Err(Stop::Fault),
    }
}
