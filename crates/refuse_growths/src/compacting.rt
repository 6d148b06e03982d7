//! A shard whose parts are added up apart from it: what `begin`, `Compaction::run` and `settle` leave.
ghost use Rattle.std.specs.Prelude.{◌≡◌, IfOk};
ghost use Rattle.std.specs.Arc.{arc_value};

use crate::show::{say, show_shard, tell};
use crate::stop::Stop;
use batch_store::{Batch, CellsFault, Compaction, Setup, SetupFault, Shard, ShardFault};
use cells::Cell;
use std::alloc::{AllocError, Global};
use std::random::RandomSource;
use std::sync::Arc;

/// Three cells of row 0: more than the first cut. Ten such lists are fewer than the second one.
static ROW: [Cell; 3] = [
    Cell {
        row: 0,
        col: 0,
        count: 1,
    },
    Cell {
        row: 0,
        col: 1,
        count: 2,
    },
    Cell {
        row: 0,
        col: 2,
        count: 3,
    },
];

// The small setup with a second cut of 64.
fn wide_setup() -> Result<Setup, SetupFault> {
    Setup::new(3, 3, &[2, 64], 2, 100, 10)
}

/// Has a shard take ten batches in, whose parts are side by side in layer 2 then, and adds these up.
pub fn run(rt: &(impl RandomSource + Print), alloc: Global) -> Result<(), Stop> {
    let setup = wide_setup()?;
    let mut shard = Shard::new(rt, alloc, &setup, 0)?;
    let told = run_example(rt, alloc, &setup, &mut shard);
    drop(shard);
    told
}

fn run_example(rt: &impl Print, alloc: Global, setup: &Setup, shard: &mut Shard) -> Result<(), Stop>
    requires { shard.old.setup ≡ setup.now }
{
    take_five(alloc, setup, shard, 1)?;
    take_five(alloc, setup, shard, 6)?;
    compact(rt, alloc, shard)
}

// Has a shard take in the batches of five numbers.
fn take_five(alloc: Global, setup: &Setup, shard: &mut Shard, first: u32) -> Result<(), Stop>
    requires { shard.old.setup ≡ setup.now }
    ensures { shard.new.setup ≡ shard.old.setup }
{
    let first = u64::from(first);
    take_in(alloc, setup, shard, first)?;
    take_in(alloc, setup, shard, first + 1)?;
    take_in(alloc, setup, shard, first + 2)?;
    take_in(alloc, setup, shard, first + 3)?;
    take_in(alloc, setup, shard, first + 4)
}

fn row_batch(alloc: Global, setup: &Setup, number: u64) -> Result<Arc<Batch>, Stop>
    ensures rows { IfOk result (λ b. (arc_value b).matrix.rows ≡ setup.now.rows) }
    ensures cols { IfOk result (λ b. (arc_value b).matrix.cols ≡ setup.now.cols) }
{
    match Batch::from_cells(alloc, setup, 7, number, &ROW) {
        Ok(batch) => Ok(batch),
        Err(CellsFault::Memory) => Err(Stop::SetUp),
        Err(_) => Err(Stop::Fault),
    }
}

// Has a shard take in the batch of this number.
fn take_in(alloc: Global, setup: &Setup, shard: &mut Shard, number: u64) -> Result<(), Stop>
    requires { shard.old.setup ≡ setup.now }
    ensures { shard.new.setup ≡ shard.old.setup }
{
    let b = row_batch(alloc, setup, number)?;
    let made = shard.prepare(alloc, &b);
    drop(b);
    match made {
        Ok(prepared) => {
            shard.commit(prepared);
            Ok(())
        }
        Err(ShardFault::Memory) => Err(Stop::SetUp),
        Err(_) => Err(Stop::Fault),
    }
}

// What is due, begun again where memory was refused.
fn begun_at_last(
    rt: &impl Print,
    alloc: Global,
    shard: &mut Shard,
) -> Result<Option<Compaction>, AllocError> {
    match shard.begin(alloc, 0, usize::MAX) {
        Ok(compaction) => Ok(compaction),
        Err(_) => {
            say(rt, "begin refused");
            show_shard(rt, shard);
            shard.begin(alloc, 0, usize::MAX)
        }
    }
}

// Makes a sum; where memory was refused, it is told what stands, and what is still due is begun and made again.
fn make_at_last(
    rt: &impl Print,
    alloc: Global,
    shard: &mut Shard,
    compaction: Compaction,
) -> Result<(), Stop> {
    if compaction.run(alloc).is_ok() {
        return Ok(());
    }
    say(rt, "run refused");
    show_shard(rt, shard);
    let Some(again) = shard.begin(alloc, 0, usize::MAX)? else {
        return Err(Stop::Fault);
    };
    again.run(alloc)?;
    Ok(())
}

// Puts the sum in place, again where memory was refused.
fn settled_at_last(rt: &impl Print, alloc: Global, shard: &mut Shard) -> Result<bool, AllocError> {
    match shard.settle(alloc) {
        Ok(settled) => Ok(settled),
        Err(_) => {
            say(rt, "settle refused");
            show_shard(rt, shard);
            shard.settle(alloc)
        }
    }
}

fn compact(rt: &impl Print, alloc: Global, shard: &mut Shard) -> Result<(), Stop> {
    let Some(compaction) = begun_at_last(rt, alloc, shard)? else {
        return Err(Stop::Fault);
    };
    make_at_last(rt, alloc, shard, compaction)?;
    if !settled_at_last(rt, alloc, shard)? {
        return Err(Stop::Fault);
    }
    say(rt, "settled");
    show_shard(rt, shard);
    let row = shard.row_total(0);
    tell(rt, &[("row 0 entries", row.entries), ("total", row.total)]);
    Ok(())
}
