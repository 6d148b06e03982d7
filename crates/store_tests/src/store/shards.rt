//! Shards: what is taken in, what is refused, and where the cells lie.
ghost use Rattle.std.specs.Prelude.{◌≡◌};

use batch_store::{Setup, Shard, ShardFault};
use std::alloc::Global;
use std::io::Eprint;
use std::process::Abort;
use std::random::RandomSource;
use test_batches::{Cells, batch, small_setup};
use test_support::{same, same_at};

/// The client, the number and the cells of a batch that is taken in, and the total of its part or why it isn't.
pub type Step = (u64, u64, Cells, Result<u64, ShardFault>);

// Prepares one batch of a table, and takes it in.
fn answer(
    rt: &impl Abort,
    alloc: Global,
    setup: &Setup,
    shard: &mut Shard,
    step: &Step,
) -> Result<u64, ShardFault>
    requires { shard.old.setup ≡ setup.now }
    ensures { shard.new.setup ≡ setup.now }
{
    let (client, number, cells, _) = *step;
    let b = batch(alloc, setup, (client, number), cells).expect(rt, "a batch");
    let prepared = shard.prepare(alloc, &b);
    drop(b);
    match prepared {
        Ok(p) => {
            let amount = p.amount();
            shard.commit(p);
            Ok(amount)
        }
        Err(fault) => Err(fault),
    }
}

/// Takes in the batches of a table, and compares each answer.
pub fn take_all(
    rt: &(impl Abort + Eprint),
    alloc: Global,
    setup: &Setup,
    shard: &mut Shard,
    steps: &[Step],
)
    requires { shard.old.setup ≡ setup.now }
    ensures { shard.new.setup ≡ setup.now }
{
    'steps: for step in steps {
        let taken = answer(rt, alloc, setup, shard, step);
        assert!(rt; same_at(rt, &(step.0, step.1, step.2), &taken, &step.3));
    }
}

/// A new shard with number 0 that took in the batches of a table, each with its answer.
pub fn shard_after<R: RandomSource + Abort + Eprint>(
    rt: &R,
    alloc: Global,
    setup: &Setup,
    steps: &[Step],
) -> Shard
    ensures { result.setup ≡ setup.now }
{
    // A setup has at least one shard, as any call on it shows.
    let _shards = setup.shards();
    let mut shard = Shard::new(rt, alloc, setup, 0).expect(rt, "a shard");
    take_all(rt, alloc, setup, &mut shard, steps);
    shard
}

// Of shard 0 of 2, which has the rows 0 and 2.
static STEPS: &[Step] = &[
    (7, 1, &[(0, 0, 60), (1, 0, 4)], Ok(60)),
    (
        7,
        1,
        &[(0, 0, 60), (1, 0, 4)],
        Err(ShardFault::AlreadyThere),
    ),
    // The pair comes before the total.
    (7, 1, &[(0, 0, 60)], Err(ShardFault::AlreadyThere)),
    (8, 1, &[(0, 0, 60)], Err(ShardFault::Over)),
    (8, 1, &[(2, 0, 41)], Err(ShardFault::Over)),
    (8, 1, &[(2, 0, 40), (1, 1, 900), (0, 1, 0)], Ok(40)),
    (9, 1, &[], Ok(0)),
];

// The counts at these places.
fn counts(shard: &Shard, places: [(u64, u64); 3]) -> [Option<u64>; 3] {
    places.map(|(row, col)| shard.get(row, col))
}

// The entries and the total of a row.
fn row(shard: &Shard, row: u64) -> (u64, u64) {
    let sum = shard.row_total(row);
    (sum.entries, sum.total)
}

#[test]
fn a_shard_takes_each_batch_once(rt: HostRuntime) {
    let shard = shard_after(
        &rt,
        rt.alloc(),
        &small_setup().expect(&rt, "a setup"),
        STEPS,
    );
    let size = (shard.number(), shard.total(), shard.record_len());
    let held = [shard.holds(7, 1), shard.holds(9, 1), shard.holds(7, 2)];
    assert!(rt; same(&rt, &(size, held), &((0, 100, 3), [true, true, false])));
    let own = (counts(&shard, [(0, 0), (0, 1), (2, 0)]), row(&shard, 0));
    assert!(rt; same(&rt, &own, &([Some(60), Some(0), Some(40)], (2, 60))));
    // Row 1 is of shard 1, and there is no row 4.
    let others = (counts(&shard, [(1, 0), (1, 1), (4, 0)]), row(&shard, 1));
    assert!(rt; same(&rt, &others, &([None; 3], (0, 0))));
    let layers = [0, 1, 2, 3, 4].map(|i: usize| shard.layer_entries(i));
    assert!(rt; same(&rt, &layers, &[None, Some(0), Some(3), Some(0), None]));
    drop(shard);
}

static FIVE: &[Step] = &[(7, 1, &[(0, 0, 5)], Ok(5))];

static THREE: &[Step] = &[(8, 1, &[(0, 0, 3)], Ok(3))];

// A view of the batch of 5 shows the same once the batch of 3 was taken in.
#[test]
fn a_view_stays_as_it_was(rt: HostRuntime) {
    let setup = small_setup().expect(&rt, "a setup");
    let mut shard = shard_after(&rt, rt.alloc(), &setup, FIVE);
    let view = shard.view(rt.alloc()).expect(&rt, "memory");
    take_all(&rt, rt.alloc(), &setup, &mut shard, THREE);
    let size = (shard.total(), shard.record_len());
    drop(shard);
    let sum = view.sum(rt.alloc()).expect(&rt, "memory");
    let seen = (view.record_len(), sum.entries(), sum.total());
    drop(sum);
    drop(view);
    assert!(rt; same(&rt, &(seen, size), &((1, 1, 5), (8, 2))));
}
