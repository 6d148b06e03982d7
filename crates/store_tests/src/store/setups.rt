//! Setups, good and bad.
use batch_store::{Setup, SetupFault};
use test_batches::small_setup;
use test_support::{same, same_at};

const MOST: u64 = 1 << 60;

/// The values of a setup in the order of `Setup::new`, and why it is refused.
type Judged = (u64, u64, &'static [u64], u64, u64, u64, Option<SetupFault>);

static JUDGED: &[Judged] = &[
    // The widest one.
    (
        MOST,
        MOST,
        &[1, 2, 3, 4, 5, 6, 1 << 40],
        64,
        u64::MAX,
        1 << 30,
        None,
    ),
    (0, 3, &[2, 4], 2, 100, 10, Some(SetupFault::BadDimension)),
    (3, 0, &[2, 4], 2, 100, 10, Some(SetupFault::BadDimension)),
    (
        3,
        1 << 61,
        &[2, 4],
        2,
        100,
        10,
        Some(SetupFault::BadDimension),
    ),
    (3, 3, &[4, 4], 2, 100, 10, Some(SetupFault::BadCuts)),
    (3, 3, &[0, 4], 2, 100, 10, Some(SetupFault::BadCuts)),
    (
        3,
        3,
        &[1, 2, 3, 4, 5, 6, 7, 8],
        2,
        100,
        10,
        Some(SetupFault::BadCuts),
    ),
    (3, 3, &[2, 4], 0, 100, 10, Some(SetupFault::BadShards)),
    (3, 3, &[2, 4], 65, 100, 10, Some(SetupFault::BadShards)),
    (3, 3, &[2, 4], 2, 0, 10, Some(SetupFault::BadLimit)),
    (3, 3, &[2, 4], 2, 100, 0, Some(SetupFault::BadBatches)),
    (
        3,
        3,
        &[2, 4],
        2,
        100,
        (1 << 30) + 1,
        Some(SetupFault::BadBatches),
    ),
    // The first of several faults is reported.
    (0, 3, &[2, 4], 2, 0, 10, Some(SetupFault::BadDimension)),
    (3, 3, &[4, 4], 65, 0, 0, Some(SetupFault::BadCuts)),
    (3, 3, &[2, 4], 65, 0, 0, Some(SetupFault::BadShards)),
    (3, 3, &[2, 4], 2, 0, 0, Some(SetupFault::BadLimit)),
];

#[test]
fn values_are_judged_in_order(rt: HostRuntime) {
    for (rows, cols, cuts, shards, limit, max_batches, fault) in JUDGED {
        let found = Setup::new(*rows, *cols, cuts, *shards, *limit, *max_batches).err();
        assert!(rt; same_at(&rt, &(*rows, *cols, *shards), &found, fault));
    }
}

#[test]
fn a_setup_gives_its_values(rt: HostRuntime) {
    let setup = small_setup().expect(&rt, "a setup");
    let sides = (setup.rows(), setup.cols(), setup.shards());
    let bounds = (
        setup.limit(),
        setup.max_batches(),
        setup.cuts() == [2, 4].as_slice(),
    );
    assert!(rt; same(&rt, &(sides, bounds), &((3, 3, 2), (100, 10, true))));
}
