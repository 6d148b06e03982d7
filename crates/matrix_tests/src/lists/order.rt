//! The order of two cells.
use crate::fixtures::cell;
use cells::{is_in_order, rises};
use test_support::same_at;

const HIGH: u64 = u64::MAX;

/// Two places, whether the second is not below the first, and whether it is above it.
static PAIRS: &[((u64, u64), (u64, u64), bool, bool)] = &[
    ((0, 0), (0, 0), true, false),
    ((0, 0), (0, 1), true, true),
    ((0, 1), (0, 0), false, false),
    ((0, HIGH), (1, 0), true, true),
    ((1, 0), (0, HIGH), false, false),
    ((HIGH, HIGH), (HIGH, HIGH), true, false),
    ((HIGH, HIGH), (HIGH, HIGH - 1), false, false),
    ((HIGH, HIGH), (HIGH - 1, HIGH), false, false),
];

#[test]
fn pairs(rt: HostRuntime) {
    for (p, q, follows, precedes) in PAIRS {
        let pair = [cell((p.0, p.1, 1)), cell((q.0, q.1, 1))];
        let found = (is_in_order(&pair), rises(&pair));
        assert!(rt; same_at(&rt, &(*p, *q), &found, &(*follows, *precedes)));
    }
}
