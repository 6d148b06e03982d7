//! Equal places added up, in lists that were worked out by hand.
ghost use Rattle.std.specs.Prelude.{◌<◌, ◌^◌};
ghost use Rattle.cells.specs.Sums.{cell_total};

use crate::fixtures::{Triple, cell, cells_of};
use cells::{Cell, checked_total, into_summed, summed, total_of};
use std::alloc::Global;
use std::process::Abort;
use test_support::holds_at;

/// A list, and its places with the sums of their counts.
static SUMS: &[(&[Triple], &[Triple])] = &[
    (&[], &[]),
    (&[(1, 1, 0)], &[(1, 1, 0)]),
    (&[(0, 0, 1), (0, 0, 2)], &[(0, 0, 3)]),
    (
        &[(2, 1, 3), (0, 2, 1), (2, 0, 0), (0, 2, 5), (2, 1, 4)],
        &[(0, 2, 6), (2, 0, 0), (2, 1, 7)],
    ),
    (
        &[(7, 7, u64::MAX), (7, 7, 0), (7, 7, 0)],
        &[(7, 7, u64::MAX)],
    ),
];

// Whether a list is summed to these cells, lent and given away, and has their total.
fn sums_to(rt: &impl Abort, alloc: Global, cells: Vec<Cell>, want: &[Cell]) -> bool
    requires { cell_total cells.items < 2 ^ 64 }
{
    let lent = summed(alloc, &cells).expect(rt, "memory");
    let is_same = lent.as_slice() == want && checked_total(want) == Some(total_of(&cells));
    drop(lent);
    let given = into_summed(cells);
    let are_same = is_same && given.as_slice() == want;
    drop(given);
    are_same
}

fn adds_up(rt: &impl Abort, alloc: Global, triples: &[Triple], want: &[Triple]) -> bool {
    let cells = cells_of(rt, alloc, triples);
    let want = cells_of(rt, alloc, want);
    let adds_up = match checked_total(&cells) {
        Some(_) => sums_to(rt, alloc, cells, &want),
        None => {
            drop(cells);
            false
        }
    };
    drop(want);
    adds_up
}

#[test]
fn worked_rows(rt: HostRuntime) {
    for (triples, want) in SUMS {
        assert!(rt; holds_at(&rt, triples, adds_up(&rt, rt.alloc(), triples, want)));
    }
    let pair = [cell((0, 0, u64::MAX)), cell((1, 1, 1))];
    assert!(rt; checked_total(&pair).is_none() && checked_total(&pair[..1]) == Some(u64::MAX));
}
