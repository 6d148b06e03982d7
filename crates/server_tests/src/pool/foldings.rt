//! The threads beside a pool's workers, which compact and fold: when they fold, and that they change no answer.

use crate::pool::engines::found_over;
use crate::pool::gates::OpenGate;
use crate::pool::links::{Kind, links};
use session_pool::{PoolReport, Saver};
use test_support::same_at;

// Above how many cells a pool folds, what each of its 100 sessions asks beside a Put of a count of 1 at one place, how
// many threads compact, and how many batches are folded at least and at most.
static ROWS: &[(u64, Kind, u64, [u64; 2])] = &[
    (0, Kind::Put, 1, [0, 0]),
    // No more than 100 cells are ever accepted.
    (100, Kind::Put, 2, [0, 0]),
    // A last batch of one cell may wait, since a fold is due above one.
    (1, Kind::Put, 2, [99, 100]),
    // Each session folds after its own Put, whether the pool folds unasked or not.
    (0, Kind::PutAndFold, 2, [100, 100]),
    (1, Kind::PutAndFold, 2, [100, 100]),
];

#[test]
fn sums_and_folds_beside_puts_change_no_count(rt: HostRuntime) {
    let report = PoolReport {
        started: 4,
        served: 100,
    };
    for (above, kind, compactors, [least, most]) in ROWS {
        let saver = Saver::new(None).with_log(None).folding_above(*above);
        let links = links(&rt, rt.alloc(), *kind, 100);
        let found = found_over(&rt, rt.alloc(), 4, &OpenGate, &saver, links, *compactors);
        drop(saver);
        let place = (*above, *compactors, found.folded);
        let is_folded = *least <= found.folded && found.folded <= *most;
        assert!(rt;
            same_at(
                &rt,
                &place,
                &(found.report, found.count),
                &(Ok(report), Some(100))
            )
        );
        assert!(rt; same_at(&rt, &place, &is_folded, &true));
    }
}
