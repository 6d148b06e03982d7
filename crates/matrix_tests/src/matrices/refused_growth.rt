//! What stands after a growth was refused: the matrices are as they were, and the same call succeeds the next time.
use crate::fixtures::{built, can_add, cell, has};
use cells::Cell;
use hyper_matrix::Hyper;
use std::alloc::Global;
use std::process::Abort;

const SIDE: u64 = 1 << 20;

// 600 cells in rows of 10: at even columns with one count and at odd ones with
// another, if that isn't 0.
fn grid(rt: &impl Abort, alloc: Global, even: u64, odd: u64) -> Vec<Cell> {
    let mut cells = Vec::new(alloc);
    for k in 0..600u64 {
        let count = if k % 2 == 0 { even } else { odd };
        if count > 0 {
            cells
                .push(cell((k / 10, k % 10, count)))
                .expect(rt, "memory");
        }
    }
    cells
}

// Whether a sum has these cells. Where it is refused memory, the first matrix is to have its cells still, and the sum
// is to come out the next time.
fn outlasts_refusal(
    rt: &impl Abort,
    alloc: Global,
    a: &Hyper,
    xs: &[Cell],
    b: &Hyper,
    want: &[Cell],
) -> bool {
    if !can_add(a, b) {
        return false;
    }
    let (sum, is_as_before) = match a.ewise_add(alloc, b) {
        Ok(sum) => (sum, true),
        Err(_) => {
            let again = a.ewise_add(alloc, b).expect(rt, "memory");
            (again, has(rt, alloc, a, xs))
        }
    };
    let has_all = has(rt, alloc, &sum, want);
    drop(sum);
    has_all && is_as_before
}

#[test]
fn lent_sums(rt: HostRuntime) {
    let ones = grid(&rt, rt.alloc(), 1, 1);
    let twos = grid(&rt, rt.alloc(), 2, 0);
    let want = grid(&rt, rt.alloc(), 3, 1);
    let a = built(&rt, rt.alloc(), SIDE, &ones);
    let b = built(&rt, rt.alloc(), SIDE, &twos);
    drop(twos);
    let outlasts = outlasts_refusal(&rt, rt.alloc(), &a, &ones, &b, &want);
    drop(a);
    drop(b);
    drop(ones);
    drop(want);
    assert!(rt; outlasts);
}
