//! Matrices of lists, and the list that is merged of them.
use crate::fixtures::{Triple, built, cells_of};
use cells::Cell;
use hyper_matrix::Hyper;
use merged_cells::{MergedCells, Sources};
use std::alloc::Global;
use std::process::Abort;

/// How many rows and columns each matrix has.
pub const SIDE: u64 = 1 << 60;

/// The matrix of a list that has no fault.
pub fn matrix(rt: &impl Abort, alloc: Global, triples: &[Triple]) -> Hyper {
    let cells = cells_of(rt, alloc, triples);
    let m = built(rt, alloc, SIDE, &cells);
    drop(cells);
    m
}

pub fn matrices(rt: &impl Abort, alloc: Global, lists: &[&[Triple]]) -> Vec<Hyper> {
    let mut all = Vec::new(alloc);
    for list in lists {
        all.push(matrix(rt, alloc, list)).expect(rt, "memory");
    }
    all
}

pub fn merged<'a>(rt: &impl Abort, alloc: Global, matrices: &'a [Hyper]) -> MergedCells<'a> {
    let mut sources = Sources::new(alloc);
    for m in matrices {
        sources.add(m).expect(rt, "a source");
    }
    sources.merged()
}

pub fn listed(rt: &impl Abort, alloc: Global, matrices: &[Hyper]) -> Vec<Cell> {
    let mut list = Vec::new(alloc);
    for cell in merged(rt, alloc, matrices) {
        list.push(cell).expect(rt, "memory");
    }
    list
}
