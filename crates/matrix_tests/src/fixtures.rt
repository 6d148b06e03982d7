//! Cells and matrices for tests.
ghost use Rattle.std.specs.Prelude.{◌≡◌, ◌+◌, ◌<◌, ◌^◌, true};
ghost use Rattle.cells.specs.Bounds.{IsDimension};
ghost use Rattle.hyper_matrix.specs.Counts.{total};

use cells::Cell;
use hyper_matrix::Hyper;
use std::alloc::Global;
use std::process::Abort;

/// Row, column and count.
pub type Triple = (u64, u64, u64);

pub fn cell((row, col, count): Triple) -> Cell {
    Cell { row, col, count }
}

pub fn cells_of(rt: &impl Abort, alloc: Global, triples: &[Triple]) -> Vec<Cell> {
    let mut cells = Vec::new(alloc);
    for triple in triples {
        cells.push(cell(*triple)).expect(rt, "memory");
    }
    cells
}

/// SplitMix64 (Steele, Lea and Flood, 2014).
pub fn mixed(seed: u64) -> u64 {
    let a = seed.wrapping_mul(0x9e37_79b9_7f4a_7c15);
    let b = (a ^ (a >> 30)).wrapping_mul(0xbf58_476d_1ce4_e5b9);
    let c = (b ^ (b >> 27)).wrapping_mul(0x94d0_49bb_1331_11eb);
    c ^ (c >> 31)
}

/// The square matrix of a list that has no fault.
pub fn built(rt: &impl Abort, alloc: Global, side: u64, cells: &[Cell]) -> Hyper
    requires { IsDimension side }
{
    Hyper::build(alloc, side, side, cells).expect(rt, "a matrix")
}

/// The matrix of 3 by 3 of a list that has no fault.
pub fn small(rt: &impl Abort, alloc: Global, triples: &[Triple]) -> Hyper {
    let cells = cells_of(rt, alloc, triples);
    let m = built(rt, alloc, 3, &cells);
    drop(cells);
    m
}

/// Whether a matrix has these cells, in this order.
pub fn has(rt: &impl Abort, alloc: Global, m: &Hyper, want: &[Cell]) -> bool {
    let cells = m.cells(alloc).expect(rt, "memory");
    let is_same = cells.as_slice() == want && m.entries() == want.len() as u64;
    drop(cells);
    is_same
}

/// Whether two matrices can be added: they have the same dimensions, and their totals fit together.
pub fn can_add(a: &Hyper, b: &Hyper) -> bool
    ensures rows { result ≡ true → a.now.rows ≡ b.now.rows }
    ensures cols { result ≡ true → a.now.cols ≡ b.now.cols }
    ensures total { result ≡ true → total a.now.counts + total b.now.counts < 2 ^ 64 }
{
    let (rows, cols) = a.dims();
    let (other_rows, other_cols) = b.dims();
    rows == other_rows && cols == other_cols && a.total().checked_add(b.total()).is_some()
}
