//! The parts of a matrix in all shards, `part` for each of them, as pieces of one list.
//!
//! The cells of each shard are counted, which says where each shard begins in the list. Then each cell is written to
//! the next place of its shard: two passes over the cells, with any number of shards.
ghost use Rattle.std.specs.Prelude.{◌≡◌, ℕ, ◌+◌, ◌<◌, ◌≤◌, ◌^◌, IfOk, length, slice_index, slice_range};
ghost use Rattle.cells.specs.Bounds.{AreWithin};
ghost use Rattle.cells.specs.Order.{Rise};
ghost use Rattle.hyper_matrix.specs.Cells.{built_of, cell_total};
ghost use Rattle.hyper_matrix.specs.Matrix.{matrix};
ghost use Rattle.hyper_matrix.specs.Parts.{parts_below, shard_cells, count_below, InLine};

use super::build::of_list;
use crate::hyper::Hyper;
use crate::limits::SMALL_SHARE;
use crate::piece::Piece;
use crate::shard::shard_of;
use cells::{Cell, total_of};
use std::alloc::{AllocError, Global};

// Counts the cells of each shard, of as many shards as there are counts.
fn count_cells(counts: &mut [usize], cells: &[Cell])
    requires some { 0 < length counts.old }
    requires zero { (s : ℕ) → slice_index counts.old s ≡ 0 }
    ensures { (s : ℕ) → s < length counts.old →
        slice_index counts.new s ≡ length (shard_cells s (length counts.old) cells.now) }
{
    let k = counts.len() as u64;
    for cell in cells {
        let s = shard_of(cell.row, k) as usize;
        counts[s] += 1;
    }
}

// Where each shard begins, if the cells of all shards stand in line, a shard after the other.
fn find_begins(begins: &mut [usize], cells: &[Cell])
    requires some { 0 < length begins.old }
    requires zero { (s : ℕ) → slice_index begins.old s ≡ 0 }
    ensures { (s : ℕ) → s < length begins.old →
        slice_index begins.new s ≡ count_below s (length begins.old) cells.now }
{
    count_cells(begins, cells);
    let mut end = 0usize;
    for i in 0..begins.len() {
        let count = begins[i];
        begins[i] = end;
        end += count;
    }
}

// Puts the cells of all shards in line, where `next` has the place of each shard's first cell. Then it has where each
// shard ends.
fn put_in_line(line: &mut [Cell], next: &mut [usize], cells: &[Cell])
    requires some { 0 < length next.old }
    requires room { length line.old ≡ length cells.now }
    requires begins { (s : ℕ) → s < length next.old →
        slice_index next.old s ≡ count_below s (length next.old) cells.now }
    ensures ends { (s : ℕ) → s < length next.old →
        slice_index next.new s ≡ count_below (s + 1) (length next.old) cells.now }
    ensures line { InLine (length next.old) line.new cells.now }
{
    let k = next.len() as u64;
    for cell in cells {
        let s = shard_of(cell.row, k) as usize;
        let at = next[s];
        next[s] = at + 1;
        line[at] = *cell;
    }
}

// A part of the matrix: the cells from one number up to another of a list. Where they are fewer than `least` they get a
// list of their own, and else they are a piece of this one.
fn part_of(
    alloc: Global,
    whole: &Hyper,
    line: &Piece,
    from: usize,
    to: usize,
    least: usize,
) -> Result<Hyper, AllocError>
    requires range { (from ≤ to) × (to ≤ length line.now) }
    requires rises { Rise (slice_range line.now from to) }
    requires within { AreWithin whole.now.rows whole.now.cols (slice_range line.now from to) }
    requires fits { cell_total (slice_range line.now from to) < 2 ^ 64 }
    ensures { IfOk result (λ part.
        part ≡ matrix whole.now.rows whole.now.cols (built_of (slice_range line.now from to))) }
{
    let (rows, cols) = whole.dims();
    let cells = &line.cells()[from..to];
    if cells.len() < least {
        let part = of_list(alloc, rows, cols, cells)?;
        return Ok(part);
    }
    let sum = total_of(cells);
    let piece = line.range(from, to)?;
    Ok(Hyper {
        rows,
        cols,
        sum,
        piece,
    })
}

// The parts of the matrix of a list of cells, where a line has them a shard after the other, and where each shard ends.
fn cut(
    alloc: Global,
    whole: &Hyper,
    cells: &[Cell],
    line: &Piece,
    ends: &[usize],
) -> Result<Vec<Hyper>, AllocError>
    requires some { 0 < length ends.now }
    requires rises { Rise cells.now }
    requires within { AreWithin whole.now.rows whole.now.cols cells.now }
    requires fits { cell_total cells.now < 2 ^ 64 }
    requires all { length line.now ≡ length cells.now }
    requires ends { (s : ℕ) → s < length ends.now →
        slice_index ends.now s ≡ count_below (s + 1) (length ends.now) cells.now }
    requires line { InLine (length ends.now) line.now cells.now }
    ensures { IfOk result (λ parts. parts.items ≡ parts_below (length ends.now) (length ends.now)
        (matrix whole.now.rows whole.now.cols (built_of cells.now))) }
{
    let least = cells.len() / ends.len() / SMALL_SHARE + 1;
    let mut parts = Vec::with_capacity(alloc, ends.len())?;
    let mut from = 0;
    for end in ends {
        let part = part_of(alloc, whole, line, from, *end, least)?;
        parts.push(part)?;
        from = *end;
    }
    Ok(parts)
}

// The parts of the matrix of a list of cells.
fn parts_of(alloc: Global, whole: &Hyper, cells: &[Cell], k: u64) -> Result<Vec<Hyper>, AllocError>
    requires shards { 0 < k }
    requires rises { Rise cells.now }
    requires within { AreWithin whole.now.rows whole.now.cols cells.now }
    requires fits { cell_total cells.now < 2 ^ 64 }
    ensures { IfOk result (λ parts. parts.items ≡
        parts_below k k (matrix whole.now.rows whole.now.cols (built_of cells.now))) }
{
    let mut next = vec![in alloc; 0usize; k as usize]?;
    find_begins(&mut next, cells);
    let mut line = Vec::from_slice(alloc, cells)?;
    put_in_line(&mut line, &mut next, cells);
    let line = Piece::new(alloc, line)?;
    cut(alloc, whole, cells, &line, &next)
}

impl Hyper {
    /// The parts of all shards of `k`, in order: for each what `part` gives.
    ///
    /// Reads the cells twice, and takes the memory of one list of them, of which the parts are pieces. A part with less
    /// than an eighth of an even share gets a list of its own. Where there is one shard, its part shares all cells, as
    /// `copy`.
    ///
    /// # Errors
    ///
    /// Memory was refused.
    pub fn parts(&self, alloc: Global, k: u64) -> Result<Vec<Hyper>, AllocError>
        requires { 0 < k }
        ensures { IfOk result (λ parts. parts.items ≡ parts_below k k self.now) }
    {
        // One shard has all rows.
        if k == 1 {
            let mut parts = Vec::with_capacity(alloc, 1)?;
            parts.push(self.copy(alloc)?)?;
            return Ok(parts);
        }
        // The whole's total bounds each part's.
        let _bound = self.total();
        let parts = parts_of(alloc, self, self.as_cells(), k)?;
        Ok(parts)
    }
}
