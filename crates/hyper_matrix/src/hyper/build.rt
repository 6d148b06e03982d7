//! `C(i,j) = sum of the counts at (i,j)`: `GrB_Matrix_build` with plus as `dup`.
//!
//! The list is put in strict order, with the counts of equal places added up.
ghost use Rattle.std.specs.Prelude.{◌≡◌, ℕ, ◌<◌, ◌^◌, ◌↔◌, Option, IfOk, IsOk, length};
ghost use Rattle.cells.specs.Bounds.{IsDimension, AreWithin};
ghost use Rattle.cells.specs.Order.{Rise};
ghost use Rattle.hyper_matrix.specs.Cells.{built_of, cell_total};
ghost use Rattle.hyper_matrix.specs.Matrix.{matrix};
ghost use Rattle.hyper_matrix.specs.Refusals.{first_fault};

use crate::hyper::Hyper;
use crate::judge::{BuildFault, judge_cells};
use crate::piece::Piece;
use cells::{Cell, into_summed, rises, total_of};
use std::alloc::{AllocError, Global};

impl Hyper {
    /// The matrix of a list of cells, `GrB_Matrix_build` with plus as `dup`: it has the places that the list names,
    /// each with the sum of its counts.
    ///
    /// The list is judged in its order and before any growth: at each cell the place, and then the running total. A
    /// list in which each place stands once, by row and then by column, is read where it stands. Of any other a copy is
    /// sorted, and the counts of equal places are added up.
    ///
    /// # Errors
    ///
    /// `IndexOutOfRange` and `SumTooLarge` tell the first cell's fault, and stand exactly where the list has one.
    /// `Memory` stands only where the list has none and isn't empty, and memory was refused.
    pub fn build(alloc: Global, rows: u64, cols: u64, cells: &[Cell]) -> Result<Hyper, BuildFault>
        requires rows { IsDimension rows }
        requires cols { IsDimension cols }
        ensures ok { IfOk result (λ m. m ≡ matrix rows cols (built_of cells.now)) }
        ensures index { (result ≡ Err BuildFault.IndexOutOfRange) ↔
            (first_fault rows cols 0 cells.now ≡ Some BuildFault.IndexOutOfRange) }
        ensures sum { (result ≡ Err BuildFault.SumTooLarge) ↔
            (first_fault rows cols 0 cells.now ≡ Some BuildFault.SumTooLarge) }
        ensures memory { (result ≡ Err BuildFault.Memory) → (first_fault rows cols 0 cells.now ≡ None) }
        ensures none { length cells.now ≡ 0 → IsOk result }
    {
        match judge_cells(rows, cols, cells) {
            Some(fault) => Err(fault),
            None => match build_judged(alloc, rows, cols, cells) {
                Ok(m) => Ok(m),
                Err(_) => Err(BuildFault::Memory),
            },
        }
    }

    /// The same of a list that is given away. It is judged as it came, and then sorted and added up in its own memory,
    /// so that beside the matrix no memory is taken. The list is gone, also where it is refused.
    ///
    /// # Errors
    ///
    /// Those of `build`.
    pub fn build_list(
        alloc: Global,
        rows: u64,
        cols: u64,
        cells: Vec<Cell>,
    ) -> Result<Hyper, BuildFault>
        requires rows { IsDimension rows }
        requires cols { IsDimension cols }
        ensures ok { IfOk result (λ m. m ≡ matrix rows cols (built_of cells.items)) }
        ensures index { (result ≡ Err BuildFault.IndexOutOfRange) ↔
            (first_fault rows cols 0 cells.items ≡ Some BuildFault.IndexOutOfRange) }
        ensures sum { (result ≡ Err BuildFault.SumTooLarge) ↔
            (first_fault rows cols 0 cells.items ≡ Some BuildFault.SumTooLarge) }
        ensures memory { (result ≡ Err BuildFault.Memory) → (first_fault rows cols 0 cells.items ≡ None) }
        ensures none { length cells.items ≡ 0 → IsOk result }
    {
        match judge_cells(rows, cols, &cells) {
            Some(fault) => Err(fault),
            None => match build_given(alloc, rows, cols, cells) {
                Ok(m) => Ok(m),
                Err(_) => Err(BuildFault::Memory),
            },
        }
    }

    /// The matrix of a list of cells in which each place stands once, by row and then by column. It takes the list over.
    ///
    /// Where more than a quarter of the list's room is free it is given back.
    ///
    /// # Errors
    ///
    /// Memory was refused, which doesn't happen for an empty list. The list is gone then.
    pub fn from_sorted(
        alloc: Global,
        rows: u64,
        cols: u64,
        cells: Vec<Cell>,
    ) -> Result<Hyper, AllocError>
        requires rows { IsDimension rows }
        requires cols { IsDimension cols }
        requires rises { Rise cells.items }
        requires within { AreWithin rows cols cells.items }
        requires fits { cell_total cells.items < 2 ^ 64 }
        ensures value { IfOk result (λ m. m ≡ matrix rows cols (built_of cells.items)) }
        ensures none { length cells.items ≡ 0 → IsOk result }
    {
        if cells.len() == 0 {
            return Ok(Hyper::new(alloc, rows, cols));
        }
        let cells = without_room(cells);
        let sum = total_of(&cells);
        let piece = Piece::new(alloc, cells)?;
        Ok(Hyper {
            rows,
            cols,
            sum,
            piece,
        })
    }
}

// A list without its free room, where that is more than a quarter of the room.
fn without_room(cells: Vec<Cell>) -> Vec<Cell>
    ensures { result.items ≡ cells.items }
{
    let mut list = cells;
    if list.len() < list.capacity() / 4 * 3 {
        list.shrink_to_fit();
    }
    list
}

/// The matrix of a list of cells in which each place stands once, by row and then by column.
pub fn of_list(alloc: Global, rows: u64, cols: u64, cells: &[Cell]) -> Result<Hyper, AllocError>
    requires rows { IsDimension rows }
    requires cols { IsDimension cols }
    requires rises { Rise cells.now }
    requires within { AreWithin rows cols cells.now }
    requires fits { cell_total cells.now < 2 ^ 64 }
    ensures { IfOk result (λ m. m ≡ matrix rows cols (built_of cells.now)) }
{
    let list = Vec::from_slice(alloc, cells)?;
    let m = Hyper::from_sorted(alloc, rows, cols, list)?;
    Ok(m)
}

// The matrix of a list of cells that was judged and is given away.
fn build_given(alloc: Global, rows: u64, cols: u64, cells: Vec<Cell>) -> Result<Hyper, AllocError>
    requires rows { IsDimension rows }
    requires cols { IsDimension cols }
    requires judged { first_fault rows cols 0 cells.items ≡ None }
    ensures value { IfOk result (λ m. m ≡ matrix rows cols (built_of cells.items)) }
    ensures none { length cells.items ≡ 0 → IsOk result }
{
    if cells.len() == 0 {
        return Ok(Hyper::new(alloc, rows, cols));
    }
    let list = into_summed(cells);
    let m = Hyper::from_sorted(alloc, rows, cols, list)?;
    Ok(m)
}

// The matrix of a list of cells that was judged.
fn build_judged(alloc: Global, rows: u64, cols: u64, cells: &[Cell]) -> Result<Hyper, AllocError>
    requires rows { IsDimension rows }
    requires cols { IsDimension cols }
    requires judged { first_fault rows cols 0 cells.now ≡ None }
    ensures value { IfOk result (λ m. m ≡ matrix rows cols (built_of cells.now)) }
    ensures none { length cells.now ≡ 0 → IsOk result }
{
    if cells.len() == 0 {
        return Ok(Hyper::new(alloc, rows, cols));
    }
    if rises(cells) {
        let m = of_list(alloc, rows, cols, cells)?;
        return Ok(m);
    }
    let list = Vec::from_slice(alloc, cells)?;
    let m = build_given(alloc, rows, cols, list)?;
    Ok(m)
}
