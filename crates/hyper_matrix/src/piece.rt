//! A piece of a list of cells, which other matrices may share.
ghost use Rattle.std.specs.Prelude.{◌≡◌, ◌≤◌, [], IfOk, length, slice_range};
ghost use Rattle.hyper_matrix.specs.Pieces.{shared_cells};

use cells::Cell;
use std::alloc::{AllocError, Global};
use std::marker::Model;
use std::sync::Arc;

/// Cells that several pieces may share. Contracts see the list. Nobody changes it.
#[derive(Drop)]
struct CellList {
    cells: Vec<Cell>,
}

impl Model for CellList {
    ghost use Rattle.std.specs.Prelude.{List};
    ghost use Rattle.cells.specs.declared.cell.Cell.{Cell};

    ghost Value = { List Cell };

    ghost view = { λ l. l.cells.items };
}

/// The cells from `from` up to `to` of a list that others may share, and none where there is no list.
///
/// Contracts see these cells. A piece keeps its whole list in memory.
#[derive(Drop)]
pub struct Piece {
    list: Option<Arc<CellList>>,
    from: usize,
    to: usize,
}

impl Model for Piece {
    ghost use Rattle.std.specs.Prelude.{◌≤◌, List, length, slice_range};
    ghost use Rattle.cells.specs.declared.cell.Cell.{Cell};
    ghost use Rattle.hyper_matrix.specs.Pieces.{shared_cells};

    ghost Value = { List Cell };

    ghost view = { λ p. slice_range (shared_cells p.list) p.from p.to };

    ghost invariant = { λ p. (p.from ≤ p.to) × (p.to ≤ length (shared_cells p.list)) };
}

impl CellList {
    fn cells(&self) -> &[Cell]
        ensures { result.now ≡ self.now }
    {
        &self.cells
    }
}

// The same list once more, if there is one.
fn share(list: &Option<Arc<CellList>>) -> Result<Option<Arc<CellList>>, AllocError>
    ensures { IfOk result (λ other. shared_cells other ≡ shared_cells list.now) }
{
    match list {
        Some(list) => {
            let other = Arc::try_clone(list)?;
            Ok(Some(other))
        }
        None => Ok(None),
    }
}

// All cells of the list.
fn all(list: &Option<Arc<CellList>>) -> &[Cell]
    ensures { result.now ≡ shared_cells list.now }
{
    match list {
        Some(list) => list.cells(),
        None => &[],
    }
}

impl Piece {
    /// No cells.
    pub fn none() -> Piece
        ensures { result ≡ [] }
    {
        Piece {
            list: None,
            from: 0,
            to: 0,
        }
    }

    /// All of a list, which nobody shares yet.
    pub fn new(alloc: Global, cells: Vec<Cell>) -> Result<Piece, AllocError>
        ensures { IfOk result (λ piece. piece ≡ cells.items) }
    {
        let to = cells.len();
        let list = Arc::new(alloc, CellList { cells })?;
        Ok(Piece {
            list: Some(list),
            from: 0,
            to,
        })
    }

    /// The same cells once more. The two share the list.
    pub fn copy(&self) -> Result<Piece, AllocError>
        ensures { IfOk result (λ piece. piece ≡ self.now) }
    {
        let list = share(&self.list)?;
        Ok(Piece {
            list,
            from: self.from,
            to: self.to,
        })
    }

    /// The cells from one number up to another, from 0. The two share the list.
    pub fn range(&self, from: usize, to: usize) -> Result<Piece, AllocError>
        requires { (from ≤ to) × (to ≤ length self.now) }
        ensures { IfOk result (λ piece. piece ≡ slice_range self.now from to) }
    {
        let begin = self.from;
        // It bounds both sums.
        let _end = self.to;
        let list = share(&self.list)?;
        Ok(Piece {
            list,
            from: begin + from,
            to: begin + to,
        })
    }

    /// How many cells there are.
    pub fn len(&self) -> usize
        ensures { result ≡ length self.now }
    {
        self.to - self.from
    }

    /// The cells, to be read.
    pub fn cells(&self) -> &[Cell]
        ensures { result.now ≡ self.now }
    {
        &all(&self.list)[self.from..self.to]
    }
}
