//! Rows or columns, and which of their numbers the cells of a list have.
ghost use Rattle.std.specs.Prelude.{◌≡◌, ◌++◌, ◌∷◌, [], IfOk, OnOk};
ghost use Rattle.std.specs.List.{Contains};
ghost use Rattle.snap_export.specs.Labels.{number_of, numbers_of, HaveSame, AreLabels};

use cells::Cell;
use std::alloc::{AllocError, Global};

/// One of the two numbers of a place.
#[derive(Clone, Copy, Debug, PartialEq, Eq)]
pub enum Axis {
    Rows,
    Cols,
}

impl Axis {
    /// The number of a cell.
    pub fn number(self, cell: Cell) -> u64
        ensures { result ≡ number_of self cell }
    {
        match self {
            Axis::Rows => cell.row,
            Axis::Cols => cell.col,
        }
    }
}

// Appends a number where it isn't the last one.
fn push_other(list: &mut Vec<u64>, number: u64) -> Result<(), AllocError>
    ensures { OnOk result (HaveSame list.new.items (list.old.items ++ number ∷ [])) }
{
    if list.last() != Some(&number) {
        list.push(number)?;
    }
    Ok(())
}

// The numbers of the cells, some of them more than once.
fn numbers_in(alloc: Global, cells: &[Cell], axis: Axis) -> Result<Vec<u64>, AllocError>
    ensures { IfOk result (λ list. HaveSame list.items (numbers_of axis cells.now)) }
{
    let mut list = Vec::new(alloc);
    'cells: for cell in cells {
        push_other(&mut list, axis.number(*cell))?;
    }
    Ok(list)
}

/// The rows or columns in which cells stand, in rising order, each once.
///
/// Takes 8 bytes for each, and of columns for each cell, and for columns the time to sort them.
pub fn labels_of(alloc: Global, cells: &[Cell], axis: Axis) -> Result<Vec<u64>, AllocError>
    ensures { IfOk result (λ labels. AreLabels (Contains (numbers_of axis cells.now)) labels.items) }
{
    let mut labels = numbers_in(alloc, cells, axis)?;
    labels.sort_unstable();
    labels.dedup();
    Ok(labels)
}
