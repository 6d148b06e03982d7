//! The rows of cells in order, one after the other.
ghost use Rattle.std.specs.Prelude.{◌≡◌, ◌<◌, ◌+◌, [], ◌∷◌, length, IfOk, MatchOption, IfSome, option_to_list};
ghost use Rattle.hyper_matrix.specs.Cells.{entry_of};
ghost use Rattle.cell_queries.specs.Tallies.{joined, tally, tallies, rows_left};

use crate::source::CellSource;
use cells::Cell;
use std::alloc::AllocError;

/// A row, how many entries it has, and what their counts come to. Rows count from 0.
#[derive(Clone, Copy, Debug, PartialEq, Eq)]
pub struct RowTally {
    pub row: u64,
    pub entries: u64,
    pub total: u64,
}

impl RowTally {
    // A row with one cell.
    pub(crate) fn of(cell: Cell) -> RowTally
        ensures { result ≡ tally cell.row 1 cell.count }
    {
        RowTally {
            row: cell.row,
            entries: 1,
            total: cell.count,
        }
    }

    // The row with a cell more, where the numbers stay below 2^64.
    pub(crate) fn with(self, cell: Cell) -> Option<RowTally>
        ensures { IfSome result (λ t. t ≡ tally self.row (self.entries + 1) (self.total + cell.count)) }
    {
        Some(RowTally {
            row: self.row,
            entries: self.entries.checked_add(1)?,
            total: self.total.checked_add(cell.count)?,
        })
    }
}

/// The next row of a source. The first cell of the row behind it waits in `ahead`, and so does the first of all.
///
/// # Errors
///
/// The counts of the row, or its entries, pass 2^64 - 1. No memory holds such a matrix.
pub fn next_row<S: CellSource>(
    source: &mut S,
    ahead: &mut Option<Cell>,
) -> Result<Option<RowTally>, AllocError>
    ensures row { IfOk result (λ r. MatchOption r (rows_left ahead.old (S.left source.old) ≡ [])
        (λ t. rows_left ahead.old (S.left source.old) ≡ t ∷ rows_left ahead.new (S.left source.new))) }
    ensures some { IfOk result (λ r. IfSome r (λ t. 0 < t.entries)) }
    ensures ends { IfOk result (λ r. IfSome r (λ t. length (S.left source.new) + length (option_to_list ahead.new) <
        length (S.left source.old) + length (option_to_list ahead.old))) }
{
    let Some(first) = ahead.take() else {
        return Ok(None);
    };
    let mut row = RowTally::of(first);
    'cells: while let Some(cell) = source.next_cell() {
        if cell.row != row.row {
            *ahead = Some(cell);
            return Ok(Some(row));
        }
        row = match row.with(cell) {
            Some(row) => row,
            None => return Err(AllocError),
        };
    }
    Ok(Some(row))
}
