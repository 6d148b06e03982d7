//! Groups of rows: those whose numbers are the same but for their last bits, as the networks of addresses.
//!
//! Cells come by row, so those of a group come one after the other. A group is finished once a cell of another one
//! comes, and nothing is kept for it but its numbers.
ghost use Rattle.std.specs.Prelude.{◌≡◌, ◌<◌, ◌/◌, ◌^◌, [], ◌∷◌, ◌++◌, ℕ, List, T, length, IfOk, IfSome, OnOk};
ghost use Rattle.std.specs.Prelude.{MatchOption};
ghost use Rattle.std.specs.FinMap.{is_sorted};
ghost use Rattle.hyper_matrix.specs.Cells.{entry_of};
ghost use Rattle.hyper_matrix.specs.Counts.{place_cmp};
ghost use Rattle.cell_queries.specs.declared.tally.RowTally.{RowTally};
ghost use Rattle.cell_queries.specs.declared.top.TopBy.{TopBy};
ghost use Rattle.cell_queries.specs.Gathering.{Gathers};
ghost use Rattle.cell_queries.specs.Groups.{grouped, IsFrom};
ghost use Rattle.cell_queries.specs.Heaps.{AreLed};
ghost use Rattle.cell_queries.specs.Tallies.{tallies};
ghost use Rattle.cell_queries.specs.Tops.{IsTop};

use crate::range::Span;
use crate::source::CellSource;
use crate::tally::RowTally;
use crate::top::{Leaders, TopBy};
use cells::Cell;
use std::alloc::{AllocError, Global};

/// Rows that are asked for by groups: those rows are a group whose numbers are the same without their last `shift`
/// bits. The number that is left is the group's. With a shift of 0 each row is a group.
#[derive(Clone, Copy, Debug, PartialEq, Eq)]
pub struct RowGroups {
    pub rows: Span,
    /// From 0 to 63.
    pub shift: u32,
}

// The next cell of these rows, in its group's row. After the last row it looks no further.
fn next_grouped<S: CellSource>(source: &mut S, groups: &RowGroups) -> Option<Cell>
    requires shift { groups.now.shift < 64 }
    requires from { IsFrom groups.now.rows.first (S.left source.old) }
    ensures from { IsFrom groups.now.rows.first (S.left source.new) }
    ensures cell { MatchOption result (grouped groups.now (S.left source.old) ≡ [])
        (λ cell. grouped groups.now (S.left source.old) ≡ entry_of cell ∷ grouped groups.now (S.left source.new)) }
    ensures fewer { IfSome result (λ cell. length (S.left source.new) < length (S.left source.old)) }
{
    let cell = source.next_cell()?;
    if cell.row > groups.rows.last {
        return None;
    }
    Some(Cell {
        row: cell.row >> groups.shift,
        col: cell.col,
        count: cell.count,
    })
}

impl Leaders {
    // Takes a cell into the current group. Where it is of another one, the current one is offered, and the cell's begins.
    fn gather(&mut self, current: Option<RowTally>, cell: Cell) -> Result<RowTally, AllocError>
        ensures { IfOk result (λ next. Gathers self.old self.new current cell next) }
    {
        let Some(group) = current else {
            return Ok(RowTally::of(cell));
        };
        if group.row == cell.row {
            return match group.with(cell) {
                Some(group) => Ok(group),
                None => Err(AllocError),
            };
        }
        self.offer(group)?;
        Ok(RowTally::of(cell))
    }

    /// Offers the groups of a source's rows.
    ///
    /// # Errors
    ///
    /// As `offer_all`.
    pub fn offer_groups<S: CellSource>(
        &mut self,
        source: &mut S,
        groups: &RowGroups,
    ) -> Result<(), AllocError>
        requires shift { groups.now.shift < 64 }
        requires order { T (is_sorted place_cmp (S.left source.old)) }
        ensures { (by : TopBy) (most : ℕ) (rows : List RowTally) → AreLed by most rows self.old →
            OnOk result (AreLed by most (rows ++ tallies (grouped groups.now (S.left source.old))) self.new) }
    {
        source.skip_to_place((groups.rows.first, 0));
        let mut current = None;
        'cells: while let Some(cell) = next_grouped(source, groups) {
            current = Some(self.gather(current, cell)?);
        }
        match current {
            Some(group) => self.offer(group),
            None => Ok(()),
        }
    }
}

/// The first `most` groups of these rows that have an entry, or all, by this number: the highest first, and equal ones
/// by their numbers. What is listed as a row is a group.
///
/// The source searches for the first row, and goes through the cells up to the last one. It takes memory for `most`
/// groups, or for all if they are fewer.
///
/// # Errors
///
/// Memory was refused, or the counts of a group, or its entries, pass 2^64 - 1.
pub fn top_of_groups<S: CellSource>(
    alloc: Global,
    source: &mut S,
    groups: &RowGroups,
    by: TopBy,
    most: usize,
) -> Result<Vec<RowTally>, AllocError>
    requires shift { groups.now.shift < 64 }
    requires order { T (is_sorted place_cmp (S.left source.old)) }
    ensures { IfOk result (λ top.
        IsTop by most (tallies (grouped groups.now (S.left source.old))) top.items) }
{
    let mut leaders = Leaders::new(alloc, by, most);
    leaders.offer_groups(source, groups)?;
    leaders.into_rows(alloc)
}
