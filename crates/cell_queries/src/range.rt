//! The cells of a range of rows and columns, page by page.
ghost use Rattle.std.specs.Prelude.{◌≡◌, ◌<◌, ◌↔◌, ◌∷◌, ℕ, false, IsTrue, T, map, length, IfOk, MatchOption};
ghost use Rattle.std.specs.FinMap.{is_sorted};
ghost use Rattle.hyper_matrix.specs.Counts.{place_cmp};
ghost use Rattle.hyper_matrix.specs.Cells.{entry_of, place_of};
ghost use Rattle.hyper_matrix.specs.Places.{Less};
ghost use Rattle.cell_queries.specs.Ranges.{is_in_span, is_in_range, cells_in, page_of, IsLimit, HasNone};

use crate::source::CellSource;
use cells::Cell;
use hyper_matrix::is_before;
use std::alloc::{AllocError, Global};

/// The numbers from `first` to `last`, both in. There is none where `last` is less.
#[derive(Clone, Copy, Debug, PartialEq, Eq)]
pub struct Span {
    pub first: u64,
    pub last: u64,
}

/// The places in these rows and columns from the place `start`, a row and a column, on.
#[derive(Clone, Copy, Debug, PartialEq, Eq)]
pub struct CellRange {
    pub rows: Span,
    pub cols: Span,
    pub start: (u64, u64),
}

/// The first cells of a range, and whether it has more.
#[derive(Debug, Drop)]
pub struct RangePage {
    pub cells: Vec<Cell>,
    pub more: bool,
}

impl Span {
    /// Whether a number is one of these.
    pub fn contains(&self, n: u64) -> bool
        ensures { result ≡ is_in_span self.now n }
    {
        self.first <= n && n <= self.last
    }
}

// So many cells outside of a range are looked at one after the other before a search for the next place that may be in
// it. So searches cost no more than the walks between them, and a long row costs no more than a short one.
const WALK: u32 = 16;

impl CellRange {
    // No place of the range is before this one.
    fn first_place(&self) -> (u64, u64)
        ensures { IsLimit self.now result (λ p. Unit {0}) }
    {
        let corner = (self.rows.first, self.cols.first);
        if is_before(corner, self.start) {
            self.start
        } else {
            corner
        }
    }

    // Where the range goes on behind a cell: of the places behind the cell none is in it before this one. None where
    // none is in it at all.
    fn goes_on(&self, cell: Cell) -> Option<(u64, u64)>
        ensures { MatchOption result (HasNone self.now (Less (place_of cell)))
            (λ place. IsLimit self.now place (Less (place_of cell))) }
    {
        if cell.col <= self.cols.last {
            return Some((cell.row, self.cols.first));
        }
        if cell.row >= self.rows.last {
            return None;
        }
        Some((cell.row + 1, self.cols.first))
    }

    /// Whether a cell stands at one of these places.
    pub fn contains(&self, cell: Cell) -> bool
        ensures { result ≡ is_in_range self.now (entry_of cell) }
    {
        self.rows.contains(cell.row)
            && self.cols.contains(cell.col)
            && (cell.row, cell.col) >= self.start
    }
}

// The next cell that stands in a range. Behind its last row it looks no further.
fn next_in<S: CellSource>(source: &mut S, range: &CellRange) -> Option<Cell>
    requires { T (is_sorted place_cmp (S.left source.old)) }
    ensures order { T (is_sorted place_cmp (S.left source.new)) }
    ensures cell { MatchOption result (length (cells_in range.now (S.left source.old)) ≡ 0)
        (λ cell. cells_in range.now (S.left source.old) ≡ entry_of cell ∷ cells_in range.now (S.left source.new)) }
{
    let mut walked = 0;
    'seek: while let Some(cell) = source.next_cell() {
        if cell.row > range.rows.last {
            return None;
        }
        if range.contains(cell) {
            return Some(cell);
        }
        walked += 1;
        if walked == WALK {
            let Some(place) = range.goes_on(cell) else {
                return None;
            };
            source.skip_to_place(place);
            walked = 0;
        }
    }
    None
}

/// The first cells of a range, `most` of them or all, and whether there are more.
///
/// It begins at the range's first place, which the source searches for, and goes on to the cell behind the page, and at
/// most to the end of the range's last row. Where sixteen cells in a row are outside of the range it searches for the
/// next place that may be in it, as the first column in the next row. It takes memory for the cells of the page.
///
/// # Errors
///
/// Memory was refused.
pub fn range_of<S: CellSource>(
    alloc: Global,
    source: &mut S,
    range: &CellRange,
    most: usize,
) -> Result<RangePage, AllocError>
    requires { T (is_sorted place_cmp (S.left source.old)) }
    ensures cells { IfOk result (λ page. map entry_of page.cells.items ≡ page_of range.now most (S.left source.old)) }
    ensures more { IfOk result (λ page.
        IsTrue page.more ↔ (most < length (cells_in range.now (S.left source.old)))) }
{
    let mut cells = Vec::new(alloc);
    source.skip_to_place(range.first_place());
    'page: while cells.len() < most {
        let Some(cell) = next_in(source, range) else {
            return Ok(RangePage { cells, more: false });
        };
        cells.push(cell)?;
    }
    let more = next_in(source, range).is_some();
    Ok(RangePage { cells, more })
}
