//! Cells whose rows and columns are numbered anew.

ghost use Rattle.std.specs.Prelude.{◌≡◌, ◌<◌, map, length, All};
ghost use Rattle.std.specs.List.{Contains};
ghost use Rattle.std.specs.List.Sorted.{IsStrictlyIncreasing};
ghost use Rattle.cells.specs.Bounds.{IsWithin, AreWithin};
ghost use Rattle.snap_export.specs.Labels.{label, back};

use cells::Cell;

// The place of a number among labels.
fn place_of(labels: &[u64], number: u64) -> u64
    requires rise { IsStrictlyIncreasing labels.now }
    requires is_one { Contains labels.now number }
    ensures within { result < length labels.now }
    ensures place { label labels.now result ≡ number }
{
    match labels.binary_search(&number) {
        Ok(place) => place as u64,
        Err(_) => unreachable!(),
    }
}

// A cell with the places of its row and column among labels in their stead.
fn relabelled(cell: Cell, rows: &[u64], cols: &[u64]) -> Cell
    requires rows { IsStrictlyIncreasing rows.now }
    requires cols { IsStrictlyIncreasing cols.now }
    requires row { Contains rows.now cell.row }
    requires col { Contains cols.now cell.col }
    ensures within { IsWithin (length rows.now) (length cols.now) result }
    ensures back { back rows.now cols.now result ≡ cell }
{
    Cell {
        row: place_of(rows, cell.row),
        col: place_of(cols, cell.col),
        count: cell.count,
    }
}

/// Puts the places of rows and columns among these labels in the stead of both, in each cell.
///
/// Takes no memory, and for each cell the time of two bisections.
pub fn relabel(cells: &mut [Cell], rows: &[u64], cols: &[u64])
    requires rows { IsStrictlyIncreasing rows.now }
    requires cols { IsStrictlyIncreasing cols.now }
    requires each_row { All (λ cell. Contains rows.now cell.row) cells.old }
    requires each_col { All (λ cell. Contains cols.now cell.col) cells.old }
    ensures within { AreWithin (length rows.now) (length cols.now) cells.new }
    ensures back { map (back rows.now cols.now) cells.new ≡ cells.old }
{
    'cells: for cell in cells.iter_mut() {
        *cell = relabelled(*cell, rows, cols);
    }
}
