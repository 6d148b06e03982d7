//! The total of a list of cells.
ghost use Rattle.std.specs.Prelude.{◌≡◌, ℕ, ◌<◌, ◌≤◌, ◌^◌, IfNone, IfSome};
ghost use Rattle.cells.specs.Sums.{cell_total};

use crate::cell::Cell;

/// The counts of all cells together.
pub fn total_of(cells: &[Cell]) -> u64
    requires { cell_total cells.now < 2 ^ 64 }
    ensures { result ≡ cell_total cells.now }
{
    let mut sum = 0;
    for cell in cells {
        sum += cell.count;
    }
    sum
}

/// The same, and None where they come to 2^64 or more.
pub fn checked_total(cells: &[Cell]) -> Option<u64>
    ensures fits { IfSome result (λ sum. sum ≡ cell_total cells.now) }
    ensures over { IfNone result (2 ^ 64 ≤ cell_total cells.now) }
{
    let mut sum = 0u64;
    for cell in cells {
        sum = sum.checked_add(cell.count)?;
    }
    Some(sum)
}
