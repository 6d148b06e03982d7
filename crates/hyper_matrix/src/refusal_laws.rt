//! Laws of refusals: in terms of the list, where `Hyper::build` refuses a list, and where it does not.
ghost use Rattle.std.specs.Prelude.{◌≡◌, ℕ, ◌↔◌, List, Some, None};
ghost use Rattle.cells.specs.declared.cell.Cell.{Cell};
ghost use Rattle.hyper_matrix.specs.Refusals.{first_fault};
ghost use Rattle.hyper_matrix.specs.Refusals.{LeavesDimensions, PassesLimit, MakesMatrix};

use crate::judge::BuildFault;

/// The fault is the index exactly where some cell lies outside the dimensions, and the cells before it all lie within
/// and come to less than 2^64.
pub fn indices_are_refused()
    ensures { (rows : ℕ) (cols : ℕ) (cells : List Cell) → (first_fault rows cols 0 cells ≡
        Some BuildFault.IndexOutOfRange) ↔ LeavesDimensions rows cols cells }
{}

/// The fault is the sum exactly where the counts up to some cell come to 2^64 or more, those before it to less, and
/// that cell and all before it lie within the dimensions.
pub fn sums_are_refused()
    ensures { (rows : ℕ) (cols : ℕ) (cells : List Cell) → (first_fault rows cols 0 cells ≡
        Some BuildFault.SumTooLarge) ↔ PassesLimit rows cols cells }
{}

/// There is no fault exactly where all cells lie within the dimensions and all counts come to less than 2^64.
pub fn other_lists_are_taken()
    ensures { (rows : ℕ) (cols : ℕ) (cells : List Cell) → (first_fault rows cols 0 cells ≡
        None) ↔ MakesMatrix rows cols cells }
{}
