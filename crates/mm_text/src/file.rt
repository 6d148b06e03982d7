//! What a text spells.
ghost use Rattle.cells.specs.Bounds.{IsDimension, AreWithin};

use cells::Cell;

/// A matrix as a text lists it: its dimensions, and its cells in the order of the lines.
///
/// Dimensions are 1 to 2^60, and each cell lies within them. A cell that the text repeats stands in the list as
/// often, and an entry of a symmetric text off the diagonal stands for two cells, one behind the other.
#[derive(Drop)]
pub struct MmFile {
    /// The number of rows.
    pub rows: u64,
    /// The number of columns.
    pub cols: u64,
    /// The cells. Their rows and columns count from 0.
    pub cells: Vec<Cell>,
    pub ghost sound_rows: { IsDimension rows },
    pub ghost sound_cols: { IsDimension cols },
    pub ghost within: { AreWithin rows cols cells.items },
}
