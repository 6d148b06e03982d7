//! What the book keeps of an accepted batch beside its client and number, whether it is folded or not.

/// What a repeat of a batch is judged by and answered: its number of cells, its total, and the accepted total up to and
/// with it. A reply is never worked out again.
#[derive(Clone, Copy)]
pub struct Line {
    pub cells: u64,
    pub total: u64,
    pub total_after: u64,
}
