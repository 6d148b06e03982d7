//! `C(i,j) = A(i,j)` where `i mod k = s`: `GrB_select` by row, as one shard of k has them.
ghost use Rattle.std.specs.Prelude.{◌≡◌, ◌<◌, ◌++◌, OnOk, IfOk};
ghost use Rattle.hyper_matrix.specs.Counts.{part};
ghost use Rattle.hyper_matrix.specs.Parts.{shard_cells};

use crate::hyper::Hyper;
use crate::shard::shard_of;
use cells::Cell;
use std::alloc::{AllocError, Global};

// Appends the cells that lie in the shard, in their order.
fn push_part(out: &mut Vec<Cell>, cells: &[Cell], s: u64, k: u64) -> Result<(), AllocError>
    requires { 0 < k }
    ensures { OnOk result (out.new.items ≡ out.old.items ++ shard_cells s k cells.now) }
{
    for cell in cells {
        if shard_of(cell.row, k) == s {
            out.push(*cell)?;
        }
    }
    Ok(())
}

/// How many cells the list of one shard of k gets room for, where so many are to be listed: its even share, and a
/// quarter more with eight. None where there are fewer cells than shards.
fn list_room(cells: u64, k: u64) -> usize
    requires { 0 < k }
{
    let even = cells / k;
    if even == 0 {
        return 0;
    }
    even.saturating_add(even / 4).saturating_add(8) as usize
}

impl Hyper {
    /// The rows whose number, counted from 0, leaves `s` when divided by `k`, in a matrix of the same dimensions: shard
    /// `s` of `k`. The parts of all shards add up to the matrix.
    ///
    /// Reads all cells, and takes memory for those that are in the shard, with room for an even share at once. Where
    /// there is one shard, the two share all cells, as `copy`.
    ///
    /// # Errors
    ///
    /// Memory was refused.
    pub fn part(&self, alloc: Global, s: u64, k: u64) -> Result<Hyper, AllocError>
        requires { s < k }
        ensures { IfOk result (λ p. p ≡ record self.now { counts = part self.now.counts s k }) }
    {
        // One shard has all rows.
        if k == 1 {
            let whole = self.copy(alloc)?;
            return Ok(whole);
        }
        // The whole's total bounds the part's.
        let _bound = self.total();
        let mut cells = Vec::with_capacity(alloc, list_room(self.entries(), k))?;
        push_part(&mut cells, self.piece.cells(), s, k)?;
        let p = Hyper::from_sorted(alloc, self.rows, self.cols, cells)?;
        Ok(p)
    }
}
