//! The share of one shard in a matrix: whether there is one, and its total.
//!
//! A cell lies in the shard that its row, counted from 0, leaves when divided by the number of shards. Each call reads
//! the cells once, and takes no memory.
ghost use Rattle.std.specs.Prelude.{◌≡◌, ◌<◌};
ghost use Rattle.batch_store.specs.Parts.{concerns, part_of};

use hyper_matrix::{Hyper, shard_of};

/// Whether a cell, a stored zero too, lies in shard `s` of `k`. Reads the cells up to the first that does.
pub fn has_part(m: &Hyper, s: u64, k: u64) -> bool
    requires { 0 < k }
    ensures { result ≡ concerns s k m.now.counts }
{
    'seek: for cell in m.iter() {
        if shard_of(cell.row, k) == s {
            return true;
        }
    }
    false
}

/// The total of the cells in shard `s` of `k`.
pub fn part_total(m: &Hyper, s: u64, k: u64) -> u64
    requires { 0 < k }
    ensures value { result ≡ part_of s k m.now.counts }
{
    // It is below 2^64.
    let _bound = m.total();
    let mut total = 0;
    'add: for cell in m.iter() {
        if shard_of(cell.row, k) == s {
            total += cell.count;
        }
    }
    total
}
