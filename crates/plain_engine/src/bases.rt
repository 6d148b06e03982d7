//! Whether the bases of shards are the parts of the book's: one way through the book's base, and beside it one through
//! each shard's. No call takes memory.
ghost use Rattle.std.specs.Prelude.{◌≡◌, ◌<◌, ◌≤◌, ◌↔◌, IsTrue, length};
ghost use Rattle.std.specs.FinMap.{entries};
ghost use Rattle.plain_engine.specs.Bases.{AreNumbered, bases_of, AreParts, AreSpent};
ghost use Rattle.plain_engine.specs.Known.{AreBased};

use batch_store::{Book, MAX_SHARDS, Pieces, Shard};
use hyper_matrix::{Cells, Hyper, shard_of};
use std::array;

// Whether no cell is left in any of these.
fn are_spent(left: &mut [Cells<'_>]) -> bool
    ensures { IsTrue result ↔ AreSpent left.old }
{
    'bases: for place in 0..left.len() {
        if left[place].next().is_some() {
            return false;
        }
    }
    true
}

// Whether each of these has exactly the cells of its shard, of as many shards as these: each cell of the whole comes next
// in its row's shard, and at the end none is left.
fn are_parts(left: &mut [Cells<'_>], whole: &Pieces) -> bool
    requires { 0 < length left.old }
    ensures { IsTrue result ↔ AreParts 0 (length left.old) left.old (entries whole.now.whole.counts) }
{
    let k = left.len() as u64;
    'cells: for cell in whole.cells() {
        match left[shard_of(cell.row, k) as usize].next() {
            Some(other) => {
                if other != cell {
                    return false;
                }
            }
            None => return false,
        }
    }
    are_spent(left)
}

// Puts the cells of each shard's base at its place.
fn start_each<'a>(left: &mut [Cells<'a>], shards: &'a [Shard])
    requires { length left.old ≡ length shards.now }
    ensures { left.new ≡ bases_of shards.now }
{
    'shards: for (place, shard) in shards.iter().enumerate() {
        left[place] = shard.base().iter();
    }
}

/// Whether each shard's base is the book's cut to the rows of its shard, of as many shards as these.
pub fn bases_follow<'a>(shards: &'a [Shard], book: &'a Book) -> bool
    requires some { 0 < length shards.now }
    requires few { length shards.now ≤ 64 }
    requires numbered { AreNumbered 0 shards.now }
    ensures { IsTrue result ↔ AreBased book.now.state (length shards.now) shards.now }
{
    let first: &Hyper = shards[0].base();
    // A place for each shard, and more that aren't read.
    let mut places: [Cells<'a>; MAX_SHARDS as usize] = array::from_fn(|_| first.iter());
    let left = &mut places[..shards.len()];
    start_each(left, shards);
    are_parts(left, book.base())
}
