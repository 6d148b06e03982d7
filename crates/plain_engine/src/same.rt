//! Whether two batches are the same, and whether a shard has the base and the record that follow from the book.
//!
//! Two batches are compared by client, number and matrix, cell by cell. No call takes memory.
ghost use Rattle.std.specs.Prelude.{◌≡◌, ◌<◌, ◌↔◌, IsTrue};
ghost use Rattle.hyper_matrix.specs.Counts.{part};
ghost use Rattle.plain_engine.specs.Records.{Follows};

use batch_store::{Batch, Book, Pieces, Shard, same_matrix};
use hyper_matrix::{Hyper, shard_of};

/// Whether two batches have the same client, number and matrix.
pub fn same_batch(a: &Batch, b: &Batch) -> bool
    ensures { IsTrue result ↔ (a.now ≡ b.now) }
{
    a.client == b.client && a.number == b.number && same_matrix(&a.matrix, &b.matrix)
}

/// Whether a matrix has exactly the cells of another that lie in shard s of k.
pub fn is_part(own: &Hyper, whole: &Pieces, s: u64, k: u64) -> bool
    requires { 0 < k }
    ensures { IsTrue result ↔ (own.now.counts ≡ part whole.now.whole.counts s k) }
{
    let mut others = own.iter();
    'cells: for cell in whole.cells() {
        if shard_of(cell.row, k) == s {
            match others.next() {
                Some(other) => {
                    if other != cell {
                        return false;
                    }
                }
                None => return false,
            }
        }
    }
    others.next().is_none()
}

/// Whether a shard's record is, in order, the book's batches that concern shard s of k and aren't folded.
pub fn record_follows(shard: &Shard, book: &Book, s: u64, k: u64) -> bool
    requires { 0 < k }
    ensures { IsTrue result ↔ Follows s k shard.now.record_list book.now.state.list }
{
    let folded = book.folded();
    let mut next = 0u64;
    'batches: for i in 0..book.len() - folded {
        let Some(batch) = book.at(folded + i) else {
            unreachable!()
        };
        if batch.concerns(s, k) {
            match shard.at(next) {
                Some(held) => {
                    if !same_batch(held, batch) {
                        return false;
                    }
                }
                None => return false,
            }
            next += 1;
        }
    }
    next == shard.record_len()
}
