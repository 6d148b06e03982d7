//! An engine from its parts: `PlainEngine::parts` the other way round, for parts that went through other hands.
ghost use Rattle.std.specs.Prelude.{◌≡◌, ◌<◌, ◌↔◌, IfOk, IfErr, IsOk, IsTrue, true, length};
ghost use Rattle.plain_engine.specs.Standing.{standing, HaveSetup, AreTogether, Stand};

use crate::engine::PlainEngine;
use crate::same::{is_part, record_follows};
use batch_store::{Book, Setup, Shard};

/// An engine of a book and its shards, which were made with this setup. It takes no memory: it reads the book and its
/// base once for each shard, and each batch that concerns the shard cell by cell.
///
/// # Errors
///
/// There isn't a shard for each number below the setup's shards, a shard's number isn't its place, its base isn't the
/// book's cut to its rows, or its record isn't, in order, the book's batches that aren't folded and concern it,
/// compared by client, number and matrix, cell by cell. Book and shards are handed back as they were.
pub fn join_parts(
    setup: Setup,
    book: Book,
    shards: Vec<Shard>,
) -> Result<PlainEngine, (Book, Vec<Shard>)>
    requires book { book.setup ≡ setup }
    requires shards { HaveSetup setup shards.items }
    ensures ok { IfOk result (λ e. e ≡ standing setup book shards.items) }
    ensures err { IfErr result (λ r. (r.0 ≡ book) × (r.1 ≡ shards)) }
    ensures exactly { IsOk result ↔
        ((length shards.items ≡ setup.shards) × AreTogether setup.shards book.state 0 shards.items) }
{
    if shards.len() as u64 != setup.shards() {
        return Err((book, shards));
    }
    if !are_together(&setup, &book, &shards) {
        return Err((book, shards));
    }
    // Any call on a book tells what it keeps.
    let _accepted = book.len();
    Ok(PlainEngine::of_parts(setup, book, shards))
}

// Whether each shard has its place for its number and its part of the base, and its record follows the book.
fn are_together(setup: &Setup, book: &Book, shards: &[Shard]) -> bool
    requires made { HaveSetup setup.now shards.now }
    ensures stand { result ≡ true → Stand setup.now book.now.state 0 shards.now }
    ensures exactly { IsTrue result ↔ AreTogether setup.now.shards book.now.state 0 shards.now }
{
    let k = setup.shards();
    let mut place = 0u64;
    'shards: for shard in shards {
        if shard.number() != place {
            return false;
        }
        if !is_part(shard.base(), book.base(), place, k) {
            return false;
        }
        if !record_follows(shard, book, place, k) {
            return false;
        }
        place += 1;
    }
    true
}
