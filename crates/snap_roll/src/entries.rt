//! The entries of a list of batches, folded or not.
ghost use Rattle.std.specs.Prelude.{◌≡◌, slice_get};
ghost use Rattle.batch_store.specs.Accepted.{count_in};
ghost use Rattle.batch_store.specs.Batches.{entries_of, values};
ghost use Rattle.batch_store.specs.Books.{accepted_in};
ghost use Rattle.snap_roll.specs.Has.{entry_at};

use batch_store::{Batch, BookList, Entry};
use std::sync::Arc;

// The entry of a batch, and None from the end of the batches on.
#[tactic(auto, using(log_join::proofs::PlaceLemmas::past_entries))]
fn batch_entry(batches: &[Arc<Batch>], at: usize) -> Option<Entry>
    ensures { result ≡ slice_get (entries_of (values batches.now)) at }
{
    if at >= batches.len() {
        return None;
    }
    Some(batches[at].entry())
}

/// The entry of the batch at an index, folded or not, and None from the end of the list on. Constant time.
pub fn entry_at(list: &BookList, at: usize) -> Option<Entry>
    ensures { result ≡ entry_at (accepted_in list.now) at }
{
    let folded = list.folded.len();
    if at < folded {
        return Some(list.folded[at]);
    }
    batch_entry(&list.batches, at - folded)
}

/// How many batches a list has, folded or not. Constant time.
pub fn count_of(list: &BookList) -> usize
    ensures { result ≡ count_in (accepted_in list.now) }
{
    list.folded.len() + list.batches.len()
}
