//! Whether the entries of one list of batches are the first of another.
ghost use Rattle.std.specs.Prelude.{◌≡◌, ◌≢◌, true, false, slice_get, None, IfSome};
ghost use Rattle.batch_store.specs.Accepted.{count_in};
ghost use Rattle.batch_store.specs.Batches.{entries_of, values};
ghost use Rattle.batch_store.specs.Books.{accepted_in};
ghost use Rattle.snap_export.specs.Minus.{Begins, IsFirstOther, entry_at};

use batch_store::{Batch, BookList, Entry};
use std::sync::Arc;

// The entry of a batch, and None from the end of the batches on.
#[tactic(auto, using(log_join::proofs::PlaceLemmas::past_entries))]
fn batch_entry(batches: &[Arc<Batch>], at: usize) -> Option<Entry>
    ensures { result ≡ slice_get (entries_of (values batches.now)) at }
{
    if at >= batches.len() {
        return None;
    }
    Some(batches[at].entry())
}

// The entry at an index, folded or not, and None from the end of the list on.
fn entry_at(list: &BookList, at: usize) -> Option<Entry>
    ensures { result ≡ entry_at (accepted_in list.now) at }
{
    let folded = list.folded.len();
    if at < folded {
        return Some(list.folded[at]);
    }
    batch_entry(&list.batches, at - folded)
}

// Whether two lists have other entries at an index, or only one of them has one.
fn differs_at(new: &BookList, old: &BookList, at: usize) -> bool
    ensures yes { result ≡ true → entry_at (accepted_in new.now) at ≢ entry_at (accepted_in old.now) at }
    ensures no { result ≡ false → entry_at (accepted_in new.now) at ≡ entry_at (accepted_in old.now) at }
{
    entry_at(new, at) != entry_at(old, at)
}

/// How many batches a list has, folded or not. Constant time.
pub fn count_of(list: &BookList) -> usize
    ensures { result ≡ count_in (accepted_in list.now) }
{
    list.folded.len() + list.batches.len()
}

/// The first index at which the second list has an entry, and the first list another one or none.
pub fn first_other(new: &BookList, old: &BookList) -> Option<u64>
    ensures some { IfSome result (λ at. IsFirstOther (accepted_in new.now) (accepted_in old.now) at) }
    ensures none { result ≡ None → Begins (accepted_in old.now) (accepted_in new.now) }
{
    'entries: for at in 0..count_of(old) {
        if differs_at(new, old, at) {
            return Some(at as u64);
        }
    }
    None
}
