//! The entries of a snapshot's list.
ghost use Rattle.std.specs.Prelude.{◌≡◌, ◌≢◌, ◌+◌, ◌<◌, ◌≤◌, ◌^◌, true, false, ℕ, Some, List, OnOk, IfErr};
ghost use Rattle.std.specs.Prelude.{length, slice_get, take};
ghost use Rattle.batch_store.specs.Batches.{Submission, entry_of, entries_of, values};
ghost use Rattle.batch_store.specs.Books.{AreAccepted, accepted_in};
ghost use Rattle.batch_store.specs.Growth.{FitsIn};
ghost use Rattle.batch_store.specs.Verdicts.{total_of_entries};
ghost use Rattle.log_head.specs.Links.{link_in};
ghost use Rattle.log_join.specs.Joins.{DiffersAt, IsLinked, RefusesLists, known_entries};
ghost use Rattle.log_join.specs.declared.fault.JoinFault.{JoinFault};

use crate::fault::JoinFault;
use batch_store::{Batch, BookList, Entry, Setup};
use log_head::{Link, LogHead};
use std::sync::Arc;

/// How many batches a list has.
pub fn count_of(list: &BookList) -> usize
    ensures { result ≡ length (known_entries list.now) }
{
    list.folded.len() + list.batches.len()
}

// The entry of a batch, and None from the end of the batches on.
#[tactic(auto, using(crate::proofs::PlaceLemmas::past_entries))]
fn batch_entry(batches: &[Arc<Batch>], i: usize) -> Option<Entry>
    ensures { result ≡ slice_get (entries_of (values batches.now)) i }
{
    if i >= batches.len() {
        return None;
    }
    Some(batches[i].entry())
}

/// The entry at a place of a list, and None from its end on.
pub fn entry_at(list: &BookList, i: usize) -> Option<Entry>
    ensures { result ≡ slice_get (known_entries list.now) i }
{
    let folded = list.folded.len();
    if i < folded {
        return Some(list.folded[i]);
    }
    batch_entry(&list.batches, i - folded)
}

/// The total and the link of the first batches of a list.
#[derive(Clone, Copy)]
struct Front {
    total: u64,
    link: u32,
}

fn front_of(list: &BookList, first: usize) -> Front
    requires first { first ≤ length (known_entries list.now) }
    requires fits { total_of_entries (known_entries list.now) < 2 ^ 64 }
    ensures total { result.total ≡ total_of_entries (take first (known_entries list.now)) }
    ensures link { result.link ≡ link_in (take first (known_entries list.now)) }
{
    let mut total = 0;
    let mut link = Link::new();
    'entries: for i in 0..first {
        let Some(entry) = entry_at(list, i) else {
            unreachable!();
        };
        total += entry.total;
        link.add(&entry);
    }
    Front {
        total,
        link: link.value(),
    }
}

// Whether matrices of the first setup's dimensions fit into those of the second.
fn fits_in(from: &Setup, to: &Setup) -> bool
    ensures yes { result ≡ true → FitsIn from.now to.now }
    ensures no { result ≡ false → FitsIn from.now to.now → ⊥ }
{
    from.rows() <= to.rows() && from.cols() <= to.cols()
}

// Judges the total and the link of a head that begins within the list.
fn judge_link(list: &BookList, head: &LogHead) -> bool
    requires first { head.now.first ≤ length (known_entries list.now) }
    requires fits { total_of_entries (known_entries list.now) < 2 ^ 64 }
    ensures yes { result ≡ true → (total_of_entries (take head.now.first (known_entries list.now)) ≡ head.now.total)
        × (link_in (take head.now.first (known_entries list.now)) ≡ head.now.link) }
    ensures no { result ≡ false → total_of_entries (take head.now.first (known_entries list.now)) ≡ head.now.total →
        link_in (take head.now.first (known_entries list.now)) ≡ head.now.link → ⊥ }
{
    let front = front_of(list, head.first as usize);
    front.total == head.total && front.link == head.link
}

/// Judges the head of a log beside a list. It costs one pass over the entries before the log.
pub fn judge_head(setup: &Setup, list: &BookList, head: &LogHead) -> Result<(), JoinFault>
    requires { AreAccepted setup.now (accepted_in list.now) }
    ensures ok { OnOk result (IsLinked setup.now (known_entries list.now) head.now) }
    ensures err { IfErr result (λ f. (bs : List Submission) → RefusesLists setup.now list.now head.now bs f) }
{
    if !fits_in(&head.setup, setup) {
        return Err(JoinFault::SetupDiffers);
    }
    if head.first > count_of(list) as u64 {
        return Err(JoinFault::Gap { first: head.first });
    }
    if !judge_link(list, head) {
        return Err(JoinFault::LinkDiffers);
    }
    Ok(())
}

// Whether a list has another entry at this place. Behind its end it has none.
fn differs_at(list: &BookList, at: usize, batch: &Batch) -> bool
    ensures yes { result ≡ true → (at < length (known_entries list.now))
        × (slice_get (known_entries list.now) at ≢ Some (entry_of batch.now)) }
    ensures no { result ≡ false → at < length (known_entries list.now) →
        slice_get (known_entries list.now) at ≡ Some (entry_of batch.now) }
{
    match entry_at(list, at) {
        Some(entry) => entry != batch.entry(),
        None => false,
    }
}

/// At how many places a list of so many batches, and a log of so many that begins at this place, both have one.
pub fn shared_of(count: usize, first: usize, logged: usize) -> usize
    requires { first ≤ count }
    ensures listed { first + result ≤ count }
    ensures logged { result ≤ logged }
    ensures all { result < logged → first + result ≡ count }
{
    let behind = count - first;
    if logged < behind { logged } else { behind }
}

/// Compares the first so many batches of a log with those that the list has at the same places.
pub fn judge_shared(
    list: &BookList,
    first: usize,
    batches: &[Arc<Batch>],
    shared: usize,
) -> Result<(), JoinFault>
    requires listed { first + shared ≤ length (known_entries list.now) }
    requires few { length (known_entries list.now) ≤ 2 ^ 30 }
    requires logged { shared ≤ length batches.now }
    ensures ok { OnOk result ((i : ℕ) → i < shared →
        slice_get (known_entries list.now) (first + i) ≡ slice_get (entries_of (values batches.now)) i) }
    ensures err { IfErr result (λ f. (at : ℕ) × (f ≡ JoinFault.EntryDiffers at)
        × DiffersAt first (known_entries list.now) (entries_of (values batches.now)) at) }
{
    'batches: for i in 0..shared {
        let at = first + i;
        if differs_at(list, at, &batches[i]) {
            return Err(JoinFault::EntryDiffers { at: at as u64 });
        }
    }
    Ok(())
}
