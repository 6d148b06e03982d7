//! The head of a log that is begun behind a list.
ghost use Rattle.std.specs.Prelude.{◌≡◌, ◌+◌, ◌<◌, ◌^◌, List, [], ◌∷◌, ◌++◌, length};
ghost use Rattle.batch_store.specs.declared.verdict.Entry.{Entry};
ghost use Rattle.batch_store.specs.Batches.{entries_of, values};
ghost use Rattle.batch_store.specs.Books.{AreAccepted, accepted_in};
ghost use Rattle.batch_store.specs.Verdicts.{total_of_entries};
ghost use Rattle.log_head.specs.Heads.{IsHead, head_page};
ghost use Rattle.log_head.specs.Links.{link_in};
ghost use Rattle.log_join.specs.Joins.{known_entries};
ghost use Rattle.open_log.specs.Rotations.{begun};
ghost use Rattle.log_start.specs.Fronts.{HasSummed};
ghost use Rattle.log_start.specs.Records.{IsLogAs};

use crate::join::count_of;
use batch_store::{Batch, BookList, Entry, Setup};
use log_head::{Link, LogHead};
use snap_file::Identity;
use std::sync::Arc;

/// What a head names of the batches before its log, as far as they were added.
#[derive(Drop)]
struct Front {
    total: u64,
    link: Link,
}

impl Front {
    // Of no batches.
    fn new() -> Front
        ensures summed { HasSummed result [] }
        ensures total { result.total ≡ 0 }
    {
        Front {
            total: 0,
            link: Link::new(),
        }
    }

    // Adds the entry of the next batch.
    fn add(&mut self, entry: &Entry)
        requires fits { self.old.total + entry.now.total < 2 ^ 64 }
        ensures summed { (es : List Entry) → HasSummed self.old es → HasSummed self.new (es ++ entry.now ∷ []) }
        ensures total { self.new.total ≡ self.old.total + entry.now.total }
    {
        self.total += entry.total;
        self.link.add(entry);
    }
}

// Adds the entries of folded batches.
fn add_folded(front: &mut Front, folded: &[Entry])
    requires fits { front.old.total + total_of_entries folded.now < 2 ^ 64 }
    ensures summed { (es : List Entry) → HasSummed front.old es → HasSummed front.new (es ++ folded.now) }
    ensures total { front.new.total ≡ front.old.total + total_of_entries folded.now }
{
    'entries: for entry in folded {
        front.add(entry);
    }
}

// Adds the entries of batches that are kept whole.
fn add_batches(front: &mut Front, batches: &[Arc<Batch>])
    requires fits { front.old.total + total_of_entries (entries_of (values batches.now)) < 2 ^ 64 }
    ensures summed { (es : List Entry) → HasSummed front.old es →
        HasSummed front.new (es ++ entries_of (values batches.now)) }
    ensures total { front.new.total ≡ front.old.total + total_of_entries (entries_of (values batches.now)) }
{
    'batches: for batch in batches {
        let entry = batch.entry();
        front.add(&entry);
    }
}

/// The head of a log that is begun behind all that a list tells: its number of batches, their total, and their link,
/// the folded ones first. It costs one pass over the entries, and takes no memory.
pub fn head_of(setup: &Setup, identity: Identity, list: &BookList) -> LogHead
    requires accepted { AreAccepted setup.now (accepted_in list.now) }
    ensures identity { result.identity ≡ identity }
    ensures setup { result.setup ≡ setup.now }
    ensures first { result.first ≡ length (known_entries list.now) }
    ensures total { result.total ≡ total_of_entries (known_entries list.now) }
    ensures link { result.link ≡ link_in (known_entries list.now) }
    ensures head { IsHead result }
    // A log of this head that has no blocks yet is a log of the list's entries.
    ensures log { IsLogAs (begun (head_page result) result.first) setup.now identity (known_entries list.now) }
{
    let mut front = Front::new();
    add_folded(&mut front, &list.folded);
    add_batches(&mut front, &list.batches);
    LogHead {
        setup: *setup,
        first: count_of(list),
        total: front.total,
        link: front.link.value(),
        identity,
    }
}
