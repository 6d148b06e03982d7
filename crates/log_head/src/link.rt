//! The link of a log to the batches before it.
ghost use Rattle.std.specs.Prelude.{◌≡◌, List, [], ◌∷◌, ◌++◌};
ghost use Rattle.crc32c.specs.Remainders.{after_bytes};
ghost use Rattle.batch_store.specs.declared.verdict.Entry.{Entry};
ghost use Rattle.snap_file.specs.Spelling.{entry_bytes};
ghost use Rattle.log_head.specs.Links.{HasAdded, link_in};

use batch_store::Entry;
use crc32c::Crc;
use std::marker::Model;

/// A link in the making. It costs one pass over the entries, and takes no memory.
///
/// Contracts see the remainder of the checksum.
#[derive(Drop)]
pub struct Link {
    crc: Crc,
}

impl Model for Link {
    ghost use Rattle.std.specs.Prelude.{ℕ};

    ghost Value = { ℕ };

    ghost view = { λ l. l.crc };
}

// Adds the bytes of an entry to a checksum.
#[tactic(auto, unfolding(snap_file::specs::Spelling::number_bytes))]
fn add_entry(crc: &mut Crc, entry: &Entry)
    ensures { crc.new ≡ after_bytes crc.old (entry_bytes entry.now) }
{
    crc.add(&entry.client.to_be_bytes());
    crc.add(&entry.number.to_be_bytes());
    crc.add(&entry.cells.to_be_bytes());
    crc.add(&entry.total.to_be_bytes());
}

impl Link {
    /// Of no batches.
    pub fn new() -> Link
        ensures { HasAdded result [] }
    {
        Link { crc: Crc::new() }
    }

    /// Adds the entry of the next batch.
    pub fn add(&mut self, entry: &Entry)
        ensures { (es : List Entry) → HasAdded self.old es → HasAdded self.new (es ++ entry.now ∷ []) }
    {
        add_entry(&mut self.crc, entry);
    }

    /// The link of all entries that were added, which may go on.
    pub fn value(&self) -> u32
        ensures { (es : List Entry) → HasAdded self.now es → result ≡ link_in es }
    {
        self.crc.value()
    }
}

/// The link of the batches that have these entries, in their order.
pub fn link_of(entries: &[Entry]) -> u32
    ensures { result ≡ link_in entries.now }
{
    let mut link = Link::new();
    'entries: for entry in entries {
        link.add(entry);
    }
    link.value()
}
