//! Snapshots whose batches are counted as they are loaded.
ghost use Rattle.std.specs.Prelude.{◌≡◌, None, Ok, unwrap_or};
ghost use Rattle.snap_query.specs.Spans.{IsCounted};

use snap_export::{SnapshotFiles, count_of};
use snap_file::Snapshot;
use snap_report::CheckFault;
use std::alloc::Global;

/// Files, lent to one who loads them, and what was counted of those that were loaded.
#[derive(Drop)]
pub struct Counting<'a, F: SnapshotFiles> {
    files: &'a mut F,
    batches: u64,
    // Those of the first.
    shards: Option<u64>,
}

impl<'a, F: SnapshotFiles> Counting<'a, F> {
    /// These files, of which nothing was counted yet.
    pub fn new(files: &'a mut F) -> Counting<'a, F>
        ensures same_reference { result.files.ghost_name ≡ files.entry.ghost_name }
        ensures files { result.files.now ≡ files.old }
        ensures batches { result.batches ≡ 0 }
        ensures shards { result.shards ≡ None }
    {
        Counting {
            files,
            batches: 0,
            shards: None,
        }
    }

    /// How many batches they have, folded or not, and 2^64 - 1 where they are more.
    pub fn batches(&self) -> u64
        ensures { result ≡ self.now.batches }
    {
        self.batches
    }

    /// How many shards the first has, and 0 before it.
    pub fn shards(&self) -> u64
        ensures { result ≡ unwrap_or self.now.shards 0 }
    {
        self.shards.unwrap_or(0)
    }

    // Counts the batches of a snapshot.
    fn add(&mut self, snapshot: &Snapshot)
        ensures same_reference { self.new.files.ghost_name ≡ self.old.files.ghost_name }
        ensures files { self.new.files.now ≡ self.old.files.now }
        ensures counted { IsCounted self.old.batches self.old.shards (Ok snapshot.now) self.new.batches
            self.new.shards }
    {
        let count = count_of(&snapshot.list) as u64;
        self.batches = self.batches.saturating_add(count);
        if self.shards.is_none() {
            self.shards = Some(snapshot.setup.shards());
        }
    }
}

impl<'a, F: SnapshotFiles> SnapshotFiles for Counting<'a, F> {
    ghost load_gives = { λ s max_bytes answer t. (t.files.ghost_name ≡ s.files.ghost_name)
        × F.load_gives s.files.now max_bytes answer t.files.now
        × IsCounted s.batches s.shards answer t.batches t.shards };

    fn load_next(&mut self, alloc: Global, max_bytes: u64) -> Result<Snapshot, CheckFault> {
        let answer = self.files.load_next(alloc, max_bytes);
        if let Ok(snapshot) = &answer {
            self.add(snapshot);
        }
        answer
    }
}
