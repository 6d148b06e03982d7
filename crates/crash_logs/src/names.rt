//! The names of the log and of the snapshot.

use log_disk::Picks;
use std::alloc::{AllocError, Global};

/// The file under the log's name, by its number, and what else a loss of power may leave there.
#[derive(Drop)]
pub struct Names {
    pub named: Option<usize>,
    older: Vec<Option<usize>>,
}

impl Names {
    pub fn new(alloc: Global, named: Option<usize>) -> Names {
        Names {
            named,
            older: Vec::new(alloc),
        }
    }

    /// Puts a file in the place of the one under the name.
    pub fn put(&mut self, file: usize) -> Result<(), AllocError> {
        self.older.push(self.named)?;
        self.named = Some(file);
        Ok(())
    }

    /// A loss of power leaves what is named from now on.
    pub fn sync(&mut self) {
        self.older.clear();
    }

    /// What a loss of power leaves, as it is picked.
    pub fn left(&self, picks: &mut Picks) -> Option<usize> {
        if self.older.is_empty() || picks.below(2) == 0 {
            return self.named;
        }
        self.older[picks.below(self.older.len())]
    }

    /// As they stand.
    pub fn copy(&self, alloc: Global) -> Result<Names, AllocError> {
        Ok(Names {
            named: self.named,
            older: self.older.to_vec(alloc)?,
        })
    }
}

/// How many batches the snapshot under its name has, and the one that a loss of power may leave there.
#[derive(Clone, Copy)]
pub struct Snapshot {
    pub named: usize,
    pub durable: usize,
}

impl Snapshot {
    /// One of so many batches, which is durable there.
    pub fn of(count: usize) -> Snapshot {
        Snapshot {
            named: count,
            durable: count,
        }
    }

    /// What a loss of power leaves, as it is picked.
    pub fn left(&self, picks: &mut Picks) -> Snapshot {
        if picks.below(2) == 0 {
            Snapshot::of(self.named)
        } else {
            Snapshot::of(self.durable)
        }
    }
}
