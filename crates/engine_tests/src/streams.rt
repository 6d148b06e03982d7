//! Streams of small batches of two clients, and a plain table of what they add up to.

use std::alloc::Global;
use std::process::Abort;

pub const ROWS: u64 = 40;

pub const COLS: u64 = 40;

pub const SHARDS: u64 = 4;

/// How many batches each client puts.
pub const ROUNDS: u64 = 400;

/// The cells of a client's batch of a round: one in each shard, in columns whose numbers leave the client's, 0 or 1,
/// when divided by two. The counts are 1 to 4, another one in each shard round by round.
pub fn cells_of(client: u64, round: u64) -> [(u64, u64, u64); 4] {
    [
        cell_of(client, round, 0),
        cell_of(client, round, 1),
        cell_of(client, round, 2),
        cell_of(client, round, 3),
    ]
}

fn cell_of(client: u64, round: u64, i: u64) -> (u64, u64, u64) {
    let shift = round % 60;
    let row = (2 * (i % 4) + shift % 3) * 4 + (i % 4 + shift) % 4;
    let col = (shift * 7 + (i % 4) * 3) % 20 * 2 + client % 2;
    (row, col, i % 4 + 1)
}

/// Counts by their places, row by row. None has been brought.
#[derive(Drop)]
pub struct Tally {
    counts: Vec<Option<u64>>,
}

impl Tally {
    /// Nothing was brought anywhere.
    pub fn new(rt: &impl Abort, alloc: Global) -> Tally {
        let mut counts = Vec::new(alloc);
        for _ in 0..ROWS * COLS {
            counts.push(None).expect(rt, "memory");
        }
        Tally { counts }
    }

    /// The batches of both clients.
    pub fn of_all(rt: &impl Abort, alloc: Global) -> Tally {
        let mut tally = Tally::new(rt, alloc);
        for round in 0..ROUNDS {
            tally.add(&cells_of(0, round));
            tally.add(&cells_of(1, round));
        }
        tally
    }

    /// Adds the counts of these cells.
    pub fn add(&mut self, cells: &[(u64, u64, u64)]) {
        for (row, col, count) in cells {
            if let Some(sum) = self.counts.get_mut(place(*row, *col)) {
                *sum = Some(sum.unwrap_or(0).wrapping_add(*count));
            }
        }
    }

    /// The count at a place, where any was brought.
    pub fn count(&self, row: u64, col: u64) -> Option<u64> {
        self.counts.get(place(row, col)).copied().flatten()
    }

    /// The number of places of a row that have a count.
    pub fn row_entries(&self, row: u64) -> u64 {
        let mut entries = 0u64;
        for col in 0..COLS {
            entries = entries.wrapping_add(u64::from(self.count(row, col).is_some()));
        }
        entries
    }

    /// The counts of a row together.
    pub fn row_total(&self, row: u64) -> u64 {
        let mut total = 0u64;
        for col in 0..COLS {
            total = total.wrapping_add(self.count(row, col).unwrap_or(0));
        }
        total
    }
}

fn place(row: u64, col: u64) -> usize {
    row.wrapping_mul(COLS).wrapping_add(col) as usize
}
