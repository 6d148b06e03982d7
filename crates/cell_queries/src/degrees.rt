//! How many rows have how many entries.
ghost use Rattle.std.specs.Prelude.{◌≡◌, ◌<◌, ◌++◌, List, OnOk, IfOk};
ghost use Rattle.cell_queries.specs.Tallies.{tallies};
ghost use Rattle.cell_queries.specs.declared.tally.RowTally.{RowTally};
ghost use Rattle.cell_queries.specs.Degrees.{degrees_of, listed_at, AreCounts};

use crate::source::CellSource;
use crate::tally::next_row;
use std::alloc::{AllocError, Global};

/// How many rows have from `first` to `last` entries.
#[derive(Clone, Copy, Debug, PartialEq, Eq)]
pub struct Degree {
    pub first: u64,
    pub last: u64,
    pub rows: u64,
}

// Twice as many entries, 64 times: rows have fewer than 2^64.
const RANGES: usize = 64;

// How many rows have from 2^k to 2^(k+1) - 1 entries, for each k.
fn counts_of<S: CellSource>(source: &mut S) -> Result<[u64; RANGES], AllocError>
    ensures { IfOk result (λ counts. AreCounts (tallies (S.left source.old)) counts) }
{
    let mut counts = [0u64; RANGES];
    let mut ahead = source.next_cell();
    'rows: while let Some(row) = next_row(source, &mut ahead)? {
        let k = row.entries.ilog2() as usize;
        counts[k] = match counts[k].checked_add(1) {
            Some(rows) => rows,
            None => return Err(AllocError),
        };
    }
    Ok(counts)
}

// Appends the range from 2^k on, where there are rows in it.
#[tactic(auto, using(crate::proofs::DegreeLaws::listed_nothing, crate::proofs::DegreeLaws::listed_one))]
fn push_degree(list: &mut Vec<Degree>, k: usize, rows: u64) -> Result<(), AllocError>
    requires { k < 64 }
    ensures { OnOk result (list.new.items ≡ list.old.items ++ listed_at k rows) }
{
    if rows == 0 {
        return Ok(());
    }
    let first = 1u64 << k;
    list.push(Degree {
        first,
        last: first + (first - 1),
        rows,
    })?;
    Ok(())
}

// The ranges in which there are rows.
fn listed(alloc: Global, counts: &[u64; RANGES]) -> Result<Vec<Degree>, AllocError>
    ensures { (ts : List RowTally) → AreCounts ts counts.now → IfOk result (λ list. list.items ≡ degrees_of ts) }
{
    let mut list = Vec::new(alloc);
    'degrees: for k in 0..RANGES {
        push_degree(&mut list, k, counts[k])?;
    }
    Ok(list)
}

/// How many rows have 1 entry, 2 to 3, 4 to 7 and so on, each range twice as wide as the one before. Ranges without a
/// row are left out.
///
/// It goes through all cells, and takes memory for 64 ranges at most.
///
/// # Errors
///
/// Memory was refused, or the counts of a row, or its entries, pass 2^64 - 1. No memory holds such a matrix.
pub fn degrees_of<S: CellSource>(alloc: Global, source: &mut S) -> Result<Vec<Degree>, AllocError>
    ensures { IfOk result (λ list. list.items ≡ degrees_of (tallies (S.left source.old))) }
{
    let counts = counts_of(source)?;
    listed(alloc, &counts)
}
