//! The batches that a book has folded: one matrix, which is their sum, and of each its entry and its reply.
ghost use Rattle.std.specs.Prelude.{◌≡◌, ℕ, ◌+◌, ◌<◌, ◌≤◌, ◌^◌, ◌++◌, [], ◌∷◌, IfOk, OnOk, None, length, position};
ghost use Rattle.std.specs.Prelude.{slice_get, map};
ghost use Rattle.std.specs.Arc.{arc_value};
ghost use Rattle.std.specs.List.{IsDistinct};
ghost use Rattle.indexmap.specs.IndexMap.{get, spare};
ghost use Rattle.batch_store.specs.Batches.{entry_of};
ghost use Rattle.batch_store.specs.Books.{same_key};
ghost use Rattle.batch_store.specs.Folds.{repeat_in, entries_under};
ghost use Rattle.batch_store.specs.declared.verdict.Entry.{Entry};
ghost use Rattle.batch_store.specs.Verdicts.{repeat_of, same_pair, total_of_entries};

use crate::batch::Batch;
use crate::pair::Pair;
use crate::pieces::Pieces;
use crate::verdict::{Entry, Kept, Verdict};
use indexmap::IndexMap;
use std::alloc::{AllocError, Global};
use std::collections::hash_map::RandomState;
use std::marker::Model;
use std::mem;
use std::random::RandomSource;
use std::sync::Arc;

/// What is kept of a folded batch beside its client and number.
#[derive(Clone, Copy)]
pub struct FoldedLine {
    pub cells: u64,
    pub total: u64,
    pub total_after: u64,
}

/// The folded batches of a book, in the order of their acceptance.
///
/// Contracts see the base, the entries, and how many more are taken without memory. Each takes some 60 bytes, whatever
/// the number of its cells.
#[derive(Drop)]
pub struct Folded {
    base: Arc<Pieces>,
    total: u64,
    lines: IndexMap<Pair, FoldedLine, RandomState>,
}

impl Model for Folded {
    ghost use Rattle.std.specs.Arc.{arc_value};
    ghost use Rattle.indexmap.specs.IndexMap.{spare};
    ghost use Rattle.batch_store.specs.Folds.{Fold, fold_of, coded_fold, entries_under, KeepsFold};

    ghost Value = { Fold };

    ghost coded = { coded_fold };

    ghost view = { λ a. fold_of (arc_value a.base).whole (entries_under a.lines.entries) (spare a.lines) };

    ghost invariant = { λ a. KeepsFold a.total a.lines.entries };
}

/// What a repeat of a batch is answered of which these are the cells and the total.
pub fn repeated(cells: u64, total: u64, b: &Batch, kept: Kept) -> Verdict
    ensures { (e : Entry) → e.cells ≡ cells → e.total ≡ total →
        result ≡ repeat_of e (entry_of b.now) kept.index kept.total_after }
{
    if cells == b.matrix.entries() && total == b.total {
        Verdict::Known(kept)
    } else {
        Verdict::NumberReused
    }
}

// Appends a line under a new pair, where there is room: it takes no memory.
fn push_folded(lines: &mut IndexMap<Pair, FoldedLine, RandomState>, pair: Pair, line: FoldedLine)
    requires absent { get same_key lines.old pair ≡ None }
    requires room { 0 < spare lines.old }
    ensures lines { lines.new.entries ≡ lines.old.entries ++ (pair, line) ∷ [] }
    ensures room { spare lines.old ≤ spare lines.new + 1 }
{
    let _ = lines.insert(pair, line);
}

impl Folded {
    /// No folded batch, beside this base. It draws the seed of its hasher from the system, and takes no memory.
    ///
    /// # Errors
    ///
    /// The system gave no seed.
    pub fn new(
        rt: &impl RandomSource,
        alloc: Global,
        base: Arc<Pieces>,
    ) -> Result<Folded, AllocError>
        ensures base { IfOk result (λ f. f.base ≡ (arc_value base).whole) }
        ensures none { IfOk result (λ f. f.entries ≡ []) }
    {
        match RandomState::new(rt) {
            Ok(hasher) => Ok(Folded {
                base,
                total: 0,
                lines: IndexMap::with_hasher(alloc, hasher),
            }),
            Err(_) => Err(AllocError),
        }
    }

    /// Makes room for so many entries more. All stays, also on an error.
    ///
    /// # Errors
    ///
    /// A growth was refused.
    pub fn reserve(&mut self, more: usize) -> Result<(), AllocError>
        ensures base { self.new.base ≡ self.old.base }
        ensures entries { self.new.entries ≡ self.old.entries }
        ensures ok { OnOk result (more ≤ self.new.free) }
    {
        self.lines.reserve(more)
    }

    /// Appends an entry of a new client and number, where there is room: it takes no memory.
    pub fn push(&mut self, entry: Entry)
        requires new_pair { position (same_pair entry) self.old.entries ≡ None }
        requires room { 0 < self.old.free }
        requires fits { total_of_entries self.old.entries + entry.total < 2 ^ 64 }
        ensures base { self.new.base ≡ self.old.base }
        ensures entries { self.new.entries ≡ self.old.entries ++ entry ∷ [] }
        ensures room { self.old.free ≤ self.new.free + 1 }
    {
        let total_after = self.total + entry.total;
        let pair = Pair {
            client: entry.client,
            number: entry.number,
        };
        push_folded(
            &mut self.lines,
            pair,
            FoldedLine {
                cells: entry.cells,
                total: entry.total,
                total_after,
            },
        );
        self.total = total_after;
    }

    /// Appends entries of new clients and numbers, where there is room for all: it takes no memory.
    pub fn push_all(&mut self, entries: &[Entry])
        requires distinct { IsDistinct same_pair (self.old.entries ++ entries.now) }
        requires room { length entries.now ≤ self.old.free }
        requires fits { total_of_entries (self.old.entries ++ entries.now) < 2 ^ 64 }
        ensures base { self.new.base ≡ self.old.base }
        ensures entries { self.new.entries ≡ self.old.entries ++ entries.now }
    {
        'entries: for entry in entries {
            self.push(*entry);
        }
    }

    /// The verdict on a batch whose client and number stand here, and None where they don't. One look-up.
    pub fn repeat(&self, b: &Batch) -> Option<Verdict>
        ensures { result ≡ repeat_in self.now.entries (entry_of b.now) }
    {
        let pair = Pair {
            client: b.client,
            number: b.number,
        };
        let (index, _, line) = self.lines.get_full(&pair)?;
        let kept = Kept {
            index: index as u64,
            total_after: line.total_after,
        };
        Some(repeated(line.cells, line.total, b, kept))
    }

    /// How many there are. Constant time, as the next three.
    pub fn len(&self) -> u64
        ensures { result ≡ length self.now.entries }
    {
        self.lines.len() as u64
    }

    /// The sum of their totals.
    pub fn total(&self) -> u64
        ensures { result ≡ total_of_entries self.now.entries }
    {
        self.total
    }

    /// The base, which is shared.
    pub fn base(&self) -> &Arc<Pieces>
        ensures { (arc_value result.now).whole ≡ self.now.base }
    {
        &self.base
    }

    /// Puts another base in place of this one, which is given back.
    pub fn set_base(&mut self, base: Arc<Pieces>) -> Arc<Pieces>
        ensures base { self.new.base ≡ (arc_value base).whole }
        ensures entries { self.new.entries ≡ self.old.entries }
    {
        mem::replace(&mut self.base, base)
    }

    /// The entry at a place, and None past the last. Constant time.
    pub fn at(&self, i: u64) -> Option<Entry>
        ensures { result ≡ slice_get self.now.entries i }
    {
        let (pair, line) = self.lines.get_index(i as usize)?;
        Some(Entry {
            client: pair.client,
            number: pair.number,
            cells: line.cells,
            total: line.total,
        })
    }

    /// All entries, in order. One growth, of 32 bytes for each.
    ///
    /// # Errors
    ///
    /// The growth was refused.
    pub fn list(&self, alloc: Global) -> Result<Vec<Entry>, AllocError>
        ensures { IfOk result (λ list. list.items ≡ self.now.entries) }
    {
        let list = entries_of_lines(alloc, &self.lines)?;
        Ok(list)
    }
}

// The entries of all lines.
fn entries_of_lines(
    alloc: Global,
    lines: &IndexMap<Pair, FoldedLine, RandomState>,
) -> Result<Vec<Entry>, AllocError>
    ensures { IfOk result (λ list. list.items ≡ entries_under lines.now.entries) }
{
    let mut list = Vec::with_capacity(alloc, lines.len())?;
    'lines: for (pair, line) in lines.iter() {
        list.push(Entry {
            client: pair.client,
            number: pair.number,
            cells: line.cells,
            total: line.total,
        })?;
    }
    Ok(list)
}
