//! Which batches are fresh behind those of a list.
ghost use Rattle.std.specs.Prelude.{◌≡◌, ◌≢◌, ◌≤◌, ◌<◌, ◌^◌, true, false, List, [], ◌∷◌, ◌++◌, IfOk, OnErr};
ghost use Rattle.batch_store.specs.declared.verdict.Entry.{Entry};
ghost use Rattle.batch_store.specs.declared.verdict.Verdict.TheVariants.{Fresh};
ghost use Rattle.batch_store.specs.Setups.{Setting};
ghost use Rattle.batch_store.specs.Verdicts.{total_of_entries, verdict_of};
ghost use Rattle.snap_file.specs.Lists.{HasPairs};
ghost use Rattle.snap_file.specs.Spelling.{stands_in};
ghost use Rattle.log_join.specs.Entries.{HasSeen};
ghost use Rattle.log_join.specs.Joins.{known_entries};

use crate::known::{count_of, entry_at};
use batch_store::{BookList, Entry, Setup};
use std::alloc::{AllocError, Global};
use std::collections::BTreeSet;

/// What a verdict reads of the batches so far: their pairs of client and number, how many they are, and their total.
#[derive(Drop)]
pub struct Seen {
    pairs: BTreeSet<(u64, u64)>,
    pub count: u64,
    total: u64,
}

// Notes a pair, and tells whether it was there.
fn note_pair(pairs: &mut BTreeSet<(u64, u64)>, client: u64, number: u64) -> Result<bool, AllocError>
    ensures told { IfOk result (λ repeated. (es : List Entry) → HasPairs pairs.old es →
        (repeated ≡ stands_in client number es)) }
    ensures noted { IfOk result (λ repeated. (es : List Entry) (e : Entry) → HasPairs pairs.old es →
        e.client ≡ client → e.number ≡ number → HasPairs pairs.new (es ++ e ∷ [])) }
{
    let added = pairs.insert((client, number))?;
    Ok(!added)
}

/// The batches of a list. It takes a place in a set for each, and the time of a look-up.
pub fn seen_in(alloc: Global, list: &BookList) -> Result<Seen, AllocError>
    requires { total_of_entries (known_entries list.now) < 2 ^ 64 }
    ensures { IfOk result (λ seen. HasSeen seen (known_entries list.now)) }
{
    let mut pairs = BTreeSet::new(alloc);
    let mut total = 0;
    let count = count_of(list);
    'entries: for i in 0..count {
        let Some(entry) = entry_at(list, i) else {
            unreachable!();
        };
        let _ = note_pair(&mut pairs, entry.client, entry.number)?;
        total += entry.total;
    }
    Ok(Seen {
        pairs,
        count: count as u64,
        total,
    })
}

/// Takes a batch behind those that were seen, if it is fresh, and tells whether it is.
pub fn take_fresh(seen: &mut Seen, setup: &Setup, entry: &Entry) -> Result<bool, AllocError>
    requires total { seen.old.total ≤ setup.now.limit }
    requires count { seen.old.count ≤ setup.now.max_batches }
    ensures fresh { IfOk result (λ fresh. fresh ≡ true → (es : List Entry) → HasSeen seen.old es →
        (verdict_of setup.now.limit setup.now.max_batches es entry.now ≡ Fresh)
        × HasSeen seen.new (es ++ entry.now ∷ [])) }
    ensures stale { IfOk result (λ fresh. fresh ≡ false → (es : List Entry) → HasSeen seen.old es →
        verdict_of setup.now.limit setup.now.max_batches es entry.now ≢ Fresh) }
{
    if entry.total > setup.limit() - seen.total || seen.count >= setup.max_batches() {
        return Ok(false);
    }
    if note_pair(&mut seen.pairs, entry.client, entry.number)? {
        return Ok(false);
    }
    seen.count += 1;
    seen.total += entry.total;
    Ok(true)
}
