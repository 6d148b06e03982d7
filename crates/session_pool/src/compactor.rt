//! The threads that compact an engine's shards beside the workers of a pool.
//!
//! Puts wake the first, and that one the second.

use crossbeam_channel::{Receiver, Sender, TryRecvError, bounded};
use locked_engine::{Engine, Named};
use std::alloc::Global;
use std::sync::Wait;
use std::sync::ledger::Ledger;
use std::thread::{Scope, Threads};

/// The layers of a shard that are compacted before all others, 1 and 2: each put adds to them, and one that finds too
/// many runs there adds them up itself. A sum in the deeper layers may take as long as many puts.
const FIRST_LAYERS: usize = 2;

/// Starts the threads that compact, at most so many of two: one for layers 1 and 2, which has the deeper layers too
/// where there is no second one, and one for those. Where the first can't be started what wakes it does nothing.
pub(crate) fn start_compactors<
    's,
    E,
    N: Named + Send + Sync,
    H: Ledger + Send + Sync,
    R: Threads + Wait + Sync,
>(
    scope: &Scope<'s, E>,
    rt: &'s R,
    alloc: Global,
    engine: &'s Engine<N, H>,
    woken: Receiver<()>,
    count: u64,
) {
    let ends = if count > 1 {
        bounded(alloc, 1).ok()
    } else {
        None
    };
    let (deeper, woken_deeper) = ends.unzip();
    let first = scope.spawn(move || compact_first_when_woken(rt, alloc, engine, woken, deeper));
    drop(first);
    if let Some(woken) = woken_deeper {
        let second = scope.spawn(move || compact_deeper_when_woken(rt, alloc, engine, woken));
        drop(second);
    }
}

// Waits for a message, or only looks for one where something is due. False once all senders are gone.
fn is_to_go_on<R: Wait>(rt: &R, woken: &Receiver<()>, is_due: bool) -> bool {
    if is_due {
        return woken.try_recv(rt) != Err(TryRecvError::Disconnected);
    }
    woken.recv(rt).is_ok()
}

// Wakes the thread of the deeper layers, and answers whether there is one.
fn wake_deeper<R: Wait>(rt: &R, deeper: &Option<Sender<()>>) -> bool {
    let Some(deeper) = deeper else {
        return false;
    };
    match deeper.try_send(rt, ()) {
        Ok(()) => true,
        Err(refused) => !refused.is_disconnected(),
    }
}

// Compacts layers 1 and 2 on each message until nothing is due there in any shard, and ends when all senders are gone.
// Where no thread has the deeper layers, it makes one sum of them at a time between.
fn compact_first_when_woken<N: Named, H: Ledger, R: Wait>(
    rt: &R,
    alloc: Global,
    engine: &Engine<N, H>,
    woken: Receiver<()>,
    deeper: Option<Sender<()>>,
) {
    let mut turn = 0;
    let mut is_due = false;
    for _ in rt.forever() {
        if !is_to_go_on(rt, &woken, is_due) {
            break;
        }
        let is_alone = !wake_deeper(rt, &deeper);
        is_due = compact_first_layers(rt, alloc, engine);
        if is_alone {
            is_due |= compact_deeper(rt, alloc, engine, &mut turn);
        }
    }
}

// Compacts the deeper layers on each message until nothing is due there in any shard, and ends when all senders are
// gone.
fn compact_deeper_when_woken<N: Named, H: Ledger, R: Wait>(
    rt: &R,
    alloc: Global,
    engine: &Engine<N, H>,
    woken: Receiver<()>,
) {
    let mut turn = 0;
    let mut is_due = false;
    for _ in rt.forever() {
        if !is_to_go_on(rt, &woken, is_due) {
            break;
        }
        is_due = compact_deeper(rt, alloc, engine, &mut turn);
    }
}

// Makes a sum in layer 1 or 2 of each shard where one is due, and answers whether any was made.
fn compact_first_layers<N: Named, H: Ledger, R: Wait>(
    rt: &R,
    alloc: Global,
    engine: &Engine<N, H>,
) -> bool {
    let mut is_any = false;
    let shards = engine.setup().shards();
    for s in 0..shards {
        is_any |= engine.compact(rt, alloc, s, 0, FIRST_LAYERS);
    }
    is_any
}

// Makes a sum in the deeper layers of the first shard where one is due, from the shard on whose turn it is, and gives
// the turn to the next one. Whether any was made.
fn compact_deeper<N: Named, H: Ledger, R: Wait>(
    rt: &R,
    alloc: Global,
    engine: &Engine<N, H>,
    turn: &mut u64,
) -> bool {
    let Some(s) = compact_next(rt, alloc, engine, *turn) else {
        return false;
    };
    *turn = s.saturating_add(1);
    true
}

// Makes a sum in the deeper layers of the first shard where one is due, from one shard up to another, and answers which
// shard that is.
fn compact_between<N: Named, H: Ledger, R: Wait>(
    rt: &R,
    alloc: Global,
    engine: &Engine<N, H>,
    from: u64,
    until: u64,
) -> Option<u64> {
    let shards = engine.setup().shards();
    for s in from..until.min(shards) {
        if engine.compact(rt, alloc, s, FIRST_LAYERS, usize::MAX) {
            return Some(s);
        }
    }
    None
}

// The same, from the shard on whose turn it is, and then up to that one.
fn compact_next<N: Named, H: Ledger, R: Wait>(
    rt: &R,
    alloc: Global,
    engine: &Engine<N, H>,
    turn: u64,
) -> Option<u64> {
    if let Some(s) = compact_between(rt, alloc, engine, turn, u64::MAX) {
        return Some(s);
    }
    compact_between(rt, alloc, engine, 0, turn)
}
