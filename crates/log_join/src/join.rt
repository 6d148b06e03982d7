//! Puts the batches of a log behind a snapshot's list.
ghost use Rattle.std.specs.Prelude.{◌≡◌, ◌≢◌, ◌⊎◌, ◌+◌, ◌-◌, ◌≤◌, true, ℕ, [], ◌∷◌, ◌++◌, IfOk, IfErr, OnOk, drop, length};
ghost use Rattle.std.specs.Arc.{arc_value};
ghost use Rattle.batch_store.specs.declared.verdict.Verdict.TheVariants.{Fresh};
ghost use Rattle.batch_store.specs.Batches.{entry_of, entries_of, values};
ghost use Rattle.batch_store.specs.Books.{AreAccepted, HaveDims, accepted_in, listing};
ghost use Rattle.batch_store.specs.Growth.{AllLieIn, LiesIn, all_widened, widened};
ghost use Rattle.batch_store.specs.Verdicts.{AllFresh, verdict_of};
ghost use Rattle.snap_file.specs.Origins.{IsOtherBook};
ghost use Rattle.log_join.specs.Entries.{HasSeen};
ghost use Rattle.log_join.specs.Joins.{Joins, RefusesJoin, RefusesLists, StaleAt, known_entries};
ghost use Rattle.log_join.specs.declared.fault.JoinFault.{JoinFault};

use crate::fault::JoinFault;
use crate::known::{count_of, judge_head, judge_shared, shared_of};
use crate::seen::{Seen, seen_in, take_fresh};
use batch_store::{Batch, BookList, Setup};
use log_head::LogHead;
use snap_file::Identity;
use std::alloc::{AllocError, Global};
use std::sync::Arc;

// The batches from a place on.
fn behind(batches: &[Arc<Batch>], at: usize) -> &[Arc<Batch>]
    requires { at ≤ length batches.now }
    ensures { result.now ≡ drop at batches.now }
{
    batches.split_at(at).1
}

// Whether a batch's matrix has the setup's dimensions.
fn has_dims(setup: &Setup, batch: &Batch) -> bool
    ensures { result ≡ true → (batch.now.matrix.rows ≡ setup.now.rows) × (batch.now.matrix.cols ≡ setup.now.cols) }
{
    let (rows, cols) = batch.matrix.dims();
    rows == setup.rows() && cols == setup.cols()
}

// A batch in a matrix of the setup's dimensions: the batch itself, shared, where it has these.
fn in_setup(alloc: Global, setup: &Setup, batch: &Arc<Batch>) -> Result<Arc<Batch>, AllocError>
    requires { LiesIn setup.now (arc_value batch.now) }
    ensures { IfOk result (λ b. arc_value b ≡ widened setup.now (arc_value batch.now)) }
{
    if has_dims(setup, batch) {
        let shared = Arc::try_clone(batch)?;
        return Ok(shared);
    }
    let wide = batch.widened(alloc, setup)?;
    Ok(wide)
}

// Appends a batch to a list, in a matrix of the setup's dimensions.
fn push_widened(
    alloc: Global,
    setup: &Setup,
    list: &mut BookList,
    batch: &Arc<Batch>,
) -> Result<(), JoinFault>
    requires { LiesIn setup.now (arc_value batch.now) }
    ensures ok { OnOk result (list.new ≡
        listing list.old.base list.old.folded (list.old.list ++ widened setup.now (arc_value batch.now) ∷ [])) }
    ensures err { IfErr result (λ f. f ≡ JoinFault.Memory) }
{
    let Ok(shared) = in_setup(alloc, setup, batch) else {
        return Err(JoinFault::Memory);
    };
    match list.batches.push(shared) {
        Ok(()) => Ok(()),
        Err(_) => Err(JoinFault::Memory),
    }
}

// Appends a batch that is fresh behind those of the list.
fn take_batch(
    alloc: Global,
    setup: &Setup,
    seen: &mut Seen,
    list: &mut BookList,
    batch: &Arc<Batch>,
) -> Result<(), JoinFault>
    requires seen { HasSeen seen.old (known_entries list.old) }
    requires accepted { AreAccepted setup.now (accepted_in list.old) }
    requires fits { LiesIn setup.now (arc_value batch.now) }
    ensures list { OnOk result (list.new ≡
        listing list.old.base list.old.folded (list.old.list ++ widened setup.now (arc_value batch.now) ∷ [])) }
    ensures seen { OnOk result (HasSeen seen.new (known_entries list.new)) }
    ensures accepted { OnOk result (AreAccepted setup.now (accepted_in list.new)) }
    ensures fresh { OnOk result (verdict_of setup.now.limit setup.now.max_batches (known_entries list.old)
        (entry_of (arc_value batch.now)) ≡ Fresh) }
    ensures err { IfErr result (λ f. (f ≡ JoinFault.Memory)
        ⊎ ((f ≡ JoinFault.NotFresh (length (known_entries list.old)))
        × (verdict_of setup.now.limit setup.now.max_batches (known_entries list.old) (entry_of (arc_value batch.now))
        ≢ Fresh))) }
{
    // It is the batch's place.
    let at = seen.count;
    match take_fresh(seen, setup, &batch.entry()) {
        Err(_) => Err(JoinFault::Memory),
        Ok(false) => Err(JoinFault::NotFresh { at }),
        Ok(true) => push_widened(alloc, setup, list, batch),
    }
}

// Appends the batches of a log that stand behind the end of the list.
fn append_new(
    alloc: Global,
    setup: &Setup,
    known: BookList,
    batches: &[Arc<Batch>],
) -> Result<BookList, JoinFault>
    requires accepted { AreAccepted setup.now (accepted_in known) }
    requires fit { AllLieIn setup.now (values batches.now) }
    ensures list { IfOk result (λ list. list ≡
        listing known.base known.folded (known.list ++ all_widened setup.now (values batches.now))) }
    ensures accepted { IfOk result (λ list. AreAccepted setup.now (accepted_in list)) }
    ensures fresh { OnOk result (AllFresh setup.now.limit setup.now.max_batches (known_entries known)
        (entries_of (values batches.now))) }
    ensures err { IfErr result (λ f. (f ≡ JoinFault.Memory) ⊎ ((at : ℕ) × (f ≡ JoinFault.NotFresh at)
        × StaleAt setup.now.limit setup.now.max_batches (known_entries known) (entries_of (values batches.now)) at)) }
{
    let mut list = known;
    let Ok(mut seen) = seen_in(alloc, &list) else {
        return Err(JoinFault::Memory);
    };
    'batches: for i in 0..batches.len() {
        take_batch(alloc, setup, &mut seen, &mut list, &batches[i])?;
    }
    Ok(list)
}

// So for a snapshot and a log of one book.
fn join_lists(
    alloc: Global,
    setup: &Setup,
    known: BookList,
    head: &LogHead,
    batches: &[Arc<Batch>],
) -> Result<BookList, JoinFault>
    requires accepted { AreAccepted setup.now (accepted_in known) }
    requires dims { HaveDims head.now.setup.rows head.now.setup.cols (values batches.now) }
    ensures ok { IfOk result (Joins setup.now known head.now (values batches.now)) }
    ensures err { IfErr result (RefusesLists setup.now known head.now (values batches.now)) }
{
    judge_head(setup, &known, head)?;
    let first = head.first as usize;
    let count = count_of(&known);
    let shared = shared_of(count, first, batches.len());
    judge_shared(&known, first, batches, shared)?;
    if shared == batches.len() {
        return Ok(known);
    }
    let new = behind(batches, shared);
    append_new(alloc, setup, known, new)
}

/// The list of a snapshot and a log: that of the snapshot, then the log's batches at indices from its end on.
/// A log that ends before the snapshot does adds nothing. Where there is no snapshot the list is an empty one. `whose`
/// is the snapshot's identity, unknown where there is none or it doesn't say one.
///
/// `setup` judges the list. The log's setup may have fewer rows and columns, and any cuts, shards and limits: its
/// batches get matrices of `setup`'s dimensions.
///
/// It costs one pass over the entries before the log, and where the log goes on after the snapshot the time of a
/// look-up for each batch of both, and a place in a set for each until it returns. The log's batches are shared where
/// they have the dimensions; else their blocks of cells are.
///
/// # Errors
///
/// The first refusal that holds, in the order of `JoinFault`.
pub fn join_log(
    alloc: Global,
    setup: &Setup,
    whose: &Identity,
    known: BookList,
    head: &LogHead,
    batches: &[Arc<Batch>],
) -> Result<BookList, JoinFault>
    requires accepted { AreAccepted setup.now (accepted_in known) }
    requires dims { HaveDims head.now.setup.rows head.now.setup.cols (values batches.now) }
    ensures book { OnOk result (IsOtherBook whose.now head.now.identity → ⊥) }
    ensures ok { IfOk result (Joins setup.now known head.now (values batches.now)) }
    ensures err { IfErr result (RefusesJoin setup.now whose.now known head.now (values batches.now)) }
{
    if whose.is_other(&head.identity) {
        return Err(JoinFault::OtherBook);
    }
    join_lists(alloc, setup, known, head, batches)
}
