//! What was read, under other numbers.
ghost use Rattle.std.specs.Prelude.{◌≡◌, ◌≢◌, ◌⊎◌, IfOk, IfErr, true, false};
ghost use Rattle.batch_store.specs.Accepted.{entries_in};
ghost use Rattle.batch_store.specs.Books.{AreAccepted, accepted_in};
ghost use Rattle.batch_store.specs.Growth.{RefusesGrowth};
ghost use Rattle.snap_file.specs.Snapshots.{HasBase};
ghost use Rattle.snap_report.specs.Kept.{folded_in};

use batch_store::{BookList, GrowthFault, Setup};
use snap_file::Origin;
use std::alloc::Global;

/// Whether a snapshot of this origin and setup can't be given another setup without its log: that may have more batches.
pub(crate) fn needs_log(origin: &Origin, from: &Setup, to: &Setup) -> bool
    ensures needs { result ≡ true → (origin.now.has_log ≡ true) × (to.now ≢ from.now) }
    ensures alone { result ≡ false → (to.now ≡ from.now) ⊎ (origin.now.has_log ≡ false) }
{
    origin.has_log && !to.is_same(from)
}

/// What one setup has accepted, under another. It is folded into the same.
pub(crate) fn refit(
    alloc: Global,
    from: &Setup,
    to: &Setup,
    list: BookList,
) -> Result<BookList, GrowthFault>
    requires accepted { AreAccepted from.now (accepted_in list) }
    requires based { HasBase from.now list }
    ensures accepted { IfOk result (λ l. AreAccepted to.now (accepted_in l)) }
    ensures based { IfOk result (λ l. HasBase to.now l) }
    ensures folded { IfOk result (λ l. folded_in l ≡ folded_in list) }
    ensures entries { IfOk result (λ l. entries_in (accepted_in l) ≡ entries_in (accepted_in list)) }
    ensures err { IfErr result (RefusesGrowth to.now from.now (accepted_in list)) }
{
    list.grown(alloc, from, to)
}
