//! What an answer Accepted means where there is a log.
ghost use Rattle.std.specs.Prelude.{◌≡◌, List, Ok, Some, ⊤, is_some, slice_get, true};
ghost use Rattle.batch_store.specs.declared.verdict.Entry.{Entry};
ghost use Rattle.batch_store.specs.declared.verdict.Kept.{Kept};
ghost use Rattle.batch_store.specs.Batches.{Submission, entry_of};
ghost use Rattle.wire_proto.specs.Keeping.{put};
ghost use Rattle.session_pool.specs.Seats.{Sight, SeatGives};

use locked_engine::Named;
use log_desk::Log;

/// A put that a session with a log answers Accepted, a repeat too: a sync of the log has answered Ok, after which the
/// batch's entry was at the index of the reply.
pub fn accepted_puts_are_durable<N: Named, L: Log>()
    ensures { (s t : Sight) (batch : Submission) (kept : Kept) →
        SeatGives N.setup N.opened (λ list. ⊤) L.was_synced L.has_failed L.was_full s (put batch (Ok kept)) t →
        is_some s.known ≡ true →
        (entries : List Entry) × L.was_synced entries × (slice_get entries kept.index ≡ Some (entry_of batch)) }
{}
