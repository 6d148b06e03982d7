//! What an answer Accepted of a server means.
ghost use Rattle.std.specs.Prelude.{◌≡◌, List, Contains, Ok, ⊤, is_some, true};
ghost use mathlib.Core.List.{IsPrefix};
ghost use Rattle.batch_store.specs.declared.verdict.Kept.{Kept};
ghost use Rattle.batch_store.specs.Accepted.{Accepted};
ghost use Rattle.batch_store.specs.Batches.{Submission, entry_of};
ghost use Rattle.batch_store.specs.Books.{AreAccepted};
ghost use Rattle.locked_engine.specs.Views.{SeatView};
ghost use Rattle.wire_proto.specs.Keeping.{put};
ghost use Rattle.session_pool.specs.Seats.{Sight, SeatGives};
ghost use Rattle.socket_server.specs.Ends.{IsClosed, StaysAccepted};

use locked_engine::Named;
use log_desk::Log;

/// A server with a log answers a put Accepted, a repeat too. Then a sync of the log has answered Ok after which the
/// batch's entry was at the index of the reply. And what the server ends with has the entry at that index, once.
///
/// The premises. The answer is one of a session with a log: each session gives only such (`SeatKeeper`). The engine was
/// closed with all its seats, and a book accepts what it had accepted (`serve_listeners`, clauses `seats`, `ended`). What
/// the session's seat was shown at the answer begins what it was shown at last (`Engine::put`, clause `later`).
pub fn accepted_puts_are_kept<N: Named, L: Log>()
    ensures { (s t : Sight) (batch : Submission) (kept : Kept) (seats : List SeatView) (last : SeatView) (a : Accepted) →
        SeatGives N.setup N.opened (λ list. ⊤) L.was_synced L.has_failed L.was_full s (put batch (Ok kept)) t →
        is_some s.known ≡ true → AreAccepted N.setup a → IsClosed seats a → Contains seats last →
        IsPrefix t.seat.seen last.seen → StaysAccepted L.was_synced a (entry_of batch) kept }
{}
