//! Laws of the definitions.
ghost use Rattle.std.specs.Prelude.{◌≡◌, ◌≢◌, ℕ, All, Contains, List, [], ◌∷◌, ◌++◌, map, Some, None, Ok, Err};
ghost use Rattle.wire_frames.specs.Frames.{Message, front, Gives, messages};
ghost use Rattle.wire_proto.specs.CellBytes.{cells_of, spelled_cells, FitsBytes};
ghost use Rattle.cells.specs.declared.cell.Cell.{Cell};
ghost use Rattle.wire_proto.specs.Plain.{IsAnswered, AreAnswered, FreshPuts, GoOn, IsPut, with_batches};
ghost use Rattle.wire_proto.specs.Plain.{IsFolded, NoneFolds};
ghost use Rattle.wire_proto.specs.Replies.{accepted};
ghost use Rattle.wire_proto.specs.Telling.{Telling, pinned_names, setup_text, status_text, stats_text, lines_named};
ghost use Rattle.batch_store.specs.declared.verdict.Kept.{Kept};
ghost use Rattle.batch_store.specs.Batches.{Submission};
ghost use Rattle.batch_store.specs.Accepted.{Accepted};
ghost use Rattle.wire_proto.specs.Sessions.{AnswersAll};
ghost use Rattle.wire_frames.specs.declared.request.Request.{Request};
ghost use Rattle.wire_frames.specs.declared.request.FrameFault.{FrameFault};
ghost use Rattle.batch_store.specs.Setups.{Setting};

use crate::keeper::Keeper;

/// The bytes of a list of cells spell that list.
pub fn cells_are_read_again()
    ensures { (cells : List Cell) → All FitsBytes cells → cells_of (spelled_cells cells) ≡ cells }
{}

/// What a session has answered are the messages of what its link gave, up to those of what it keeps.
pub fn sessions_answer_messages<K: Keeper>()
    ensures answered { (setup : Setting) (s t : K) (given replies kept : List ℕ) (requests : List Request) →
        Gives given requests kept → AnswersAll K.gives setup s requests replies t →
        messages given ≡ map (λ r. Ok r) requests ++ messages kept }
    ensures none { (kept : List ℕ) → front kept ≡ None → messages kept ≡ [] }
    ensures stop { (kept rest : List ℕ) → front kept ≡ Some (Ok Request.Stop, rest) →
        messages kept ≡ Ok Request.Stop ∷ [] }
    ensures bad { (kept rest : List ℕ) (fault : FrameFault) → front kept ≡ Some (Err fault, rest) →
        messages kept ≡ Err fault ∷ [] }
    ensures request { (kept rest : List ℕ) (r : Request) → front kept ≡ Some (Ok r, rest) → r ≢ Request.Stop →
        messages kept ≡ Ok r ∷ messages rest }
{}

/// Over the engine of one thread the messages are answered in one way alone: of what was accepted before and the
/// messages, the bytes and what was accepted after are a function.
pub fn messages_have_one_answer()
    ensures some { (setup : Setting) (state : Accepted) (ms : List Message) →
        (bytes : List ℕ) × (after : Accepted) × IsAnswered setup state ms bytes after }
    ensures one { (setup : Setting) (state after after' : Accepted) (ms : List Message) (bytes bytes' : List ℕ) →
        IsAnswered setup state ms bytes after → IsAnswered setup state ms bytes' after' →
        (bytes ≡ bytes') × (after ≡ after') }
{}

/// What a session adds to what was accepted: the batches of its puts that were fresh, in order, each once. Only where
/// it asks for a fold more of them are folded.
pub fn sessions_accept_fresh_batches()
    ensures { (setup : Setting) (state after : Accepted) (ms : List Message) (bytes : List ℕ) →
        IsAnswered setup state ms bytes after →
        (more : List Submission) × IsFolded (with_batches state more) after
        × (NoneFolds ms → after ≡ with_batches state more) × FreshPuts setup state ms more }
{}

/// The answers to some requests and then to other messages are those to the requests, and behind them those to the
/// others over the state that the requests left. So each message of a session has its own reply.
pub fn messages_are_answered_in_parts()
    ensures { (setup : Setting) (state after : Accepted) (requests : List Request) (ms : List Message)
        (bytes : List ℕ) → GoOn requests → IsAnswered setup state (map (λ r. Ok r) requests ++ ms) bytes after →
        (first : List ℕ) × (more : List ℕ) × (mid : Accepted) × (bytes ≡ first ++ more)
        × IsAnswered setup state (map (λ r. Ok r) requests) first mid × IsAnswered setup mid ms more after }
{}

/// Two puts with one client and one number, of texts or of cells, that are both answered Accepted get the same bytes,
/// whatever messages were answered between them, in one session or in several.
pub fn repeats_get_their_reply()
    ensures { (setup : Setting) (state mid later after : Accepted) (client number : ℕ)
        (put again : Request) (first second : List ℕ) (between : List (List Message)) (kept kept' : Kept) →
        IsPut client number put → IsPut client number again →
        IsAnswered setup state (Ok put ∷ []) first mid → first ≡ accepted kept →
        AreAnswered setup mid between later →
        IsAnswered setup later (Ok again ∷ []) second after → second ≡ accepted kept' →
        first ≡ second }
{}

/// Of each pinned name the text of a Stats has just the lines that the setup and the status give. No further line has
/// such a name, whatever figures a keeper gives.
pub fn pinned_names_have_no_further_lines()
    ensures { (t : Telling) (name : List ℕ) → Contains pinned_names name →
        lines_named name (stats_text t) ≡ lines_named name (setup_text t.setup ++ status_text t.status t.folded) }
{}
