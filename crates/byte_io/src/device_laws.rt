//! Laws of devices: what runs of calls gave and took in all.
ghost use Rattle.std.specs.Prelude.{◌≡◌, ◌⊎◌, ℕ, ◌≤◌, List, [], ◌++◌, length, Option, Result};
ghost use Rattle.std.specs.List.{concat};
ghost use Rattle.std.specs.Io.KnownBytes.{Consumes, Appends};
ghost use Rattle.byte_io.specs.Streams.{Answer, Calls, bytes_of_calls, MayRead, MayWrite};
ghost use Rattle.byte_io.specs.Writing.{EachTakes, AnyOffer};
ghost use Rattle.byte_io.specs.Scripts.{ScriptState, nonempty_pieces, IsRead, IsWrite, LacksMemory, script_gives};
ghost use Rattle.byte_io.specs.Scripts.{script_takes};

/// However a `Script` is read, it gives one list of bytes, its pieces: a front of them until its end, and then all.
pub fn script_gives_its_pieces()
    ensures front { (s t : ScriptState) (answers : List Answer) → Calls script_gives s answers t →
        concat s.pieces ≡ bytes_of_calls answers ++ concat t.pieces }
    ensures whole { (s t : ScriptState) (answers : List Answer) → Calls script_gives s answers t →
        t.pieces ≡ [] → bytes_of_calls answers ≡ concat s.pieces }
    ensures joined { (pieces : List (List ℕ)) → concat (nonempty_pieces pieces) ≡ concat pieces }
{}

/// A read of a `Script` into a buffer of one length has one answer, and leaves one state.
pub fn script_read_is_determined()
    ensures { (n : ℕ) (s t u : ScriptState) (a b : Answer) →
        IsRead n s a t → IsRead n s b u → (a ≡ b) × (t ≡ u) }
{}

/// A write of a `Script` that is offered some bytes has one answer, and leaves one state, but for a failure for want of
/// memory.
pub fn script_write_is_determined()
    ensures { (offered : List ℕ) (s t u : ScriptState) (a b : Answer) →
        IsWrite offered s a t → IsWrite offered s b u →
        ((a ≡ b) × (t ≡ u)) ⊎ (LacksMemory offered s a t ⊎ LacksMemory offered s b u) }
{}

/// A `Script` keeps what was written to it.
pub fn script_keeps_what_it_takes()
    ensures { (s t : ScriptState) (answers : List Answer) → Calls (AnyOffer script_takes) s answers t →
        t.written ≡ s.written ++ bytes_of_calls answers }
{}

/// A reader whose bytes are known loses those that it gives from the front; a writer gains those that it takes.
pub fn known_bytes_are_moved()
    ensures read { (old new : Option (List ℕ)) (answers : List Answer) →
        Calls MayRead old answers new → Consumes old new (bytes_of_calls answers) }
    ensures written { (old new : Option (List ℕ)) (answers : List Answer) →
        Calls (AnyOffer (λ s offered a t. MayWrite s a t)) old answers new → Appends old new (bytes_of_calls answers) }
{}

/// Calls that each move a byte or more are no more than the bytes.
pub fn calls_are_bounded_by_bytes()
    ensures { (answers : List Answer) → EachTakes answers → length answers ≤ length (bytes_of_calls answers) }
{}
