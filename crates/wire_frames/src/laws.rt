//! Laws of frames: what holds of the bytes of every link.
ghost use Rattle.std.specs.Prelude.{◌≡◌, ℕ, List, [], ◌∷◌, ◌++◌, map, Some, None, Ok, Err};
ghost use Rattle.wire_frames.specs.Frames.{HasFrame, request_frame, front, Gives, frames};
ghost use Rattle.wire_frames.specs.declared.request.Request.{Request};
ghost use Rattle.wire_frames.specs.declared.request.FrameFault.{FrameFault};

/// A request's frame is read as that request, whatever follows it.
pub fn frames_are_read_again()
    ensures { (r : Request) (more : List ℕ) → HasFrame r → front (request_frame r ++ more) ≡ Some (Ok r, more) }
{}

/// However a stream is cut: the requests that `next` gave, and then the frames of what is kept, are the frames of all
/// bytes that were fed.
pub fn frames_come_in_any_pieces()
    ensures start { Gives [] [] [] }
    ensures fed { (fed piece kept : List ℕ) (given : List Request) → Gives fed given kept →
        Gives (fed ++ piece) given (kept ++ piece) }
    ensures given { (fed kept rest : List ℕ) (given : List Request) (r : Request) → Gives fed given kept →
        front kept ≡ Some (Ok r, rest) →
        Gives fed (given ++ r ∷ []) rest }
    ensures whole { (fed kept : List ℕ) (given : List Request) → Gives fed given kept →
        frames fed ≡ map (λ r. Ok r) given ++ frames kept }
    ensures none { (kept : List ℕ) → front kept ≡ None → frames kept ≡ [] }
    ensures bad { (kept rest : List ℕ) (fault : FrameFault) → front kept ≡ Some (Err fault, rest) →
        frames kept ≡ Err fault ∷ [] }
{}

/// A bad header is the same fault, whatever follows it: what stands in front stays the same, and so do the frames.
pub fn bad_headers_stay()
    ensures front { (kept rest more : List ℕ) (fault : FrameFault) → front kept ≡ Some (Err fault, rest) →
        front (kept ++ more) ≡ Some (Err fault, kept ++ more) }
    ensures frames { (kept rest more : List ℕ) (fault : FrameFault) → front kept ≡ Some (Err fault, rest) →
        frames (kept ++ more) ≡ Err fault ∷ [] }
{}
