//! Laws of devices around others: what runs of their calls were for the link, and what an endless reader gives.
ghost use Rattle.std.specs.Prelude.{◌≡◌, ℕ, ◌+◌, ◌-◌, ◌<◌, ◌^◌, List, length};
ghost use Rattle.std.specs.Result.{IsErr};
ghost use Rattle.byte_io.specs.Streams.{Answer, Calls, bytes_of_calls};
ghost use Rattle.byte_io.specs.Writing.{AnyOffer};
ghost use Rattle.byte_io.specs.Wrappers.{OnceState, TrickleState, EndlessState, AnyCall, without_call, first_bytes};
ghost use Rattle.byte_io.specs.Wrappers.{OnceCall, TrickleRead, TrickleWrite, endless_gives};

use crate::devices::{Sink, Source};
use crate::link::Link;
use crate::once::Once;
use crate::trickle::Trickle;

/// The call of a `Once` that has its number fails. Of a run in which it stands the link has all other calls, so that
/// the same bytes are moved, and of a run behind it all.
///
/// `n` is the place of that call in the run; where the run ends before it, none is left out. A run is of reads, of
/// writes, or of both.
pub fn once_leaves_out_one_call<L: Link>()
    ensures fails { (s t : OnceState L) (answer : Answer) → OnceCall L.read_gives s answer t →
        s.calls ≡ s.fail_at → IsErr answer }
    ensures reads { (n : ℕ) (s t : OnceState L) (answers : List Answer) →
        s.fail_at < 2 ^ 64 - 1 → s.calls + n ≡ s.fail_at → Calls ⟦<Once<L> as Source>⟧.read_gives s answers t →
        Calls L.read_gives s.link (without_call n answers) t.link
        × (bytes_of_calls (without_call n answers) ≡ bytes_of_calls answers) }
    ensures writes { (n : ℕ) (s t : OnceState L) (answers : List Answer) →
        s.fail_at < 2 ^ 64 - 1 → s.calls + n ≡ s.fail_at →
        Calls (AnyOffer ⟦<Once<L> as Sink>⟧.write_takes) s answers t →
        Calls (AnyOffer L.write_takes) s.link (without_call n answers) t.link
        × (bytes_of_calls (without_call n answers) ≡ bytes_of_calls answers) }
    ensures either { (n : ℕ) (s t : OnceState L) (answers : List Answer) →
        s.fail_at < 2 ^ 64 - 1 → s.calls + n ≡ s.fail_at →
        Calls (AnyCall ⟦<Once<L> as Source>⟧.read_gives ⟦<Once<L> as Sink>⟧.write_takes) s answers t →
        Calls (AnyCall L.read_gives L.write_takes) s.link (without_call n answers) t.link
        × (bytes_of_calls (without_call n answers) ≡ bytes_of_calls answers) }
    ensures behind { (s t : OnceState L) (answers : List Answer) →
        s.fail_at < 2 ^ 64 - 1 → s.fail_at < s.calls →
        Calls (AnyCall ⟦<Once<L> as Source>⟧.read_gives ⟦<Once<L> as Sink>⟧.write_takes) s answers t →
        Calls (AnyCall L.read_gives L.write_takes) s.link answers t.link }
{}

/// Each call of a `Trickle` is one of its link, with the same answer, so that the link moves the bytes that it moves.
pub fn trickle_calls_are_its_links<L: Link>()
    ensures reads { (s t : TrickleState L) (answers : List Answer) →
        Calls ⟦<Trickle<L> as Source>⟧.read_gives s answers t → Calls L.read_gives s.link answers t.link }
    ensures writes { (s t : TrickleState L) (answers : List Answer) →
        Calls (AnyOffer ⟦<Trickle<L> as Sink>⟧.write_takes) s answers t →
        Calls (AnyOffer L.write_takes) s.link answers t.link }
    ensures either { (s t : TrickleState L) (answers : List Answer) →
        Calls (AnyCall ⟦<Trickle<L> as Source>⟧.read_gives ⟦<Trickle<L> as Sink>⟧.write_takes) s answers t →
        Calls (AnyCall L.read_gives L.write_takes) s.link answers t.link }
{}

/// However an `Endless` is read, it gives one sequence of bytes: those in front, and then one byte for ever.
pub fn endless_gives_one_sequence()
    ensures { (s t : EndlessState) (answers : List Answer) → Calls endless_gives s answers t →
        bytes_of_calls answers ≡ first_bytes (length (bytes_of_calls answers)) s }
{}
