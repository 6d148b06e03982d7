//! The keeper over the engine of one thread.
ghost use Rattle.std.specs.Prelude.{◌≡◌, ℕ, ◌+◌, ◌<◌, ◌≤◌, ◌^◌, ⊤};
ghost use Rattle.wire_proto.specs.Keeping.{put as putting};
ghost use Rattle.wire_proto.specs.Settling.{SettlesAtOnce, settled_at_once, earlier_at_once};
ghost use Rattle.wire_proto.specs.Plain.{PlainGives, EndsPlain};

use crate::ended::Ended;
use crate::keeper::{FoldRefusal, Keeper, PutRefusal, SaveRefusal, Settled};
use crate::serving::serve;
use crate::told::Told;
use batch_store::{Batch, Kept, Setup};
use byte_io::Link;
use hyper_matrix::RowSum;
use plain_engine::{PlainEngine, Status, ViewedSum};
use std::alloc::{AllocError, Global};
use std::random::RandomSource;
use std::sync::Arc;
use std::{io, mem};

/// An engine of one thread, lent to a session. It has no log, so that a batch is settled as it is accepted.
///
/// Its state is what was accepted, and nothing else, and each answer follows from it, but for want of memory. It saves
/// nothing.
#[derive(Drop)]
pub struct PlainKeeper<'a> {
    engine: &'a mut PlainEngine,
}

impl<'a> PlainKeeper<'a> {
    /// A keeper over this engine.
    pub fn new(engine: &'a mut PlainEngine) -> PlainKeeper<'a>
        ensures same_reference { result.engine.ghost_name ≡ engine.entry.ghost_name }
        ensures engine { result.engine.now ≡ engine.old }
    {
        PlainKeeper { engine }
    }
}

impl<'a> Keeper for PlainKeeper<'a> {
    ghost gives = { λ s e t. (t.engine.ghost_name ≡ s.engine.ghost_name)
        × (t.engine.now.setup ≡ s.engine.now.setup)
        × PlainGives s.engine.now.setup s.engine.now.book.state e t.engine.now.book.state };

    ghost begins = { λ s batch answer t. (t.engine.ghost_name ≡ s.engine.ghost_name)
        × (t.engine.now.setup ≡ s.engine.now.setup)
        × PlainGives s.engine.now.setup s.engine.now.book.state (putting batch answer) t.engine.now.book.state };

    ghost settles = { λ s place known t. SettlesAtOnce s known t };

    ghost fact = { λ s. ⊤ };

    ghost setup_of = { λ s. s.engine.now.setup };

    ghost refused = { λ s t batch refusal h. h };

    ghost answered = { λ s m t batch kept known b h. settled_at_once
        (λ answer v. (v.engine.ghost_name ≡ s.engine.ghost_name) × (v.engine.now.setup ≡ s.engine.now.setup)
        × PlainGives s.engine.now.setup s.engine.now.book.state (putting batch answer) v.engine.now.book.state)
        m t kept known b h };

    ghost earlier = { λ s m t batch answer place known b h. earlier_at_once
        (λ u v. (v.engine.ghost_name ≡ u.engine.ghost_name) × (v.engine.now.setup ≡ u.engine.now.setup)
        × PlainGives u.engine.now.setup u.engine.now.book.state (putting batch answer) v.engine.now.book.state)
        s m t known b h };

    ghost may_lack = { λ s t m e h. (h.0, h.1, h.2.1) };

    ghost may_lack_text = { λ s t told e h. (h.0, h.1, h.2.1) };

    fn setup(&self) -> Setup {
        self.engine.setup()
    }

    fn begin_put(&mut self, alloc: Global, batch: Arc<Batch>) -> Result<Kept, PutRefusal> {
        Ok(self.engine.put(alloc, batch)?)
    }

    fn settle(&mut self, _place: u64) -> Settled {
        Settled::Durable
    }

    fn cell(&mut self, row: u64, col: u64) -> Option<u64> {
        self.engine.cell(row, col)
    }

    fn row(&mut self, row: u64) -> RowSum {
        self.engine.row(row)
    }

    fn status(&mut self) -> Status {
        self.engine.status()
    }

    fn export(&mut self, alloc: Global) -> Result<ViewedSum, AllocError> {
        self.engine.viewed(alloc)
    }

    fn save(&mut self, _alloc: Global) -> Result<u64, SaveRefusal> {
        Err(SaveRefusal::SaveOff)
    }

    fn stored(&mut self) -> Status {
        self.engine.status()
    }

    /// It tells no further numbers.
    fn stats(&mut self, alloc: Global) -> Result<Told, AllocError> {
        Ok(Told {
            setup: self.engine.setup(),
            status: self.engine.status(),
            folded: self.engine.folded(),
            figures: Vec::new(alloc),
        })
    }

    /// All that was accepted is folded.
    fn fold(&mut self, alloc: Global) -> Result<u64, FoldRefusal> {
        let setup = self.engine.setup();
        // An engine folds by value: an empty one stands in its place meanwhile.
        let Ok(spare) = PlainEngine::new(&NoSeeds, alloc, setup) else {
            return Err(FoldRefusal::Memory);
        };
        match mem::replace(self.engine, spare).fold(alloc) {
            Ok(folded) => {
                *self.engine = folded;
                Ok(self.engine.folded())
            }
            Err((same, _)) => {
                *self.engine = same;
                Err(FoldRefusal::Memory)
            }
        }
    }
}

// The seeds of an engine into which nothing is put.
struct NoSeeds;

impl RandomSource for NoSeeds {
    fn fill_bytes(&self, _buf: &mut [u8]) -> io::Result<()> {
        Ok(())
    }
}

// Serves one link over a keeper, whose engine stays the one that it was lent.
fn serve_plain<L: Link>(
    alloc: Global,
    link: &mut L,
    keeper: &mut PlainKeeper<'_>,
    max_turns: u64,
) -> Ended
    requires { L.Sink.failure_count link.old + 1 < 2 ^ 64 }
    ensures same_reference { keeper.new.engine.ghost_name ≡ keeper.old.engine.ghost_name }
    ensures ends { (turns : ℕ) × (turns ≤ max_turns)
        × EndsPlain L.Source.read_gives L.Sink.write_takes L.Sink.failure_count keeper.old.engine.now.setup
        L.Source.at_end link.old link.new keeper.old.engine.now.book.state
        keeper.new.engine.now.book.state max_turns turns result }
    ensures setup { keeper.new.engine.now.setup ≡ keeper.old.engine.now.setup }
{
    serve(alloc, link, keeper, max_turns)
}

/// Serves one link over an engine of one thread, until the session ends.
///
/// What the engine had accepted before and has accepted then are two states; which follows from which, and what the
/// link took, is told by the bytes that it gave, for each end (specs/Plain.antt). A batch whose reply was lost stays
/// accepted. Time and memory are those of `serve`.
pub fn serve_engine<L: Link>(
    alloc: Global,
    link: &mut L,
    engine: &mut PlainEngine,
    max_turns: u64,
) -> Ended
    requires { L.Sink.failure_count link.old + 1 < 2 ^ 64 }
    ensures ends { (turns : ℕ) × (turns ≤ max_turns)
        × EndsPlain L.Source.read_gives L.Sink.write_takes L.Sink.failure_count engine.old.setup
        L.Source.at_end link.old link.new engine.old.book.state engine.new.book.state max_turns turns result }
    ensures setup { engine.new.setup ≡ engine.old.setup }
{
    let mut keeper = PlainKeeper::new(engine);
    serve_plain(alloc, link, &mut keeper, max_turns)
}
