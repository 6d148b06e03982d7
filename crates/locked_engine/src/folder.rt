//! What one thread folds: what was sealed at one moment, and the sums that are left to be made of it.
ghost use Rattle.std.specs.Prelude.{◌≡◌, ◌↔◌, ◌<◌, None, Some, OnOk, OnErr, IsTrue};
ghost use Rattle.locked_engine.specs.Folders.{nothing_sealed, IsMade};

use batch_store::{BookFold, ShardBase, ShardFold};
use std::alloc::{AllocError, Global};
use std::marker::Model;
use std::sync::Arc;

/// The folder of an engine: there is one, which `Engine::folder` hands out, so one thread at a time folds. It keeps what
/// was sealed until that is settled, so a fold that found no memory goes on where it stopped.
///
/// Contracts see up to which place of the book all batches are sealed, if any are, and how many sums are left to be made.
/// While it has sealed something it keeps what was handed down and the batches from being freed.
///
/// Where it is dropped before what it has sealed is settled, nothing is lost, and the engine folds no more: nor does one
/// that is opened with what this one was closed to, before that was folded itself (`PlainEngine::fold`).
#[derive(Drop)]
pub struct Folder {
    place: Option<u64>,
    // What is left to be added up, of the shards and of the book.
    shards: Vec<ShardFold>,
    book: Option<Arc<BookFold>>,
    // The shards' bases that were made, which are to be the pieces of the book's.
    made: Vec<ShardBase>,
}

impl Model for Folder {
    ghost use Rattle.std.specs.Prelude.{vec_len};
    ghost use Rattle.locked_engine.specs.Folders.{Folding, coded_folding, sealed_to, Leaves, sums_left};

    ghost Value = { Folding };

    ghost coded = { coded_folding };

    ghost view = { λ f. sealed_to f.place (sums_left (vec_len f.shards) f.book) };

    ghost invariant = { λ f. Leaves f.place (vec_len f.shards) f.book };
}

// Makes the sum of a shard, and appends its base to those that were made. Where a growth was refused, none is appended.
fn push_made(alloc: Global, fold: &ShardFold, made: &mut Vec<ShardBase>) -> Result<(), AllocError> {
    made.reserve(1)?;
    made.push_reserved(fold.run(alloc)?);
    Ok(())
}

impl Folder {
    // One that has sealed nothing. It takes no memory.
    pub(crate) fn new(alloc: Global) -> Folder
        ensures { result ≡ nothing_sealed }
    {
        Folder {
            place: None,
            shards: Vec::new(alloc),
            book: None,
            made: Vec::new(alloc),
        }
    }

    /// Up to which place of the book all batches are sealed, counted from 0 over all that were ever accepted: those in
    /// front of it are folded once it is settled. None where nothing is sealed. Constant time.
    pub fn place(&self) -> Option<u64>
        ensures place { result ≡ self.now.place }
        ensures none { result ≡ None → self.now ≡ nothing_sealed }
    {
        self.place
    }

    /// Whether something is sealed and all its sums are made, so that it can be settled. Constant time.
    pub fn is_made(&self) -> bool
        ensures { IsTrue result ↔ IsMade self.now }
    {
        self.place.is_some() && self.shards.is_empty() && self.book.is_none()
    }

    // Takes in what was sealed up to a place.
    pub(crate) fn take_in(&mut self, place: u64, shards: Vec<ShardFold>, book: Arc<BookFold>)
        ensures { self.new.place ≡ Some place }
    {
        self.place = Some(place);
        self.shards = shards;
        self.book = Some(book);
    }

    // Lets go of what was settled.
    pub(crate) fn let_go(&mut self)
        ensures { self.new ≡ nothing_sealed }
    {
        self.place = None;
        self.shards.clear();
        self.book = None;
    }

    /// Makes the sums that are left: of each shard's layers, and of the book's base with the batches, whose pieces are those
    /// of the shards. Each is put where its shard or the book finds it, and what it was made of is let go of. It takes the
    /// time of two sums of all that the engine holds and the memory of one, waits for nobody, and nobody waits for it.
    ///
    /// # Errors
    ///
    /// A growth was refused. What was made stays, and the next call goes on.
    pub fn run(&mut self, alloc: Global) -> Result<(), AllocError>
        ensures place { self.new.place ≡ self.old.place }
        ensures ok { OnOk result (self.new.left ≡ 0) }
        ensures err { OnErr result (0 < self.new.left) }
    {
        while let Some(fold) = self.shards.pop() {
            if push_made(alloc, &fold, &mut self.made).is_err() {
                self.shards.push_reserved(fold);
                return Err(AllocError);
            }
        }
        if let Some(fold) = &self.book {
            fold.run(alloc, &self.made)?;
        }
        self.made.clear();
        self.book = None;
        Ok(())
    }
}
