//! Putting a batch.
ghost use Rattle.std.specs.Prelude.{◌≡◌, ◌⊎◌, ◌+◌, ◌≤◌, ◌<◌, [], ◌∷◌, OnOk, OnErr, IfOk, IfErr, IfSome, IfNone, Ok};
ghost use Rattle.std.specs.Prelude.{vec_len, vec_capacity};
ghost use mathlib.Core.List.{IsPrefix};
ghost use Rattle.std.specs.Arc.{arc_value};
ghost use Rattle.batch_store.specs.Batches.{batch_total, entry_of};
ghost use Rattle.batch_store.specs.BatchParts.{parts_if_any};
ghost use Rattle.batch_store.specs.Parts.{below};
ghost use Rattle.batch_store.specs.declared.verdict.Verdict.TheVariants.{Fresh};
ghost use Rattle.plain_engine.specs.Known.{AreFrom};
ghost use Rattle.locked_engine.specs.Given.{IsGiven};
ghost use Rattle.locked_engine.specs.Told.{IsTold, answer_of};
ghost use Rattle.locked_engine.specs.Versions.{entry_verdict};

use crate::engine::Engine;
use crate::fault::NotAdmitted;
use crate::locked_book::Admitted;
use crate::locked_shard::ShardRefusal;
use crate::names::Named;
use crate::seat::Seat;
use crate::shard_version::ShardVersion;
use crate::version::{NextPlace, Version};
use batch_store::{Batch, Kept};
use hyper_matrix::Hyper;
use plain_engine::PutFault;
use std::alloc::{AllocError, Global};
use std::sync::ledger::{Ledger, Share};
use std::sync::{Arc, MutexGuard, Wait};

// All that a put makes before it takes a lock.
#[derive(Drop)]
struct Made<N: Named> {
    // The batch lives on behind the put, so no lock is held while its cells are given back.
    own: Arc<Batch>,
    // For what readers were shown before, to be freed when no lock is held.
    past: Vec<Arc<ShardVersion<N>>>,
    place: NextPlace<N>,
    parts: Vec<Option<Hyper>>,
}

// Makes it for a put into so many shards.
fn make<N: Named>(alloc: Global, shards: u64, b: &Arc<Batch>) -> Result<Made<N>, AllocError>
    requires { 0 < shards }
    ensures own { IfOk result (λ m. arc_value m.own ≡ arc_value b.now) }
    ensures empty { IfOk result (λ m. vec_len m.past ≡ 0) }
    ensures room { IfOk result (λ m. shards ≤ vec_capacity m.past) }
    ensures parts { IfOk result (λ m. m.parts.items ≡ parts_if_any shards shards (arc_value b.now)) }
{
    let own = Arc::try_clone(b)?;
    let past = Vec::with_capacity(alloc, shards as usize)?;
    let place = NextPlace::make(alloc)?;
    let parts = b.parts(alloc, shards)?;
    Ok(Made {
        own,
        past,
        place,
        parts,
    })
}

impl<N: Named, H: Ledger> Engine<N, H> {
    /// Puts a batch of the setup's dimensions. It may wait for other threads at each lock.
    ///
    /// The book's verdict comes first: a batch that it knows is answered the reply that it keeps, and one that it
    /// refuses is refused, both without memory. A fresh batch is cut into its parts, outside all locks. Then each shard
    /// that it concerns is locked, in rising order, and prepares; the book is locked, asked again, and admits it; and
    /// on the way back each shard takes its part in and gives its lock back. No cell is read or copied under the book's
    /// lock, and under a shard's lock only those of the part and of the layers that it meets. Before a shard's lock is
    /// given back readers are shown the shard with the part, by a version that was made when the shard was prepared; so
    /// look-ups find the batch once the put was answered. What they were shown before is freed once all locks are given
    /// back.
    ///
    /// A put leaves its parts side by side in the layers, and `compact` adds them up without a shard's lock. Where
    /// nobody calls that, a layer comes to have as many parts as it holds at most, of which a look-up asks each; the
    /// put that meets such a layer adds it up, under the shard's lock.
    ///
    /// A first acceptance raises the seat's first share by the batch's total. It is the batch itself that is shared, at
    /// the book and, by its parts, at the shards: from then on the seat knows it among the accepted ones, at the index of
    /// the reply. After every other answer that share is as before, and so are, as far as this call goes, every shard and
    /// the book, but for free places.
    ///
    /// Each time the book's lock is taken the seat is shown the book's entries. The answer follows from what it was
    /// shown last, in which an accepted batch's entry stands (specs/Told.antt).
    ///
    /// # Errors
    ///
    /// - `NumberReused`, `OverTotal` with the accepted total, `BookFull`: as the book's verdict tells.
    /// - `Memory`: a growth was refused, of a fresh batch alone.
    /// - `RecordsDiffer`: a shard refused what the book calls fresh. Puts alone never lead to it.
    pub fn put<R: Wait>(
        &self,
        rt: &R,
        alloc: Global,
        seat: &mut Seat<N, H>,
        b: Arc<Batch>,
    ) -> Result<Kept, PutFault>
        requires rows { (arc_value b).matrix.rows ≡ N.setup.rows }
        requires cols { (arc_value b).matrix.cols ≡ N.setup.cols }
        ensures number { seat.new.number ≡ seat.old.number }
        // A first acceptance is of this very batch.
        ensures ok { IfOk result (λ k. (IsGiven N.opened (arc_value b) seat.new.known k
            × (seat.new.first ≡ seat.old.first + batch_total (arc_value b))) ⊎ (seat.new.first ≡ seat.old.first)) }
        ensures err { OnErr result (seat.new.first ≡ seat.old.first) }
        ensures later { IsPrefix seat.old.seen seat.new.seen }
        ensures told { IsTold N.setup (entry_of (arc_value b)) seat.new.seen result }
        ensures knows { IsPrefix seat.old.known seat.new.known }
    {
        match self.put_shares(
            rt,
            alloc,
            &mut seat.first,
            &mut seat.second,
            &mut seat.seen,
            &b,
        ) {
            Ok(Admitted { kept, known }) => {
                seat.note_accepted(&known);
                Ok(kept)
            }
            Err(other) => other.answer(),
        }
    }

    /// Asks the book for its verdict on a batch of the setup's dimensions, and admits nothing. None where the batch is
    /// fresh: a put would have been its first. The seat is shown the book's entries, from which the answer follows. It
    /// may wait for the book's lock, and takes no memory.
    ///
    /// # Errors
    ///
    /// As `put` says, but never `Memory`.
    pub fn judge<R: Wait>(
        &self,
        rt: &R,
        seat: &mut Seat<N, H>,
        b: &Batch,
    ) -> Option<Result<Kept, PutFault>>
        ensures number { seat.new.number ≡ seat.old.number }
        ensures first { seat.new.first ≡ seat.old.first }
        ensures known { seat.new.known ≡ seat.old.known }
        ensures later { IsPrefix seat.old.seen seat.new.seen }
        ensures told { IfSome result (λ r. IsTold N.setup (entry_of b.now) seat.new.seen r) }
        ensures fresh { IfNone result (entry_verdict N.setup seat.new.seen (entry_of b.now) ≡ Fresh) }
    {
        match self.ask(rt, &mut seat.seen, b) {
            Ok(()) => None,
            Err(other) => Some(other.answer()),
        }
    }

    // Shows the seat what the book has now, and judges a batch by it. Err where it isn't fresh.
    fn ask<R: Wait>(&self, rt: &R, seen: &mut Version<N>, b: &Batch) -> Result<(), NotAdmitted>
        ensures later { IsPrefix seen.old seen.new }
        ensures fresh { OnOk result (entry_verdict N.setup seen.new (entry_of b.now) ≡ Fresh) }
        ensures told { IfErr result (λ u. IsTold N.setup (entry_of b.now) seen.new (answer_of u)) }
    {
        let locked = self.book.lock(rt);
        let answer = locked.judge(seen, b);
        let _ = MutexGuard::unlock(locked);
        answer
    }

    // What a batch is answered that a shard can't take. Another put may have brought the book to refuse it meanwhile.
    fn answer_for<R: Wait>(
        &self,
        rt: &R,
        seen: &mut Version<N>,
        b: &Batch,
        refusal: ShardRefusal,
    ) -> NotAdmitted
        ensures later { IsPrefix seen.old seen.new }
        ensures told { IsTold N.setup (entry_of b.now) seen.new (answer_of result) }
    {
        match refusal {
            ShardRefusal::Memory => NotAdmitted::Refused(PutFault::Memory),
            ShardRefusal::OtherNumber => NotAdmitted::Refused(PutFault::RecordsDiffer),
            ShardRefusal::Refused => match self.ask(rt, seen, b) {
                Ok(()) => NotAdmitted::Refused(PutFault::RecordsDiffer),
                Err(other) => other,
            },
        }
    }

    // Has the book accept a batch, under its lock.
    fn admit<R: Wait>(
        &self,
        rt: &R,
        first: &mut Share<N>,
        second: &mut Share<H>,
        seen: &mut Version<N>,
        place: NextPlace<N>,
        b: Arc<Batch>,
    ) -> Result<Admitted<N>, NotAdmitted>
        requires rows { (arc_value b).matrix.rows ≡ N.setup.rows }
        requires cols { (arc_value b).matrix.cols ≡ N.setup.cols }
        requires parts { (first.old.parts ≡ 1) × (second.old.parts ≡ 1) }
        ensures parts { (first.new.parts ≡ 1) × (second.new.parts ≡ 1) }
        ensures first { OnOk result (first.new.amount ≡ first.old.amount + batch_total (arc_value b)) }
        ensures second { OnOk result (second.new.amount ≡ second.old.amount + batch_total (arc_value b)) }
        ensures first_kept { OnErr result (first.new.amount ≡ first.old.amount) }
        ensures second_kept { OnErr result (second.new.amount ≡ second.old.amount) }
        ensures later { IsPrefix seen.old seen.new }
        ensures ok { IfOk result (λ r. IsTold N.setup (entry_of (arc_value b)) seen.new (Ok r.kept)) }
        ensures known { IfOk result (λ r. AreFrom r.known (arc_value b ∷ [])) }
        ensures given { IfOk result (λ r. IsGiven N.opened (arc_value b) r.known r.kept) }
        ensures err { IfErr result (λ u. IsTold N.setup (entry_of (arc_value b)) seen.new (answer_of u)) }
    {
        let mut locked = self.book.lock(rt);
        let answer = locked.admit(rt, first, second, seen, place, b);
        let _ = MutexGuard::unlock(locked);
        answer
    }

    // Puts a batch from a seat that has these shares of the ledgers. Ok is a first acceptance, of this very batch.
    fn put_shares<R: Wait>(
        &self,
        rt: &R,
        alloc: Global,
        first: &mut Share<N>,
        second: &mut Share<H>,
        seen: &mut Version<N>,
        b: &Arc<Batch>,
    ) -> Result<Admitted<N>, NotAdmitted>
        requires rows { (arc_value b.now).matrix.rows ≡ N.setup.rows }
        requires cols { (arc_value b.now).matrix.cols ≡ N.setup.cols }
        requires parts { (first.old.parts ≡ 1) × (second.old.parts ≡ 1) }
        requires balanced { second.old.amount ≡ 0 }
        ensures parts { (first.new.parts ≡ 1) × (second.new.parts ≡ 1) }
        ensures balanced { second.new.amount ≡ 0 }
        ensures first { OnOk result (first.new.amount ≡ first.old.amount + batch_total (arc_value b.now)) }
        ensures first_kept { OnErr result (first.new.amount ≡ first.old.amount) }
        ensures later { IsPrefix seen.old seen.new }
        ensures ok { IfOk result (λ r. IsTold N.setup (entry_of (arc_value b.now)) seen.new (Ok r.kept)) }
        ensures given { IfOk result (λ r. IsGiven N.opened (arc_value b.now) r.known r.kept) }
        ensures err { IfErr result (λ u. IsTold N.setup (entry_of (arc_value b.now)) seen.new (answer_of u)) }
    {
        self.ask(rt, seen, b)?;
        let Made {
            own,
            mut past,
            place,
            parts,
        } = make(alloc, self.setup.shards(), b)?;
        let admitted = self.put_from(
            rt, alloc, first, second, seen, place, own, &parts, &mut past, 0,
        )?;
        Ok(admitted)
    }

    // The shards from s on: each that the batch concerns is locked and made ready, then the book accepts, and on the
    // way back each gets its part and is shown to readers with it. What was shown before is put into a list, to be
    // freed when no lock is held.
    fn put_from<R: Wait>(
        &self,
        rt: &R,
        alloc: Global,
        first: &mut Share<N>,
        second: &mut Share<H>,
        seen: &mut Version<N>,
        next: NextPlace<N>,
        b: Arc<Batch>,
        parts: &[Option<Hyper>],
        past: &mut Vec<Arc<ShardVersion<N>>>,
        s: u64,
    ) -> Result<Admitted<N>, NotAdmitted>
        requires rows { (arc_value b).matrix.rows ≡ N.setup.rows }
        requires cols { (arc_value b).matrix.cols ≡ N.setup.cols }
        requires batch_parts { parts.now ≡ parts_if_any N.setup.shards N.setup.shards (arc_value b) }
        requires place { s ≤ N.setup.shards }
        requires room { vec_len past.old + N.setup.shards ≤ vec_capacity past.old + s }
        requires parts { (first.old.parts ≡ 1) × (second.old.parts ≡ 1) }
        requires balanced { second.old.amount ≡ 0 }
        ensures parts { (first.new.parts ≡ 1) × (second.new.parts ≡ 1) }
        ensures first { OnOk result (first.new.amount ≡ first.old.amount + batch_total (arc_value b)) }
        ensures second { OnOk result (second.new.amount ≡ below s N.setup.shards (arc_value b).matrix.counts) }
        ensures first_kept { OnErr result (first.new.amount ≡ first.old.amount) }
        ensures second_kept { OnErr result (second.new.amount ≡ 0) }
        ensures pushed { vec_len past.new + s ≤ vec_len past.old + N.setup.shards }
        ensures capacity { vec_capacity past.new ≡ vec_capacity past.old }
        ensures later { IsPrefix seen.old seen.new }
        ensures ok { IfOk result (λ r. IsTold N.setup (entry_of (arc_value b)) seen.new (Ok r.kept)) }
        ensures known { IfOk result (λ r. AreFrom r.known (arc_value b ∷ [])) }
        ensures given { IfOk result (λ r. IsGiven N.opened (arc_value b) r.known r.kept) }
        ensures err { IfErr result (λ u. IsTold N.setup (entry_of (arc_value b)) seen.new (answer_of u)) }
    {
        if s == self.setup.shards() {
            return self.admit(rt, first, second, seen, next, b);
        }
        let Some(part) = &parts[s as usize] else {
            return self.put_from(rt, alloc, first, second, seen, next, b, parts, past, s + 1);
        };
        let mut guard = self.shards[s as usize].lock(rt);
        let locked = &mut *guard;
        let ready = match locked.prepare(alloc, s, &b, part) {
            Ok(ready) => ready,
            Err(refusal) => return Err(self.answer_for(rt, seen, &b, refusal)),
        };
        let admitted = self.put_from(rt, alloc, first, second, seen, next, b, parts, past, s + 1)?;
        let version = locked.deliver(ready, second, &admitted.known);
        past.push_reserved(self.show(rt, s, version));
        Ok(admitted)
    }
}
