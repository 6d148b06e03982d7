//! What one shard answers under its lock, and what the book does.
ghost use Rattle.std.specs.Prelude.{◌≡◌, ◌⊎◌, ◌<◌, ◌≤◌, ◌%◌, None, Some, IfOk, IfSome, length};
ghost use Rattle.std.specs.Fn.{FnOnceReturnsAt};
ghost use Rattle.std.specs.FinMap.{get};
ghost use Rattle.layer_compaction.specs.Shared.{content};
ghost use mathlib.Core.List.{IsPrefix};
ghost use Rattle.batch_store.specs.Accepted.{Accepted, unfolded, entries_in};
ghost use Rattle.batch_store.specs.Batches.{entries_of, values};
ghost use Rattle.batch_store.specs.Books.{AreAccepted, accepted_in, listed_in};
ghost use Rattle.batch_store.specs.Shards.{Holding};
ghost use Rattle.locked_engine.specs.Opened.{SharePast, IsBehind};
ghost use Rattle.locked_engine.specs.Moments.{IsShardOf, no_sum, row_sum_in};
ghost use Rattle.locked_engine.specs.Versions.{IsVersion, version_status};

use crate::engine::Engine;
use crate::names::Named;
use crate::seat::Seat;
use crate::version::Version;
use batch_store::{Batch, BookList, Shard};
use hyper_matrix::RowSum;
use plain_engine::Status;
use std::alloc::{AllocError, Global};
use std::sync::ledger::Ledger;
use std::sync::{Arc, MutexGuard, Wait};

// What a row without entries sums to.
const NO_SUM: RowSum = RowSum {
    entries: 0,
    total: 0,
};

impl<N: Named, H: Ledger> Engine<N, H> {
    /// What `f` answers on shard `s` under its lock, and None where the shard behind that lock has another number, in
    /// which case `f` is dropped. Puts of batches that concern the shard wait for as long as `f` takes.
    ///
    /// The shard number is below the setup's shards, and `f` may be called on any shard of that number.
    pub fn look<T, F: FnOnce(&Shard) -> T + Drop, R: Wait>(&self, rt: &R, s: u64, f: F) -> Option<T>
        requires place { s < N.setup.shards }
        requires callable { (x : _) → x.now.number ≡ s → F.pre f x }
        ensures { IfSome result (λ t. (x : Holding) × IsShardOf N.setup N.opened s x × FnOnceReturnsAt F.FnOnce f x t) }
    {
        let guard = self.shards[s as usize].lock(rt);
        let locked = &*guard;
        let shard = locked.shard();
        if shard.number() == s {
            Some(f(shard))
        } else {
            None
        }
    }

    /// The count at a place, as its row's shard had it under its lock when it was shown last (`put`); None where that
    /// has no entry there, as outside the dimensions. A stored zero is Some. It waits for no put, no sum and no `look`,
    /// at most for the exchange of a pointer, but where the pointer can't be copied, since too many copies are in use:
    /// then it is answered by `look`. Bisections in the layers of one shard, and no memory.
    pub fn cell<R: Wait>(&self, rt: &R, row: u64, col: u64) -> Option<u64>
        ensures some { IfSome result (λ n. (x : Holding) × IsShardOf N.setup N.opened (row % N.setup.shards) x
            × (get (content x.layers) (row, col) ≡ Some n)) }
        ensures outside { (N.setup.rows ≤ row) ⊎ (N.setup.cols ≤ col) → result ≡ None }
    {
        if row >= self.setup.rows() || col >= self.setup.cols() {
            return None;
        }
        let s = row % self.setup.shards();
        match self.version(rt, s) {
            Some(version) => version.cell(row, col),
            None => self
                .look(
                    rt,
                    s,
                    move |shard: &Shard| -> Option<u64>
                        ensures { result ≡ get (content shard.now.layers) (row, col) }
                    { shard.get(row, col) },
                )
                .flatten(),
        }
    }

    /// How many entries a row has, stored zeros included, and the sum of their counts, as the row's shard had it under
    /// its lock when it was shown last (`put`). Both are 0 where it has none, as outside the dimensions. It waits as
    /// `cell` does, and puts don't wait for it. No memory.
    pub fn row<R: Wait>(&self, rt: &R, row: u64) -> RowSum
        ensures sum { (result ≡ no_sum) ⊎ ((x : Holding) × IsShardOf N.setup N.opened (row % N.setup.shards) x
            × (result ≡ row_sum_in x row)) }
        ensures outside { N.setup.rows ≤ row → result ≡ no_sum }
    {
        if row >= self.setup.rows() {
            return NO_SUM;
        }
        let s = row % self.setup.shards();
        match self.version(rt, s) {
            Some(version) => version.row(row),
            None => self
                .look(
                    rt,
                    s,
                    move |shard: &Shard| -> RowSum
                        ensures { result ≡ row_sum_in shard.now row }
                    { shard.row_total(row) },
                )
                .unwrap_or(NO_SUM),
        }
    }

    /// The accepted batches that aren't folded, in order, in a list that shares them, as the book has them under its
    /// lock: one growth, and no copy of a batch. The seat is shown the entries of all, the folded ones first.
    ///
    /// # Errors
    ///
    /// The growth was refused, or the seat was shown more than the book has, to which puts alone never lead.
    pub fn batch_list<R: Wait>(
        &self,
        rt: &R,
        alloc: Global,
        seat: &mut Seat<N, H>,
    ) -> Result<Vec<Arc<Batch>>, AllocError>
        ensures number { seat.new.number ≡ seat.old.number }
        ensures first { seat.new.first ≡ seat.old.first }
        ensures known { seat.new.known ≡ seat.old.known }
        ensures later { IsPrefix seat.old.seen seat.new.seen }
        ensures list { IfOk result (λ list. AreAccepted N.setup (unfolded (values list.items))) }
        ensures shown { IfOk result (λ list.
            IsBehind N.opened (entries_of (values list.items)) seat.new.seen) }
    {
        let locked = self.book.lock(rt);
        let list = locked.list(alloc, &mut seat.seen);
        let _ = MutexGuard::unlock(locked);
        list
    }

    /// All that was accepted, as the book has it under its lock: the base, the entries of the folded batches and the
    /// batches behind them, in a list that shares the base and the batches. Two growths, of 32 bytes for each folded
    /// batch and a pointer for each other. The seat is shown the entries.
    ///
    /// # Errors
    ///
    /// A growth was refused, or the seat was shown more than the book has, to which puts alone never lead.
    pub fn book_list<R: Wait>(
        &self,
        rt: &R,
        alloc: Global,
        seat: &mut Seat<N, H>,
    ) -> Result<BookList, AllocError>
        ensures number { seat.new.number ≡ seat.old.number }
        ensures first { seat.new.first ≡ seat.old.first }
        ensures known { seat.new.known ≡ seat.old.known }
        ensures later { IsPrefix seat.old.seen seat.new.seen }
        ensures list { IfOk result (λ list. AreAccepted N.setup (accepted_in list)) }
        ensures dims { IfOk result (λ list. list ≡ listed_in N.setup (accepted_in list)) }
        ensures past { IfOk result (λ list. SharePast (accepted_in list) N.opened) }
        ensures shown { IfOk result (λ list. entries_in (accepted_in list) ≡ seat.new.seen) }
    {
        self.list_for(rt, alloc, &mut seat.seen)
    }

    /// The same for one who has no seat, and who was shown this version. It is shown the entries.
    ///
    /// # Errors
    ///
    /// As for a seat.
    pub fn list_for<R: Wait>(
        &self,
        rt: &R,
        alloc: Global,
        seen: &mut Version<N>,
    ) -> Result<BookList, AllocError>
        ensures later { IsPrefix seen.old seen.new }
        ensures list { IfOk result (λ list. AreAccepted N.setup (accepted_in list)) }
        ensures dims { IfOk result (λ list. list ≡ listed_in N.setup (accepted_in list)) }
        ensures past { IfOk result (λ list. SharePast (accepted_in list) N.opened) }
        ensures shown { IfOk result (λ list. entries_in (accepted_in list) ≡ seen.new) }
    {
        let locked = self.book.lock(rt);
        let list = locked.book_list(alloc, seen);
        let _ = MutexGuard::unlock(locked);
        list
    }

    /// How many of the accepted batches are folded, as the book has them under its lock, which is held for no longer
    /// than that takes: constant time, and no memory. The seat is shown the entries of all. None where it was shown more
    /// than the book has, to which puts alone never lead.
    pub fn folded<R: Wait>(&self, rt: &R, seat: &mut Seat<N, H>) -> Option<u64>
        ensures number { seat.new.number ≡ seat.old.number }
        ensures first { seat.new.first ≡ seat.old.first }
        ensures known { seat.new.known ≡ seat.old.known }
        ensures later { IsPrefix seat.old.seen seat.new.seen }
        ensures folded { IfSome result (λ n. (a : Accepted) × AreAccepted N.setup a × (entries_in a ≡ seat.new.seen)
            × SharePast a N.opened × (n ≡ length a.folded)) }
    {
        let locked = self.book.lock(rt);
        let folded = locked.folded(&mut seat.seen);
        let _ = MutexGuard::unlock(locked);
        folded
    }

    /// How many batches were accepted, and their total, as they were published last. It waits for nobody, at no lock,
    /// takes constant time and no memory. The seat is shown the
    /// version that they are the status of, and what it was shown before begins that.
    pub fn status(&self, seat: &mut Seat<N, H>) -> Status
        ensures number { seat.new.number ≡ seat.old.number }
        ensures first { seat.new.first ≡ seat.old.first }
        ensures known { seat.new.known ≡ seat.old.known }
        ensures later { IsPrefix seat.old.seen seat.new.seen }
        ensures status { result ≡ version_status seat.new.seen }
        ensures legal { IsVersion N.setup seat.new.seen }
    {
        seat.look()
    }
}
