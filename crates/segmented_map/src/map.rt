//! The map: full segments, and the one that takes what is new.
ghost use Rattle.std.specs.Prelude.{◌≡◌, nat_eq, ◌+◌, ◌^◌, ◌<◌, ◌≤◌, ◌++◌, [], ◌∷◌, IsOk, IfSome, OnOk, None, Some};
ghost use Rattle.std.specs.Prelude.{is_some, slice_get};
ghost use Rattle.std.specs.Option.{option_map};
ghost use Rattle.std.specs.Map.Iter.{deref_pair};
ghost use Rattle.indexmap.specs.IndexMap.{get, index_of, index_map_len, spare, hasher_of};
ghost use Rattle.indexmap.specs.IndexMap.{IsEmpty, IsUnchanged, IsUnique};

use crate::segments::{entry_at, find};
use indexmap::IndexMap;
use std::alloc::{AllocError, Global};
use std::hash::{BuildHasher, Hash};
use std::marker::Model;
use std::mem;

// A map of fewer entries grows as an `IndexMap` does, by a larger table that all of them are put into: a bounded step,
// which leaves a look-up fewer segments to ask.
const REHASHED_BELOW: usize = 65_536;

// A further segment has room for so many times the entries that there are. A look-up asks each, so they are to be few.
const ROOM_FACTOR: usize = 3;

// The most entries that full segments hold, so that a `usize` counts them with those of the last.
const MOST_EARLIER: usize = 1 << 62;

/// A hash map in the order of insertion, in segments.
///
/// Contracts see what they see of an `IndexMap`: the entries in order, no key twice, the hasher, and for how many more
/// entries there is room without memory. All segments hash by copies of one hasher.
///
/// The first segment takes up to 73,728 entries, and each further one three times as many as all before it: a million
/// entries stand in three. For each entry that it has room for, a segment takes the key, the value and some 15 bytes, as
/// an `IndexMap` does; from ten entries on at least a quarter of the room is used, and pages that no entry has come to
/// are never touched.
#[derive(Drop)]
pub struct SegmentedMap<K: Eq + Hash, V, S: BuildHasher> {
    full: Vec<IndexMap<K, V, S>>,
    last: IndexMap<K, V, S>,
    earlier: usize,
}

impl<K: Eq + Hash, V, S: BuildHasher> Model for SegmentedMap<K, V, S> {
    ghost use Rattle.indexmap.specs.IndexMap.{IndexMap as Entries};
    ghost use Rattle.indexmap.specs.Layout.{hash_map_code};
    ghost use Rattle.segmented_map.specs.Segments.{joined, KeepsSegments};

    ghost Value = { Entries K V S };

    ghost coded = { hash_map_code K.code V.code S.code };

    ghost view = { λ m. joined m.full.items m.last };

    ghost invariant = { λ m. KeepsSegments K.eq m.full.items m.last m.earlier };
}

impl<K: Eq + Hash, V, S: BuildHasher> SegmentedMap<K, V, S> {
    /// An empty map that hashes by `hasher`. It takes no memory.
    pub fn with_hasher(alloc: Global, hasher: S) -> Self
        ensures empty { IsEmpty result }
        ensures hasher { hasher_of result ≡ hasher }
    {
        SegmentedMap {
            full: Vec::new(alloc),
            last: IndexMap::with_hasher(alloc, hasher),
            earlier: 0,
        }
    }

    /// The number of entries. Constant time.
    pub fn len(&self) -> usize
        ensures value { result ≡ index_map_len self.now }
        ensures small { result + 1 < 2 ^ 64 }
        ensures unique { IsUnique K.eq self.now }
    {
        self.earlier + self.last.len()
    }

    /// Whether there are no entries. Constant time.
    pub fn is_empty(&self) -> bool
        ensures { result ≡ nat_eq (index_map_len self.now) 0 }
    {
        self.len() == 0
    }

    /// The index of a key among all entries, the key as it is stored, and its value; None where it isn't there. Asks
    /// the segments in turn, the last and largest first, until one has it.
    pub fn get_full(&self, key: &K) -> Option<(usize, &K, &V)>
        ensures index { option_map (λ p. p.0) result ≡ index_of K.eq self.now key.now }
        ensures entry { IfSome result (λ p. slice_get self.now.entries p.0 ≡ Some (p.1.now, p.2.now)) }
    {
        // It bounds the index.
        let _len = self.len();
        match self.last.get_full(key) {
            Some((index, stored, value)) => Some((self.earlier + index, stored, value)),
            None => find(&self.full, self.earlier, key),
        }
    }

    /// Whether a key is there. As long as `get_full`.
    pub fn contains_key(&self, key: &K) -> bool
        ensures { result ≡ is_some (get K.eq self.now key.now) }
    {
        self.get_full(key).is_some()
    }

    /// The entry at an index, counted from 0 in the order of insertion, and None past the last. Passes over the
    /// segments behind it: for most entries one or none.
    pub fn get_index(&self, index: usize) -> Option<(&K, &V)>
        ensures entry { option_map deref_pair result ≡ slice_get self.now.entries index }
    {
        if index >= self.earlier {
            self.last.get_index(index - self.earlier)
        } else {
            entry_at(&self.full, self.earlier, index)
        }
    }
}

// Puts an entry of a new key behind the others, where there is room.
fn append<K: Eq + Hash + Drop, V: Drop, S: BuildHasher>(
    map: &mut IndexMap<K, V, S>,
    key: K,
    value: V,
)
    requires absent { get K.eq map.old key ≡ None }
    requires room { 0 < spare map.old }
    ensures entries { map.new.entries ≡ map.old.entries ++ (key, value) ∷ [] }
    ensures hasher { hasher_of map.new ≡ hasher_of map.old }
    ensures room { spare map.old ≤ spare map.new + 1 }
{
    let _ = map.insert(key, value);
}

impl<K: Eq + Hash + Drop, V: Drop, S: BuildHasher + Drop> SegmentedMap<K, V, S> {
    /// Appends an entry of a new key, where there is room: it takes no memory.
    pub fn push(&mut self, key: K, value: V)
        requires absent { get K.eq self.old key ≡ None }
        requires room { 0 < spare self.old }
        ensures entries { self.new.entries ≡ self.old.entries ++ (key, value) ∷ [] }
        ensures hasher { hasher_of self.new ≡ hasher_of self.old }
        ensures room { spare self.old ≤ spare self.new + 1 }
    {
        append(&mut self.last, key, value);
    }

    /// Takes all entries out, and gives the memory back.
    pub fn clear(&mut self)
        ensures empty { IsEmpty self.new }
        ensures hasher { hasher_of self.new ≡ hasher_of self.old }
    {
        self.full.clear();
        self.full.shrink_to_fit();
        self.last.clear();
        self.last.shrink_to_fit();
        self.earlier = 0;
    }
}

impl<K: Eq + Hash + Drop, V: Drop, S: BuildHasher + Copy + Drop> SegmentedMap<K, V, S> {
    /// Makes room for one entry, so that the next `push` takes no memory; where there is some, nothing is done. The
    /// entries stay, also on an error.
    ///
    /// A map of fewer than 65,536 entries grows as an `IndexMap` does, which puts all of them into a table of twice the
    /// size. A larger one gets a segment with room for three times as many entries as it has: no entry is moved, and no
    /// key is hashed. That takes the time in which the new table is cleared, some 7 bytes for each place.
    ///
    /// # Errors
    ///
    /// A growth was refused.
    pub fn reserve_one(&mut self) -> Result<(), AllocError>
        ensures entries { IsUnchanged self.old self.new }
        ensures ok { OnOk result (0 < spare self.new) }
        ensures succeeds { 0 < spare self.old → IsOk result }
        ensures hasher { hasher_of self.new ≡ hasher_of self.old }
        ensures room { spare self.old ≤ spare self.new }
    {
        if self.last.capacity() > self.last.len() {
            return Ok(());
        }
        if self.len() < REHASHED_BELOW {
            self.last.reserve(1)
        } else {
            self.add_segment()
        }
    }

    // Puts an empty segment, with room for some times as many entries as there are, behind the last, which is full.
    fn add_segment(&mut self) -> Result<(), AllocError>
        requires some { 0 < index_map_len self.old }
        requires none_free { spare self.old ≡ 0 }
        ensures entries { IsUnchanged self.old self.new }
        ensures ok { OnOk result (0 < spare self.new) }
        ensures hasher { hasher_of self.new ≡ hasher_of self.old }
    {
        let held = self.len();
        if held > MOST_EARLIER {
            return Err(AllocError);
        }
        self.full.reserve(1)?;
        let alloc = *self.last.allocator();
        let next = IndexMap::with_capacity_and_hasher(
            alloc,
            ROOM_FACTOR * held,
            *self.last.hasher(),
        )?;
        let filled = mem::replace(&mut self.last, next);
        self.full.push_reserved(filled);
        self.earlier = held;
        Ok(())
    }
}
