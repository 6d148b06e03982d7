//! The filter: a blocked Bloom filter of places, whose blocks are words.
//!
//! A place has three bits in one word: to ask for it reads one word, and to put it in writes one.
ghost use Rattle.std.specs.Prelude.{◌≡◌, ◌<◌, ◌^◌, ◌↔◌, [], IfOk, IsTrue, length};
ghost use Rattle.filtered_matrix.specs.Filter.{folded, hash, slot, bits_of, may_have, Covers, Marks};

use hyper_matrix::Hyper;
use std::alloc::{AllocError, Global};
use std::marker::Model;

// Odd factors, which carry each bit into the upper half of a product. Columns have one of their own: the places of a
// full row would otherwise differ by small numbers only, and crowd the same bits.
const ROW_FACTOR: u64 = 0x9e37_79b9_7f4a_7c15;

const COL_FACTOR: u64 = 0xc2b2_ae3d_27d4_eb4f;

const PLACE_FACTOR: u64 = 0x9fb2_1c65_1e98_df25;

// The most entries for which a word is made, on the average. The number of words is a power of two, so a word has four
// to eight.
const ENTRIES_A_WORD: u64 = 8;

/// A filter of the places of a matrix, or no filter, which every place passes.
///
/// Contracts see its words.
#[derive(Drop)]
pub struct PlaceFilter {
    words: Vec<u64>,
}

impl Model for PlaceFilter {
    ghost use Rattle.std.specs.Prelude.{ℕ, List};

    ghost Value = { List ℕ };

    ghost view = { λ f. f.words.items };
}

// The upper half of a number folded onto the lower, which a product doesn't carry it to.
#[tactic(auto, unfolding(crate::specs::Filter::folded))]
fn folded(x: u64) -> u64
    ensures { result ≡ folded x }
{
    x ^ (x >> 32)
}

#[tactic(auto, unfolding(crate::specs::Filter::hash))]
fn hash(row: u64, col: u64) -> u64
    ensures { result ≡ hash (row, col) }
{
    let mixed = row.wrapping_mul(ROW_FACTOR) ^ col.wrapping_mul(COL_FACTOR);
    folded(mixed).wrapping_mul(PLACE_FACTOR)
}

// Which of n words a place has, by its hash.
#[tactic(auto, unfolding(crate::specs::Filter::slot))]
fn slot(hash: u64, n: usize) -> usize
    requires { 0 < n }
    ensures value { result ≡ slot n hash }
    ensures within { result < n }
{
    (hash >> 32) as usize & (n - 1)
}

fn bit(k: u64) -> u64
    requires { k < 64 }
    ensures { result ≡ 2 ^ k }
{
    1 << k
}

// The bits that a place has in its word, by its hash.
#[tactic(auto, unfolding(crate::specs::Filter::bits_of))]
fn bits_of(hash: u64) -> u64
    ensures { result ≡ bits_of hash }
{
    bit(hash >> 58) | bit((hash >> 26) & 63) | bit((hash >> 20) & 63)
}

impl PlaceFilter {
    /// No filter. It takes no memory.
    pub fn none(alloc: Global) -> PlaceFilter
        ensures { result ≡ [] }
    {
        PlaceFilter {
            words: Vec::new(alloc),
        }
    }

    // Words for so many entries, with no bit set.
    fn blank(alloc: Global, entries: u64) -> Result<PlaceFilter, AllocError>
        ensures { IfOk result (λ filter. 0 < length filter) }
    {
        let n = (entries / ENTRIES_A_WORD + 1).next_power_of_two();
        let words = vec![in alloc; 0; n as usize]?;
        Ok(PlaceFilter { words })
    }

    // Sets the bits of a place.
    fn mark(&mut self, row: u64, col: u64)
        requires { 0 < length self.old }
        ensures { Marks self.old self.new (row, col) }
    {
        let hash = hash(row, col);
        let slot = slot(hash, self.words.len());
        self.words[slot] |= bits_of(hash);
    }

    /// The filter of a matrix's places: 8 to 16 bits for each entry, allocated once, in time linear in the entries.
    ///
    /// # Errors
    ///
    /// The growth was refused.
    pub fn of(alloc: Global, m: &Hyper) -> Result<PlaceFilter, AllocError>
        ensures some { IfOk result (λ filter. 0 < length filter) }
        ensures covers { IfOk result (λ filter. Covers filter m.now.counts) }
    {
        let mut filter = PlaceFilter::blank(alloc, m.entries())?;
        'cells: for cell in m.iter() {
            filter.mark(cell.row, cell.col);
        }
        Ok(filter)
    }

    /// Whether there is a filter.
    pub fn is_some(&self) -> bool
        ensures { IsTrue result ↔ (0 < length self.now) }
    {
        !self.words.is_empty()
    }

    /// Whether a place passes. Reads one word.
    pub fn may_have(&self, row: u64, col: u64) -> bool
        ensures { result ≡ may_have self.now (row, col) }
    {
        if self.words.is_empty() {
            return true;
        }
        let hash = hash(row, col);
        let bits = bits_of(hash);
        self.words[slot(hash, self.words.len())] & bits == bits
    }
}
