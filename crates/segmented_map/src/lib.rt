//! A map in the order of insertion that grows without moving what it holds.
//!
//! An `IndexMap` doubles its room when it grows, and puts every entry into the new table: of a million entries that
//! takes up to a tenth of a second, in which whoever needs the map waits. A `SegmentedMap` is a row of such maps, its
//! segments: when the last one is full, an empty one with three times the room of all of them is put behind it.
//! Nothing is hashed anew or moved, at the price that a look-up may ask each segment.
#![tactic(auto)]

mod map;
mod segments;

pub use map::SegmentedMap;
