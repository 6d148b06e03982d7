//! Worked examples of maps in segments, of setups, batches, books and shards, and of the engine of one thread over
//! them.
//!
//! The answers in the tables were worked out by hand from what the calls promise, not taken from a run.
#![tactic(auto)]

#[cfg(test)]
mod engine;
#[cfg(test)]
mod maps;
#[cfg(test)]
mod store;
