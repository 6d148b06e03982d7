//! Worked examples of setups, batches, books and shards, as tables of steps and answers.

mod batches;
mod books;
mod folds;
mod lists;
mod pieces;
mod sealed;
mod setups;
mod shards;
