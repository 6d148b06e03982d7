//! Worked examples of the engine of one thread.

mod folds;
mod loads;
mod lookups;
mod parts;
mod puts;
mod tops;
