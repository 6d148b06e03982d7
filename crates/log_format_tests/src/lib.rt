//! The bytes of a log: its pages, blocks, batches and head, by values that were worked out by hand from the format;
//! what is read of them; and what a start makes of a log beside a snapshot.
#![tactic(auto)]

#[cfg(test)]
mod batches;
#[cfg(test)]
mod heads;
#[cfg(test)]
mod joins;
#[cfg(test)]
mod logs;
#[cfg(test)]
mod pages;
