//! Snapshots as bytes and as files, sums of texts, and exports of snapshots: over devices in memory each of whose calls
//! fails in turn, and over real files.
//!
//! What is to be read and written was worked out by hand from the formats, not taken from a run.
#![tactic(auto)]

#[cfg(test)]
mod exports;
#[cfg(test)]
mod snapshots;
#[cfg(test)]
mod sources;
#[cfg(test)]
mod sums;
#[cfg(test)]
mod texts;
