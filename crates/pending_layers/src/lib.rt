//! Layers to which cells are only added, and the latest of these in a list.
#![tactic(auto)]

mod limits;
mod pending;

pub use pending::PendingLayers;
