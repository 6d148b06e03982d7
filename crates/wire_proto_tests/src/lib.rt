//! Worked examples of frames and sessions, as tables of what is sent and what comes back.
//!
//! The answers in the tables were worked out by hand from the layout of frames, not taken from a run.
#![tactic(auto)]

#[cfg(test)]
mod asks;
#[cfg(test)]
mod frames;
#[cfg(test)]
mod hex;
#[cfg(test)]
mod questions;
#[cfg(test)]
mod replies;
#[cfg(test)]
mod sessions;
#[cfg(test)]
mod stores;
#[cfg(test)]
mod together;
#[cfg(test)]
mod wrapped;
