//! Servers over sockets with a client in another thread, and servers that are refused.
//!
//! The replies were worked out by hand from the frames' layout, not taken from a run.
mod clients;
pub mod frames;
mod refusals;
mod said;
mod servers;
mod settings;
