//! A server's parts that run at once: pools of workers over sessions in memory, with a log and without, and servers over
//! sockets.
//!
//! What no contract says of them, as that workers run at once and that every client is served. The answers were worked
//! out by hand from the frames' layout, not taken from a run.
#![tactic(auto)]

#[cfg(test)]
mod counters;
#[cfg(test)]
mod logged;
#[cfg(test)]
mod pool;
#[cfg(test)]
mod sockets;
