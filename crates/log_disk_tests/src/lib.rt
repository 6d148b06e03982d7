//! A log on a disk whose calls fail in turn: what is appended to it, what a loss of power leaves, which file has its
//! name, and what a start makes of a file that is whole, torn, damaged or too short, beside a snapshot.
#![tactic(auto)]

#[cfg(test)]
mod appends;
#[cfg(test)]
mod disk;
#[cfg(test)]
mod examples;
#[cfg(test)]
mod failures;
#[cfg(test)]
mod faults;
#[cfg(test)]
mod folder;
#[cfg(test)]
mod naming;
#[cfg(test)]
mod rotations;
#[cfg(test)]
mod starts;
