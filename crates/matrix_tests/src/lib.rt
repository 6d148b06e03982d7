//! Tests of cells, of the matrix, of cells that are merged, of filters and of layers: worked tables, growths that are
//! refused, and what no contract says, as how many places a filter lets through and which matrices are added up.
//!
//! `rt try --test --fail-alloc N` refuses the growth number N.
#![tactic(auto)]

#[cfg(test)]
mod cascade;
#[cfg(test)]
mod filters;
#[cfg(test)]
mod fixtures;
#[cfg(test)]
mod lists;
#[cfg(test)]
mod matrices;
#[cfg(test)]
mod merges;
#[cfg(test)]
mod pending;
