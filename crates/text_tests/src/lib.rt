//! Tests of checksums, of devices, and of texts in the Matrix Market format, which devices give and take.
//!
//! The answers were worked out by hand from the format (Matrix Market, NIST: the coordinate format) and from this
//! project's own limits, not from a reader.
#![tactic(auto)]

#[cfg(test)]
mod checksums;
#[cfg(test)]
mod devices;
#[cfg(test)]
mod texts;
