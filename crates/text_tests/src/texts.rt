//! Tests of `mm_text`: tables of Matrix Market texts, each with what reading it must give.
//!
//! Each text is read where it lies, and from a source that gives it byte by byte. Texts that are written are compared
//! with texts written by hand.

mod banners;
mod blocks;
mod cases;
mod entries;
mod failing_reads;
mod limits;
mod sizes;
mod symmetric;
mod writes;
