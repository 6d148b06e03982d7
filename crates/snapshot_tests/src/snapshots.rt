//! Tests of `snap_file`: worked examples in each version, each fault of their bytes, real files, and reads, writes and
//! calls of a folder that fail in turn.

pub mod bytes;
mod examples;
mod failing;
mod faults;
mod files;
mod folders;
