//! Tests of `snap_export`: snapshots in memory as one text, and as a compact matrix in a folder.

mod compact;
mod given;
mod several;
