//! Bytes in pieces, as the reads of a script give them.

use std::alloc::{AllocError, Global};

/// Appends a copy of these bytes.
pub fn push_piece(list: &mut Vec<Vec<u8>>, alloc: Global, bytes: &[u8]) -> Result<(), AllocError> {
    list.push(Vec::from_slice(alloc, bytes)?)?;
    Ok(())
}

/// Bytes in pieces of this size, or of 1 where it is 0; the last may be shorter.
pub fn pieces(alloc: Global, bytes: &[u8], size: usize) -> Result<Vec<Vec<u8>>, AllocError> {
    let mut list = Vec::new(alloc);
    for piece in bytes.chunks(size.max(1)) {
        push_piece(&mut list, alloc, piece)?;
    }
    Ok(list)
}

/// Bytes in two pieces, of which the first has `at` bytes, or all.
pub fn halves(alloc: Global, bytes: &[u8], at: usize) -> Result<Vec<Vec<u8>>, AllocError> {
    let (front, rest) = bytes.split_at(at.min(bytes.len()));
    let mut list = Vec::new(alloc);
    push_piece(&mut list, alloc, front)?;
    push_piece(&mut list, alloc, rest)?;
    Ok(list)
}
