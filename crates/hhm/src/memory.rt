//! What the C library does with memory that is freed.
//!
//! A sum takes lists and blocks of some megabytes and frees those that it replaces, again and again. glibc gives the
//! system back what is longer than all that was freed before with pages of its own, up to 32 MiB (mallopt(3),
//! `M_MMAP_THRESHOLD`), and the next sum gets new pages, each with a page fault: they cost more than all that is
//! written there. So one allocation of that length is made and freed before a sum. Its bytes are never written: it
//! takes the one page of its bookkeeping. Other C libraries do nothing of the kind, and nothing rests on it but time.

use crate::limits::KEPT_BYTES;
use std::alloc::{AllocError, Global};

/// Makes and frees one allocation of `KEPT_BYTES`. Where it is refused nothing is lost.
pub fn keep_freed_memory(alloc: Global) {
    let made: Result<Vec<u8>, AllocError> = Vec::with_capacity(alloc, KEPT_BYTES);
    drop(made);
}
