//! What a reader keeps of the lines of a text.
ghost use Rattle.std.specs.Prelude.{◌≡◌, ◌≤◌, [], IfOk, vec_capacity};
ghost use Rattle.mm_text.specs.declared.stages.Stage.{Stage};

use crate::limits::CARRY;
use crate::progress::Progress;
use std::alloc::{AllocError, Global};

/// What is kept of the lines of a text so far: what those before declare, and what was read of the present one.
#[derive(Drop)]
pub struct LineReader {
    pub progress: Progress,
    // What was read of the present line, in a buffer that never grows.
    pub carry: Vec<u8>,
    ghost carries: { 1025 ≤ vec_capacity carry },
}

impl LineReader {
    /// The state before the first line. It takes the memory for the present line.
    pub fn new(alloc: Global) -> Result<LineReader, AllocError>
        ensures stage { IfOk result (λ r. r.progress.stage ≡ Stage.AtBanner) }
        ensures lines { IfOk result (λ r. r.progress.lines ≡ 0) }
        ensures carry { IfOk result (λ r. r.carry.items ≡ []) }
    {
        let carry = Vec::with_capacity(alloc, CARRY)?;
        Ok(LineReader {
            progress: Progress::new(),
            carry,
        })
    }

    /// The state before the first line, in the same memory.
    pub fn restarted(self) -> LineReader
        ensures stage { result.progress.stage ≡ Stage.AtBanner }
        ensures lines { result.progress.lines ≡ 0 }
        ensures carry { result.carry.items ≡ [] }
    {
        let mut carry = self.carry;
        carry.clear();
        LineReader {
            progress: Progress::new(),
            carry,
        }
    }
}
