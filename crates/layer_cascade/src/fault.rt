//! Why layers can't be made.

use std::alloc::AllocError;
use thiserror::Error;

/// Why `Layers::new` made no layers.
#[derive(Clone, Copy, Debug, PartialEq, Eq, Error)]
pub enum CascadeFault {
    /// A growth was refused.
    #[error("no memory for layers")]
    Memory,
    /// There are more than 7 cuts, a cut outside 1 to 2^40, or cuts that don't rise strictly.
    #[error("the cuts are more than 7, outside 1 to 2^40, or not rising")]
    BadCuts,
}

impl From<AllocError> for CascadeFault {
    ghost use Rattle.std.specs.Prelude.{◌≡◌};
    ghost use Rattle.layer_cascade.specs.declared.fault.CascadeFault.TheVariants.{Memory};

    ghost from_gives = { λ _ fault. fault ≡ Memory };

    fn from(_error: AllocError) -> CascadeFault {
        CascadeFault::Memory
    }
}
