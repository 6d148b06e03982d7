//! Which lists of numbers are cuts: at most 7 from 1 to 2^40 that rise strictly.
ghost use Rattle.std.specs.Prelude.{◌↔◌, IsTrue};
ghost use Rattle.layer_cascade.specs.Cuts.{AreCuts};

use crate::limits::{MAX_CUT, MAX_CUTS};

/// Whether a list is one of cuts.
pub fn are_cuts(cuts: &[u64]) -> bool
    ensures { IsTrue result ↔ AreCuts cuts.now }
{
    if cuts.len() > MAX_CUTS {
        return false;
    }
    let mut least = 1;
    for cut in cuts {
        if *cut < least || *cut > MAX_CUT {
            return false;
        }
        least = *cut + 1;
    }
    true
}
