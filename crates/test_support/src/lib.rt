//! What the tests of the other crates share: comparisons of values, and what they give to devices, which is bytes in
//! pieces (`pieces`, `halves`, `push_piece`) and sinks that take less than they are offered (`OneByte`, `Full`).
//!
//! Each comparison answers whether what a test wants holds. Where it doesn't hold, it writes why to standard error. The
//! test passes the answer to a plain `assert!`, which ends the test and names the line. So the text of a failure is put
//! together here alone, and proved once: `assert_eq!`, and an `assert!` with a text, are proved anew wherever they are.
#![tactic(auto)]

ghost use Rattle.std.specs.Prelude.{◌≡◌};

mod sinks;
mod splits;

pub use sinks::{Full, OneByte};
pub use splits::{halves, pieces, push_piece};
use std::fmt::Debug;
use std::io::Eprint;

/// Whether two values are equal. Where they aren't, both are written.
pub fn same<T: PartialEq + Debug>(rt: &impl Eprint, got: &T, want: &T) -> bool
    ensures { result ≡ T.eq got.now want.now }
{
    let equal = got == want;
    if !equal {
        let _ = rt.eprintln(format_args!("  got: {got:?}\n want: {want:?}"));
    }
    equal
}

/// Whether two values are equal. Where they aren't, both are written, and below them the place, as the row of a table.
pub fn same_at<P: Debug, T: PartialEq + Debug>(
    rt: &impl Eprint,
    place: &P,
    got: &T,
    want: &T,
) -> bool
    ensures { result ≡ T.eq got.now want.now }
{
    holds_at(rt, place, same(rt, got, want))
}

/// Whether this holds. Where it doesn't, the place is written.
pub fn holds_at<P: Debug>(rt: &impl Eprint, place: &P, holds: bool) -> bool
    ensures { result ≡ holds }
{
    if !holds {
        let _ = rt.eprintln(format_args!("   at: {place:?}"));
    }
    holds
}
