//! Whether a file is that of a closed window that goes with a coarser file.
ghost use Rattle.std.specs.Prelude.{◌≡◌, ◌↔◌, IfOk, IfErr, IsTrue};
ghost use Rattle.batch_store.specs.Setups.{Setting};
ghost use Rattle.snap_file.specs.declared.origin.Identity.{Identity};
ghost use Rattle.snap_roll.specs.Rolls.{HasDims, IsNumbered, MayGo, RefusesFile, book_in};

use crate::roll_fault::Refusal;
use batch_store::Setup;
use snap_file::{Identity, NO_WINDOW, Origin};

// The number of the window that a file is of: the one that it says itself, or else the given one.
fn number_of(given: Option<u64>, origin: &Origin) -> Result<u64, Refusal>
    ensures ok { IfOk result (IsNumbered given origin.now.identity.window) }
    ensures err { IfErr result (λ why. (s t : Setting) (i : Identity) → RefusesFile given origin.now s i t why) }
{
    let window = origin.identity.window;
    let Some(number) = given else {
        if window == NO_WINDOW {
            return Err(Refusal::NoWindow);
        }
        return Ok(window);
    };
    if window != NO_WINDOW && window != number {
        return Err(Refusal::OtherBook);
    }
    Ok(number)
}

/// The book of a window's file, and of a file without a window none.
pub fn book_in(origin: &Origin) -> Identity
    ensures { result ≡ book_in origin.now.identity }
{
    let identity = origin.identity;
    if identity.window == NO_WINDOW {
        return Identity::unknown();
    }
    Identity {
        window: NO_WINDOW,
        ..identity
    }
}

// Whether two setups have the same numbers of rows and columns.
fn has_dims(setup: &Setup, other: &Setup) -> bool
    ensures { IsTrue result ↔ HasDims setup.now other.now }
{
    setup.rows() == other.rows() && setup.cols() == other.cols()
}

/// Judges the file of a window beside the book of those before it and the setup of the coarser file, and gives the
/// window's number.
///
/// # Errors
///
/// In this order: `NoWindow` and `OtherBook` by the given number, `NotClosed`, `OtherBook` by the book, and
/// `DimensionsDiffer`.
pub fn judge_window(
    given: Option<u64>,
    origin: &Origin,
    setup: &Setup,
    book: &Identity,
    to: &Setup,
) -> Result<u64, Refusal>
    ensures ok { IfOk result (MayGo given origin.now setup.now book.now to.now) }
    ensures err { IfErr result (RefusesFile given origin.now setup.now book.now to.now) }
{
    let number = number_of(given, origin)?;
    if origin.has_log {
        return Err(Refusal::NotClosed);
    }
    if book.is_other(&book_in(origin)) {
        return Err(Refusal::OtherBook);
    }
    if !has_dims(setup, to) {
        return Err(Refusal::DimensionsDiffer);
    }
    Ok(number)
}
