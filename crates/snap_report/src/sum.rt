//! The total of the batches of a snapshot.
ghost use Rattle.std.specs.Prelude.{◌≡◌};
ghost use Rattle.hyper_matrix.specs.Counts.{total};
ghost use Rattle.batch_store.specs.Accepted.{summed};
ghost use Rattle.batch_store.specs.Books.{AreAccepted, accepted_in};

use crate::check::total_of;
use batch_store::{BookList, Setup};

/// The counts of all batches of a list together. Takes time for each batch, and reads no cell.
pub fn total_of_list(setup: &Setup, list: &BookList) -> u64
    requires accepted { AreAccepted setup.now (accepted_in list.now) }
    ensures { result ≡ total (summed (accepted_in list.now)) }
{
    // It bounds the total.
    let _limit = setup.limit();
    list.base.total() + total_of(&list.batches)
}
