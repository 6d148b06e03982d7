//! A law of the batches between two lists of one book.
ghost use Rattle.std.specs.Prelude.{List};
ghost use Rattle.hyper_matrix.specs.Counts.{Counts};
ghost use Rattle.matrix_difference.specs.Difference.{IsDifference, HasFewerZeros};
ghost use Rattle.batch_store.specs.Accepted.{Accepted, list_sum, summed};
ghost use Rattle.batch_store.specs.Batches.{Submission};
ghost use Rattle.snap_export.specs.Minus.{followed_by};

/// Where batches came after a list, folded or not, the sums have a difference: it is the sum of these batches, but for
/// stored zeros where the list has an entry. So a count never falls within one book.
pub fn batches_between_are_the_difference()
    ensures { (a : Accepted) (more : List Submission) →
        (x : Counts) × IsDifference (summed (followed_by a more)) (summed a) x
        × HasFewerZeros (summed a) x (list_sum more) }
{}
