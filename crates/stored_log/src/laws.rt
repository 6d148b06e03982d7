//! A law of the pages that blocks take.
ghost use Rattle.std.specs.Prelude.{◌<◌, ◌≤◌, List, length};
ghost use Rattle.batch_store.specs.Batches.{Submission};
ghost use Rattle.stored_log.specs.Sizes.{cells_in, pages_alone, pages_taken};

/// Pages that were promised to each batch of a group, as for a block of its own, hold the block of all. A group has at
/// most 1,024 batches, and at most 1,048,576 cells.
pub fn promised_pages_hold_groups()
    ensures { (list : List Submission) → 0 < length list → length list ≤ 1024 → cells_in list ≤ 1048576 →
        pages_taken list ≤ pages_alone list }
{}
