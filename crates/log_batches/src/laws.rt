//! Laws of blocks of batches.
ghost use Rattle.std.specs.Prelude.{◌≡◌, ◌+◌, ◌<◌, ◌≤◌, ◌^◌, List, ◌++◌, length};
ghost use Rattle.batch_store.specs.Setups.{Setting, IsSetting};
ghost use Rattle.batch_store.specs.Batches.{Submission};
ghost use Rattle.log_blocks.specs.Blocks.{Block, FillsPages, IsBlock, batches_in};
ghost use Rattle.log_batches.specs.Payloads.{block_of, pages_alone};
ghost use Rattle.log_batches.specs.Held.{HoldsBatches};

/// A block has one list of batches at most.
pub fn blocks_have_one_list()
    ensures { (s : Setting) (block : Block) (list other : List Submission) →
        IsSetting s → FillsPages block → HoldsBatches s block list → HoldsBatches s block other →
        list ≡ other }
{}

/// What is made of batches is a block that a log can have, and it says how many they are. There is one at least, and
/// their pages can be counted.
pub fn blocks_of_batches_are_blocks()
    ensures { (list : List Submission) → 0 < length list → length list < 2 ^ 64 → length (block_of list) < 2 ^ 32 →
        IsBlock (block_of list) × (batches_in (block_of list) ≡ length list) }
{}

/// The block of a group takes no more pages than the blocks of its parts, nor than its batches take where each is a
/// block of its own: so pages that were promised to each batch hold the block of all.
pub fn blocks_of_groups_are_no_longer()
    ensures parts { (list other : List Submission) →
        length (block_of (list ++ other)) ≤ length (block_of list) + length (block_of other) }
    ensures alone { (list : List Submission) → 0 < length list → length (block_of list) ≤ pages_alone list }
{}
