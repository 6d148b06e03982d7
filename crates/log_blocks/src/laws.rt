//! Laws of reading a log.
ghost use Rattle.std.specs.Prelude.{◌≡◌, ◌⊎◌, ◌<◌, ◌^◌, List, [], ◌∷◌, ◌++◌, ℕ, Ok, Err};
ghost use Rattle.std.specs.List.{AllByRecursion};
ghost use Rattle.log_blocks.specs.Blocks.{Page, Block, IsBlock, ArePages, place_behind};
ghost use Rattle.log_blocks.specs.Reading.{Reads, HasFault, read_pages};
ghost use Rattle.log_blocks.specs.Files.{recovered, log_bytes, next_bytes, IsSame, MayHold};
ghost use Rattle.log_blocks.specs.declared.fault.LogFault.{LogFault};

/// A file that may hold the next block of a log is read as the blocks without it, or as those and it, and then all its
/// bytes are there.
pub fn torn_files_are_read()
    ensures { (first : ℕ) (blocks : List Block) (block : Block) (file : List ℕ) →
        place_behind first blocks < 2 ^ 64 → AllByRecursion IsBlock blocks → IsBlock block →
        MayHold first blocks block file →
        (recovered first file ≡ Ok blocks)
        ⊎ (IsSame file (log_bytes first blocks ++ next_bytes first blocks block)
        × (recovered first file ≡ Ok (blocks ++ block ∷ []))) }
{}

/// What is read of pages is written in them: they are the pages of these blocks, byte for byte, and behind those stands
/// what could be one block in the making.
pub fn blocks_read_are_written()
    ensures { (first : ℕ) (pages : List Page) (blocks : List Block) → ArePages pages →
        read_pages first pages ≡ Ok blocks → Reads first pages blocks }
{}

/// A log is never refused, whatever block in the making stands behind it: what is read is its blocks.
pub fn logs_are_read()
    ensures { (first : ℕ) (pages : List Page) (blocks : List Block) → ArePages pages →
        place_behind first blocks < 2 ^ 64 → Reads first pages blocks → read_pages first pages ≡ Ok blocks }
{}

/// A fault is that of the first page with which the pages are no longer those of a log, or of the first page of the
/// first block that can't have its batches.
pub fn faults_are_first()
    ensures { (first : ℕ) (pages : List Page) (fault : LogFault) → ArePages pages →
        read_pages first pages ≡ Err fault → HasFault first 1 pages fault }
{}
