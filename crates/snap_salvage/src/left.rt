//! What of a log its front doesn't have.
ghost use Rattle.std.specs.Prelude.{◌≡◌, ◌≤◌, ◌<◌, ◌+◌, ◌^◌};
ghost use Rattle.log_blocks.specs.Reading.{used_by};
ghost use Rattle.snap_salvage.specs.LeftPages.{begins_block, claimed, left_none, left_with, whole_by};

use log_page::{PAGE, PageKind, batches_told, page_kind};

/// The most batches that a book may have, so that a page that says more says nothing.
const MOST_BATCHES: u64 = 1 << 30;

/// The pages after the front of a log. They can't be trusted, since nobody knows what is missing before
/// them.
#[derive(Clone, Copy, Debug, PartialEq, Eq)]
pub struct Left {
    /// How many aren't empty.
    pub pages: u64,
    /// How many of these are whole by their checksum.
    pub whole: u64,
    /// How many batches the blocks have whose first page is whole, by what that says.
    pub batches: u64,
}

// Whether a page says that it is the first one of a block.
fn begins_block(page: &[u8; PAGE]) -> bool
    ensures { result ≡ begins_block page.now }
{
    page[6] == 0 && page[7] == 1 && page[16] == 0 && page[17] == 0 && page[18] == 0 && page[19] == 0
}

// 1 of a page that isn't empty.
fn used(kind: PageKind) -> u64
    ensures is { result ≡ used_by kind }
    ensures most { result ≤ 1 }
{
    match kind {
        PageKind::Empty => 0,
        PageKind::Whole | PageKind::Short | PageKind::Spoilt => 1,
    }
}

// 1 of a whole page.
fn whole(kind: PageKind) -> u64
    ensures is { result ≡ whole_by kind }
    ensures most { result ≤ 1 }
{
    match kind {
        PageKind::Whole => 1,
        PageKind::Empty | PageKind::Short | PageKind::Spoilt => 0,
    }
}

// How many batches a page of this kind says that its block has.
fn claimed(kind: PageKind, page: &[u8; PAGE]) -> u64
    ensures is { result ≡ claimed kind page.now }
    ensures most { result ≤ 2 ^ 30 }
{
    if whole(kind) == 0 || !begins_block(page) {
        return 0;
    }
    let batches = batches_told(page);
    if batches <= MOST_BATCHES { batches } else { 0 }
}

impl Left {
    /// No page.
    pub(crate) fn none() -> Left
        ensures { result ≡ left_none }
    {
        Left {
            pages: 0,
            whole: 0,
            batches: 0,
        }
    }

    /// These pages and one more.
    pub(crate) fn with(self, page: &[u8; PAGE]) -> Left
        requires pages { self.pages < 2 ^ 60 }
        requires whole { self.whole < 2 ^ 60 }
        requires batches { self.batches < 2 ^ 60 }
        ensures is { result ≡ left_with self page.now }
        ensures pages { result.pages ≤ self.pages + 1 }
        ensures whole { result.whole ≤ self.whole + 1 }
        ensures batches { result.batches ≤ self.batches + 2 ^ 30 }
    {
        let kind = page_kind(page);
        Left {
            pages: self.pages + used(kind),
            whole: self.whole + whole(kind),
            batches: self.batches + claimed(kind, page),
        }
    }
}
