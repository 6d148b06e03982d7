//! Finds the blocks of a log, page by page.
ghost use Rattle.std.specs.Prelude.{◌≡◌, ◌≢◌, ◌+◌, ◌*◌, ◌<◌, ◌≤◌, ◌^◌, ◌&&◌, ℕ, true, false, List, ◌∷◌, [], ◌++◌, Err, OnOk, IfOk, IfErr, take};
ghost use Rattle.std.specs.Int.{w32, w64, to_be_bytes, from_be_bytes};
ghost use Rattle.log_page.specs.Pages.{chunk_field, kind_of, pages_field, is_lost_check, is_whole};
ghost use Rattle.log_blocks.specs.Blocks.{Page, Block, can_have};
ghost use Rattle.log_blocks.specs.Reading.{is_allowed, known_pages, known_shown, read_pages, used_by};
ghost use Rattle.log_blocks.specs.Scanning.{HasTaken, IsBounded, blocks_after, is_next_whole, made_after};

use crate::count::{is_left_part, shown_with};
use crate::fault::{LogFault, LogKind};
use log_page::{PAGE, PageKind, batches_told, is_next_page, page_kind, pages_bytes, pages_told};

/// What a page is to the blocks of a log.
#[derive(Clone, Copy, Debug, PartialEq, Eq)]
pub enum Step {
    /// A page of the next block, of which others are to come.
    Part,
    /// The last page of the next block.
    Last,
    /// A page of a block in the making that isn't whole, or one behind such a page.
    Torn,
}

/// How far the pages behind the head of a log were scanned.
#[derive(Clone, Copy, Debug)]
pub struct BlockScan {
    // The place of the first batch of the next block.
    place: u64,
    // The page where the next block begins, and the one where the block before it does, which is 0 where there is none.
    page: u64,
    last: u64,
    // How many pages of the next block were taken, how many it has (0 where that isn't known), the bytes of that number
    // that are known (00 where one isn't), and how many batches it has.
    made: u64,
    pages: u32,
    shown: [u8; 4],
    batches: u64,
    // Whether the next block is in the making, and how many of its pages aren't empty.
    torn: bool,
    used: u64,
}

/// Whether a page is whole.
fn is_whole_kind(kind: PageKind) -> bool
    ensures { result ≡ is_whole kind }
{
    match kind {
        PageKind::Whole => true,
        PageKind::Empty | PageKind::Short | PageKind::Spoilt => false,
    }
}

/// Whether these are bytes of a number of pages, or 00.
fn are_shown_of(shown: [u8; 4], pages: u32) -> bool
    ensures { result ≡ is_lost_check shown (to_be_bytes w32 pages) }
{
    let right = pages.to_be_bytes();
    (shown[0] == 0 || shown[0] == right[0])
        && (shown[1] == 0 || shown[1] == right[1])
        && (shown[2] == 0 || shown[2] == right[2])
        && (shown[3] == 0 || shown[3] == right[3])
}

/// Whether a page of this kind may stand in a block in the making, as page `made` of the block at this place.
fn may_stand(
    kind: PageKind,
    place: u64,
    made: u64,
    pages: u32,
    shown: [u8; 4],
    page: &[u8; PAGE],
) -> bool
    ensures { result ≡ is_allowed kind place made pages shown page.now }
{
    match kind {
        PageKind::Empty => true,
        PageKind::Short => is_left_part(page, place, made, pages, shown),
        PageKind::Whole => {
            is_next_page(page, place, made, pages as u64) && are_shown_of(shown, pages_told(page))
        }
        PageKind::Spoilt => false,
    }
}

/// 1 for a page of this kind, if it isn't empty.
fn uses(kind: PageKind) -> u64
    ensures is { result ≡ used_by kind }
    ensures most { result ≤ 1 }
{
    match kind {
        PageKind::Empty => 0,
        PageKind::Whole | PageKind::Short | PageKind::Spoilt => 1,
    }
}

/// How many pages a block in the making has, where that is known, after a page.
fn pages_after(kind: PageKind, pages: u32, page: &[u8; PAGE]) -> u32
    ensures { result ≡ known_pages kind pages page.now }
{
    match kind {
        PageKind::Whole => pages_told(page),
        PageKind::Empty | PageKind::Short | PageKind::Spoilt => pages,
    }
}

/// The bytes of that number that are known, after a page.
fn shown_after(kind: PageKind, shown: [u8; 4], page: &[u8; PAGE]) -> [u8; 4]
    ensures { result ≡ known_shown kind shown page.now }
{
    match kind {
        PageKind::Whole => pages_told(page).to_be_bytes(),
        PageKind::Short => shown_with(shown, pages_bytes(page)),
        PageKind::Empty | PageKind::Spoilt => shown,
    }
}

/// Whether a block of so many pages can have so many batches.
fn can_hold(batches: u64, pages: u32) -> bool
    requires { 1 ≤ pages }
    ensures { result ≡ can_have batches pages }
{
    0 < batches && batches <= (4072 * pages as u64 - 8) / 24
}

impl BlockScan {
    /// A scan that has taken nothing, of a log whose first batch has this place.
    pub fn new(first: u64) -> BlockScan
        requires { first ≤ 2 ^ 62 }
        ensures taken { HasTaken first result [] [] [] }
        ensures bounded { IsBounded result }
        ensures pages { result.page + result.made ≡ 1 }
    {
        BlockScan {
            place: first,
            page: 1,
            last: 0,
            made: 0,
            pages: 0,
            shown: [0; 4],
            batches: 0,
            torn: false,
            used: 0,
        }
    }

    /// The place of the batch behind those of the blocks that were found.
    pub fn place(&self) -> u64
        ensures { result ≡ self.now.place }
    {
        self.place
    }

    /// The page where the next block begins.
    pub fn page(&self) -> u64
        ensures { result ≡ self.now.page }
    {
        self.page
    }

    /// The page where the last block begins, and 0 where there is none.
    pub fn last(&self) -> u64
        ensures { result ≡ self.now.last }
    {
        self.last
    }

    /// How many of the pages behind the blocks aren't empty.
    pub fn used(&self) -> u64
        ensures { result ≡ self.now.used }
    {
        self.used
    }

    // Whether a page of this kind is the next whole one of the block that is read.
    fn is_next_whole(&self, kind: PageKind, page: &[u8; PAGE]) -> bool
        ensures { result ≡ is_next_whole self.now kind page.now }
    {
        !self.torn
            && is_whole_kind(kind)
            && is_next_page(page, self.place, self.made, self.pages as u64)
    }

    // Takes a page that isn't the next whole one.
    fn take_torn(&mut self, kind: PageKind, page: &[u8; PAGE]) -> Result<Step, LogFault>
        requires kind { kind ≡ kind_of page.now }
        requires other { is_next_whole self.old kind page.now ≡ false }
        requires bounded { IsBounded self.old }
        requires few { self.old.page + self.old.made < 2 ^ 40 }
        ensures bounded { OnOk result (IsBounded self.new) }
        ensures pages { OnOk result (self.new.page + self.new.made ≡ self.old.page + self.old.made + 1) }
        ensures ok { IfOk result (λ step. (first : ℕ) (blocks : List Block) (made : Block) (taken : List Page) →
            HasTaken first self.old blocks made taken →
            HasTaken first self.new (blocks_after step blocks made page.now) (made_after step made page.now)
            (taken ++ page.now ∷ [])) }
        ensures err { IfErr result (λ fault. (first : ℕ) (blocks : List Block) (made : Block) (taken rest : List Page) →
            HasTaken first self.old blocks made taken → read_pages first (taken ++ page.now ∷ rest) ≡ Err fault) }
    {
        if !may_stand(kind, self.place, self.made, self.pages, self.shown, page) {
            return Err(LogFault {
                kind: LogKind::Damaged,
                page: self.page + self.made,
            });
        }
        self.pages = pages_after(kind, self.pages, page);
        self.shown = shown_after(kind, self.shown, page);
        self.used += uses(kind);
        self.made += 1;
        self.torn = true;
        Ok(Step::Torn)
    }

    // The number of batches of the next block, of which this is the next page.
    fn batches_of(&self, page: &[u8; PAGE]) -> u64
        ensures first { self.now.made ≡ 0 → result ≡ from_be_bytes w64 (take 8 (chunk_field page.now)) }
        ensures later { self.now.made ≢ 0 → result ≡ self.now.batches }
    {
        if self.made == 0 {
            batches_told(page)
        } else {
            self.batches
        }
    }

    // Takes the next whole page of a block.
    fn take_whole(&mut self, page: &[u8; PAGE]) -> Result<Step, LogFault>
        requires next { is_next_whole self.old (kind_of page.now) page.now ≡ true }
        requires bounded { IsBounded self.old }
        requires few { self.old.page + self.old.made < 2 ^ 40 }
        ensures bounded { OnOk result (IsBounded self.new) }
        ensures pages { OnOk result (self.new.page + self.new.made ≡ self.old.page + self.old.made + 1) }
        ensures ok { IfOk result (λ step. (first : ℕ) (blocks : List Block) (made : Block) (taken : List Page) →
            HasTaken first self.old blocks made taken →
            HasTaken first self.new (blocks_after step blocks made page.now) (made_after step made page.now)
            (taken ++ page.now ∷ [])) }
        ensures err { IfErr result (λ fault. (first : ℕ) (blocks : List Block) (made : Block) (taken rest : List Page) →
            HasTaken first self.old blocks made taken → read_pages first (taken ++ page.now ∷ rest) ≡ Err fault) }
    {
        let pages = pages_told(page);
        let batches = self.batches_of(page);
        let made = self.made + 1;
        if made < pages as u64 {
            self.batches = batches;
            self.pages = pages;
            self.shown = pages.to_be_bytes();
            self.made = made;
            self.used += 1;
            return Ok(Step::Part);
        }
        if !can_hold(batches, pages) {
            return Err(LogFault {
                kind: LogKind::BadBlock,
                page: self.page,
            });
        }
        *self = BlockScan {
            place: self.place + batches,
            page: self.page + pages as u64,
            last: self.page,
            made: 0,
            pages: 0,
            shown: [0; 4],
            batches: 0,
            torn: false,
            used: 0,
        };
        Ok(Step::Last)
    }

    /// Takes the next page of the file. A scan that answered a fault is not to be used again.
    pub fn take_page(&mut self, page: &[u8; PAGE]) -> Result<Step, LogFault>
        requires bounded { IsBounded self.old }
        requires few { self.old.page + self.old.made < 2 ^ 40 }
        ensures bounded { OnOk result (IsBounded self.new) }
        ensures pages { OnOk result (self.new.page + self.new.made ≡ self.old.page + self.old.made + 1) }
        ensures ok { IfOk result (λ step. (first : ℕ) (blocks : List Block) (made : Block) (taken : List Page) →
            HasTaken first self.old blocks made taken →
            HasTaken first self.new (blocks_after step blocks made page.now) (made_after step made page.now)
            (taken ++ page.now ∷ [])) }
        ensures err { IfErr result (λ fault. (first : ℕ) (blocks : List Block) (made : Block) (taken rest : List Page) →
            HasTaken first self.old blocks made taken → read_pages first (taken ++ page.now ∷ rest) ≡ Err fault) }
    {
        let kind = page_kind(page);
        if self.is_next_whole(kind, page) {
            return self.take_whole(page);
        }
        self.take_torn(kind, page)
    }
}
