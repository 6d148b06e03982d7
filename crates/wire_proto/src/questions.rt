//! Answers a Range, a Top and a Groups of the sum that a keeper shows.
ghost use Rattle.std.specs.Prelude.{◌≡◌, ℕ, ◌<◌, ◌≤◌, ◌↔◌, ◌^◌, List, length, IfOk, OnErr, IsTrue};
ghost use Rattle.wire_proto.specs.Answering.{Answers, RunsOut};
ghost use Rattle.cell_queries.specs.declared.groups.RowGroups.{RowGroups};
ghost use Rattle.wire_proto.specs.Questions.{AreBounds, IsCount, AreRows, AreGroups, groups_of, by_number, range_reply};
ghost use Rattle.wire_proto.specs.Questions.{TellsTop, TellsGroups};
ghost use Rattle.wire_proto.specs.LongReplies.{bytes_of};
ghost use Rattle.wire_proto.specs.Replies.{refused as refused_reply};

use crate::keeper::Keeper;
use crate::limits::MOST;
use crate::long_replies::{cells_reply, rows_reply};
use crate::replies::{Short, refused};
use batch_store::Setup;
use cell_queries::{CellRange, RowGroups, Span, TopBy, range_of, top_of_groups};
use plain_engine::ViewedSum;
use std::alloc::{AllocError, Global};
use wire_frames::Request;

/// A reply that is made before it is sent.
#[derive(Drop)]
pub enum Answer {
    Short(Short),
    Long(Vec<u8>),
}

impl Answer {
    /// The bytes of the frame.
    pub fn as_slice(&self) -> &[u8]
        ensures { result.now ≡ bytes_of self.now }
    {
        match self {
            Answer::Short(reply) => reply.as_slice(),
            Answer::Long(reply) => reply.as_slice(),
        }
    }
}

/// A refusal with this code, and the detail 0.
pub fn refuses(code: u16) -> Answer
    ensures bytes { bytes_of result ≡ refused_reply code 0 }
    ensures few { length (bytes_of result) ≤ 2 ^ 27 }
{
    Answer::Short(refused(code, 0))
}

/// Whether the bounds of a Range lie within the dimensions, and each first one isn't above the last.
fn are_bounds(setup: &Setup, rows: (u64, u64), cols: (u64, u64)) -> bool
    ensures { IsTrue result ↔ AreBounds setup.now rows cols }
{
    rows.0 <= rows.1 && rows.1 < setup.rows() && cols.0 <= cols.1 && cols.1 < setup.cols()
}

/// Whether these rows lie within the dimensions, and the first one isn't above the last.
fn are_rows(setup: &Setup, rows: (u64, u64)) -> bool
    ensures { IsTrue result ↔ AreRows setup.now rows }
{
    rows.0 <= rows.1 && rows.1 < setup.rows()
}

/// Whether so many cells, or rows, may be asked for.
fn is_count(most: u64) -> bool
    ensures { IsTrue result ↔ IsCount most }
{
    1 <= most && most <= MOST
}

/// The reply to a Range. It takes memory for the page, for its bytes, and some 100 bytes for each matrix of the sum.
fn page_of_sum(
    alloc: Global,
    sum: &ViewedSum,
    range: &CellRange,
    most: u64,
) -> Result<Vec<u8>, AllocError>
    requires { most ≤ 1000000 }
    ensures bytes { IfOk result (λ reply. reply.items ≡ range_reply range.now most sum.now) }
    ensures few { IfOk result (λ reply. length reply.items ≤ 2 ^ 27) }
{
    let mut cells = sum.cells(alloc)?;
    let page = range_of(alloc, &mut cells, range, most as usize)?;
    cells_reply(alloc, &page)
}

/// The reply to a Top. It takes memory for the rows, for their bytes, and some 100 bytes for each matrix of one shard.
fn top_of_sum(alloc: Global, sum: &ViewedSum, by: TopBy, most: u64) -> Result<Vec<u8>, AllocError>
    requires { most ≤ 1000000 }
    ensures bytes { IfOk result (λ reply. TellsTop by most sum.now reply.items) }
    ensures few { IfOk result (λ reply. length reply.items ≤ 2 ^ 27) }
{
    let rows = sum.top(alloc, by, most as usize)?;
    rows_reply(alloc, &rows)
}

/// The reply to a Groups. It takes memory for the groups, for their bytes, and some 100 bytes for each matrix of the
/// sum.
fn groups_of_sum(
    alloc: Global,
    sum: &ViewedSum,
    groups: &RowGroups,
    by: TopBy,
    most: u64,
) -> Result<Vec<u8>, AllocError>
    requires shift { groups.now.shift < 64 }
    requires most { most ≤ 1000000 }
    ensures bytes { IfOk result (λ reply. TellsGroups by groups.now most sum.now reply.items) }
    ensures few { IfOk result (λ reply. length reply.items ≤ 2 ^ 27) }
{
    let mut cells = sum.cells(alloc)?;
    let rows = top_of_groups(alloc, &mut cells, groups, by, most as usize)?;
    rows_reply(alloc, &rows)
}

/// Asks what a Range asks. The sum is let go before the reply is sent.
pub fn ask_range<K: Keeper>(
    alloc: Global,
    keeper: &mut K,
    rows: (u64, u64),
    cols: (u64, u64),
    start: (u64, u64),
    most: u64,
) -> Result<Answer, AllocError>
    requires { K.fact keeper.old }
    ensures reply { IfOk result (λ reply. Answers K.gives (K.setup_of keeper.old)
        (Request.Range rows cols start most) (bytes_of reply) keeper.old keeper.new) }
    ensures few { IfOk result (λ reply. length (bytes_of reply) ≤ 2 ^ 27) }
    ensures none { OnErr result (RunsOut K.gives (K.setup_of keeper.old)
        (Request.Range rows cols start most) keeper.old keeper.new) }
    ensures fact { K.fact keeper.new }
    ensures setup { K.setup_of keeper.new ≡ K.setup_of keeper.old }
{
    let setup = keeper.setup();
    if !are_bounds(&setup, rows, cols) {
        return Ok(refuses(41));
    }
    if !is_count(most) {
        return Ok(refuses(44));
    }
    let range = CellRange {
        rows: Span {
            first: rows.0,
            last: rows.1,
        },
        cols: Span {
            first: cols.0,
            last: cols.1,
        },
        start,
    };
    let sum = keeper.export(alloc)?;
    Ok(Answer::Long(page_of_sum(alloc, &sum, &range, most)?))
}

/// What a Top asks to compare rows by.
fn by_of(by: u8) -> TopBy
    ensures { result ≡ by_number by }
{
    if by == 0 {
        TopBy::Total
    } else {
        TopBy::Entries
    }
}

/// Asks what a Top asks. The sum is let go before the reply is sent.
pub fn ask_top<K: Keeper>(
    alloc: Global,
    keeper: &mut K,
    by: u8,
    most: u64,
) -> Result<Answer, AllocError>
    requires { K.fact keeper.old }
    ensures reply { IfOk result (λ reply. Answers K.gives (K.setup_of keeper.old)
        (Request.Top by most) (bytes_of reply) keeper.old keeper.new) }
    ensures few { IfOk result (λ reply. length (bytes_of reply) ≤ 2 ^ 27) }
    ensures none { OnErr result (RunsOut K.gives (K.setup_of keeper.old)
        (Request.Top by most) keeper.old keeper.new) }
    ensures fact { K.fact keeper.new }
    ensures setup { K.setup_of keeper.new ≡ K.setup_of keeper.old }
{
    if by > 1 || !is_count(most) {
        return Ok(refuses(44));
    }
    let sum = keeper.export(alloc)?;
    Ok(Answer::Long(top_of_sum(alloc, &sum, by_of(by), most)?))
}

/// Whether groups may be asked for so.
fn are_groups(by: u8, shift: u8, most: u64) -> bool
    ensures { IsTrue result ↔ AreGroups by shift most }
{
    by <= 1 && shift < 64 && is_count(most)
}

/// The groups that a Groups asks for.
fn groups_from(rows: (u64, u64), shift: u8) -> RowGroups
    ensures { result ≡ groups_of rows shift }
{
    RowGroups {
        rows: Span {
            first: rows.0,
            last: rows.1,
        },
        shift: u32::from(shift),
    }
}

/// Asks what a Groups asks. The sum is let go before the reply is sent.
pub fn ask_groups<K: Keeper>(
    alloc: Global,
    keeper: &mut K,
    by: u8,
    shift: u8,
    most: u64,
    rows: (u64, u64),
) -> Result<Answer, AllocError>
    requires { K.fact keeper.old }
    ensures reply { IfOk result (λ reply. Answers K.gives (K.setup_of keeper.old)
        (Request.Groups by shift most rows) (bytes_of reply) keeper.old keeper.new) }
    ensures few { IfOk result (λ reply. length (bytes_of reply) ≤ 2 ^ 27) }
    ensures none { OnErr result (RunsOut K.gives (K.setup_of keeper.old)
        (Request.Groups by shift most rows) keeper.old keeper.new) }
    ensures fact { K.fact keeper.new }
    ensures setup { K.setup_of keeper.new ≡ K.setup_of keeper.old }
{
    let setup = keeper.setup();
    if !are_rows(&setup, rows) {
        return Ok(refuses(41));
    }
    if !are_groups(by, shift, most) {
        return Ok(refuses(44));
    }
    let groups = groups_from(rows, shift);
    let sum = keeper.export(alloc)?;
    Ok(Answer::Long(groups_of_sum(alloc, &sum, &groups, by_of(by), most)?))
}
