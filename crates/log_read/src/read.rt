//! Reads a log.
ghost use Rattle.std.specs.Prelude.{◌≡◌, ℕ, ◌+◌, ◌*◌, ◌/◌, ◌<◌, ◌≤◌, ◌^◌, List, [], ◌++◌, length, IfOk, OnOk, IfErr};
ghost use Rattle.std.specs.Prelude.{IsTrue, IsFalse};
ghost use Rattle.log_blocks.specs.Scanning.{IsBounded};
ghost use Rattle.log_blocks.specs.declared.fault.LogKind.{LogKind};
ghost use Rattle.log_head.specs.Heads.{HasHead, RefusesPage};
ghost use Rattle.log_head.specs.declared.head.LogHead.{LogHead};
ghost use Rattle.log_read.specs.Given.{IsAt};
ghost use Rattle.log_read.specs.Outcomes.{Explains, HasReadAll, HasReadHead, HasStopped, IsJudged, IsReading, OnJudged};
ghost use Rattle.log_read.specs.Outcomes.{ReadsLog};

use crate::file::LogFile;
use crate::scan::LogScan;
use crate::source::PageSource;
use crate::stop::Stop;
use byte_io::Source;
use log_blocks::{LogFault, LogKind};
use log_head::{LogHead, decode_head};
use log_page::PAGE;
use std::alloc::Global;

// A fault of the head page, or one that no page has.
fn at_head(kind: LogKind) -> LogFault
    ensures kind { result.kind ≡ kind }
    ensures page { result.page ≡ 0 }
{
    LogFault { kind, page: 0 }
}

// A fault of the source, while a page was due.
fn of_source(kind: LogKind, source: &PageSource, page: u64) -> LogFault
    ensures kind { result.kind ≡ kind }
    ensures page { kind ≡ LogKind.TooLong → result.page ≡ source.now.max_bytes / 4096 }
{
    match kind {
        LogKind::TooLong => LogFault {
            kind,
            page: source.last_page(),
        },
        kind => LogFault { kind, page },
    }
}

// Whether memory was refused.
fn is_memory(kind: LogKind) -> bool
    ensures yes { IsTrue result → kind ≡ LogKind.Memory }
    ensures no { IsFalse result → kind ≡ LogKind.Memory → ⊥ }
{
    match kind {
        LogKind::Memory => true,
        LogKind::Read
        | LogKind::Truncated
        | LogKind::BadMark
        | LogKind::BadVersion
        | LogKind::BadHead
        | LogKind::HeadCheck
        | LogKind::Damaged
        | LogKind::BadBlock
        | LogKind::TooLong => false,
    }
}

// The head that a page has.
fn head_of(page: &[u8; PAGE]) -> Result<LogHead, LogFault>
    ensures first { IfOk result (λ head. head.first ≤ 2 ^ 62) }
    ensures ok { IfOk result (HasHead page.now) }
    ensures err { IfErr result (λ fault. RefusesPage page.now fault.kind × (fault.page ≡ 0)) }
{
    match decode_head(page) {
        Ok(head) => Ok(head),
        Err(kind) => Err(at_head(kind)),
    }
}

// The head.
fn read_head<R: Source>(r: &mut R, source: &mut PageSource) -> Result<LogHead, Stop>
    requires failures { R.failure_count r.old + 1 < 2 ^ 64 }
    requires within { source.old.came ≤ source.old.max_bytes }
    requires limit { source.old.max_bytes < 2 ^ 50 }
    requires came { source.old.came ≡ length source.old.buffer }
    ensures limit { source.new.max_bytes ≡ source.old.max_bytes }
    ensures within { OnOk result (source.new.came ≤ source.new.max_bytes) }
    ensures came { OnOk result (4096 + length source.new.buffer ≡ source.new.came) }
    ensures no_failure { OnOk result (R.failure_count r.new ≡ R.failure_count r.old) }
    ensures first { IfOk result (λ head. head.first ≤ 2 ^ 62) }
    ensures judged { IfErr result (λ stop. OnJudged stop ((R.failure_count r.new ≡ R.failure_count r.old) ×
        (source.new.came ≤ source.new.max_bytes))) }
    ensures ok { IfOk result (λ head. (s : R) → IsAt R.read_gives R.failure_count s r.old source.old [] →
        HasReadHead R.read_gives R.failure_count s r.new source.new head) }
    ensures err { IfErr result (λ stop. (s : R) → IsAt R.read_gives R.failure_count s r.old source.old [] →
        HasStopped R.read_gives R.failure_count (R.at_end r.new) source.old.max_bytes s r.new source.new stop) }
{
    let mut page = [0; PAGE];
    match source.next(r, &mut page) {
        Err(kind) => Err(Stop::Told(of_source(kind, source, 0))),
        Ok(count) => {
            if count < PAGE {
                return Err(Stop::Told(at_head(LogKind::Truncated)));
            }
            match head_of(&page) {
                Ok(head) => Ok(head),
                Err(fault) => Err(Stop::Judged(fault)),
            }
        }
    }
}

// Takes the next page behind the head; whether others may follow.
fn take_next<R: Source>(
    alloc: Global,
    r: &mut R,
    source: &mut PageSource,
    log: &mut LogScan,
) -> Result<bool, Stop>
    requires failures { R.failure_count r.old + 1 < 2 ^ 64 }
    requires within { source.old.came ≤ source.old.max_bytes }
    requires limit { source.old.max_bytes < 2 ^ 50 }
    requires bounded { IsBounded log.old.scan }
    requires came { 4096 * (log.old.scan.page + log.old.scan.made) + length source.old.buffer ≡ source.old.came }
    ensures limit { source.new.max_bytes ≡ source.old.max_bytes }
    ensures within { OnOk result (source.new.came ≤ source.new.max_bytes) }
    ensures no_failure { OnOk result (R.failure_count r.new ≡ R.failure_count r.old) }
    ensures bounded { OnOk result (IsBounded log.new.scan) }
    ensures pages { IfOk result (λ b. IsTrue b →
        log.new.scan.page + log.new.scan.made ≡ log.old.scan.page + log.old.scan.made + 1) }
    ensures came { IfOk result (λ b. IsTrue b →
        4096 * (log.new.scan.page + log.new.scan.made) + length source.new.buffer ≡ source.new.came) }
    ensures judged { IfErr result (λ stop. OnJudged stop ((R.failure_count r.new ≡ R.failure_count r.old) ×
        (source.new.came ≤ source.new.max_bytes))) }
    ensures more { IfOk result (λ b. IsTrue b → (s : R) (h : LogHead) →
        IsReading R.read_gives R.failure_count s r.old source.old h log.old →
        IsReading R.read_gives R.failure_count s r.new source.new h log.new) }
    ensures end { IfOk result (λ b. IsFalse b → (s : R) (h : LogHead) →
        IsReading R.read_gives R.failure_count s r.old source.old h log.old →
        HasReadAll R.read_gives R.failure_count (R.at_end r.new) source.old.max_bytes s r.new h log.new) }
    ensures err { IfErr result (λ stop. (s : R) (h : LogHead) →
        IsReading R.read_gives R.failure_count s r.old source.old h log.old →
        HasStopped R.read_gives R.failure_count (R.at_end r.new) source.old.max_bytes s r.new source.new stop) }
{
    let mut page = [0; PAGE];
    match source.next(r, &mut page) {
        Err(kind) => Err(Stop::Told(of_source(kind, source, 0))),
        Ok(0) => Ok(false),
        Ok(count) => match log.take(alloc, &page) {
            Ok(()) => Ok(count == PAGE),
            Err(fault) => {
                if is_memory(fault.kind) {
                    return Err(Stop::Told(fault));
                }
                if count < PAGE {
                    return Err(Stop::Told(fault));
                }
                Err(Stop::Judged(fault))
            }
        },
    }
}

// Takes all pages behind the head.
fn read_pages<R: Source>(
    alloc: Global,
    r: &mut R,
    source: &mut PageSource,
    log: &mut LogScan,
) -> Result<(), Stop>
    requires failures { R.failure_count r.old + 1 < 2 ^ 64 }
    requires within { source.old.came ≤ source.old.max_bytes }
    requires limit { source.old.max_bytes < 2 ^ 50 }
    requires bounded { IsBounded log.old.scan }
    requires came { 4096 * (log.old.scan.page + log.old.scan.made) + length source.old.buffer ≡ source.old.came }
    ensures limit { source.new.max_bytes ≡ source.old.max_bytes }
    ensures judged { IfErr result (λ stop. OnJudged stop ((R.failure_count r.new ≡ R.failure_count r.old) ×
        (source.new.came ≤ source.new.max_bytes))) }
    ensures ok { OnOk result ((s : R) (h : LogHead) →
        IsReading R.read_gives R.failure_count s r.old source.old h log.old →
        HasReadAll R.read_gives R.failure_count (R.at_end r.new) source.old.max_bytes s r.new h log.new) }
    ensures err { IfErr result (λ stop. (s : R) (h : LogHead) →
        IsReading R.read_gives R.failure_count s r.old source.old h log.old →
        HasStopped R.read_gives R.failure_count (R.at_end r.new) source.old.max_bytes s r.new source.new stop) }
{
    'pages: loop {
        match take_next(alloc, r, source, log) {
            Err(stop) => return Err(stop),
            Ok(false) => return Ok(()),
            Ok(true) => {}
        }
    }
}

// The log, or why it stops.
fn read_file<R: Source>(alloc: Global, r: &mut R, source: &mut PageSource) -> Result<LogFile, Stop>
    requires failures { R.failure_count r.old + 1 < 2 ^ 64 }
    requires within { source.old.came ≤ source.old.max_bytes }
    requires limit { source.old.max_bytes < 2 ^ 50 }
    requires came { source.old.came ≡ length source.old.buffer }
    ensures limit { source.new.max_bytes ≡ source.old.max_bytes }
    ensures judged { IfErr result (λ stop. OnJudged stop ((R.failure_count r.new ≡ R.failure_count r.old) ×
        (source.new.came ≤ source.new.max_bytes))) }
    ensures ok { IfOk result (λ file. (s : R) → IsAt R.read_gives R.failure_count s r.old source.old [] →
        ReadsLog R.read_gives R.failure_count (R.at_end r.new) source.old.max_bytes s r.new file) }
    ensures err { IfErr result (λ stop. (s : R) → IsAt R.read_gives R.failure_count s r.old source.old [] →
        HasStopped R.read_gives R.failure_count (R.at_end r.new) source.old.max_bytes s r.new source.new stop) }
{
    let head = match read_head(r, source) {
        Ok(head) => head,
        Err(stop) => return Err(stop),
    };
    let mut log = match LogScan::new(alloc, &head.setup, head.first) {
        Ok(log) => log,
        Err(kind) => return Err(Stop::Told(at_head(kind))),
    };
    match read_pages(alloc, r, source, &mut log) {
        Err(stop) => Err(stop),
        Ok(()) => {
            let (blocks, rest) = log.finish();
            Ok(LogFile { head, blocks, rest })
        }
    }
}

// What is told of bytes with which this is wrong: that, once the source has ended.
fn told_at_end<R: Source>(r: &mut R, source: &mut PageSource, fault: LogFault) -> LogFault
    requires failures { R.failure_count r.old + 1 < 2 ^ 64 }
    requires within { source.old.came ≤ source.old.max_bytes }
    requires limit { source.old.max_bytes < 2 ^ 50 }
    ensures { (s : R) → IsJudged R.read_gives R.failure_count s r.old source.old fault →
        Explains R.read_gives R.failure_count (R.at_end r.new) source.old.max_bytes s r.new result }
{
    match source.drain(r) {
        Ok(()) => fault,
        Err(kind) => of_source(kind, source, fault.page),
    }
}

/// Reads a log from `r` to its end, of at most `max_bytes` bytes, in at most `max_bytes + 2` reads, of which number
/// nothing is said where memory was refused.
///
/// Takes time in proportion to the bytes. The memory is that of the batches, twice 64 KiB in which bytes wait, one run
/// of at most 4,096 cells, and the chunks of one block. `r` must have failed less than 2^64 - 1 times before.
///
/// # Errors
///
/// The first of these that stands: `TooLong` where the source gives more than `max_bytes` bytes, with the page of the
/// first byte that is too many; `Truncated` where it gives fewer than a page; what is wrong with the head page, page 0;
/// and then, block by block, `Damaged` with its page, or `BadBlock` with the block's first page. So what isn't `Read`
/// or `Memory` is said of all bytes: they are read to their end before a fault of some of them is told. `Read` where a
/// read failed, and `Memory` where a growth was refused: the page that these two tell says nothing.
pub fn read_log<R: Source>(alloc: Global, r: &mut R, max_bytes: u64) -> Result<LogFile, LogFault>
    requires failures { R.failure_count r.old + 1 < 2 ^ 64 }
    requires limit { max_bytes < 2 ^ 50 }
    // The source ended, and what it gave is this log.
    ensures ok { IfOk result (λ file.
        ReadsLog R.read_gives R.failure_count (R.at_end r.new) max_bytes r.old r.new file) }
    // Memory was refused; or a read failed, or too many bytes came; or the source ended, and this is wrong with all
    // bytes that it gave.
    ensures err { IfErr result (λ fault.
        Explains R.read_gives R.failure_count (R.at_end r.new) max_bytes r.old r.new fault) }
{
    let Ok(mut source) = PageSource::new(alloc, max_bytes) else {
        return Err(at_head(LogKind::Memory));
    };
    match read_file(alloc, r, &mut source) {
        Ok(file) => Ok(file),
        Err(Stop::Told(fault)) => Err(fault),
        Err(Stop::Judged(fault)) => Err(told_at_end(r, &mut source, fault)),
    }
}
