//! Reads the log that stands under the name.
ghost use Rattle.std.specs.Prelude.{◌≡◌, ℕ, ◌+◌, ◌<◌, ◌≤◌, ◌^◌, List, length, IfOk, OnOk, IfErr, false};
ghost use Rattle.std.specs.List.{AllByRecursion};
ghost use Rattle.byte_io.specs.Buffers.{IsBytes};
ghost use Rattle.batch_store.specs.Setups.{Setting};
ghost use Rattle.batch_store.specs.Batches.{Submission, values};
ghost use Rattle.log_blocks.specs.Blocks.{IsBlock, log_pages};
ghost use Rattle.log_blocks.specs.Blocks.{Block as Chunks};
ghost use Rattle.log_blocks.specs.Scanning.{last_begin};
ghost use Rattle.log_blocks.specs.declared.fault.LogKind.{LogKind};
ghost use Rattle.log_read.specs.Logs.{AreBlocks, HoldsLog};
ghost use Rattle.log_start.specs.Found.{AreBytesOf, IsAsBefore, IsFound, IsRefused, lists_of, most_bytes};
ghost use Rattle.log_start.specs.Records.{joined};

use batch_store::Batch;
use log_batches::block_pages;
use log_blocks::{LogFault, LogKind};
use log_disk::LogDisk;
use log_file::LogEnd;
use log_head::LogHead;
use log_read::{Block, LogFile, read_log};
use log_source::LogSource;
use std::alloc::{AllocError, Global};
use std::sync::Arc;

/// The most bytes that a log's file may have.
const MOST_BYTES: u64 = 1 << 40;

/// A log as a start takes it: its head, the batches of its blocks, and where these end.
#[derive(Drop)]
pub struct FoundLog {
    pub head: LogHead,
    pub batches: Vec<Arc<Batch>>,
    pub end: LogEnd,
}

// The page where the last of these blocks begins, and the one behind it.
#[derive(Clone, Copy)]
struct LastPages {
    last: u64,
    page: u64,
}

// Where the pages of blocks end. No sum comes near 2^64 in a log that was read.
fn last_pages(blocks: &[Block]) -> LastPages
    ensures { (s : Setting) (first : ℕ) (found : List Chunks) → AreBlocks s 1 found blocks.now →
        AllByRecursion IsBlock found → length (log_pages first found) < 2 ^ 40 →
        (result.last ≡ last_begin 1 0 found) × (result.page ≡ 1 + length (log_pages first found)) }
{
    match blocks.last() {
        None => LastPages { last: 0, page: 1 },
        Some(block) => LastPages {
            last: block.page,
            page: block.page.saturating_add(block_pages(&block.batches)),
        },
    }
}

// The batches of all blocks, one block after another. They are moved.
fn flatten(alloc: Global, blocks: Vec<Block>) -> Result<Vec<Arc<Batch>>, AllocError>
    ensures { IfOk result (λ all. values all.items ≡ joined (lists_of blocks.items)) }
{
    let mut all = Vec::new(alloc);
    'each: for block in blocks {
        let mut batches = block.batches;
        all.append(&mut batches)?;
    }
    Ok(all)
}

// Takes a log apart that was read of a file of at most 2^40 bytes.
fn take_apart(alloc: Global, file: LogFile) -> Result<FoundLog, AllocError>
    requires { file.head.first ≤ 2 ^ 30 }
    ensures { IfOk result (λ log. (bytes : List ℕ) → IsBytes bytes → length bytes ≤ most_bytes →
        HoldsLog bytes file → IsFound bytes log) }
{
    let pages = last_pages(&file.blocks);
    let batches = flatten(alloc, file.blocks)?;
    let end = LogEnd {
        next: file.head.first + batches.len() as u64,
        page: pages.page,
        last: pages.last,
    };
    Ok(FoundLog {
        head: file.head,
        batches,
        end,
    })
}

// Reads a log from the source of a file, which stays the one that it was lent.
fn read_source<D: LogDisk>(
    alloc: Global,
    source: &mut LogSource<'_, D>,
) -> Result<LogFile, LogFault>
    requires failures { D.failure_count source.old.disk.now + 1 < 2 ^ 64 }
    requires begins { source.old.at ≡ 0 }
    ensures same_reference { OnOk result (source.new.disk.ghost_name ≡ source.old.disk.ghost_name) }
    ensures first { IfOk result (λ file. file.head.first ≤ 2 ^ 30) }
    ensures none_failed { OnOk result (D.failure_count source.new.disk.now ≡ D.failure_count source.old.disk.now) }
    ensures same { D.tells source.old.disk.now → OnOk result (IsAsBefore D.LogDisk source.old.disk.now
        source.new.disk.now) }
    ensures ok { IfOk result (λ file. (bytes : List ℕ) × IsBytes bytes × (length bytes ≤ most_bytes)
        × HoldsLog bytes file × AreBytesOf D.LogDisk source.old.disk.now source.old.end bytes) }
    ensures err { IfErr result (λ fault. IsRefused D.LogDisk source.old.disk.now source.new.disk.now
        source.old.end fault) }
{
    read_log(alloc, source, MOST_BYTES)
}

// Reads the log that a file of so many bytes has.
fn read_file<D: LogDisk>(alloc: Global, disk: &mut D, size: u64) -> Result<LogFile, LogFault>
    requires sound { D.in_doubt disk.old ≡ false }
    requires failures { D.failure_count disk.old + 1 < 2 ^ 64 }
    ensures sound { OnOk result (D.in_doubt disk.new ≡ false) }
    ensures first { IfOk result (λ file. file.head.first ≤ 2 ^ 30) }
    ensures none_failed { OnOk result (D.failure_count disk.new ≡ D.failure_count disk.old) }
    ensures same { D.tells disk.old → OnOk result (IsAsBefore D.LogDisk disk.old disk.new) }
    ensures ok { IfOk result (λ file. (bytes : List ℕ) × IsBytes bytes × (length bytes ≤ most_bytes)
        × HoldsLog bytes file × AreBytesOf D.LogDisk disk.old size bytes) }
    ensures err { IfErr result (λ fault. (after : D) ×
        IsRefused D.LogDisk disk.old after size fault) }
{
    let mut source = LogSource::new(disk, size);
    match read_source(alloc, &mut source) {
        Ok(file) => Ok(file),
        Err(fault) => Err(fault),
    }
}

/// Reads the log that a file of so many bytes has, to its end.
///
/// # Errors
///
/// Those of `read_log`. Where memory was refused the page that is told says nothing.
pub fn read_found<D: LogDisk>(alloc: Global, disk: &mut D, size: u64) -> Result<FoundLog, LogFault>
    requires sound { D.in_doubt disk.old ≡ false }
    requires failures { D.failure_count disk.old + 1 < 2 ^ 64 }
    ensures sound { OnOk result (D.in_doubt disk.new ≡ false) }
    ensures none_failed { OnOk result (D.failure_count disk.new ≡ D.failure_count disk.old) }
    // The file is as it was, and these are its bytes, where it tells them.
    ensures same { D.tells disk.old → OnOk result (IsAsBefore D.LogDisk disk.old disk.new) }
    ensures ok { IfOk result (λ log. (bytes : List ℕ) × IsFound bytes log
        × AreBytesOf D.LogDisk disk.old size bytes) }
    ensures err { IfErr result (λ fault. (after : D) ×
        IsRefused D.LogDisk disk.old after size fault) }
{
    let file = match read_file(alloc, disk, size) {
        Ok(file) => file,
        Err(fault) => return Err(fault),
    };
    match take_apart(alloc, file) {
        Ok(log) => Ok(log),
        Err(_) => Err(LogFault {
            kind: LogKind::Memory,
            page: 0,
        }),
    }
}
