//! Writes a block.
ghost use Rattle.std.specs.Prelude.{◌≡◌, ◌+◌, ◌-◌, ◌*◌, ◌^◌, ◌<◌, ◌≤◌, length, take, vec_capacity, OnOk, OnErr};
ghost use Rattle.std.specs.Prelude.{true, false};
ghost use Rattle.batch_store.specs.Batches.{values};
ghost use Rattle.log_blocks.specs.Blocks.{Block, block_pages};
ghost use Rattle.log_blocks.specs.Files.{joined};
ghost use Rattle.log_batches.specs.Payloads.{block_of};
ghost use Rattle.log_file.specs.Logs.{Log, with_next};
ghost use Rattle.log_file.specs.Writer.{IsSettled};
ghost use Rattle.stored_log.specs.Sizes.{buffer_pages, most_pages, pages_in, pages_taken};

use batch_store::Batch;
use byte_io::DeviceFault;
use log_batches::{block_pages, encode_block};
use log_disk::LogDisk;
use log_page::PAGE;
use open_log::OpenLog;
use std::sync::Arc;

/// How many pages the largest block of a group takes.
const BUFFER_PAGES: u64 = 6_187;

/// How many pages a block of these batches takes, and 2^64 - 1 where they are more than a buffer holds.
pub(crate) fn pages_of(batches: &[Arc<Batch>]) -> u64
    ensures { result ≡ pages_taken (values batches.now) }
{
    let pages = block_pages(batches);
    if pages <= BUFFER_PAGES {
        pages
    } else {
        u64::MAX
    }
}

/// Makes a buffer so long at least, within what it has reserved.
fn lengthen(buffer: &mut Vec<u8>, bytes: usize)
    requires within { bytes ≤ 25341952 }
    requires reserved { 25341952 ≤ vec_capacity buffer.old }
    ensures long { bytes ≤ length buffer.new.items }
    ensures reserved { 25341952 ≤ vec_capacity buffer.new }
{
    if buffer.len() < bytes {
        let is_lengthened = buffer.resize_with(bytes, || 0).is_ok();
        prove!(is_lengthened);
    }
}

/// Spells the block of these batches at the front of a buffer, and answers how many pages it has.
fn spell_block(buffer: &mut Vec<u8>, place: u64, batches: &[Arc<Batch>]) -> u64
    requires few { pages_in (values batches.now) ≤ buffer_pages }
    requires reserved { 25341952 ≤ vec_capacity buffer.old }
    ensures pages { result ≡ pages_in (values batches.now) }
    ensures count { result ≡ length (block_of (values batches.now)) }
    ensures bytes { take (4096 * result) buffer.new.items ≡ joined (block_pages place (block_of (values batches.now))) }
    ensures long { 4096 * result ≤ length buffer.new.items }
    ensures reserved { 25341952 ≤ vec_capacity buffer.new }
{
    let pages = block_pages(batches);
    lengthen(buffer, PAGE * pages as usize);
    encode_block(buffer.as_mut_slice(), place, batches)
}

/// Writes the block of these batches behind a log, for which there is room, by one write and one sync.
///
/// # Errors
///
/// `DeviceFault` where one of the two failed. The disk is in doubt from then on.
pub(crate) fn write_block<D: LogDisk>(
    log: &mut OpenLog<D>,
    buffer: &mut Vec<u8>,
    batches: &[Arc<Batch>],
) -> Result<(), DeviceFault>
    ghost known: { Log × Block }
    requires settled { D.telling → D.tells log.old.file.disk ×
        IsSettled D.written D.may_leave log.old.file.disk log.old.writer known.0 }
    requires block_is { known.1 ≡ block_of (values batches.now) }
    requires some { 0 < length batches.now }
    requires room { pages_taken (values batches.now) ≤ log.old.writer.room }
    requires reserved { 25341952 ≤ vec_capacity buffer.old }
    requires working { D.in_doubt log.old.file.disk ≡ false }
    requires failures { D.failure_count log.old.file.disk + 1 < 2 ^ 64 }
    requires pages { log.old.writer.page + log.old.writer.room ≤ most_pages }
    requires places { log.old.writer.next ≤ 2 ^ 62 + 170 * log.old.writer.page }
    ensures settled { D.telling → OnOk result (D.tells log.new.file.disk ×
        IsSettled D.written D.may_leave log.new.file.disk log.new.writer (with_next known.0 known.1)) }
    ensures working { OnOk result (D.in_doubt log.new.file.disk ≡ false) }
    ensures room { OnOk result (log.old.writer.room ≡ log.new.writer.room + pages_taken (values batches.now)) }
    ensures doubt { OnErr result (D.in_doubt log.new.file.disk ≡ true) }
    ensures failures { OnOk result (D.failure_count log.new.file.disk + 1 < 2 ^ 64) }
    ensures pages { log.new.writer.page + log.new.writer.room ≤ most_pages }
    ensures places { log.new.writer.next ≤ 2 ^ 62 + 170 * log.new.writer.page }
    ensures number { log.new.file.number ≡ log.old.file.number }
    ensures reserved { 25341952 ≤ vec_capacity buffer.new }
{
    let pages = spell_block(buffer, log.writer.mark().next, batches);
    let bytes = &buffer[..PAGE * pages as usize];
    log.writer
        .append(&mut log.file.disk, bytes, pages, batches.len() as u64)
}
