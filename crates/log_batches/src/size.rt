//! How many pages a block takes.
ghost use Rattle.std.specs.Prelude.{◌≡◌, ◌+◌, ◌-◌, ◌*◌, ◌/◌, ◌<◌, ◌≤◌, ◌^◌, length, min};
ghost use Rattle.batch_store.specs.Batches.{values};
ghost use Rattle.snap_file.specs.Spelling.{batch_bytes, matrix_bytes};
ghost use Rattle.log_batches.specs.Payloads.{block_of, payload_bytes};

use batch_store::Batch;
use hyper_matrix::Hyper;
use std::sync::Arc;

/// How many bytes a matrix takes, or 2^64 - 1 where they are more.
fn matrix_size(m: &Hyper) -> u64
    ensures { result ≡ min (length (matrix_bytes m.now.counts)) (2 ^ 64 - 1) }
{
    m.entries().saturating_mul(24).saturating_add(8)
}

/// How many bytes a batch takes, or 2^64 - 1 where they are more.
fn batch_size(batch: &Batch) -> u64
    ensures { result ≡ min (length (batch_bytes batch.now)) (2 ^ 64 - 1) }
{
    matrix_size(&batch.matrix).saturating_add(16)
}

/// How many pages the block of these batches takes, where that is below 2^50; else a number from there on, so that
/// whoever compares it with the room that there is isn't misled. Takes constant time for each batch.
pub fn block_pages(batches: &[Arc<Batch>]) -> u64
    ensures exact { result ≡ (min (length (payload_bytes (values batches.now))) (2 ^ 64 - 1) - 1) / 4072 + 1 }
    ensures few { result < 2 ^ 50 → result ≡ length (block_of (values batches.now)) }
    ensures many { 2 ^ 50 ≤ result → 2 ^ 50 ≤ length (block_of (values batches.now)) }
{
    let mut bytes: u64 = 8;
    for batch in batches {
        bytes = bytes.saturating_add(batch_size(batch));
    }
    (bytes - 1) / 4072 + 1
}
