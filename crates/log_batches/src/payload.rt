//! Writes the batches of a block as bytes, one behind another.
ghost use Rattle.std.specs.Prelude.{◌≡◌, ◌+◌, ◌*◌, ◌<◌, ◌≤◌, ◌++◌, ℕ, length, take, drop, flat_map, slice_index};
ghost use Rattle.std.specs.Int.{w64};
ghost use Rattle.hyper_matrix.specs.Matrix.{matrix};
ghost use Rattle.batch_store.specs.Batches.{submission, values};
ghost use Rattle.snap_file.specs.Spelling.{number_bytes, cell_bytes, matrix_bytes, batch_bytes};
ghost use Rattle.log_batches.specs.Payloads.{payload_bytes};

use batch_store::Batch;
use cells::Cell;
use hyper_matrix::Hyper;
use std::sync::Arc;

/// Writes bytes over those from a place on.
pub(crate) fn put(out: &mut [u8], at: usize, bytes: &[u8])
    requires { at + length bytes.now ≤ length out.old }
    ensures front { take at out.new ≡ take at out.old }
    ensures behind { drop at out.new ≡ bytes.now ++ drop (at + length bytes.now) out.old }
{
    out[at..at + bytes.len()].copy_from_slice(bytes);
}

/// Writes a number over eight bytes, and answers the place behind them.
fn put_number(out: &mut [u8], at: usize, n: u64) -> usize
    requires { at + 8 ≤ length out.old }
    ensures place { result ≡ at + 8 }
    ensures bytes { take result out.new ≡ take at out.old ++ number_bytes w64 n }
    ensures len { length out.new ≡ length out.old }
{
    put(out, at, &n.to_be_bytes());
    at + 8
}

/// Writes a cell.
fn put_cell(out: &mut [u8], at: usize, cell: Cell) -> usize
    requires { at + 24 ≤ length out.old }
    ensures place { result ≡ at + 24 }
    ensures bytes { take result out.new ≡ take at out.old ++ cell_bytes ((cell.row, cell.col), cell.count) }
    ensures len { length out.new ≡ length out.old }
{
    let at = put_number(out, at, cell.row);
    let at = put_number(out, at, cell.col);
    put_number(out, at, cell.count)
}

/// Writes the cells of a matrix, behind their number.
fn put_matrix(out: &mut [u8], at: usize, m: &Hyper) -> usize
    requires { at + length (matrix_bytes m.now.counts) ≤ length out.old }
    ensures place { result ≡ at + length (matrix_bytes m.now.counts) }
    ensures bytes { take result out.new ≡ take at out.old ++ matrix_bytes m.now.counts }
    ensures len { length out.new ≡ length out.old }
{
    let mut end = put_number(out, at, m.entries());
    for cell in m.iter() {
        end = put_cell(out, end, cell);
    }
    end
}

/// Writes a batch by its parts.
fn put_parts(out: &mut [u8], at: usize, client: u64, number: u64, m: &Hyper) -> usize
    requires { at + length (batch_bytes (submission client number m.now)) ≤ length out.old }
    ensures place { result ≡ at + length (batch_bytes (submission client number m.now)) }
    ensures bytes { take result out.new ≡ take at out.old ++ batch_bytes (submission client number m.now) }
    ensures len { length out.new ≡ length out.old }
{
    let at = put_number(out, at, client);
    let at = put_number(out, at, number);
    put_matrix(out, at, m)
}

/// Writes a batch.
fn put_batch(out: &mut [u8], at: usize, batch: &Batch) -> usize
    requires { at + length (batch_bytes batch.now) ≤ length out.old }
    ensures place { result ≡ at + length (batch_bytes batch.now) }
    ensures bytes { take result out.new ≡ take at out.old ++ batch_bytes batch.now }
    ensures len { length out.new ≡ length out.old }
{
    put_parts(out, at, batch.client, batch.number, &batch.matrix)
}

/// Writes batches.
fn put_batches(out: &mut [u8], at: usize, batches: &[Arc<Batch>]) -> usize
    requires { at + length (flat_map batch_bytes (values batches.now)) ≤ length out.old }
    ensures place { result ≡ at + length (flat_map batch_bytes (values batches.now)) }
    ensures bytes { take result out.new ≡ take at out.old ++ flat_map batch_bytes (values batches.now) }
    ensures len { length out.new ≡ length out.old }
{
    let mut end = at;
    for batch in batches {
        end = put_batch(out, end, batch);
    }
    end
}

/// Writes 00 from one place up to another.
fn put_zeros(out: &mut [u8], from: usize, end: usize)
    requires { end ≤ length out.old }
    ensures front { (i : ℕ) → i < from → slice_index out.new i ≡ slice_index out.old i }
    ensures zeros { (i : ℕ) → from ≤ i → i < end → slice_index out.new i ≡ 0 }
    ensures len { length out.new ≡ length out.old }
{
    for i in from..end {
        out[i] = 0;
    }
}

/// Writes the bytes of a block, and 00 behind them up to the end of its last page.
pub(crate) fn put_payload(out: &mut [u8], batches: &[Arc<Batch>], end: usize)
    requires end { end ≤ length out.old }
    requires room { length (payload_bytes (values batches.now)) ≤ end }
    requires filled { end ≤ length (payload_bytes (values batches.now)) + 4071 }
    ensures bytes { (i : ℕ) → i < end →
        slice_index out.new i ≡ slice_index (payload_bytes (values batches.now)) i }
    ensures len { length out.new ≡ length out.old }
{
    let first = put_number(out, 0, batches.len() as u64);
    let last = put_batches(out, first, batches);
    put_zeros(out, last, end);
}
