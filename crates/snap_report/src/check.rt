//! `check`: reads a snapshot, and writes one line that says what it holds.
ghost use Rattle.std.specs.Prelude.{◌≡◌, ℕ, ◌+◌, ◌<◌, ◌≤◌, ◌^◌, ◌⊎◌, ◌++◌, List, [], Err, decimal, length, OnOk, IfOk};
ghost use Rattle.std.specs.Prelude.{IfErr};
ghost use Rattle.std.specs.FinMap.{len, empty};
ghost use Rattle.arrayvec.specs.ArrayString.{array_string_len};
ghost use Rattle.byte_io.specs.Writing.{HasTaken, HasStopped};
ghost use Rattle.byte_io.specs.declared.fault.WriteFault.{WriteFault};
ghost use Rattle.cells.specs.Bounds.{AreWithin};
ghost use Rattle.cells.specs.Order.{Rise};
ghost use Rattle.hyper_matrix.specs.Cells.{built_of};
ghost use Rattle.hyper_matrix.specs.Counts.{total, ewise_add};
ghost use Rattle.hyper_matrix.specs.Matrix.{matrix};
ghost use Rattle.batch_store.specs.Accepted.{accepted, summed};
ghost use Rattle.batch_store.specs.Batches.{values};
ghost use Rattle.batch_store.specs.Books.{list_total, AreAccepted, HaveDims, accepted_in};
ghost use Rattle.snap_file.specs.Snapshots.{HasBase, Saved};
ghost use Rattle.snap_report.specs.Checks.{line_of, check_line, LeavesOutput};
ghost use Rattle.snap_report.specs.Kept.{HasLoaded, IsReadTold, ComesLater};

use crate::fault::CheckFault;
use crate::limits::{CHECK_CUTS, SNAPSHOT_BYTES};
use arrayvec::ArrayString;
use batch_store::{Batch, BookList, Entry, Pieces, Setup};
use byte_io::{Sink, write_all};
use cells::Cell;
use layer_cascade::CascadeFault;
use pending_layers::PendingLayers;
use snap_file::SnapshotFile;
use std::alloc::{AllocError, Global};
use std::sync::Arc;

// More than the bytes of the longest lines: ten numbers of at most 20 digits, and 78 more.
pub(crate) const LINE_CAPACITY: usize = 320;

// Empty layers in the dimensions of a setup.
fn empty_layers(alloc: Global, setup: &Setup) -> Result<PendingLayers, AllocError>
    ensures { IfOk result (λ layers. layers ≡ matrix setup.now.rows setup.now.cols empty) }
{
    match PendingLayers::new(alloc, setup.rows(), setup.cols(), &CHECK_CUTS, 0) {
        Ok(layers) => Ok(layers),
        Err(CascadeFault::Memory) => Err(AllocError),
        Err(CascadeFault::BadCuts) => unreachable!(),
    }
}

// Layers with a batch added, whose cells wait in their list.
fn with_batch(
    alloc: Global,
    layers: PendingLayers,
    batch: &Batch,
) -> Result<PendingLayers, AllocError>
    requires rows { batch.now.matrix.rows ≡ layers.rows }
    requires cols { batch.now.matrix.cols ≡ layers.cols }
    requires fits { total layers.counts + total batch.now.matrix.counts < 2 ^ 64 }
    ensures dims { IfOk result (λ after. (after.rows ≡ layers.rows) × (after.cols ≡ layers.cols)) }
    ensures sum { IfOk result (λ after. after.counts ≡ ewise_add layers.counts batch.now.matrix.counts) }
{
    let matrix = &batch.matrix;
    let after = layers.add(alloc, matrix)?;
    Ok(after)
}

/// The cells of the sum of a base and of all batches, by row and then by column, each place once.
pub(crate) fn sum_of(
    alloc: Global,
    setup: &Setup,
    base: &Pieces,
    batches: &[Arc<Batch>],
) -> Result<Vec<Cell>, AllocError>
    requires based { (base.now.whole.rows ≡ setup.now.rows) × (base.now.whole.cols ≡ setup.now.cols) }
    requires dims { HaveDims setup.now.rows setup.now.cols (values batches.now) }
    requires fits { total base.now.whole.counts + list_total (values batches.now) < 2 ^ 64 }
    ensures rises { IfOk result (λ list. Rise list.items) }
    ensures within { IfOk result (λ list. AreWithin setup.now.rows setup.now.cols list.items) }
    ensures sum { IfOk result (λ list.
        built_of list.items ≡ summed (accepted base.now.whole.counts [] (values batches.now))) }
{
    let empty = empty_layers(alloc, setup)?;
    let whole = base.sum(alloc)?;
    let mut layers = empty.add(alloc, &whole)?;
    for batch in batches {
        layers = with_batch(alloc, layers, batch)?;
    }
    let cells = layers.into_cells(alloc)?;
    Ok(cells)
}

// The number of entries of the sum of a base and of all batches.
fn entries_of(
    alloc: Global,
    setup: &Setup,
    base: &Pieces,
    batches: &[Arc<Batch>],
) -> Result<u64, AllocError>
    requires based { (base.now.whole.rows ≡ setup.now.rows) × (base.now.whole.cols ≡ setup.now.cols) }
    requires dims { HaveDims setup.now.rows setup.now.cols (values batches.now) }
    requires fits { total base.now.whole.counts + list_total (values batches.now) < 2 ^ 64 }
    ensures { IfOk result (λ entries.
        entries ≡ len (summed (accepted base.now.whole.counts [] (values batches.now)))) }
{
    let cells = sum_of(alloc, setup, base, batches)?;
    Ok(cells.len() as u64)
}

// The total that a batch keeps.
fn total_of_one(batch: &Batch) -> u64
    ensures { result ≡ total batch.now.matrix.counts }
{
    batch.total
}

// The counts of all batches together.
pub(crate) fn total_of(batches: &[Arc<Batch>]) -> u64
    requires { list_total (values batches.now) < 2 ^ 64 }
    ensures { result ≡ list_total (values batches.now) }
{
    let mut sum = 0;
    for batch in batches {
        sum += total_of_one(batch);
    }
    sum
}

// Appends a word and a number.
pub(crate) fn push_number(line: &mut ArrayString<LINE_CAPACITY>, word: &str, n: u64)
    requires room { array_string_len line.old + length word.now + 20 ≤ 320 }
    ensures bytes { line.new.bytes ≡ line.old.bytes ++ (word.now ++ decimal n) }
    ensures short { array_string_len line.new ≤ array_string_len line.old + length word.now + 20 }
{
    let mut digits = itoa::Buffer::new();
    line.push_str(word);
    line.push_str(digits.format(n));
}

// The line of a snapshot of these numbers.
fn line_of(setup: &Setup, batches: u64, total: u64, entries: u64) -> ArrayString<LINE_CAPACITY>
    ensures bytes { result.bytes ≡ line_of setup.now.rows setup.now.cols setup.now.shards batches total entries }
    ensures short { array_string_len result ≤ 165 }
{
    let mut line = ArrayString::new();
    push_number(&mut line, "rows ", setup.rows());
    push_number(&mut line, " cols ", setup.cols());
    push_number(&mut line, " shards ", setup.shards());
    push_number(&mut line, " batches ", batches);
    push_number(&mut line, " total ", total);
    push_number(&mut line, " entries ", entries);
    line.push_str("\n");
    line
}

// The line of a setup and of what was accepted.
fn line_of_parts(
    alloc: Global,
    setup: &Setup,
    base: &Pieces,
    folded: &[Entry],
    batches: &[Arc<Batch>],
) -> Result<ArrayString<LINE_CAPACITY>, AllocError>
    requires accepted { AreAccepted setup.now (accepted base.now.whole.counts folded.now (values batches.now)) }
    requires based { (base.now.whole.rows ≡ setup.now.rows) × (base.now.whole.cols ≡ setup.now.cols) }
    ensures bytes { IfOk result (λ line.
        line.bytes ≡ check_line setup.now (accepted base.now.whole.counts folded.now (values batches.now))) }
    ensures short { IfOk result (λ line. array_string_len line ≤ 165) }
{
    // The limits bound the total and the number of batches.
    let _limits = (setup.limit(), setup.max_batches());
    let entries = entries_of(alloc, setup, base, batches)?;
    let count = folded.len() as u64 + batches.len() as u64;
    let total = base.total() + total_of(batches);
    Ok(line_of(setup, count, total, entries))
}

// The line of a setup and a list.
pub(crate) fn line_of_list(
    alloc: Global,
    setup: &Setup,
    list: &BookList,
) -> Result<ArrayString<LINE_CAPACITY>, AllocError>
    requires accepted { AreAccepted setup.now (accepted_in list.now) }
    requires based { HasBase setup.now list.now }
    ensures bytes { IfOk result (λ line. line.bytes ≡ check_line setup.now (accepted_in list.now)) }
    ensures short { IfOk result (λ line. array_string_len line ≤ 165) }
{
    line_of_parts(alloc, setup, &list.base, &list.folded, &list.batches)
}

// Writes what was put together.
pub(crate) fn write_line<W: Sink>(
    w: &mut W,
    line: &ArrayString<LINE_CAPACITY>,
) -> Result<(), CheckFault>
    requires { W.failure_count w.old + 1 < 2 ^ 64 }
    ensures ok { OnOk result (HasTaken W.write_takes W.failure_count w.old w.new line.now.bytes) }
    ensures output { (fault : WriteFault) → result ≡ Err (CheckFault.Output fault) →
        HasStopped W.write_takes W.failure_count w.old w.new line.now.bytes fault.written }
    ensures only { IfErr result LeavesOutput }
{
    match write_all(w, line.as_str().as_bytes()) {
        Ok(()) => Ok(()),
        Err(fault) => Err(CheckFault::Output(fault)),
    }
}

// Writes the line of a setup and a list.
fn write_check<W: Sink>(
    alloc: Global,
    w: &mut W,
    setup: &Setup,
    list: &BookList,
) -> Result<(), CheckFault>
    requires failures { W.failure_count w.old + 1 < 2 ^ 64 }
    requires accepted { AreAccepted setup.now (accepted_in list.now) }
    requires based { HasBase setup.now list.now }
    ensures ok { OnOk result (HasTaken W.write_takes W.failure_count w.old w.new
        (check_line setup.now (accepted_in list.now))) }
    ensures output { (fault : WriteFault) → result ≡ Err (CheckFault.Output fault) →
        HasStopped W.write_takes W.failure_count w.old w.new (check_line setup.now (accepted_in list.now))
        fault.written }
    ensures unwritten { IfErr result (λ fault. LeavesOutput fault ⊎ (w.new ≡ w.old)) }
    ensures later { IfErr result ComesLater }
{
    let line = match line_of_list(alloc, setup, list) {
        Ok(line) => line,
        Err(_) => return Err(CheckFault::Memory),
    };
    write_line(w, &line)
}

/// Reads the snapshot in a file, and writes the line `rows R cols C shards K batches B total T entries E`, where B and
/// T count folded batches too, and E is the number of cells of the sum of all.
///
/// Takes the memory of the list, of at most 2^23 cells that wait, or as many as the base or one batch has, and where
/// more come of layers with the cuts 4,096, 65,536 and 1,048,576; and at the end of one list of all cells in these
/// layers and that list: 24 bytes each, and half as much again while they are merged.
///
/// # Errors
///
/// `File` where there is no such file, where it can't be opened or read, or where it is no snapshot; `Memory`; and
/// `Output` where the line could not be written. Only `Output` leaves anything written.
pub fn run_check<F: SnapshotFile, W: Sink>(
    alloc: Global,
    file: &mut F,
    w: &mut W,
) -> Result<(), CheckFault>
    requires { W.failure_count w.old + 1 < 2 ^ 64 }
    // One load is made of the file, and no save. What was written is the line of the snapshot that it has answered.
    ensures ok { OnOk result ((x : Saved) × HasLoaded F.load_gives file.old file.new x
        × HasTaken W.write_takes W.failure_count w.old w.new (check_line x.setup (accepted_in x.list))) }
    ensures output { (fault : WriteFault) → result ≡ Err (CheckFault.Output fault) →
        (x : Saved) × HasLoaded F.load_gives file.old file.new x
        × HasStopped W.write_takes W.failure_count w.old w.new (check_line x.setup (accepted_in x.list)) fault.written }
    ensures told { IfErr result (λ fault. IsReadTold F.load_gives file.old file.new fault) }
    ensures unwritten { IfErr result (λ fault. LeavesOutput fault ⊎ (w.new ≡ w.old)) }
{
    let snapshot = file.load(alloc, SNAPSHOT_BYTES)?;
    write_check(alloc, w, &snapshot.setup, &snapshot.list)
}
