//! `check` of several snapshots: one line that says what they hold together.
ghost use Rattle.std.specs.Prelude.{◌≡◌, ℕ, ◌+◌, ◌<◌, ◌≤◌, ◌^◌, ◌⊎◌, List, None, Err, unwrap_or, OnOk, IfOk, IfErr};
ghost use Rattle.arrayvec.specs.ArrayString.{array_string_len};
ghost use Rattle.byte_io.specs.Writing.{HasTaken, HasStopped};
ghost use Rattle.byte_io.specs.declared.fault.WriteFault.{WriteFault};
ghost use Rattle.hyper_matrix.specs.Matrix.{matrix};
ghost use Rattle.snap_file.specs.Snapshots.{Saved};
ghost use Rattle.snap_report.specs.Checks.{line_of};
ghost use Rattle.snap_export.specs.Several.{added_up, AddUp, TellsSum, Tells, LeavesText};
ghost use Rattle.snap_query.specs.Spans.{batches_in, shards_in, span_line};

use crate::counting::Counting;
use crate::words::{LINE_CAPACITY, push_number, write_line};
use arrayvec::ArrayString;
use byte_io::Sink;
use hyper_matrix::Hyper;
use snap_export::{ExportFault, SnapshotFiles, load_sum};
use std::alloc::Global;

// The line of these numbers.
fn line_of(
    rows: u64,
    cols: u64,
    shards: u64,
    batches: u64,
    total: u64,
    entries: u64,
) -> ArrayString<LINE_CAPACITY>
    ensures { result.bytes ≡ line_of rows cols shards batches total entries }
{
    let mut line = ArrayString::new();
    push_number(&mut line, "rows ", rows);
    push_number(&mut line, " cols ", cols);
    push_number(&mut line, " shards ", shards);
    push_number(&mut line, " batches ", batches);
    push_number(&mut line, " total ", total);
    push_number(&mut line, " entries ", entries);
    line.push_str("\n");
    line
}

// Loads so many snapshots, counts their batches, and gives the sum.
fn sum_counted<F: SnapshotFiles>(
    alloc: Global,
    counting: &mut Counting<'_, F>,
    count: u64,
) -> Result<Hyper, ExportFault>
    requires some { 0 < count }
    requires begun { (counting.old.batches ≡ 0) × (counting.old.shards ≡ None) }
    ensures same_reference { counting.new.files.ghost_name ≡ counting.old.files.ghost_name }
    ensures ok { IfOk result (λ sum. (rows cols : ℕ) × (xs : List Saved)
        × AddUp F.load_gives counting.old.files.now counting.new.files.now count rows cols xs
        × (sum ≡ matrix rows cols (added_up xs))
        × (counting.new.batches ≡ batches_in xs) × (unwrap_or counting.new.shards 0 ≡ shards_in xs)) }
    ensures err { IfErr result (λ fault.
        TellsSum F.load_gives counting.old.files.now counting.new.files.now count fault) }
{
    load_sum(alloc, counting, count)
}

// Loads so many snapshots, and gives the line of all.
fn line_of_all<F: SnapshotFiles>(
    alloc: Global,
    files: &mut F,
    count: u64,
) -> Result<ArrayString<LINE_CAPACITY>, ExportFault>
    requires some { 0 < count }
    ensures ok { IfOk result (λ line. (rows cols : ℕ) × (xs : List Saved)
        × AddUp F.load_gives files.old files.new count rows cols xs × (line.bytes ≡ span_line rows cols xs)) }
    ensures err { IfErr result (λ fault. TellsSum F.load_gives files.old files.new count fault) }
{
    let mut counting = Counting::new(files);
    let sum = sum_counted(alloc, &mut counting, count)?;
    let (rows, cols) = sum.dims();
    let (shards, batches) = (counting.shards(), counting.batches());
    Ok(line_of(rows, cols, shards, batches, sum.total(), sum.entries()))
}

/// Loads so many snapshots of the same dimensions, one after the other, and writes the line of `run_check` of all: B
/// counts the batches of each file, folded ones too, T is their total, E the number of cells of the sum of all, and K
/// how many shards the first has. A file that is given twice counts twice.
///
/// Takes the memory and the time of `load_sum`.
///
/// # Errors
///
/// Those of `load_sum`, in its order, and then `Output`. Only `Output` leaves anything written.
pub fn run_check_of<F: SnapshotFiles, W: Sink>(
    alloc: Global,
    files: &mut F,
    count: u64,
    w: &mut W,
) -> Result<(), ExportFault>
    requires some { 0 < count }
    requires writes { W.failure_count w.old + 1 < 2 ^ 64 }
    // So many loads were made, one after the other, and have answered snapshots of one size that fit together; what was
    // written is the line of all.
    ensures ok { OnOk result ((rows cols : ℕ) × (xs : List Saved)
        × AddUp F.load_gives files.old files.new count rows cols xs
        × HasTaken W.write_takes W.failure_count w.old w.new (span_line rows cols xs)) }
    ensures output { (fault : WriteFault) → result ≡ Err (ExportFault.Output fault) →
        (rows cols : ℕ) × (xs : List Saved) × AddUp F.load_gives files.old files.new count rows cols xs
        × HasStopped W.write_takes W.failure_count w.old w.new (span_line rows cols xs) fault.written }
    ensures told { IfErr result (λ fault. Tells F.load_gives files.old files.new count fault) }
    ensures unwritten { IfErr result (λ fault. LeavesText fault ⊎ (w.new ≡ w.old)) }
{
    let line = line_of_all(alloc, files, count)?;
    match write_line(w, &line) {
        Ok(()) => Ok(()),
        Err(fault) => Err(ExportFault::Output(fault)),
    }
}
