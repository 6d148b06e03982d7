//! Writes snapshots.
ghost use Rattle.std.specs.Prelude.{◌≡◌, ℕ, ◌+◌, ◌*◌, ◌<◌, ◌≤◌, ◌^◌, List, [], ◌∷◌, ◌++◌, length, flat_map, map, IfOk};
ghost use Rattle.std.specs.Prelude.{OnOk, IfErr};
ghost use Rattle.std.specs.Int.{w8, w32, w64};
ghost use Rattle.std.specs.List.{concat};
ghost use Rattle.hyper_matrix.specs.Counts.{total};
ghost use Rattle.batch_store.specs.Accepted.{accepted};
ghost use Rattle.batch_store.specs.Batches.{values};
ghost use Rattle.batch_store.specs.Books.{list_total, AreAccepted, accepted_in};
ghost use Rattle.batch_store.specs.Verdicts.{total_of_entries};
ghost use Rattle.snap_file.specs.Snapshots.{HasBase};
ghost use Rattle.snap_file.specs.Spelling.{number_bytes, version, head_bytes, cell_bytes, matrix_bytes, batch_bytes};
ghost use Rattle.snap_file.specs.Spelling.{entry_bytes, past_bytes, check_bytes, checked_bytes, file, flag};
ghost use Rattle.snap_file.specs.Spelling.{origin_bytes, origin_in};
ghost use Rattle.crc32c.specs.Remainders.{after_bytes};
ghost use Rattle.snap_file.specs.Writing.{IsWriting};
ghost use Rattle.byte_io.specs.Writing.{HasTaken, HasStopped};

use crate::limits::{MARK, VERSION};
use crate::origin::Origin;
use crate::writer::ByteWriter;
use batch_store::{Batch, BookList, Entry, Pieces, Setup};
use byte_io::{Sink, WRITE_CAPACITY, WriteFault};
use cells::Cell;
use hyper_matrix::Hyper;
use std::sync::Arc;

// The total that a batch keeps.
fn total_of_one(batch: &Batch) -> u64
    ensures { result ≡ total batch.now.matrix.counts }
{
    batch.total
}

/// The sum of all batches' totals.
fn total_of(batches: &[Arc<Batch>]) -> u64
    requires { list_total (values batches.now) < 2 ^ 64 }
    ensures { result ≡ list_total (values batches.now) }
{
    let mut sum = 0;
    for batch in batches {
        sum += total_of_one(batch);
    }
    sum
}

/// Appends the cuts.
fn push_cuts(writer: &mut ByteWriter, cuts: &[u64])
    requires { length writer.old.pending + 8 * length cuts.now ≤ WRITE_CAPACITY }
    ensures taken { writer.new.taken ≡ writer.old.taken }
    ensures pending { writer.new.pending ≡ writer.old.pending ++ flat_map (number_bytes w64) cuts.now }
    ensures length { length writer.new.pending ≡ length writer.old.pending + 8 * length cuts.now }
    ensures summed { (r : ℕ) → writer.old.remainder ≡ after_bytes r writer.old.pending →
        writer.new.remainder ≡ after_bytes r writer.new.pending }
{
    for cut in cuts {
        writer.push_u64(*cut);
    }
}

/// The byte that says whether a log goes with a file.
fn flag_of(has_log: bool) -> u8
    ensures { result ≡ flag has_log }
{
    if has_log { 1 } else { 0 }
}

/// Appends the head of a file to nothing.
fn push_head(writer: &mut ByteWriter, setup: &Setup, batches: u64, total: u64)
    requires empty { writer.old.pending ≡ [] }
    ensures taken { writer.new.taken ≡ writer.old.taken }
    ensures pending { writer.new.pending ≡ head_bytes version setup.now batches total }
    ensures length { length writer.new.pending ≤ 118 }
    ensures summed { (r : ℕ) → writer.old.remainder ≡ after_bytes r writer.old.pending →
        writer.new.remainder ≡ after_bytes r writer.new.pending }
{
    writer.push_u64(MARK);
    writer.push_u32(VERSION);
    writer.push_u64(setup.rows());
    writer.push_u64(setup.cols());
    let cuts = setup.cuts();
    writer.push_u8(cuts.len() as u8);
    push_cuts(writer, cuts);
    writer.push_u8(setup.shards() as u8);
    writer.push_u64(setup.limit());
    writer.push_u64(setup.max_batches());
    writer.push_u64(batches);
    writer.push_u64(total);
}

/// Appends whose a file is.
fn push_origin(writer: &mut ByteWriter, origin: Origin)
    requires { length writer.old.pending + 25 ≤ WRITE_CAPACITY }
    ensures taken { writer.new.taken ≡ writer.old.taken }
    ensures pending { writer.new.pending ≡ writer.old.pending ++ origin_bytes origin }
    ensures length { length writer.new.pending ≡ length writer.old.pending + 25 }
    ensures summed { (r : ℕ) → writer.old.remainder ≡ after_bytes r writer.old.pending →
        writer.new.remainder ≡ after_bytes r writer.new.pending }
{
    writer.push_u64(origin.identity.book_high);
    writer.push_u64(origin.identity.book_low);
    writer.push_u64(origin.identity.window);
    writer.push_u8(flag_of(origin.has_log));
}

/// Appends the head of a file and whose it is, to nothing.
fn push_front(writer: &mut ByteWriter, origin: Origin, setup: &Setup, batches: u64, total: u64)
    requires empty { writer.old.pending ≡ [] }
    ensures taken { writer.new.taken ≡ writer.old.taken }
    ensures pending { writer.new.pending ≡ head_bytes version setup.now batches total ++ origin_in version origin }
    ensures length { length writer.new.pending ≤ 143 }
    ensures summed { (r : ℕ) → writer.old.remainder ≡ after_bytes r writer.old.pending →
        writer.new.remainder ≡ after_bytes r writer.new.pending }
{
    push_head(writer, setup, batches, total);
    push_origin(writer, origin);
}

/// Appends the checksum of all that was appended.
fn write_check<W: Sink>(writer: &mut ByteWriter, w: &mut W) -> Result<(), WriteFault>
    requires failures { W.failure_count w.old + 1 < 2 ^ 64 }
    requires countable { writer.old.taken + length writer.old.pending < 2 ^ 126 }
    ensures count { OnOk result (writer.new.taken + length writer.new.pending ≡
        writer.old.taken + length writer.old.pending + 4) }
    ensures ok { OnOk result ((s : W) (all front left : List ℕ) →
        all ≡ front ++ (check_bytes version front ++ left) →
        IsWriting W.write_takes W.failure_count s w.old all writer.old (check_bytes version front ++ left) →
        IsWriting W.write_takes W.failure_count s w.new all writer.new left) }
    ensures err { IfErr result (λ f. (s : W) (all left : List ℕ) →
        IsWriting W.write_takes W.failure_count s w.old all writer.old left →
        HasStopped W.write_takes W.failure_count s w.new all f.written) }
    ensures failures { OnOk result (W.failure_count w.new ≡ W.failure_count w.old) }
{
    writer.make_room(w)?;
    let sum = writer.sum();
    writer.push_u32(sum);
    Ok(())
}

/// Appends a cell.
fn write_cell<W: Sink>(writer: &mut ByteWriter, w: &mut W, cell: Cell) -> Result<(), WriteFault>
    requires failures { W.failure_count w.old + 1 < 2 ^ 64 }
    requires countable { writer.old.taken + length writer.old.pending < 2 ^ 126 }
    ensures count { OnOk result (writer.new.taken + length writer.new.pending ≡
        writer.old.taken + length writer.old.pending + 24) }
    ensures ok { OnOk result ((s : W) (all left : List ℕ) →
        IsWriting W.write_takes W.failure_count s w.old all writer.old
        (cell_bytes ((cell.row, cell.col), cell.count) ++ left) →
        IsWriting W.write_takes W.failure_count s w.new all writer.new left) }
    ensures err { IfErr result (λ f. (s : W) (all left : List ℕ) →
        IsWriting W.write_takes W.failure_count s w.old all writer.old left →
        HasStopped W.write_takes W.failure_count s w.new all f.written) }
    ensures failures { OnOk result (W.failure_count w.new ≡ W.failure_count w.old) }
{
    writer.make_room(w)?;
    writer.push_u64(cell.row);
    writer.push_u64(cell.col);
    writer.push_u64(cell.count);
    Ok(())
}

/// Appends the cells of a matrix, behind their number.
fn write_matrix<W: Sink>(writer: &mut ByteWriter, w: &mut W, m: &Hyper) -> Result<(), WriteFault>
    requires failures { W.failure_count w.old + 1 < 2 ^ 64 }
    requires countable { writer.old.taken + length writer.old.pending < 2 ^ 125 }
    ensures count { OnOk result (writer.new.taken + length writer.new.pending ≤ writer.old.taken +
        length writer.old.pending + 2 ^ 69) }
    ensures ok { OnOk result ((s : W) (all left : List ℕ) →
        IsWriting W.write_takes W.failure_count s w.old all writer.old (matrix_bytes m.now.counts ++ left) →
        IsWriting W.write_takes W.failure_count s w.new all writer.new left) }
    ensures err { IfErr result (λ f. (s : W) (all left : List ℕ) →
        IsWriting W.write_takes W.failure_count s w.old all writer.old (matrix_bytes m.now.counts ++ left) →
        HasStopped W.write_takes W.failure_count s w.new all f.written) }
    ensures failures { OnOk result (W.failure_count w.new ≡ W.failure_count w.old) }
{
    writer.make_room(w)?;
    writer.push_u64(m.entries());
    for cell in m.iter() {
        write_cell(writer, w, cell)?;
    }
    Ok(())
}

/// Appends the cells of a matrix that is cut in pieces, in order, behind their number.
fn write_pieces<W: Sink>(writer: &mut ByteWriter, w: &mut W, m: &Pieces) -> Result<(), WriteFault>
    requires failures { W.failure_count w.old + 1 < 2 ^ 64 }
    requires countable { writer.old.taken + length writer.old.pending < 2 ^ 125 }
    ensures count { OnOk result (writer.new.taken + length writer.new.pending ≤ writer.old.taken +
        length writer.old.pending + 2 ^ 69) }
    ensures ok { OnOk result ((s : W) (all left : List ℕ) →
        IsWriting W.write_takes W.failure_count s w.old all writer.old (matrix_bytes m.now.whole.counts ++ left) →
        IsWriting W.write_takes W.failure_count s w.new all writer.new left) }
    ensures err { IfErr result (λ f. (s : W) (all left : List ℕ) →
        IsWriting W.write_takes W.failure_count s w.old all writer.old (matrix_bytes m.now.whole.counts ++ left) →
        HasStopped W.write_takes W.failure_count s w.new all f.written) }
    ensures failures { OnOk result (W.failure_count w.new ≡ W.failure_count w.old) }
{
    writer.make_room(w)?;
    writer.push_u64(m.entries());
    for cell in m.cells() {
        write_cell(writer, w, cell)?;
    }
    Ok(())
}

/// Appends a batch.
fn write_batch<W: Sink>(writer: &mut ByteWriter, w: &mut W, batch: &Batch) -> Result<(), WriteFault>
    requires failures { W.failure_count w.old + 1 < 2 ^ 64 }
    requires countable { writer.old.taken + length writer.old.pending < 2 ^ 124 }
    ensures count { OnOk result (writer.new.taken + length writer.new.pending ≤ writer.old.taken +
        length writer.old.pending + 2 ^ 70) }
    ensures ok { OnOk result ((s : W) (all left : List ℕ) →
        IsWriting W.write_takes W.failure_count s w.old all writer.old (batch_bytes batch.now ++ left) →
        IsWriting W.write_takes W.failure_count s w.new all writer.new left) }
    ensures err { IfErr result (λ f. (s : W) (all left : List ℕ) →
        IsWriting W.write_takes W.failure_count s w.old all writer.old (batch_bytes batch.now ++ left) →
        HasStopped W.write_takes W.failure_count s w.new all f.written) }
    ensures failures { OnOk result (W.failure_count w.new ≡ W.failure_count w.old) }
{
    writer.make_room(w)?;
    writer.push_u64(batch.client);
    writer.push_u64(batch.number);
    write_matrix(writer, w, &batch.matrix)?;
    Ok(())
}

/// Appends a batch and its checksum.
fn write_checked_batch<W: Sink>(
    writer: &mut ByteWriter,
    w: &mut W,
    batch: &Batch,
) -> Result<(), WriteFault>
    requires failures { W.failure_count w.old + 1 < 2 ^ 64 }
    requires countable { writer.old.taken + length writer.old.pending < 2 ^ 124 }
    ensures count { OnOk result (writer.new.taken + length writer.new.pending ≤ writer.old.taken +
        length writer.old.pending + 2 ^ 71) }
    ensures ok { OnOk result ((s : W) (all front left : List ℕ) →
        all ≡ front ++ (checked_bytes version front (batch_bytes batch.now) ++ left) →
        IsWriting W.write_takes W.failure_count s w.old all writer.old
        (checked_bytes version front (batch_bytes batch.now) ++ left) →
        IsWriting W.write_takes W.failure_count s w.new all writer.new left) }
    ensures err { IfErr result (λ f. (s : W) (all front left : List ℕ) →
        IsWriting W.write_takes W.failure_count s w.old all writer.old
        (checked_bytes version front (batch_bytes batch.now) ++ left) →
        HasStopped W.write_takes W.failure_count s w.new all f.written) }
    ensures failures { OnOk result (W.failure_count w.new ≡ W.failure_count w.old) }
{
    write_batch(writer, w, batch)?;
    write_check(writer, w)?;
    Ok(())
}

/// Appends the entry of a folded batch.
fn write_entry<W: Sink>(writer: &mut ByteWriter, w: &mut W, entry: Entry) -> Result<(), WriteFault>
    requires failures { W.failure_count w.old + 1 < 2 ^ 64 }
    requires countable { writer.old.taken + length writer.old.pending < 2 ^ 126 }
    ensures count { OnOk result (writer.new.taken + length writer.new.pending ≡
        writer.old.taken + length writer.old.pending + 32) }
    ensures ok { OnOk result ((s : W) (all left : List ℕ) →
        IsWriting W.write_takes W.failure_count s w.old all writer.old (entry_bytes entry ++ left) →
        IsWriting W.write_takes W.failure_count s w.new all writer.new left) }
    ensures err { IfErr result (λ f. (s : W) (all left : List ℕ) →
        IsWriting W.write_takes W.failure_count s w.old all writer.old left →
        HasStopped W.write_takes W.failure_count s w.new all f.written) }
    ensures failures { OnOk result (W.failure_count w.new ≡ W.failure_count w.old) }
{
    writer.make_room(w)?;
    writer.push_u64(entry.client);
    writer.push_u64(entry.number);
    writer.push_u64(entry.cells);
    writer.push_u64(entry.total);
    Ok(())
}

/// Appends the entries of the folded batches.
fn write_folded<W: Sink>(
    writer: &mut ByteWriter,
    w: &mut W,
    folded: &[Entry],
) -> Result<(), WriteFault>
    requires failures { W.failure_count w.old + 1 < 2 ^ 64 }
    requires countable { writer.old.taken + length writer.old.pending < 2 ^ 120 }
    requires few { length folded.now ≤ 2 ^ 64 }
    ensures count { OnOk result (writer.new.taken + length writer.new.pending ≤ writer.old.taken +
        length writer.old.pending + 2 ^ 70) }
    ensures ok { OnOk result ((s : W) (all left : List ℕ) →
        IsWriting W.write_takes W.failure_count s w.old all writer.old (flat_map entry_bytes folded.now ++ left) →
        IsWriting W.write_takes W.failure_count s w.new all writer.new left) }
    ensures err { IfErr result (λ f. (s : W) (all left : List ℕ) →
        IsWriting W.write_takes W.failure_count s w.old all writer.old (flat_map entry_bytes folded.now ++ left) →
        HasStopped W.write_takes W.failure_count s w.new all f.written) }
    ensures failures { OnOk result (W.failure_count w.new ≡ W.failure_count w.old) }
{
    for entry in folded {
        write_entry(writer, w, *entry)?;
    }
    Ok(())
}

/// Appends what is folded: the entries of the batches behind their number, and their sum.
fn write_past<W: Sink>(
    writer: &mut ByteWriter,
    w: &mut W,
    base: &Pieces,
    folded: &[Entry],
) -> Result<(), WriteFault>
    requires failures { W.failure_count w.old + 1 < 2 ^ 64 }
    requires countable { writer.old.taken + length writer.old.pending < 2 ^ 100 }
    requires few { length folded.now ≤ 2 ^ 64 }
    ensures count { OnOk result (writer.new.taken + length writer.new.pending ≤ writer.old.taken +
        length writer.old.pending + 2 ^ 72) }
    ensures ok { OnOk result ((s : W) (all left : List ℕ) →
        IsWriting W.write_takes W.failure_count s w.old all writer.old
        (past_bytes base.now.whole.counts folded.now ++ left) →
        IsWriting W.write_takes W.failure_count s w.new all writer.new left) }
    ensures err { IfErr result (λ f. (s : W) (all left : List ℕ) →
        IsWriting W.write_takes W.failure_count s w.old all writer.old
        (past_bytes base.now.whole.counts folded.now ++ left) →
        HasStopped W.write_takes W.failure_count s w.new all f.written) }
    ensures failures { OnOk result (W.failure_count w.new ≡ W.failure_count w.old) }
{
    writer.make_room(w)?;
    writer.push_u64(folded.len() as u64);
    write_folded(writer, w, folded)?;
    write_pieces(writer, w, base)?;
    Ok(())
}

/// Appends what is folded and its checksum.
fn write_checked_past<W: Sink>(
    writer: &mut ByteWriter,
    w: &mut W,
    base: &Pieces,
    folded: &[Entry],
) -> Result<(), WriteFault>
    requires failures { W.failure_count w.old + 1 < 2 ^ 64 }
    requires countable { writer.old.taken + length writer.old.pending < 2 ^ 100 }
    requires few { length folded.now ≤ 2 ^ 64 }
    ensures count { OnOk result (writer.new.taken + length writer.new.pending ≤ writer.old.taken +
        length writer.old.pending + 2 ^ 73) }
    ensures ok { OnOk result ((s : W) (all front left : List ℕ) →
        all ≡ front ++ (checked_bytes version front (past_bytes base.now.whole.counts folded.now) ++ left) →
        IsWriting W.write_takes W.failure_count s w.old all writer.old
        (checked_bytes version front (past_bytes base.now.whole.counts folded.now) ++ left) →
        IsWriting W.write_takes W.failure_count s w.new all writer.new left) }
    ensures err { IfErr result (λ f. (s : W) (all front left : List ℕ) →
        IsWriting W.write_takes W.failure_count s w.old all writer.old
        (checked_bytes version front (past_bytes base.now.whole.counts folded.now) ++ left) →
        HasStopped W.write_takes W.failure_count s w.new all f.written) }
    ensures failures { OnOk result (W.failure_count w.new ≡ W.failure_count w.old) }
{
    write_past(writer, w, base, folded)?;
    write_check(writer, w)?;
    Ok(())
}

/// Writes the file of an origin, a setup and of what was accepted. The folded totals are the base's.
fn write_parts<W: Sink>(
    w: &mut W,
    origin: Origin,
    setup: &Setup,
    base: &Pieces,
    folded: &[Entry],
    batches: &[Arc<Batch>],
) -> Result<(), WriteFault>
    requires failures { W.failure_count w.old + 1 < 2 ^ 64 }
    requires accepted { AreAccepted setup.now (accepted base.now.whole.counts folded.now (values batches.now)) }
    ensures ok { OnOk result (HasTaken W.write_takes W.failure_count w.old w.new
        (file origin setup.now (accepted base.now.whole.counts folded.now (values batches.now)))) }
    ensures err { IfErr result (λ f. HasStopped W.write_takes W.failure_count w.old w.new
        (file origin setup.now (accepted base.now.whole.counts folded.now (values batches.now))) f.written) }
{
    let mut writer = ByteWriter::new();
    // The limit bounds the total.
    let _limit = setup.limit();
    let total = base.total() + total_of(batches);
    push_front(&mut writer, origin, setup, batches.len() as u64, total);
    write_check(&mut writer, w)?;
    write_checked_past(&mut writer, w, base, folded)?;
    for batch in batches {
        write_checked_batch(&mut writer, w, batch)?;
    }
    writer.finish(w)
}

/// Writes the snapshot of an origin, a setup and a list, in version 4.
///
/// The list is one that a book of the setup hands out. At an Err `written` counts from the first byte of the file.
/// Takes time in proportion to the bytes and no memory, copies no cell, and does not flush.
pub fn write_snapshot<W: Sink>(
    w: &mut W,
    origin: Origin,
    setup: &Setup,
    list: &BookList,
) -> Result<(), WriteFault>
    requires failures { W.failure_count w.old + 1 < 2 ^ 64 }
    requires accepted { AreAccepted setup.now (accepted_in list.now) }
    requires based { HasBase setup.now list.now }
    ensures ok { OnOk result (HasTaken W.write_takes W.failure_count w.old w.new
        (file origin setup.now (accepted_in list.now))) }
    ensures err { IfErr result (λ f. HasStopped W.write_takes W.failure_count w.old w.new
        (file origin setup.now (accepted_in list.now)) f.written) }
{
    write_parts(w, origin, setup, &list.base, &list.folded, &list.batches)
}
