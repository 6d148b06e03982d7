//! The text of labels: a line for each.

ghost use Rattle.std.specs.Prelude.{◌≡◌, ◌+◌, ◌<◌, ◌≤◌, ◌^◌, ◌++◌, length, OnOk, IfErr};
ghost use Rattle.byte_io.specs.Writing.{HasTaken, HasStopped};
ghost use Rattle.snap_export.specs.Labels.{label_line, label_lines};

use byte_io::{Sink, WRITE_CAPACITY, WriteBuffer, WriteFault};

// The bytes of the longest line: a number of at most 20 digits, and LF.
const LONGEST_LINE: usize = 21;

// Appends the line of a label.
fn push_line(buffer: &mut WriteBuffer, label: u64)
    requires { length buffer.old.pending + LONGEST_LINE ≤ WRITE_CAPACITY }
    ensures taken { buffer.new.taken ≡ buffer.old.taken }
    ensures bytes { buffer.new.pending ≡ buffer.old.pending ++ label_line label }
    ensures short { length buffer.new.pending ≤ length buffer.old.pending + LONGEST_LINE }
{
    let mut digits = itoa::Buffer::new();
    buffer.push(digits.format(label).as_bytes());
    buffer.push(b"\n");
}

/// Writes a line for each label: its decimal digits.
///
/// At an Err `written` counts from the first byte of the first line. It takes no memory, and does not flush.
pub fn write_labels<W: Sink>(w: &mut W, labels: &[u64]) -> Result<(), WriteFault>
    requires { W.failure_count w.old + 1 < 2 ^ 64 }
    ensures ok { OnOk result (HasTaken W.write_takes W.failure_count w.old w.new (label_lines labels.now)) }
    ensures err { IfErr result (λ fault.
        HasStopped W.write_takes W.failure_count w.old w.new (label_lines labels.now) fault.written) }
{
    let mut buffer = WriteBuffer::new();
    'labels: for label in labels {
        buffer.make_room(w, LONGEST_LINE)?;
        push_line(&mut buffer, *label);
    }
    buffer.flush(w)
}
