//! Lines of three numbers.
ghost use Rattle.std.specs.Prelude.{◌≡◌, ℕ, ◌+◌, ◌<◌, ◌≤◌, ◌^◌, ◌++◌, length, flat_map, List, OnOk, IfErr};
ghost use Rattle.byte_io.specs.Writing.{HasTaken, HasStopped};
ghost use Rattle.mm_text.specs.Canonical.{numbers_line};
ghost use Rattle.snap_query.specs.Queries.{row_line, degree_line};

use byte_io::{Sink, WRITE_CAPACITY, WriteBuffer, WriteFault};
use cell_queries::{Degree, RowTally};

// The bytes of the longest line: three numbers of at most 20 digits, two spaces and LF.
const LONGEST_LINE: usize = 63;

/// What is told in a line of three numbers.
pub trait Line {
    ghost line: { Self → List ℕ };

    fn numbers(&self) -> (u64, u64, u64)
        ensures { numbers_line result.0 result.1 result.2 ≡ line self.now };
}

impl Line for RowTally {
    ghost line = { row_line };

    fn numbers(&self) -> (u64, u64, u64) {
        (self.row, self.entries, self.total)
    }
}

impl Line for Degree {
    ghost line = { degree_line };

    fn numbers(&self) -> (u64, u64, u64) {
        (self.first, self.last, self.rows)
    }
}

// Appends a line of three numbers.
fn push_line(buffer: &mut WriteBuffer, numbers: (u64, u64, u64))
    requires { length buffer.old.pending + LONGEST_LINE ≤ WRITE_CAPACITY }
    ensures taken { buffer.new.taken ≡ buffer.old.taken }
    ensures bytes { buffer.new.pending ≡ buffer.old.pending ++ numbers_line numbers.0 numbers.1 numbers.2 }
    ensures short { length buffer.new.pending ≤ length buffer.old.pending + LONGEST_LINE }
{
    let (first, second, third) = numbers;
    let mut digits = itoa::Buffer::new();
    buffer.push(digits.format(first).as_bytes());
    buffer.push(b" ");
    buffer.push(digits.format(second).as_bytes());
    buffer.push(b" ");
    buffer.push(digits.format(third).as_bytes());
    buffer.push(b"\n");
}

/// Writes a line for each of these.
///
/// At an Err `written` counts from the first byte of the first line. It takes no memory, and does not flush.
pub fn write_lines<T: Line, W: Sink>(w: &mut W, told: &[T]) -> Result<(), WriteFault>
    requires { W.failure_count w.old + 1 < 2 ^ 64 }
    ensures ok { OnOk result (HasTaken W.write_takes W.failure_count w.old w.new (flat_map T.line told.now)) }
    ensures err { IfErr result (λ fault.
        HasStopped W.write_takes W.failure_count w.old w.new (flat_map T.line told.now) fault.written) }
{
    let mut buffer = WriteBuffer::new();
    'lines: for line in told {
        buffer.make_room(w, LONGEST_LINE)?;
        push_line(&mut buffer, line.numbers());
    }
    buffer.flush(w)
}
