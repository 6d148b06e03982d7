//! Lines of words and numbers.
ghost use Rattle.std.specs.Prelude.{◌≡◌, ◌+◌, ◌<◌, ◌≤◌, ◌^◌, ◌++◌, length, decimal, OnOk, IfErr};
ghost use Rattle.arrayvec.specs.ArrayString.{array_string_len};
ghost use Rattle.byte_io.specs.Writing.{HasTaken, HasStopped};

use arrayvec::ArrayString;
use byte_io::{Sink, WriteFault, write_all};

// More than the bytes of the longest line: six numbers of at most 20 digits, and 45 more.
pub const LINE_CAPACITY: usize = 192;

/// Appends a word and a number.
pub fn push_number(line: &mut ArrayString<LINE_CAPACITY>, word: &str, n: u64)
    requires room { array_string_len line.old + length word.now + 20 ≤ 192 }
    ensures bytes { line.new.bytes ≡ line.old.bytes ++ (word.now ++ decimal n) }
    ensures short { array_string_len line.new ≤ array_string_len line.old + length word.now + 20 }
{
    let mut digits = itoa::Buffer::new();
    line.push_str(word);
    line.push_str(digits.format(n));
}

/// Writes a line.
pub fn write_line<W: Sink>(w: &mut W, line: &ArrayString<LINE_CAPACITY>) -> Result<(), WriteFault>
    requires { W.failure_count w.old + 1 < 2 ^ 64 }
    ensures ok { OnOk result (HasTaken W.write_takes W.failure_count w.old w.new line.now.bytes) }
    ensures err { IfErr result (λ fault.
        HasStopped W.write_takes W.failure_count w.old w.new line.now.bytes fault.written) }
{
    write_all(w, line.as_str().as_bytes())
}
