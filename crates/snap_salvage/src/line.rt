//! The line of what was salvaged.
ghost use Rattle.std.specs.Prelude.{◌≡◌, ◌+◌, ◌≤◌, ◌++◌, length, decimal};
ghost use Rattle.arrayvec.specs.ArrayString.{array_string_len};
ghost use Rattle.snap_salvage.specs.Lines.{end_text, kind_name, left_text, salvage_line};

use crate::left::Left;
use crate::salvage_end::SalvageEnd;
use arrayvec::ArrayString;
use log_blocks::LogKind;

/// More than the bytes of the longest line: six numbers of at most 20 digits, and 70 more.
pub(crate) const LINE_CAPACITY: usize = 320;

// Appends a word and a number.
fn push_number(line: &mut ArrayString<LINE_CAPACITY>, word: &str, n: u64)
    requires room { array_string_len line.old + length word.now + 20 ≤ 320 }
    ensures bytes { line.new.bytes ≡ line.old.bytes ++ (word.now ++ decimal n) }
    ensures short { array_string_len line.new ≤ array_string_len line.old + length word.now + 20 }
{
    let mut digits = itoa::Buffer::new();
    line.push_str(word);
    line.push_str(digits.format(n));
}

// The name of a fault.
fn name_of(kind: LogKind) -> &'static str
    ensures name { result.now ≡ kind_name kind }
    ensures short { length result.now ≤ 10 }
{
    match kind {
        LogKind::Read => "Read",
        LogKind::Memory => "Memory",
        LogKind::Truncated => "Truncated",
        LogKind::BadMark => "BadMark",
        LogKind::BadVersion => "BadVersion",
        LogKind::BadHead => "BadHead",
        LogKind::HeadCheck => "HeadCheck",
        LogKind::Damaged => "Damaged",
        LogKind::BadBlock => "BadBlock",
        LogKind::TooLong => "TooLong",
    }
}

// Appends what is left out.
fn push_left(line: &mut ArrayString<LINE_CAPACITY>, left: &Left)
    requires room { array_string_len line.old ≤ 160 }
    ensures bytes { line.new.bytes ≡ line.old.bytes ++ left_text left.now }
    ensures short { array_string_len line.new ≤ array_string_len line.old + 90 }
{
    push_number(line, " pages ", left.pages);
    push_number(line, " whole ", left.whole);
    push_number(line, " batches ", left.batches);
}

// Appends what ends the batches.
fn push_end(line: &mut ArrayString<LINE_CAPACITY>, end: SalvageEnd, left: &Left)
    requires room { array_string_len line.old ≤ 80 }
    ensures bytes { line.new.bytes ≡ line.old.bytes ++ end_text end left.now }
    ensures short { array_string_len line.new ≤ 260 }
{
    match end {
        SalvageEnd::Whole => line.push_str("the end"),
        SalvageEnd::Fault(fault) => {
            line.push_str(name_of(fault.kind));
            push_number(line, " at page ", fault.page);
            push_left(line, left);
        }
        SalvageEnd::Gap(first) => {
            push_number(line, "Gap at batch ", first);
            push_left(line, left);
        }
    }
}

/// The line of so many batches with this total.
pub(crate) fn line_of(
    batches: u64,
    total: u64,
    end: SalvageEnd,
    left: &Left,
) -> ArrayString<LINE_CAPACITY>
    ensures { result.bytes ≡ salvage_line batches total end left.now }
{
    let mut line = ArrayString::new();
    push_number(&mut line, "salvaged ", batches);
    push_number(&mut line, " total ", total);
    line.push_str(" until ");
    push_end(&mut line, end, left);
    line.push_str("\n");
    line
}
