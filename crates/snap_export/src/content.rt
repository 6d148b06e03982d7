//! What the files of a compact matrix hold.
ghost use Rattle.std.specs.Prelude.{◌≡◌, ℕ, ◌+◌, ◌<◌, ◌^◌, List, OnOk, IfErr, ⊤};
ghost use Rattle.byte_io.specs.Writing.{HasTaken, HasStopped};
ghost use Rattle.cells.specs.Bounds.{IsDimension, AreWithin};
ghost use Rattle.mm_text.specs.Canonical.{canonical};
ghost use Rattle.snap_export.specs.Labels.{label_lines};

use crate::label_lines::write_labels;
use byte_io::{Sink, WriteFault};
use cells::Cell;
use mm_text::write_matrix;

/// What a file is to hold.
pub trait Content {
    // Its bytes.
    ghost text: { Self → List ℕ };

    // What it must keep to be written.
    ghost sound: { Self → Type 0 };

    /// Writes it. At an Err `written` counts from its first byte.
    fn write_to<W: Sink>(&self, w: &mut W) -> Result<(), WriteFault>
        requires failures { W.failure_count w.old + 1 < 2 ^ 64 }
        requires sound { sound self.now }
        ensures ok { OnOk result (HasTaken W.write_takes W.failure_count w.old w.new (text self.now)) }
        ensures err { IfErr result (λ fault.
            HasStopped W.write_takes W.failure_count w.old w.new (text self.now) fault.written) };
}

/// A line for each label.
#[derive(Clone, Copy)]
pub struct LabelLines<'a> {
    pub labels: &'a [u64],
}

impl<'a> Content for LabelLines<'a> {
    ghost text = { λ s. label_lines s.labels.now };

    ghost sound = { λ s. ⊤ };

    fn write_to<W: Sink>(&self, w: &mut W) -> Result<(), WriteFault> {
        write_labels(w, self.labels)
    }
}

/// The canonical text of cells in these dimensions, within which they lie.
#[derive(Clone, Copy)]
pub struct CellText<'a> {
    pub rows: u64,
    pub cols: u64,
    pub cells: &'a [Cell],
}

impl<'a> Content for CellText<'a> {
    ghost text = { λ s. canonical s.rows s.cols s.cells.now };

    ghost sound = { λ s. IsDimension s.rows × IsDimension s.cols × AreWithin s.rows s.cols s.cells.now };

    fn write_to<W: Sink>(&self, w: &mut W) -> Result<(), WriteFault> {
        write_matrix(w, self.rows, self.cols, self.cells)
    }
}
