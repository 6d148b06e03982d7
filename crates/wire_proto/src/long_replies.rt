//! The replies that tell cells or rows, as frames: as long as what was asked for, and made before the first byte is
//! sent.
ghost use Rattle.std.specs.Prelude.{◌≡◌, ℕ, ◌+◌, ◌*◌, ◌≤◌, ◌++◌, ◌∷◌, [], List, map, flat_map, length, IfOk, OnOk};
ghost use Rattle.hyper_matrix.specs.Cells.{entry_of};
ghost use Rattle.wire_frames.specs.Frames.{number, head_bytes};
ghost use Rattle.wire_proto.specs.Questions.{cells_reply as cells_frame, rows_reply as rows_frame, entry_bytes, row_bytes};
ghost use Rattle.wire_proto.specs.Questions.{more_byte};

use cell_queries::{RangePage, RowTally};
use cells::Cell;
use std::alloc::{AllocError, Global};
use wire_frames::{CELL, HEAD};

/// Appends three numbers of eight bytes.
#[tactic(auto, unfolding(wire_frames::specs::Frames::number))]
fn push_numbers(out: &mut Vec<u8>, first: u64, second: u64, third: u64) -> Result<(), AllocError>
    ensures items { OnOk result (out.new.items ≡ out.old.items ++ (number first ++ number second ++ number third)) }
{
    out.extend_from_slice(&first.to_be_bytes())?;
    out.extend_from_slice(&second.to_be_bytes())?;
    out.extend_from_slice(&third.to_be_bytes())
}

/// A frame's head, behind which there is room for so many bytes.
#[tactic(auto, unfolding(wire_frames::specs::Frames::head_bytes))]
pub fn start(alloc: Global, kind: u8, len: u32) -> Result<Vec<u8>, AllocError>
    ensures { IfOk result (λ out. out.items ≡ head_bytes kind len) }
{
    let mut out = Vec::with_capacity(alloc, HEAD + len as usize)?;
    out.extend_from_slice(&len.to_be_bytes())?;
    out.extend_from_slice(&[kind])?;
    Ok(out)
}

/// Appends whether there are more cells.
fn push_more(out: &mut Vec<u8>, more: bool) -> Result<(), AllocError>
    ensures { OnOk result (out.new.items ≡ out.old.items ++ more_byte more ∷ []) }
{
    let byte: u8 = if more { 1 } else { 0 };
    out.extend_from_slice(&[byte])
}

/// Appends cells.
fn push_cells(out: &mut Vec<u8>, cells: &[Cell]) -> Result<(), AllocError>
    ensures { OnOk result (out.new.items ≡ out.old.items ++ flat_map entry_bytes (map entry_of cells.now)) }
{
    'cells: for cell in cells {
        push_numbers(out, cell.row, cell.col, cell.count)?;
    }
    Ok(())
}

/// Appends rows.
fn push_rows(out: &mut Vec<u8>, rows: &[RowTally]) -> Result<(), AllocError>
    ensures { OnOk result (out.new.items ≡ out.old.items ++ flat_map row_bytes rows.now) }
{
    'rows: for row in rows {
        push_numbers(out, row.row, row.entries, row.total)?;
    }
    Ok(())
}

/// The reply of a page of cells.
pub fn cells_reply(alloc: Global, page: &RangePage) -> Result<Vec<u8>, AllocError>
    requires { length page.now.cells.items ≤ 1000000 }
    ensures { IfOk result (λ out. out.items ≡ cells_frame page.now.more (map entry_of page.now.cells.items)) }
{
    let len = 1 + CELL * page.cells.len();
    let mut out = start(alloc, 0x88, len as u32)?;
    push_more(&mut out, page.more)?;
    push_cells(&mut out, &page.cells)?;
    Ok(out)
}

/// The reply of rows.
pub fn rows_reply(alloc: Global, rows: &[RowTally]) -> Result<Vec<u8>, AllocError>
    requires { length rows.now ≤ 1000000 }
    ensures { IfOk result (λ out. out.items ≡ rows_frame rows.now) }
{
    let len = CELL * rows.len();
    let mut out = start(alloc, 0x89, len as u32)?;
    push_rows(&mut out, rows)?;
    Ok(out)
}
