//! What the lines so far mean, and what the next line adds.
ghost use Rattle.std.specs.Prelude.{◌≡◌, ℕ, ◌+◌, ◌<◌, ◌≤◌, ◌++◌, OnOk, OnErr, length, vec_capacity};
ghost use Rattle.mm_text.specs.Judging.{cells_of};
ghost use Rattle.mm_text.specs.Stages.{step};

use crate::fault::MmKind;
use crate::judging::{judge_banner, judge_entry, judge_size};
use crate::limits::TextLimits;
use crate::size::Size;
use cells::Cell;
use std::alloc::AllocError;

/// Which line comes next, and what the lines before it declared.
#[derive(Clone, Copy, Debug, PartialEq, Eq)]
pub enum Stage {
    AtBanner,
    AtSize {
        symmetric: bool,
    },
    AtEntries {
        symmetric: bool,
        size: Size,
        seen: u64,
    },
}

/// What a line that counts makes of the stage, with the entry that it is, if it is one.
pub fn next_stage(
    limits: TextLimits,
    stage: Stage,
    content: &[u8],
) -> Result<(Stage, Option<Cell>), MmKind>
    ensures { result ≡ step limits stage content.now }
{
    match stage {
        Stage::AtBanner => {
            let symmetric = judge_banner(content)?;
            Ok((Stage::AtSize { symmetric }, None))
        }
        Stage::AtSize { symmetric } => {
            let size = judge_size(symmetric, limits.max_entries, content)?;
            Ok((
                Stage::AtEntries {
                    symmetric,
                    size,
                    seen: 0,
                },
                None,
            ))
        }
        Stage::AtEntries {
            symmetric,
            size,
            seen,
        } => {
            if seen >= size.entries {
                return Err(MmKind::ExtraText);
            }
            let cell = judge_entry(size.rows, size.cols, content)?;
            let seen = seen + 1;
            Ok((
                Stage::AtEntries {
                    symmetric,
                    size,
                    seen,
                },
                Some(cell),
            ))
        }
    }
}

/// Adds the cells that an entry stands for, all of them or none.
///
/// Inlined, since nearly each line has one cell to push.
#[inline(always)]
pub fn push_cells(cells: &mut Vec<Cell>, symmetric: bool, cell: Cell) -> Result<(), AllocError>
    ensures ok { OnOk result (cells.new.items ≡ cells.old.items ++ cells_of symmetric cell) }
    ensures err { OnErr result (cells.new.items ≡ cells.old.items) }
    ensures lacks { OnErr result (vec_capacity cells.old < length cells.old.items + 2) }
    ensures grows { vec_capacity cells.old ≤ vec_capacity cells.new }
{
    if symmetric && cell.row != cell.col {
        let mirrored = Cell {
            row: cell.col,
            col: cell.row,
            count: cell.count,
        };
        return cells.extend_from_slice(&[cell, mirrored]);
    }
    cells.push(cell)?;
    Ok(())
}
