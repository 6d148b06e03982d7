//! Reads the cells of a PutCells.
ghost use Rattle.std.specs.Prelude.{◌≡◌, ℕ, ◌+◌, ◌≤◌, length, IfOk};
ghost use Rattle.wire_proto.specs.CellBytes.{cell_at, cells_of};
ghost use Rattle.wire_frames.specs.Frames.{number_at};
ghost use Rattle.wire_proto.specs.PutTexts.{CellsLead};

use crate::texts::BodyRefusal;
use batch_store::{Batch, CellsFault, MAX_CELLS, Setup};
use bytes::Bytes;
use cells::Cell;
use std::alloc::{AllocError, Global};
use std::sync::Arc;
use wire_frames::CELL;

/// The number at a place.
#[tactic(auto, unfolding(wire_frames::specs::Frames::number_at))]
fn number_in(bytes: &[u8], place: usize) -> u64
    requires { place + 8 ≤ length bytes.now }
    ensures { result ≡ number_at place bytes.now }
{
    match bytes[place..place + 8].first_chunk::<8>() {
        Some(number) => u64::from_be_bytes(*number),
        None => unreachable!(),
    }
}

/// The cell at a place.
fn cell_in(bytes: &[u8], place: usize) -> Cell
    requires { place + 24 ≤ length bytes.now }
    ensures { result ≡ cell_at place bytes.now }
{
    Cell {
        row: number_in(bytes, place),
        col: number_in(bytes, place + 8),
        count: number_in(bytes, place + 16),
    }
}

/// The cells of a body, in one pass over it.
fn cells_in(alloc: Global, bytes: &[u8]) -> Result<Vec<Cell>, AllocError>
    ensures { IfOk result (λ list. list.items ≡ cells_of bytes.now) }
{
    let count = bytes.len() / CELL;
    let mut list = Vec::with_capacity(alloc, count)?;
    for i in 0..count {
        list.push(cell_in(bytes, CELL * i))?;
    }
    Ok(list)
}

/// The batch of the cells of a PutCells, or the first refusal.
///
/// The cells are read where they lie, into one list of their own, and then the body is given back. The list is sorted
/// in its own memory. A body of too many is refused before anything is read of it.
pub fn batch_of_cells(
    alloc: Global,
    setup: &Setup,
    client: u64,
    number: u64,
    body: Bytes,
) -> Result<Arc<Batch>, BodyRefusal>
    ensures { CellsLead setup.now client number body result }
{
    if body.len() / CELL > MAX_CELLS {
        return Err(BodyRefusal::Refused {
            code: 23,
            detail: 0,
        });
    }
    let cells = match cells_in(alloc, body.as_slice()) {
        Ok(cells) => cells,
        Err(_) => return Err(BodyRefusal::Memory),
    };
    drop(body);
    match Batch::from_cell_list(alloc, setup, client, number, cells) {
        Ok(batch) => Ok(batch),
        Err(CellsFault::Memory) => Err(BodyRefusal::Memory),
        Err(CellsFault::TooManyCells) => Err(BodyRefusal::Refused {
            code: 23,
            detail: 0,
        }),
        Err(CellsFault::IndexOutOfRange { at }) => Err(BodyRefusal::Refused {
            code: 22,
            detail: at,
        }),
        Err(CellsFault::SumTooLarge) => Err(BodyRefusal::Refused {
            code: 21,
            detail: 0,
        }),
    }
}
