//! Texts that are written, each beside the text written by hand.
ghost use Rattle.std.specs.Prelude.{◌≡◌, ℕ, ◌+◌, ◌<◌, ◌≤◌, ◌^◌, length, vec_len, IsTrue};
ghost use Rattle.cells.specs.Bounds.{AreWithin, IsDimension};

use crate::texts::cases::{GENERAL, joined};
use byte_io::{Counted, Script, WriteFault};
use cells::Cell;
use mm_text::{TextWriter, write_matrix};
use std::alloc::Global;
use std::process::Abort;
use test_support::same_at;

const LARGEST: u64 = 1_152_921_504_606_846_976;

fn are_within(rows: u64, cols: u64, cells: &[Cell]) -> bool
    ensures { IsTrue result → AreWithin rows cols cells.now }
{
    cells.iter().all(|cell| cell.row < rows && cell.col < cols)
}

fn cell(row: u64, col: u64, count: u64) -> Cell {
    Cell { row, col, count }
}

// Whether there are such matrices.
fn is_matrix(rows: u64, cols: u64, cells: &[Cell]) -> bool
    ensures rows { IsTrue result → IsDimension rows }
    ensures cols { IsTrue result → IsDimension cols }
    ensures within { IsTrue result → AreWithin rows cols cells.now }
{
    1 <= rows && rows <= LARGEST && 1 <= cols && cols <= LARGEST && are_within(rows, cols, cells)
}

/// Rows, columns and cells, and the text after the banner.
type Row = (u64, u64, &'static [Cell], &'static str);

static ROWS: &[Row] = &[
    (3, 3, &[], "3 3 0\n"),
    (
        3,
        3,
        &[
            Cell {
                row: 2,
                col: 1,
                count: 7,
            },
            Cell {
                row: 0,
                col: 0,
                count: 1,
            },
            Cell {
                row: 1,
                col: 2,
                count: 0,
            },
            Cell {
                row: 0,
                col: 0,
                count: u64::MAX,
            },
        ],
        "3 3 4\n3 2 7\n1 1 1\n2 3 0\n1 1 18446744073709551615\n",
    ),
    (
        LARGEST,
        LARGEST,
        &[Cell {
            row: LARGEST - 1,
            col: LARGEST - 1,
            count: 10,
        }],
        "1152921504606846976 1152921504606846976 1\n1152921504606846976 1152921504606846976 10\n",
    ),
];

// Writes a matrix into a sink that takes so many bytes: how it ends, and whether the sink has the front of the text.
fn written(
    rt: &impl Abort,
    alloc: Global,
    row: &Row,
    room: usize,
) -> (Result<(), WriteFault>, bool) {
    assert!(rt; is_matrix(row.0, row.1, row.2));
    let text = joined(rt, alloc, GENERAL, &[(row.3, 1)]);
    let mut script = Script::new(alloc, Vec::new(alloc), None, Some(room as u64));
    let outcome = write_matrix(&mut script, row.0, row.1, row.2);
    let is_front = script.written() == &text[..room.min(text.len())];
    drop(script);
    drop(text);
    (outcome, is_front)
}

#[test]
fn matrices_are_written(rt: HostRuntime) {
    for row in ROWS {
        let found = written(&rt, rt.alloc(), row, 1_000);
        assert!(rt; same_at(&rt, &row.3, &found, &(Ok(()), true)));
    }
}

// The first text has 55 bytes.
#[test]
fn a_sink_fails_after_each_byte(rt: HostRuntime) {
    for room in 0..55usize {
        let fault = WriteFault {
            written: room as u128,
        };
        let found = written(&rt, rt.alloc(), &ROWS[0], room);
        assert!(rt; same_at(&rt, &room, &found, &(Err(fault), true)));
    }
}

/// Writes three cells in two blocks, of which one is empty, and one by one.
fn write_blocks(rt: &impl Abort, counted: &mut Counted<Vec<u8>>)
    requires { counted.old.failures + 1 < 2 ^ 64 }
{
    let mut writer = TextWriter::new(2, 2, 3);
    let block = [cell(0, 0, 1), cell(0, 1, 2)];
    assert!(rt; are_within(2, 2, &block));
    writer.write_cells(counted, &block).expect(rt, "written");
    writer.write_cells(counted, &[]).expect(rt, "written");
    let last = Cell {
        row: 1,
        col: 1,
        count: 3,
    };
    writer.write_cell(counted, last).expect(rt, "written");
    writer.finish(counted).expect(rt, "written");
}

#[test]
fn blocks_of_cells(rt: HostRuntime) {
    let mut counted = Counted::new(Vec::new(rt.alloc()));
    write_blocks(&rt, &mut counted);
    let want = "%%MatrixMarket matrix coordinate integer general\n2 2 3\n1 1 1\n1 2 2\n2 2 3\n";
    let text = counted.into_inner();
    let is_wanted = text.as_slice() == want.as_bytes();
    drop(text);
    assert!(rt; is_wanted);
}
